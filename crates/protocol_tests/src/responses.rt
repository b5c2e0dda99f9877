//! Responses: bodies by hand.

use crate::rows::{each_line, is_fault, is_shown, word};
use frame_bodies::{BodyError, Response, decode_response, encode_response};
use std::alloc::{AllocError, Global};
use std::test::Fail;

/// An opcode, a body, and what it is.
const BODIES: &str = "02  Ready
06 0002000b43514c5f56455253494f4e00010005332e342e30000b434f4d5052455353494f4e0000 Supported(Items { items: [SupportedOption { name: \"CQL_VERSION\", values: Items { items: [\"3.4.0\"] } }, SupportedOption { name: \"COMPRESSION\", values: Items { items: [] } }] })
08 00000001 Void
08 0000000300026b73 SetKeyspace(\"ks\")
08 0000000400256b7300494e5345525420494e544f207420286b2c2076292056414c55455320283f2c203f29000000010000000200000001000000026b7300017400016b0009000176000d0000000400000000 Prepared(Prepared { id: [107, 115, 0, 73, 78, 83, 69, 82, 84, 32, 73, 78, 84, 79, 32, 116, 32, 40, 107, 44, 32, 118, 41, 32, 86, 65, 76, 85, 69, 83, 32, 40, 63, 44, 32, 63, 41], variables: VariablesMetadata { variables: TableColumns { keyspace: \"ks\", table: \"t\", columns: Items { items: [Column { name: \"k\", ty: Int }, Column { name: \"v\", ty: Text }] } }, key_indexes: Items { items: [0] } }, result: RowsMetadata { columns: Counted(0), paging_state: None } })
08 00000002000000010000000100026b73000174000176000d000000010000000178 Rows(Rows { metadata: RowsMetadata { columns: Described(TableColumns { keyspace: \"ks\", table: \"t\", columns: Items { items: [Column { name: \"v\", ty: Text }] } }), paging_state: None }, row_count: 1, cells: Items { items: [Some([120])] } })
08 000000020000000300000002000000020180000161000162000163000100016400140000000200000000ffffffff0000000105ffffffff Rows(Rows { metadata: RowsMetadata { columns: Described(TableColumns { keyspace: \"a\", table: \"b\", columns: Items { items: [Column { name: \"c\", ty: Ascii }, Column { name: \"d\", ty: Tinyint }] } }), paging_state: Some(Some([1, 128])) }, row_count: 2, cells: Items { items: [Some([]), None, Some([5]), None] } })
08 0000000200000004000000010000000100000000 Rows(Rows { metadata: RowsMetadata { columns: Counted(1), paging_state: None }, row_count: 1, cells: Items { items: [Some([])] } })
08 000000020000000600000000ffffffff7fffffff Rows(Rows { metadata: RowsMetadata { columns: Counted(0), paging_state: Some(None) }, row_count: 2147483647, cells: Items { items: [] } })
00 0000000000096e6f206d656d6f7279 Error(ErrorResponse { cause: Server, text: \"no memory\" })
00 0000000a00106261642076616c7565206c656e677468 Error(ErrorResponse { cause: Protocol, text: \"bad value length\" })
00 00001001000a6f7665726c6f61646564 Error(ErrorResponse { cause: Overloaded, text: \"overloaded\" })
00 00002000000b73796e7461782061742037 Error(ErrorResponse { cause: Syntax, text: \"syntax at 7\" })
00 00002200000a4b65794d697373696e67 Error(ErrorResponse { cause: Invalid, text: \"KeyMissing\" })
00 00001000000b756e617661696c61626c6500040000000200000001 Error(ErrorResponse { cause: Unavailable(Unavailable { consistency: Level(Quorum), required: 2, alive: 1 }), text: \"unavailable\" })
00 00001100000d77726974652074696d656f757400060000000100000002000653494d504c45 Error(ErrorResponse { cause: WriteTimeout(WriteTimeout { consistency: Level(LocalQuorum), received: 1, block_for: 2, write_type: Simple }), text: \"write timeout\" })
00 00001100000d77726974652074696d656f7574000800000000000000020003434153 Error(ErrorResponse { cause: WriteTimeout(WriteTimeout { consistency: Level(Serial), received: 0, block_for: 2, write_type: Cas }), text: \"write timeout\" })
00 00001200000c726561642074696d656f75740001000000000000000100 Error(ErrorResponse { cause: ReadTimeout(ReadTimeout { consistency: Level(One), received: 0, block_for: 1, data_present: false }), text: \"read timeout\" })
00 00001200000c726561642074696d656f75740005000000010000000301 Error(ErrorResponse { cause: ReadTimeout(ReadTimeout { consistency: Level(All), received: 1, block_for: 3, data_present: true }), text: \"read timeout\" })
00 00002500000a756e70726570617265640001ab Error(ErrorResponse { cause: Unprepared([171]), text: \"unprepared\" })";

/// An opcode, a body, and why it is refused.
const FAULTS: &str = "01  Opcode(1)
03  Opcode(3)
05  Opcode(5)
07  Opcode(7)
0c  Opcode(12)
0e  Opcode(14)
ff  Opcode(255)
02 00 Trailing(1)
06  Short(0)
06 00010001610001 Short(7)
06 00010001ff0000 NotUtf8(4)
06 000000 Trailing(1)
08 00000000 BadValue(0)
08 00000005 BadValue(5)
08 ffffffff BadValue(-1)
08 80000001 BadValue(-2147483647)
08 00000001 taken
08 000000 Short(0)
08 0000000100 Trailing(1)
00 00000001 BadValue(1)
00 0000100a BadValue(4106)
00 fffffff6 BadValue(-10)
00 00000000 Short(4)
00 000010000000 Short(6)
00 000010000000000b0000000000000000 BadConsistency(11)
00 000010000000000100000002 Short(12)
00 0000100000000001000000020000000100 Trailing(1)
00 000011000000000100000000000000010003434154 BadFlag
00 000011000000000100000000000000010000 BadFlag
00 000011000000000100000000000000010001ff NotUtf8(18)
00 00001100000000010000000000000001 Short(16)
00 0000120000000001000000000000000102 BadFlag
00 00001200000000010000000000000001 Short(16)
00 0000250000000001 Short(8)
00 000025000000 Short(6)
00 000020000001ff NotUtf8(6)
00 0000000a000000 Trailing(1)
08 000000030001ff NotUtf8(6)
08 000000030001 Short(6)
08 0000000200000000 BadFlag
08 0000000200000002 BadFlag
08 0000000200000005 BadFlag
08 0000000200000007 BadFlag
08 0000000200000008 BadFlag
08 0000000280000001 BadFlag
08 00000002ffffffff BadFlag
08 0000000200000004 Short(8)
08 0000000200000004fffffffd BadValue(-3)
08 0000000200000004fffffffe BadValue(-2)
08 0000000200000004ffffffff BadValue(-1)
08 000000020000000400000000 Short(12)
08 00000002000000047fffffff Short(12)
08 000000020000000400000001fffffffd BadValue(-3)
08 000000020000000400000001fffffffe BadValue(-2)
08 000000020000000400000001ffffffff BadValue(-1)
08 00000002000000040000000100000000 taken
08 0000000200000004000000017fffffff Short(16)
08 00000002000000040000000100000001 Short(16)
08 00000002000000040000000100000001fffffffd taken
08 00000002000000040000000100000001fffffffe taken
08 00000002000000040000000100000001ffffffff taken
08 0000000200000004000000010000000100000000 taken
08 000000020000000400000001000000017fffffff Short(20)
08 0000000200000004000000010000000100000001 Short(20)
08 000000020000000600000000fffffffd00000000 taken
08 000000020000000600000000ffffffff00000000 taken
08 0000000200000006000000000000000000000000 taken
08 0000000200000006000000007fffffff Short(16)
08 00000002000000017fffffff00000000 Short(16)
08 0000000200000001000000010000000000000005 BadValue(5)
08 0000000200000001000000010000000000000000 BadValue(0)
08 0000000200000001000000010000000000000015 BadValue(21)
08 000000020000000100000001000000000001ff0001 NotUtf8(18)
08 000000020000000100000001000000000000001300000000 taken
08 0000000200000001000000020000000000000001000000000000000100000000 BadValue(0)
08 00000004000000000000 BadFlag
08 00000004000000000002 BadFlag
08 00000004000000000003 BadFlag
08 00000004000000000004 BadFlag
08 000000040000ffffffff BadFlag
08 00000004000000000001 Short(10)
08 00000004000000000001ffffffff BadValue(-1)
08 000000040000000000017fffffff Short(14)
08 0000000400000000000100000000 Short(14)
08 0000000400000000000100000000ffffffff BadValue(-1)
08 00000004000000000001000000007fffffff Short(18)
08 000000040000000000010000000000000000 Short(18)
08 000000040000000000010000000000000000000000000000000400000000 taken
08 00000004000000000001000000000000000000000000000000040000000000 Trailing(1)
08 000000040001 Short(6)";

/// An opcode, and a body of which every beginning is short.
const WHOLE: &str =
    "06 0002000b43514c5f56455253494f4e00010005332e342e30000b434f4d5052455353494f4e0000
08 0000000300026b73
08 0000000400256b7300494e5345525420494e544f207420286b2c2076292056414c55455320283f2c203f29000000010000000200000001000000026b7300017400016b0009000176000d0000000400000000
08 00000002000000010000000100026b73000174000176000d000000010000000178
08 000000020000000300000002000000020180000161000162000163000100016400140000000200000000ffffffff0000000105ffffffff
08 0000000200000004000000010000000100000000
08 000000020000000600000000ffffffff7fffffff
00 00001000000b756e617661696c61626c6500040000000200000001
00 00001100000d77726974652074696d656f757400060000000100000002000653494d504c45
00 00001100000d77726974652074696d656f7574000800000000000000020003434153
00 00001200000c726561642074696d656f75740001000000000000000100
00 00001200000c726561642074696d656f75740005000000010000000301
00 00002500000a756e70726570617265640001ab";

fn opcode(alloc: Global, head: &str) -> Result<u8, Fail> {
    Ok(match hex::decode(alloc, head)?.as_slice() {
        [opcode] => *opcode,
        _ => 0xff,
    })
}

fn is_written(
    alloc: Global,
    response: &Response,
    opcode: u8,
    bytes: &[u8],
) -> Result<bool, AllocError> {
    if response.opcode() != opcode || !response.has_word() {
        return Ok(false);
    }
    Ok(encode_response(alloc, response)?.as_slice() == bytes)
}

fn is_response(
    alloc: Global,
    response: &Response,
    (opcode, bytes): (u8, &[u8]),
    want: &str,
) -> Result<bool, AllocError> {
    Ok(is_shown(alloc, response, want)? && is_written(alloc, response, opcode, bytes)?)
}

fn is_body(alloc: Global, opcode: u8, bytes: &[u8], want: &str) -> Result<bool, Fail> {
    let response = decode_response(alloc, opcode, bytes)?;
    let holds = is_response(alloc, &response, (opcode, bytes), want);
    drop(response);
    Ok(holds?)
}

fn is_decoded_and_written_again(alloc: Global, line: &str) -> Result<bool, Fail> {
    let (head, rest) = word(line);
    let (body, want) = word(rest);
    let opcode = opcode(alloc, head)?;
    let bytes = hex::decode(alloc, body)?;
    is_body(alloc, opcode, bytes.as_slice(), want)
}

#[test]
fn bodies_are_decoded_and_written_again(rt: HostRuntime) -> Result<(), Fail> {
    each_line(&rt, rt.alloc(), BODIES, is_decoded_and_written_again)
}

fn is_answered(alloc: Global, line: &str) -> Result<bool, Fail> {
    let (head, rest) = word(line);
    let (body, want) = word(rest);
    let opcode = opcode(alloc, head)?;
    let bytes = hex::decode(alloc, body)?;
    let fault = decode_response(alloc, opcode, bytes.as_slice()).err();
    Ok(is_fault(alloc, fault, want)?)
}

/// Each refusal at its place, and its neighbour.
#[test]
fn faults_are_found(rt: HostRuntime) -> Result<(), Fail> {
    each_line(&rt, rt.alloc(), FAULTS, is_answered)
}

fn beginnings_of(alloc: Global, opcode: u8, bytes: &[u8]) -> bool {
    for length in 0..bytes.len() {
        let fault = decode_response(alloc, opcode, &bytes[..length]).err();
        if !matches!(fault, Some(BodyError::Short(_))) {
            return false;
        }
    }
    true
}

fn are_short(alloc: Global, line: &str) -> Result<bool, Fail> {
    let (head, body) = word(line);
    let opcode = opcode(alloc, head)?;
    let bytes = hex::decode(alloc, body)?;
    Ok(beginnings_of(alloc, opcode, bytes.as_slice()))
}

#[test]
fn beginnings_are_short(rt: HostRuntime) -> Result<(), Fail> {
    each_line(&rt, rt.alloc(), WHOLE, are_short)
}
