//! Requests of the DataStax Python driver 3.25, in one conversation.

use crate::node::Node;
use crate::rows::push_hex;
use crate::talks::{LENGTHS, cut};
use cs_io::{MemLink, NeverStop, OpenGate};
use frame_bodies::decode_response;
use serve_loop::Served;
use std::alloc::{AllocError, Global};
use std::sync::Wait;
use std::test::Fail;

/// Frames as the driver writes them, and what each is answered.
const DRIVER: &str = "0400000001000000160001000b43514c5f56455253494f4e0005332e342e30 Ready
0400000101000000390003000b4452495645525f4e414d45000178000e4452495645525f56455253494f4e000131000b43514c5f56455253494f4e0005332e342e35 Error(ErrorResponse { cause: Protocol, text: \"startup twice\" })
040000020500000000 Supported(Items { items: [SupportedOption { name: \"CQL_VERSION\", values: Items { items: [\"3.4.0\"] } }, SupportedOption { name: \"COMPRESSION\", values: Items { items: [] } }] })
040000030b000000220002000f544f504f4c4f47595f4348414e4745000d5354415455535f4348414e4745 Ready
040021630a0000004d00117762f0f3cb4d764dc7072051159a0f89f200081100040000000dcae344bb311245fd6f84df9ad700000012b3d076ac0e8f53a7356c88913f20f6f72db0ffffffff000000040a96dad40009 Error(ErrorResponse { cause: Unprepared([119, 98, 240, 243, 203, 77, 118, 77, 199, 7, 32, 81, 21, 154, 15, 137, 242]), text: \"unprepared\" })
04000b800d0000007700000200000000275550444154452074205345542076203d203f205748455245206b203d203f2049462076203d203f0000000000002653454c45435420762046524f4d206b732e74205748455245206b203d203f204c494d495420330002ffffffff000000040000000100063000090006445941624000 Error(ErrorResponse { cause: Invalid, text: \"NotSupported\" })
040056fe0a000000460022c5348adc799adf849bad05d4a10ac0441eaaeeb4b48efa0b1f0abd80e998a35aba5e00062500020000000563c3a9616100000004ffffffff000013884000000000000000 Error(ErrorResponse { cause: Unprepared([197, 52, 138, 220, 121, 154, 223, 132, 155, 173, 5, 212, 161, 10, 192, 68, 30, 170, 238, 180, 180, 142, 250, 11, 31, 10, 189, 128, 233, 152, 163, 90, 186, 94]), text: \"unprepared\" })
040044f5090000002b000000275550444154452074205345542076203d203f205748455245206b203d203f2049462076203d203f Error(ErrorResponse { cause: Invalid, text: \"UnknownTable\" })
04005570090000001f0000001b53454c454354202a2046524f4d2074205748455245206b203d2031 Error(ErrorResponse { cause: Invalid, text: \"UnknownTable\" })
0400737b0a0000003000255d8eae2bb042d7958aedb1d594d6d112d34f6602f4de7110e993ae7422923d7d171165dc19000405000000000001 Error(ErrorResponse { cause: Unprepared([93, 142, 174, 43, 176, 66, 215, 149, 138, 237, 177, 213, 148, 214, 209, 18, 211, 79, 102, 2, 244, 222, 113, 16, 233, 147, 174, 116, 34, 146, 61, 125, 23, 17, 101, 220, 25]), text: \"unprepared\" })
04004cc5090000000a00000006555345206b73 Prepared(Prepared { id: [0, 85, 83, 69, 32, 107, 115], variables: VariablesMetadata { variables: TableColumns { keyspace: \"\", table: \"\", columns: Items { items: [] } }, key_indexes: Items { items: [] } }, result: RowsMetadata { columns: Counted(0), paging_state: None } })
040040a20d00000057000003000000002653454c45435420762046524f4d206b732e74205748455245206b203d203f204c494d49542033000001000803f9cc198a7f89d800000000000006555345206b73000000013000080000000000000011 Error(ErrorResponse { cause: Unprepared([3, 249, 204, 25, 138, 127, 137, 216]), text: \"unprepared\" })
04000bd2070000001e00000006555345206b730001280000000501800000014000000000000000 SetKeyspace(\"ks\")
04007d700a0000002600199bb88761a8db3f4101c2285b15bfebc216dc1bbefea1d7d6eb0003150000000000640008 Error(ErrorResponse { cause: Unprepared([155, 184, 135, 97, 168, 219, 63, 65, 1, 194, 40, 91, 21, 191, 235, 194, 22, 220, 27, 190, 254, 161, 215, 214, 235]), text: \"unprepared\" })
040012530d00000038010002010008c037a33402f24978000200000002c3a9ffffffff01000832c05b0cae3e0d3a0001ffffffff00043000080000000000000011 Error(ErrorResponse { cause: Unprepared([192, 55, 163, 52, 2, 242, 73, 120]), text: \"unprepared\" })
040048d40a0000003b00071fa65c277b5c7f000229000300000008bccbb3d62ac078d3000000040000000100000004cd4c53310000000501800000010000000000000011 Error(ErrorResponse { cause: Unprepared([31, 166, 92, 39, 123, 92, 127]), text: \"unprepared\" })
0400716b090000002b000000275550444154452074205345542076203d203f205748455245206b203d203f2049462076203d203f Prepared(Prepared { id: [107, 115, 0, 85, 80, 68, 65, 84, 69, 32, 116, 32, 83, 69, 84, 32, 118, 32, 61, 32, 63, 32, 87, 72, 69, 82, 69, 32, 107, 32, 61, 32, 63, 32, 73, 70, 32, 118, 32, 61, 32, 63], variables: VariablesMetadata { variables: TableColumns { keyspace: \"ks\", table: \"t\", columns: Items { items: [Column { name: \"v\", ty: Text }, Column { name: \"k\", ty: Int }, Column { name: \"v\", ty: Text }] } }, key_indexes: Items { items: [1] } }, result: RowsMetadata { columns: Counted(0), paging_state: None } })
04003b780a0000003a000289f5000a35000300000004fffffffd0000000463c3a9620000000f69ef0ef625cc17ef7578236f827b610000000100090006445941624000 Error(ErrorResponse { cause: Unprepared([137, 245]), text: \"unprepared\" })
040009690a0000003300062b3c2f879512000325000200000012ac030faba9dfc2f8276bfac840a33d8c27ddffffffff000000010006445941624000 Error(ErrorResponse { cause: Unprepared([43, 60, 47, 135, 149, 18]), text: \"unprepared\" })
0400403c070000003b0000002653454c45435420762046524f4d206b732e74205748455245206b203d203f204c494d495420330009340000006400090006445941624000 Error(ErrorResponse { cause: Invalid, text: \"ValueCount\" })
040043fd070000003c0000002653454c45435420762046524f4d206b732e74205748455245206b203d203f204c494d4954203300061c000013880000000501800000010009 Error(ErrorResponse { cause: Invalid, text: \"ValueCount\" })
04004b5e090000000a00000006555345206b73 Prepared(Prepared { id: [107, 115, 0, 85, 83, 69, 32, 107, 115], variables: VariablesMetadata { variables: TableColumns { keyspace: \"\", table: \"\", columns: Items { items: [] } }, key_indexes: Items { items: [] } }, result: RowsMetadata { columns: Counted(0), paging_state: None } })
040024310a00000044001f9f5a23365cc8b733888ac41b4515f58a7eb5aacee523b4fe394d8a3339395e000a3500010000000c414acb63575b6780bd960fe30000000100090006445941624000 Error(ErrorResponse { cause: Unprepared([159, 90, 35, 54, 92, 200, 183, 51, 136, 138, 196, 27, 69, 21, 245, 138, 126, 181, 170, 206, 229, 35, 180, 254, 57, 77, 138, 51, 57, 57, 94]), text: \"unprepared\" })
040062150a000000460014f70f61013777fb58eb65636c12e339914e45ef2d00093d0004ffffffffffffffff000000043061c3a9ffffffff0000138800000005018000000100090006445941624000 Error(ErrorResponse { cause: Unprepared([247, 15, 97, 1, 55, 119, 251, 88, 235, 101, 99, 108, 18, 227, 57, 145, 78, 69, 239, 45]), text: \"unprepared\" })
04005803090000002a0000002653454c45435420762046524f4d206b732e74205748455245206b203d203f204c494d49542033 Prepared(Prepared { id: [107, 115, 0, 83, 69, 76, 69, 67, 84, 32, 118, 32, 70, 82, 79, 77, 32, 107, 115, 46, 116, 32, 87, 72, 69, 82, 69, 32, 107, 32, 61, 32, 63, 32, 76, 73, 77, 73, 84, 32, 51], variables: VariablesMetadata { variables: TableColumns { keyspace: \"ks\", table: \"t\", columns: Items { items: [Column { name: \"k\", ty: Int }] } }, key_indexes: Items { items: [0] } }, result: RowsMetadata { columns: Described(TableColumns { keyspace: \"ks\", table: \"t\", columns: Items { items: [Column { name: \"v\", ty: Text }] } }), paging_state: None } })
04003480070000001b00000006555345206b730004340000138800080000000000000011 SetKeyspace(\"ks\")
04006891070000003a00000025494e5345525420494e544f207420286b2c2076292056414c5545532028312c2027c3a927290004340000138800090000000000000011 Void
04006c0f090000002900000025494e5345525420494e544f207420286b2c2076292056414c5545532028312c2027c3a92729 Prepared(Prepared { id: [107, 115, 0, 73, 78, 83, 69, 82, 84, 32, 73, 78, 84, 79, 32, 116, 32, 40, 107, 44, 32, 118, 41, 32, 86, 65, 76, 85, 69, 83, 32, 40, 49, 44, 32, 39, 195, 169, 39, 41], variables: VariablesMetadata { variables: TableColumns { keyspace: \"ks\", table: \"t\", columns: Items { items: [] } }, key_indexes: Items { items: [] } }, result: RowsMetadata { columns: Counted(0), paging_state: None } })
0400749307000000440000002653454c45435420762046524f4d206b732e74205748455245206b203d203f204c494d4954203300053c0000138800000005018000000100080006445941624000 Error(ErrorResponse { cause: Invalid, text: \"ValueCount\" })
0400394e070000003c000000275550444154452074205345542076203d203f205748455245206b203d203f2049462076203d203f0004340000000100080006445941624000 Error(ErrorResponse { cause: Invalid, text: \"ValueCount\" })
04003593070000002400000006555345206b7300033c0000000100000005018000000100094000000000000000 SetKeyspace(\"ks\")
04002b110d000000290000020000000006555345206b730001000000011a010008707b30c7f26154aa000100000000000800 Error(ErrorResponse { cause: Unprepared([112, 123, 48, 199, 242, 97, 84, 170]), text: \"unprepared\" })
04001fba07000000300000001b53454c454354202a2046524f4d2074205748455245206b203d20310005340000006400084000000000000000 Rows(Rows { metadata: RowsMetadata { columns: Described(TableColumns { keyspace: \"ks\", table: \"t\", columns: Items { items: [Column { name: \"k\", ty: Int }, Column { name: \"v\", ty: Text }] } }), paging_state: None }, row_count: 1, cells: Items { items: [Some([0, 0, 0, 1]), Some([195, 169])] } })
040007b50a0000004e001c2d01350f2e095712f61b60a966f4aef5b311c39cc92c965ed33ac7ab000619000400000005c5b75eb9d400000007e3f6b08956c6f9ffffffff00000004fffffffd0000000501800000010008 Error(ErrorResponse { cause: Unprepared([45, 1, 53, 15, 46, 9, 87, 18, 246, 27, 96, 169, 102, 244, 174, 245, 179, 17, 195, 156, 201, 44, 150, 94, 211, 58, 199, 171]), text: \"unprepared\" })
04007787070000002000000006555345206b7300023800000005018000000100080000000000000011 SetKeyspace(\"ks\")
0400556e0a0000002900169f38e6296b7b184e49053975936a70d6a360ef5a28150001250000000013880000000000000011 Error(ErrorResponse { cause: Unprepared([159, 56, 230, 41, 107, 123, 24, 78, 73, 5, 57, 117, 147, 106, 112, 214, 163, 96, 239, 90, 40, 21]), text: \"unprepared\" })
040019f5090000001f0000001b53454c454354202a2046524f4d2074205748455245206b203d2031 Prepared(Prepared { id: [107, 115, 0, 83, 69, 76, 69, 67, 84, 32, 42, 32, 70, 82, 79, 77, 32, 116, 32, 87, 72, 69, 82, 69, 32, 107, 32, 61, 32, 49], variables: VariablesMetadata { variables: TableColumns { keyspace: \"ks\", table: \"t\", columns: Items { items: [] } }, key_indexes: Items { items: [] } }, result: RowsMetadata { columns: Described(TableColumns { keyspace: \"ks\", table: \"t\", columns: Items { items: [Column { name: \"k\", ty: Int }, Column { name: \"v\", ty: Text }] } }), paging_state: None } })
04001bdd0d000000600100030000000025494e5345525420494e544f207420286b2c2076292056414c5545532028312c2027c3a927290001000000063b03ed9927ae010008bad8226d7fb31fab00000000000006555345206b73000000063000084000000000000000 Error(ErrorResponse { cause: Unprepared([186, 216, 34, 109, 127, 179, 31, 171]), text: \"unprepared\" })
04002a4f090000001f0000001b53454c454354202a2046524f4d2074205748455245206b203d2031 Prepared(Prepared { id: [107, 115, 0, 83, 69, 76, 69, 67, 84, 32, 42, 32, 70, 82, 79, 77, 32, 116, 32, 87, 72, 69, 82, 69, 32, 107, 32, 61, 32, 49], variables: VariablesMetadata { variables: TableColumns { keyspace: \"ks\", table: \"t\", columns: Items { items: [] } }, key_indexes: Items { items: [] } }, result: RowsMetadata { columns: Described(TableColumns { keyspace: \"ks\", table: \"t\", columns: Items { items: [Column { name: \"k\", ty: Int }, Column { name: \"v\", ty: Text }] } }), paging_state: None } })
040068c60d0000002a010001000000001b53454c454354202a2046524f4d2074205748455245206b203d20310000000a100008 Error(ErrorResponse { cause: Invalid, text: \"NotSupported\" })
04000fb50d0000006f010002000000001b53454c454354202a2046524f4d2074205748455245206b203d203100000000000025494e5345525420494e544f207420286b2c2076292056414c5545532028312c2027c3a9272900020000000361c3a900000008c3a9616262c3a9200001200000000000000011 Error(ErrorResponse { cause: Invalid, text: \"NotSupported\" })
04006e690a0000003f00130fedbfb7987c0507434c0a54190068eeb5b911000835000300000004fffffffeffffffff000000076361303061c3a90000006400080000000000000011 Error(ErrorResponse { cause: Unprepared([15, 237, 191, 183, 152, 124, 5, 7, 67, 76, 10, 84, 25, 0, 104, 238, 181, 185, 17]), text: \"unprepared\" })
04007fa40d00000025010001010008d3ac448f085617080002000000040000000400000004fffffffd0005100008 Error(ErrorResponse { cause: Unprepared([211, 172, 68, 143, 8, 86, 23, 8]), text: \"unprepared\" })
040075c70d000000840100030000000006555345206b730000000000002653454c45435420762046524f4d206b732e74205748455245206b203d203f204c494d4954203300020000000400000003ffffffff000000001b53454c454354202a2046524f4d2074205748455245206b203d203100010000000882e7904fa14713d200093000094000000000000000 Error(ErrorResponse { cause: Invalid, text: \"NotSupported\" })
040045fc07000000330000002653454c45435420762046524f4d206b732e74205748455245206b203d203f204c494d49542033000614000013880009 Error(ErrorResponse { cause: Invalid, text: \"ValueCount\" })
040044840700000034000000275550444154452074205345542076203d203f205748455245206b203d203f2049462076203d203f000a14000000640009 Error(ErrorResponse { cause: Invalid, text: \"ValueCount\" })
040072a5090000002a0000002653454c45435420762046524f4d206b732e74205748455245206b203d203f204c494d49542033 Prepared(Prepared { id: [107, 115, 0, 83, 69, 76, 69, 67, 84, 32, 118, 32, 70, 82, 79, 77, 32, 107, 115, 46, 116, 32, 87, 72, 69, 82, 69, 32, 107, 32, 61, 32, 63, 32, 76, 73, 77, 73, 84, 32, 51], variables: VariablesMetadata { variables: TableColumns { keyspace: \"ks\", table: \"t\", columns: Items { items: [Column { name: \"k\", ty: Int }] } }, key_indexes: Items { items: [0] } }, result: RowsMetadata { columns: Described(TableColumns { keyspace: \"ks\", table: \"t\", columns: Items { items: [Column { name: \"v\", ty: Text }] } }), paging_state: None } })
040036d607000000300000001b53454c454354202a2046524f4d2074205748455245206b203d20310006340000006400084000000000000000 Rows(Rows { metadata: RowsMetadata { columns: Described(TableColumns { keyspace: \"ks\", table: \"t\", columns: Items { items: [Column { name: \"k\", ty: Int }, Column { name: \"v\", ty: Text }] } }), paging_state: None }, row_count: 1, cells: Items { items: [Some([0, 0, 0, 1]), Some([195, 169])] } })
040069d1070000003f000000275550444154452074205345542076203d203f205748455245206b203d203f2049462076203d203f0008280000000501800000010000000000000011 Error(ErrorResponse { cause: Invalid, text: \"ValueCount\" })
04001fa5070000003200000025494e5345525420494e544f207420286b2c2076292056414c5545532028312c2027c3a92729000514000013880009 Void
04004a16070000002e0000001b53454c454354202a2046524f4d2074205748455245206b203d2031000324000000014000000000000000 Error(ErrorResponse { cause: Unavailable(Unavailable { consistency: Level(Three), required: 3, alive: 1 }), text: \"unavailable\" })
04002d8b0d000000150100010100085a9f61424b184d6d0000000a100009 Error(ErrorResponse { cause: Unprepared([90, 159, 97, 66, 75, 24, 77, 109]), text: \"unprepared\" })
04006eeb0d0000003a0100010000000025494e5345525420494e544f207420286b2c2076292056414c5545532028312c2027c3a9272900000003200006445941624000 Error(ErrorResponse { cause: Unavailable(Unavailable { consistency: Level(Three), required: 3, alive: 1 }), text: \"unavailable\" })
040013b3090000000a00000006555345206b73 Prepared(Prepared { id: [107, 115, 0, 85, 83, 69, 32, 107, 115], variables: VariablesMetadata { variables: TableColumns { keyspace: \"\", table: \"\", columns: Items { items: [] } }, key_indexes: Items { items: [] } }, result: RowsMetadata { columns: Counted(0), paging_state: None } })
04007c2d070000003b00000025494e5345525420494e544f207420286b2c2076292056414c5545532028312c2027c3a9272900061c000000640000000501800000010008 Void
040076cd0a000000460027975b9955a28867421b1dd15b3a07503ecebf8c2fede1a64a6fa5e9bfa2b7b0ae92988a5d3f71ae00082500010000000863c3a962c3a96330000013884000000000000000 Error(ErrorResponse { cause: Unprepared([151, 91, 153, 85, 162, 136, 103, 66, 27, 29, 209, 91, 58, 7, 80, 62, 206, 191, 140, 47, 237, 225, 166, 74, 111, 165, 233, 191, 162, 183, 176, 174, 146, 152, 138, 93, 63, 113, 174]), text: \"unprepared\" })
0400710907000000300000001b53454c454354202a2046524f4d2074205748455245206b203d20310002340000006400084000000000000000 Error(ErrorResponse { cause: Unavailable(Unavailable { consistency: Level(Two), required: 2, alive: 1 }), text: \"unavailable\" })
0400624f090000002900000025494e5345525420494e544f207420286b2c2076292056414c5545532028312c2027c3a92729 Prepared(Prepared { id: [107, 115, 0, 73, 78, 83, 69, 82, 84, 32, 73, 78, 84, 79, 32, 116, 32, 40, 107, 44, 32, 118, 41, 32, 86, 65, 76, 85, 69, 83, 32, 40, 49, 44, 32, 39, 195, 169, 39, 41], variables: VariablesMetadata { variables: TableColumns { keyspace: \"ks\", table: \"t\", columns: Items { items: [] } }, key_indexes: Items { items: [] } }, result: RowsMetadata { columns: Counted(0), paging_state: None } })
04006e5c0d00000089010003000000001b53454c454354202a2046524f4d2074205748455245206b203d203100010000000ebe35fd4aa57000bd200047296ba4000000002653454c45435420762046524f4d206b732e74205748455245206b203d203f204c494d4954203300000100082bdc0eb3c303fa5e00020000000b6de1ad3dc173f3479d9261ffffffff0009100008 Error(ErrorResponse { cause: Unprepared([43, 220, 14, 179, 195, 3, 250, 94]), text: \"unprepared\" })
04006386090000002a0000002653454c45435420762046524f4d206b732e74205748455245206b203d203f204c494d49542033 Prepared(Prepared { id: [107, 115, 0, 83, 69, 76, 69, 67, 84, 32, 118, 32, 70, 82, 79, 77, 32, 107, 115, 46, 116, 32, 87, 72, 69, 82, 69, 32, 107, 32, 61, 32, 63, 32, 76, 73, 77, 73, 84, 32, 51], variables: VariablesMetadata { variables: TableColumns { keyspace: \"ks\", table: \"t\", columns: Items { items: [Column { name: \"k\", ty: Int }] } }, key_indexes: Items { items: [0] } }, result: RowsMetadata { columns: Described(TableColumns { keyspace: \"ks\", table: \"t\", columns: Items { items: [Column { name: \"v\", ty: Text }] } }), paging_state: None } })";

/// The frame of a row, and what it is answered.
fn parts(row: &str) -> (&str, &str) {
    row.split_once(' ').unwrap_or((row, ""))
}

/// All frames, one after another.
fn input(alloc: Global) -> Result<Vec<u8>, AllocError> {
    let mut bytes = Vec::new(alloc);
    for row in DRIVER.lines() {
        let (frame, _) = parts(row);
        push_hex(&mut bytes, frame)?;
    }
    Ok(bytes)
}

/// The length that the head of a frame tells.
fn body_length(head: &[u8]) -> usize {
    let mut length: usize = 0;
    for byte in head.iter().skip(5) {
        length = length.wrapping_mul(256).wrapping_add(usize::from(*byte));
    }
    length
}

/// The head and the body of the first frame, and what stands behind it.
fn first_frame(bytes: &[u8]) -> Option<(&[u8], &[u8], &[u8])> {
    let head = bytes.get(..9)?;
    let rest = bytes.get(9..)?;
    let length = body_length(head);
    Some((head, rest.get(..length)?, rest.get(length..)?))
}

/// What a response says, if its head is one on the stream of this request.
fn print_answer(
    alloc: Global,
    request: &[u8],
    head: &[u8],
    body: &[u8],
) -> Result<Option<String>, Fail> {
    if head.get(..2) != Some([0x84, 0].as_slice()) || head.get(2..4) != request.get(2..4) {
        return Ok(None);
    }
    let Some(opcode) = head.get(4) else {
        return Ok(None);
    };
    let response = decode_response(alloc, *opcode, body)?;
    Ok(Some(format!(in alloc; "{response:?}")?))
}

/// Whether a response is that to the frame of a row.
fn is_answer(alloc: Global, row: &str, head: &[u8], body: &[u8]) -> Result<bool, Fail> {
    let (frame, want) = parts(row);
    let mut request = Vec::new(alloc);
    push_hex(&mut request, frame)?;
    match print_answer(alloc, &request, head, body)? {
        Some(text) => Ok(text.as_str() == want),
        None => Ok(false),
    }
}

/// The first row whose response is not there, or is another one.
fn unanswered(alloc: Global, written: &[u8]) -> Result<Option<&'static str>, Fail> {
    let mut rest = written;
    for row in DRIVER.lines() {
        let Some((head, body, behind)) = first_frame(rest) else {
            return Ok(Some(row));
        };
        if !is_answer(alloc, row, head, body)? {
            return Ok(Some(row));
        }
        rest = behind;
    }
    Ok(if rest.is_empty() { None } else { Some("more") })
}

/// The same in pieces of this length.
fn unanswered_in<R: Wait>(
    rt: &R,
    alloc: Global,
    input: &[u8],
    len: usize,
) -> Result<Option<&'static str>, Fail> {
    let pieces = cut(alloc, input, len)?;
    let mut link = MemLink::new(alloc, pieces, len, Vec::new(alloc));
    let mut node = Node::new(alloc)?;
    let served = node.serve(rt, alloc, &mut link, &OpenGate, &mut NeverStop);
    if served != Served::Ended || link.faults().count() > 0 {
        return Ok(Some("the end"));
    }
    unanswered(alloc, link.written())
}

#[test]
fn requests_of_a_driver_are_answered(rt: HostRuntime) -> Result<(), Fail> {
    let input = input(rt.alloc())?;
    for len in &LENGTHS {
        let row = unanswered_in(&rt, rt.alloc(), &input, *len)?;
        assert_eq!(rt; row, None, "in pieces of {len}");
    }
    Ok(())
}
