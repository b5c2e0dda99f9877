use crate::helpers::{each_line, is_shown};
use cql_values::*;
use cs_base::Text;
use std::alloc::{AllocError, Global};
use std::fmt::Debug;
use std::test::Fail;

/// A type, protocol bytes and a literal of a value, as the DataStax driver gives them.
const DRIVER: &str = "tinyint 00 0
tinyint 01 1
tinyint ff -1
tinyint 7f 127
tinyint 80 -128
tinyint 02 2
tinyint 37 55
tinyint 8e -114
tinyint 6e 110
tinyint ff -1
tinyint 9a -102
smallint 0000 0
smallint 0001 1
smallint ffff -1
smallint 7fff 32767
smallint 8000 -32768
smallint d04e -12210
smallint b9f6 -17930
smallint 3e5b 15963
smallint 7029 28713
smallint fe3e -450
smallint 42f2 17138
int 00000000 0
int 00000001 1
int ffffffff -1
int 7fffffff 2147483647
int 80000000 -2147483648
int 0b33e968 187951464
int 12edcf45 317574981
int b77b9aa2 -1216636254
int c78c281d -947116003
int 44069545 1141282117
int 4c11d357 1276236631
bigint 0000000000000000 0
bigint 0000000000000001 1
bigint ffffffffffffffff -1
bigint 7fffffffffffffff 9223372036854775807
bigint 8000000000000000 -9223372036854775808
bigint a06f5c6671e0c07e -6886183710159224706
bigint 5f561d802a759159 6869710717905637721
bigint 202fdaa1ad864c44 2319312721054944324
bigint 64cc4132f7108e96 7263251986190995094
bigint 8585a01c4c7d6df0 -8825471851359801872
bigint c3892dfc254cb864 -4356900603523450780
boolean 01 true
boolean 00 false
text  ''
text 61 'a'
text 69742773 'it''s'
text c3a9 '\u{e9}'
text e697a5e69cac '\u{65e5}\u{672c}'
text 610062 'a\0b'
text 63e282ac272761 'c\u{20ac}''''a'
text c3a9c3a963616363e282ac6320 '\u{e9}\u{e9}cacc\u{20ac}c '
text 63622020c3a962616361c3a963 'cb  \u{e9}baca\u{e9}c'
text 6127e282ac206320 'a''\u{20ac} c '
text e282ac612061c3a962276261 '\u{20ac}a a\u{e9}b''ba'
text e282ac2063 '\u{20ac} c'
ascii  ''
ascii 61 'a'
ascii 69742773 'it''s'
timestamp 0000000000000000 0
timestamp 0000000000000001 1
timestamp ffffffffffffffff -1
timestamp 0000015d3ef7987b 1500000000123
timestamp 0001ad3b8332f05a 471946092539994
timestamp fffdba95767d5274 -639273829313932
timestamp fffc960a4bbdbb01 -960928942277887
timestamp fffd7579fa749692 -715258176694638
timestamp 000173ac355f2af4 408658443709172
timestamp 0001707925f02628 405140606559784
uuid 8b8e8f4eb3de48f9ac9837044692ba03 8b8e8f4e-b3de-48f9-ac98-37044692ba03
timeuuid 17921e6c4ffc1af9944ecc7c2d6f2efc 17921e6c-4ffc-1af9-944e-cc7c2d6f2efc
blob 4c 0x4c
uuid ff297d0e4f2e44fcb06dbee0b89c4e56 ff297d0e-4f2e-44fc-b06d-bee0b89c4e56
timeuuid 7bd9e8a129591b85831499c4fc985000 7bd9e8a1-2959-1b85-8314-99c4fc985000
blob cf1079b080e9d74a 0xcf1079b080e9d74a
uuid a36939efea83454abaa30fac0e42d43c a36939ef-ea83-454a-baa3-0fac0e42d43c
timeuuid 08606af8cd3917e595d6216d3501e088 08606af8-cd39-17e5-95d6-216d3501e088
blob d336 0xd336
uuid 2634f16f5f7c45d8af3f02402b37d817 2634f16f-5f7c-45d8-af3f-02402b37d817
timeuuid 0f0b9752d84016ba9224ec087401f5ce 0f0b9752-d840-16ba-9224-ec087401f5ce
blob e8f9 0xe8f9
uuid 7aa286ac51544f5fbac0d757b057c162 7aa286ac-5154-4f5f-bac0-d757b057c162
timeuuid 462731414a80178599e61cd0258170f9 46273141-4a80-1785-99e6-1cd0258170f9
blob 5bffad5c2dfb 0x5bffad5c2dfb
uuid 8c5050eac832452e83e2c32845b61df2 8c5050ea-c832-452e-83e2-c32845b61df2
timeuuid de0d0fc580b915c784c9c65fcb8f1137 de0d0fc5-80b9-15c7-84c9-c65fcb8f1137
blob 119cba8ff8 0x119cba8ff8";

/// A type, ascending or DESC, order bytes and a literal of a value.
const ORDERED: &str = "int asc 80000001 1
int asc 7fffffff -1
text asc 610000 'a'
blob asc 00ff0000 0x00
int desc 7ffffffe 1
tinyint asc 00 -128
tinyint asc ff 127
smallint asc 0000 -32768
smallint desc 0000 32767
bigint asc 0000000000000000 -9223372036854775808
timestamp asc ffffffffffffffff 9223372036854775807
boolean asc 01 TRUE
boolean desc ff false
ascii asc 0000 ''
ascii desc ffff ''
text asc c3a900ff0000 '\u{e9}\0'
text desc ff00ffff '\0'
blob asc ff00ff0000 0XFF00
timeuuid asc 0af94ffc17921e6c17921e6c4ffc1af9944ecc7c2d6f2efc 17921E6C-4ffc-1af9-944e-cc7c2d6f2efc";

/// A type, protocol bytes, and why they are refused.
const REFUSED_BYTES: &str = "int 000001 BadLength(3)
boolean  BadLength(0)
timeuuid 0000 BadLength(2)
timeuuid 8b8e8f4eb3de48f9ac9837044692ba03 NotTimeuuid
text 61c3a9e28261 NotUtf8(3)
ascii 61627fc3a9 NotAscii(3)";

/// A type, the type of the literal's kind, why the literal is refused, and the literal.
const REFUSED_LITERALS: &str = "int text WrongKind '1'
int text WrongKind 
int int OutOfRange 2147483648
tinyint int OutOfRange -129
bigint int OutOfRange 99999999999999999999999
int int Malformed +1
int int Malformed -
text text Malformed 'it's'
text text Malformed 'it'''s
ascii text Malformed '\u{e9}'
blob blob Malformed 0x1
uuid uuid Malformed 8b8e8f4eb3de48f9ac9837044692ba03
timeuuid uuid Malformed 8b8e8f4e-b3de-48f9-ac98-37044692ba03";

/// A type, ascending or DESC, bytes, and why they are refused.
const REFUSED_ORDER: &str = "int asc 800000 Short
boolean asc 02 Malformed(0)
boolean desc fd00 Malformed(0)
text asc 6100 Short
text asc e282 Short
text asc e28261 Malformed(2)
text asc 610001 Malformed(2)
ascii asc 6180 Malformed(1)
blob asc ff00ff Short
timeuuid asc 10 Malformed(0)
timeuuid asc 0af94ffc17921e6c17921e6c4ffc2a Malformed(14)";

/// A type by its name, and the kind of its literals.
fn type_named(name: &str) -> (CqlType, LiteralKind) {
    match name {
        "ascii" => (CqlType::Ascii, LiteralKind::Str),
        "bigint" => (CqlType::Bigint, LiteralKind::Whole),
        "blob" => (CqlType::Blob, LiteralKind::Blob),
        "boolean" => (CqlType::Boolean, LiteralKind::Bool),
        "int" => (CqlType::Int, LiteralKind::Whole),
        "smallint" => (CqlType::Smallint, LiteralKind::Whole),
        "text" => (CqlType::Text, LiteralKind::Str),
        "timestamp" => (CqlType::Timestamp, LiteralKind::Whole),
        "timeuuid" => (CqlType::Timeuuid, LiteralKind::Uuid),
        "tinyint" => (CqlType::Tinyint, LiteralKind::Whole),
        _ => (CqlType::Uuid, LiteralKind::Uuid),
    }
}

fn word(line: &str) -> (&str, &str) {
    line.split_once(' ').unwrap_or((line, ""))
}

fn literal(alloc: Global, kind: LiteralKind, text: &str) -> Result<Literal, AllocError> {
    Ok(Literal {
        kind,
        text: Text::from_str(alloc, text)?,
    })
}

/// The value of a literal.
fn value_of(
    alloc: Global,
    (ty, kind): (CqlType, LiteralKind),
    text: &str,
) -> Result<CqlValue, LiteralError> {
    read_literal(alloc, ty, &literal(alloc, kind, text)?)
}

fn is_encoded(alloc: Global, value: &CqlValue, bytes: &[u8]) -> Result<bool, AllocError> {
    Ok(encode(alloc, value)?.as_slice() == bytes)
}

fn is_written(
    alloc: Global,
    ty: (CqlType, LiteralKind),
    bytes: &[u8],
    text: &str,
) -> Result<bool, LiteralError> {
    Ok(is_encoded(alloc, &value_of(alloc, ty, text)?, bytes)?)
}

fn is_read(alloc: Global, ty: CqlType, bytes: &[u8], text: &str) -> Result<bool, ValueError> {
    let value = decode(alloc, ty, bytes)?;
    Ok(print_literal(alloc, &value)?.as_str() == text)
}

fn is_read_and_written(alloc: Global, line: &str) -> Result<bool, Fail> {
    let (name, rest) = word(line);
    let (hex, text) = word(rest);
    let ty = type_named(name);
    let bytes = hex::decode(alloc, hex)?;
    let is_written = is_written(alloc, ty, bytes.as_slice(), text)?;
    Ok(is_written && is_read(alloc, ty.0, bytes.as_slice(), text)?)
}

#[test]
fn values_of_the_driver(rt: HostRuntime) -> Result<(), Fail> {
    each_line(&rt, rt.alloc(), DRIVER, is_read_and_written)
}

fn has_order_bytes(
    alloc: Global,
    value: &CqlValue,
    is_descending: bool,
    bytes: &[u8],
) -> Result<bool, AllocError> {
    if value.type_of() == CqlType::Uuid {
        return Ok(false);
    }
    Ok(order_bytes(alloc, value, is_descending)?.as_slice() == bytes)
}

/// Whether both have the same protocol bytes.
fn is_same(alloc: Global, value: &CqlValue, other: &CqlValue) -> Result<bool, AllocError> {
    is_encoded(alloc, value, encode(alloc, other)?.as_slice())
}

/// Whether the value is read from the bytes but for the last one.
fn is_read_of_order(
    alloc: Global,
    value: &CqlValue,
    is_descending: bool,
    bytes: &[u8],
) -> Result<bool, OrderError> {
    let ty = value.type_of();
    if ty == CqlType::Uuid {
        return Ok(false);
    }
    let (read, len) = read_order(alloc, ty, is_descending, bytes)?;
    Ok(len.saturating_add(1) == bytes.len() && is_same(alloc, value, &read)?)
}

/// Order bytes, and another byte behind them.
fn with_another(alloc: Global, hex: &str) -> Result<Vec<u8>, Fail> {
    let mut bytes = hex::decode(alloc, hex)?;
    bytes.push(0xc3)?;
    Ok(bytes)
}

/// Whether the bytes but for the last one are the value's, and it is read from them.
fn has_order(
    alloc: Global,
    value: &CqlValue,
    is_descending: bool,
    bytes: &[u8],
) -> Result<bool, Fail> {
    let Some((_, front)) = bytes.split_last() else {
        return Ok(false);
    };
    Ok(
        has_order_bytes(alloc, value, is_descending, front)?
            && is_read_of_order(alloc, value, is_descending, bytes)?,
    )
}

fn is_ordered(alloc: Global, line: &str) -> Result<bool, Fail> {
    let (name, rest) = word(line);
    let (direction, rest) = word(rest);
    let (hex, text) = word(rest);
    let value = value_of(alloc, type_named(name), text)?;
    let bytes = with_another(alloc, hex)?;
    has_order(alloc, &value, direction == "desc", bytes.as_slice())
}

#[test]
fn order_bytes_of_values(rt: HostRuntime) -> Result<(), Fail> {
    each_line(&rt, rt.alloc(), ORDERED, is_ordered)
}

/// Whether there is this error.
fn is_error<E: Debug + Drop>(
    alloc: Global,
    error: Option<E>,
    want: &str,
) -> Result<bool, AllocError> {
    match error {
        Some(error) => is_shown(alloc, error, want),
        None => Ok(false),
    }
}

fn is_refused(alloc: Global, line: &str) -> Result<bool, Fail> {
    let (name, rest) = word(line);
    let (hex, want) = word(rest);
    let (ty, _) = type_named(name);
    let bytes = hex::decode(alloc, hex)?;
    let error = decode(alloc, ty, bytes.as_slice()).err();
    Ok(is_error(alloc, error, want)?)
}

fn is_refused_literal(alloc: Global, line: &str) -> Result<bool, Fail> {
    let (name, rest) = word(line);
    let (kind, rest) = word(rest);
    let (want, text) = word(rest);
    let ty = (type_named(name).0, type_named(kind).1);
    Ok(is_error(alloc, value_of(alloc, ty, text).err(), want)?)
}

fn is_refused_order(alloc: Global, line: &str) -> Result<bool, Fail> {
    let (name, rest) = word(line);
    let (direction, rest) = word(rest);
    let (hex, want) = word(rest);
    let (ty, _) = type_named(name);
    if ty == CqlType::Uuid {
        return Ok(false);
    }
    let bytes = hex::decode(alloc, hex)?;
    let error = read_order(alloc, ty, direction == "desc", bytes.as_slice()).err();
    Ok(is_error(alloc, error, want)?)
}

#[test]
fn refusals(rt: HostRuntime) -> Result<(), Fail> {
    each_line(&rt, rt.alloc(), REFUSED_BYTES, is_refused)?;
    each_line(&rt, rt.alloc(), REFUSED_LITERALS, is_refused_literal)?;
    each_line(&rt, rt.alloc(), REFUSED_ORDER, is_refused_order)
}

fn push_part(key: &mut Vec<u8>, part: &[u8]) -> Result<(), AllocError> {
    let length = part.len().min(0xffff) as u16;
    key.extend_from_slice(&length.to_be_bytes())?;
    key.extend_from_slice(part)?;
    key.push(0)?;
    Ok(())
}

fn push_value(alloc: Global, key: &mut Vec<u8>, value: &CqlValue) -> Result<(), AllocError> {
    push_part(key, encode(alloc, value)?.as_slice())
}

fn is_key(
    alloc: Global,
    first: &CqlValue,
    second: &CqlValue,
    bytes: &[u8],
) -> Result<bool, AllocError> {
    let mut key = Vec::new(alloc);
    push_value(alloc, &mut key, first)?;
    push_value(alloc, &mut key, second)?;
    Ok(key.as_slice() == bytes)
}

/// A key of several parts is hashed as each part behind its length in two bytes, and a 0 after it.
#[test]
fn parts_of_a_hashed_key(rt: HostRuntime) -> Result<(), Fail> {
    let alloc = rt.alloc();
    let text = CqlValue::Text(Text::from_str(alloc, "a")?);
    let bytes = b"\x00\x04\x00\x00\x00\x01\x00\x00\x01a\x00";
    assert!(rt; is_key(alloc, &CqlValue::Int(1), &text, bytes)?);
    Ok(())
}
