//! Order bytes as clustering values.

ghost use Rattle.std.specs.Prelude.{◌≡◌, ◌≢◌, ◌-◌, ◌<◌, ℕ, List, ◌++◌, false, length, if◌then◌else◌, Ok, Err};
ghost use Rattle.cql_values.specs.Value.{IsValue, type_of};
ghost use Rattle.cql_values.specs.Order.{Answers, IsNumberType, IsOrderWord, Reads, ascending_bytes, boolean_read, front_of, is_time_byte, number_read, order_word};
ghost use Rattle.cql_values.specs.Scan.{IsEscapedType, IsEscapedWord, IsTextType};
ghost use Rattle.cql_values.specs.declared.value.CqlType.TheVariants as types;
ghost use Rattle.cql_values.specs.declared.value.CqlValue.{CqlValue};
ghost use Rattle.cql_values.specs.declared.error.OrderError.TheVariants as errors;

use crate::error::OrderError;
use crate::order::flipped;
use crate::scan::{Expected, Move, step};
use crate::value::{CqlType, CqlValue};
use cs_base::{Bytes, Text};
use std::alloc::Global;

/// A byte as an ascending column has it.
fn ascending(desc: bool, byte: u8) -> u8
    ensures { result ≡ (if desc then 255 - byte else byte) }
{
    if desc { !byte } else { byte }
}

/// The content of a text whose zeros are escaped, and how many bytes it takes with its end.
fn content(
    alloc: Global,
    ty: CqlType,
    desc: bool,
    bytes: &[u8],
) -> Result<(Bytes, usize), OrderError>
    requires { IsEscapedType ty }
    ensures { Reads (IsEscapedWord ty) (ascending_bytes desc bytes.now) result }
{
    let mut content = Vec::new(alloc);
    let mut expected = Expected::Character;
    for (at, byte) in bytes.iter().enumerate() {
        match step(ty, expected, ascending(desc, *byte)) {
            Move::Bad => return Err(OrderError::Malformed(at)),
            Move::End => return Ok((Bytes::from_vec(content), at + 1)),
            Move::Wait(next) => expected = next,
            Move::Push(byte, next) => {
                content.push(byte)?;
                expected = next;
            }
        }
    }
    Err(OrderError::Short)
}

/// The first bytes of a column, as an ascending one has them.
fn front<const N: usize>(desc: bool, bytes: &[u8]) -> Result<[u8; N], OrderError>
    ensures { result ≡ front_of N (ascending_bytes desc bytes.now) }
{
    if bytes.len() < N {
        return Err(OrderError::Short);
    }
    let mut front = [0; N];
    for at in 0..N {
        front[at] = ascending(desc, bytes[at]);
    }
    Ok(front)
}

fn number(ty: CqlType, desc: bool, bytes: &[u8]) -> Result<(CqlValue, usize), OrderError>
    requires { IsNumberType ty }
    ensures { result ≡ number_read ty (ascending_bytes desc bytes.now) }
{
    match ty {
        CqlType::Bigint => {
            let word = flipped(front(desc, bytes)?);
            Ok((CqlValue::Bigint(i64::from_be_bytes(word)), 8))
        }
        CqlType::Int => {
            let word = flipped(front(desc, bytes)?);
            Ok((CqlValue::Int(i32::from_be_bytes(word)), 4))
        }
        CqlType::Timestamp => {
            let word = flipped(front(desc, bytes)?);
            Ok((CqlValue::Timestamp(i64::from_be_bytes(word)), 8))
        }
        CqlType::Smallint => {
            let word = flipped(front(desc, bytes)?);
            Ok((CqlValue::Smallint(i16::from_be_bytes(word)), 2))
        }
        CqlType::Tinyint => {
            let word = flipped(front(desc, bytes)?);
            Ok((CqlValue::Tinyint(i8::from_be_bytes(word)), 1))
        }
        _ => unreachable!(),
    }
}

fn boolean(desc: bool, bytes: &[u8]) -> Result<(CqlValue, usize), OrderError>
    ensures { result ≡ boolean_read (ascending_bytes desc bytes.now) }
{
    let [first, ..] = bytes else {
        return Err(OrderError::Short);
    };
    match ascending(desc, *first) {
        0 => Ok((CqlValue::Boolean(false), 1)),
        1 => Ok((CqlValue::Boolean(true), 1)),
        _ => Err(OrderError::Malformed(0)),
    }
}

/// Whether a byte of a timeuuid's order bytes is what those before it ask for: the uuid has the time in it.
fn is_time_byte(desc: bool, bytes: &[u8], at: usize) -> bool
    requires { at < length bytes.now }
    ensures { result ≡ is_time_byte (ascending_bytes desc bytes.now) at }
{
    let byte = ascending(desc, bytes[at]);
    match at {
        0 => byte < 16,
        8..=11 => byte == ascending(desc, bytes[at - 4]),
        12 | 13 => byte == ascending(desc, bytes[at - 10]),
        14 => u16::from(byte) == u16::from(ascending(desc, bytes[0])) + 16,
        15 => byte == ascending(desc, bytes[1]),
        _ => true,
    }
}

/// How many order bytes a timeuuid has: eight of its time, and its own sixteen.
const TIMEUUID_LEN: usize = 24;

fn timeuuid(desc: bool, bytes: &[u8]) -> Result<(CqlValue, usize), OrderError>
    ensures { Reads (IsOrderWord types.Timeuuid false) (ascending_bytes desc bytes.now) result }
{
    for at in 0..TIMEUUID_LEN {
        if bytes.len() <= at {
            return Err(OrderError::Short);
        }
        if !is_time_byte(desc, bytes, at) {
            return Err(OrderError::Malformed(at));
        }
    }
    let uuid = front(desc, &bytes[8..])?;
    Ok((CqlValue::Timeuuid(u128::from_be_bytes(uuid)), TIMEUUID_LEN))
}

fn text(alloc: Global, ty: CqlType, desc: bool, bytes: &[u8]) -> Result<(Text, usize), OrderError>
    requires { IsTextType ty }
    ensures { Reads (IsEscapedWord ty) (ascending_bytes desc bytes.now) result }
{
    let (content, len) = content(alloc, ty, desc, bytes)?;
    let bytes = content.into_vec(alloc)?;
    match String::from_utf8(bytes) {
        Ok(text) => Ok((Text::from_string(text), len)),
        Err(_) => unreachable!(),
    }
}

/// The value whose bytes in an ascending column are the front of what the bytes of the column stand for.
fn value(
    alloc: Global,
    ty: CqlType,
    desc: bool,
    bytes: &[u8],
) -> Result<(CqlValue, usize), OrderError>
    requires { ty ≢ types.Uuid }
    ensures { Reads (IsOrderWord ty false) (ascending_bytes desc bytes.now) result }
{
    match ty {
        CqlType::Ascii => {
            let (text, len) = text(alloc, ty, desc, bytes)?;
            Ok((CqlValue::Ascii(text), len))
        }
        CqlType::Blob => {
            let (content, len) = content(alloc, ty, desc, bytes)?;
            Ok((CqlValue::Blob(content), len))
        }
        CqlType::Text => {
            let (text, len) = text(alloc, ty, desc, bytes)?;
            Ok((CqlValue::Text(text), len))
        }
        CqlType::Boolean => boolean(desc, bytes),
        CqlType::Timeuuid => timeuuid(desc, bytes),
        CqlType::Uuid => unreachable!(),
        CqlType::Bigint
        | CqlType::Int
        | CqlType::Timestamp
        | CqlType::Smallint
        | CqlType::Tinyint => number(ty, desc, bytes),
    }
}

/// The clustering value whose order bytes in a column, ascending or DESC, stand at the front of the bytes, and how many
/// bytes it takes. Bytes of further columns may follow. A `Uuid` is no clustering value.
pub fn read_order(
    alloc: Global,
    ty: CqlType,
    desc: bool,
    bytes: &[u8],
) -> Result<(CqlValue, usize), OrderError>
    requires { ty ≢ types.Uuid }
    // What is read stands there. Short is the beginning of a value, and Malformed the first byte with which none goes on.
    ensures reads { Reads (IsOrderWord ty desc) bytes.now result }
    // What was written is read again, unless memory runs out, whatever follows it.
    ensures only { (v : CqlValue) (rest : List ℕ) → type_of v ≡ ty → IsValue v → bytes.now ≡ order_word desc v ++ rest → Answers result (Ok (v, length (order_word desc v))) }
{
    value(alloc, ty, desc, bytes)
}
