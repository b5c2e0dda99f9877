//! What stands at the front of bytes: a value, and the bytes behind it.

ghost use Rattle.std.specs.Prelude.{◌≡◌, ◌<◌, length, List};
ghost use Rattle.std.specs.Int.{w16, w32, w64};
ghost use Rattle.body_notations.specs.Reading.{Gives, behind, byte_at, short_at, int_at, long_at, count_at, consistency_at, counted_at, text_at, string_at, long_string_at, short_bytes_at, bytes_at, value_at, nullable_at, value_of_length};

use crate::consistency::Consistency;
use crate::fault::Fault;
use crate::value::Value;
use cs_base::{Bytes, Level, Text};
use std::alloc::Global;
use std::str;

pub fn read_byte(bytes: &[u8]) -> Result<(u8, &[u8]), Fault>
    ensures { Gives (λ x. (x.0, x.1.now)) result (byte_at bytes.now) }
{
    match bytes {
        [] => Err(Fault::Short(0)),
        [byte, rest @ ..] => Ok((*byte, rest)),
    }
}

/// A [short].
pub fn read_short(bytes: &[u8]) -> Result<(u16, &[u8]), Fault>
    ensures { Gives (λ x. (x.0, x.1.now)) result (short_at bytes.now) }
{
    match bytes.split_first_chunk::<2>() {
        None => Err(Fault::Short(bytes.len())),
        Some((digits, rest)) => Ok((u16::from_be_bytes(*digits), rest)),
    }
}

/// An [int].
pub fn read_int(bytes: &[u8]) -> Result<(i32, &[u8]), Fault>
    ensures { Gives (λ x. (x.0, x.1.now)) result (int_at bytes.now) }
{
    match bytes.split_first_chunk::<4>() {
        None => Err(Fault::Short(bytes.len())),
        Some((digits, rest)) => Ok((i32::from_be_bytes(*digits), rest)),
    }
}

/// A [long].
pub fn read_long(bytes: &[u8]) -> Result<(i64, &[u8]), Fault>
    ensures { Gives (λ x. (x.0, x.1.now)) result (long_at bytes.now) }
{
    match bytes.split_first_chunk::<8>() {
        None => Err(Fault::Short(bytes.len())),
        Some((digits, rest)) => Ok((i64::from_be_bytes(*digits), rest)),
    }
}

/// An [int] that says how many of something there are; below 0 is a `BadValue`.
#[tactic(auto, unfolding(crate::specs::Reading::count_at))]
pub fn read_count(bytes: &[u8]) -> Result<(u32, &[u8]), Fault>
    ensures { Gives (λ x. (x.0, x.1.now)) result (count_at bytes.now) }
{
    let (n, rest) = read_int(bytes)?;
    if n < 0 {
        return Err(Fault::BadValue(n));
    }
    Ok((n.unsigned_abs(), rest))
}

/// A [consistency].
#[tactic(auto, unfolding(crate::specs::Reading::consistency_at))]
pub fn read_consistency(bytes: &[u8]) -> Result<(Consistency, &[u8]), Fault>
    ensures { Gives (λ x. (x.0, x.1.now)) result (consistency_at bytes.now) }
{
    let (code, rest) = read_short(bytes)?;
    let consistency = Consistency::from_code(code)?;
    Ok((consistency, rest))
}

/// The first bytes, so many.
fn read_counted(count: usize, bytes: &[u8]) -> Result<(&[u8], &[u8]), Fault>
    ensures { Gives (λ x. (x.0.now, x.1.now)) result (counted_at count bytes.now) }
{
    if bytes.len() < count {
        return Err(Fault::Short(bytes.len()));
    }
    Ok(bytes.split_at(count))
}

/// A text of so many bytes, which it copies.
fn read_text(alloc: Global, count: usize, bytes: &[u8]) -> Result<(Text, &[u8]), Fault>
    ensures { Gives (λ x. (x.0, x.1.now)) result (text_at count bytes.now) }
{
    let (text, rest) = read_counted(count, bytes)?;
    match str::from_utf8(text) {
        Ok(text) => Ok((Text::from_str(alloc, text)?, rest)),
        Err(error) => Err(Fault::NotUtf8(bytes.len().saturating_sub(error.valid_up_to()))),
    }
}

/// A [string].
#[tactic(auto, unfolding(crate::specs::Reading::string_at))]
pub fn read_string(alloc: Global, bytes: &[u8]) -> Result<(Text, &[u8]), Fault>
    ensures { Gives (λ x. (x.0, x.1.now)) result (string_at bytes.now) }
{
    let (count, rest) = read_short(bytes)?;
    read_text(alloc, usize::from(count), rest)
}

/// A [long string].
#[tactic(auto, unfolding(crate::specs::Reading::long_string_at))]
pub fn read_long_string(alloc: Global, bytes: &[u8]) -> Result<(Text, &[u8]), Fault>
    ensures { Gives (λ x. (x.0, x.1.now)) result (long_string_at bytes.now) }
{
    let (count, rest) = read_count(bytes)?;
    read_text(alloc, count as usize, rest)
}

/// [short bytes].
#[tactic(auto, unfolding(crate::specs::Reading::short_bytes_at))]
pub fn read_short_bytes(alloc: Global, bytes: &[u8]) -> Result<(Bytes, &[u8]), Fault>
    ensures { Gives (λ x. (x.0, x.1.now)) result (short_bytes_at bytes.now) }
{
    let (count, rest) = read_short(bytes)?;
    let (content, rest) = read_counted(usize::from(count), rest)?;
    Ok((Bytes::from_slice(alloc, content)?, rest))
}

fn read_nullable(alloc: Global, length: i32, bytes: &[u8]) -> Result<(Option<Bytes>, &[u8]), Fault>
    ensures { Gives (λ x. (x.0, x.1.now)) result (nullable_at length bytes.now) }
{
    if length < 0 {
        return Ok((None, bytes));
    }
    let (content, rest) = read_counted(length.unsigned_abs() as usize, bytes)?;
    Ok((Some(Bytes::from_slice(alloc, content)?), rest))
}

/// [bytes], of which `None` is null.
#[tactic(auto, unfolding(crate::specs::Reading::bytes_at))]
pub fn read_bytes(alloc: Global, bytes: &[u8]) -> Result<(Option<Bytes>, &[u8]), Fault>
    ensures { Gives (λ x. (x.0, x.1.now)) result (bytes_at bytes.now) }
{
    let (length, rest) = read_int(bytes)?;
    read_nullable(alloc, length, rest)
}

fn read_value_of(alloc: Global, length: i32, bytes: &[u8]) -> Result<(Value, &[u8]), Fault>
    ensures { Gives (λ x. (x.0, x.1.now)) result (value_of_length length bytes.now) }
{
    if length < -2 {
        return Err(Fault::BadValue(length));
    }
    if length < -1 {
        return Ok((Value::NotSet, bytes));
    }
    if length < 0 {
        return Ok((Value::Null, bytes));
    }
    let (content, rest) = read_counted(length.unsigned_abs() as usize, bytes)?;
    Ok((Value::Given(Bytes::from_slice(alloc, content)?), rest))
}

/// A [value].
#[tactic(auto, unfolding(crate::specs::Reading::value_at))]
pub fn read_value(alloc: Global, bytes: &[u8]) -> Result<(Value, &[u8]), Fault>
    ensures { Gives (λ x. (x.0, x.1.now)) result (value_at bytes.now) }
{
    let (length, rest) = read_int(bytes)?;
    read_value_of(alloc, length, rest)
}

fn skip_text(count: usize, bytes: &[u8]) -> Result<&[u8], Fault>
    ensures { Gives (λ rest. rest.now) result (behind (text_at count bytes.now)) }
{
    let (text, rest) = read_counted(count, bytes)?;
    match str::from_utf8(text) {
        Ok(_) => Ok(rest),
        Err(error) => Err(Fault::NotUtf8(bytes.len().saturating_sub(error.valid_up_to()))),
    }
}

/// The bytes behind a [string].
#[tactic(auto, unfolding(crate::specs::Reading::string_at))]
pub fn skip_string(bytes: &[u8]) -> Result<&[u8], Fault>
    ensures { Gives (λ rest. rest.now) result (behind (string_at bytes.now)) }
{
    let (count, rest) = read_short(bytes)?;
    skip_text(usize::from(count), rest)
}

fn skip_nullable(length: i32, bytes: &[u8]) -> Result<&[u8], Fault>
    ensures { Gives (λ rest. rest.now) result (behind (nullable_at length bytes.now)) }
{
    if length < 0 {
        return Ok(bytes);
    }
    let (_, rest) = read_counted(length.unsigned_abs() as usize, bytes)?;
    Ok(rest)
}

/// The bytes behind [bytes].
#[tactic(auto, unfolding(crate::specs::Reading::bytes_at))]
pub fn skip_bytes(bytes: &[u8]) -> Result<&[u8], Fault>
    ensures { Gives (λ rest. rest.now) result (behind (bytes_at bytes.now)) }
{
    let (length, rest) = read_int(bytes)?;
    skip_nullable(length, rest)
}
