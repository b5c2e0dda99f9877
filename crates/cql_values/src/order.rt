//! Bytes whose plain order is the order of clustering values.

ghost use Rattle.std.specs.Prelude.{◌≡◌, ◌≢◌, ◌-◌, ◌<◌, ◌++◌, map, IfOk};
ghost use Rattle.std.specs.Int.{to_be_bytes, w64, w128};
ghost use Rattle.cql_values.specs.Value.{type_of, uuid_time};
ghost use Rattle.cql_values.specs.Order.{ascending_word, escaped, flip_top, order_word};
ghost use Rattle.cql_values.specs.declared.value.CqlType.TheVariants as types;

use crate::value::CqlValue;
use cs_base::Bytes;
use std::alloc::{AllocError, Global};

/// The bytes of a number with the top bit flipped, so that negative numbers come first.
pub(crate) fn flipped<const N: usize>(mut bytes: [u8; N]) -> [u8; N]
    requires { 0 < N }
    ensures { result ≡ flip_top bytes.entry }
{
    bytes[0] ^= 0x80;
    bytes
}

/// The 60 bits of the time of a uuid of version 1, in steps of 100 nanoseconds since 15 October 1582.
fn uuid_time(uuid: u128) -> u64
    ensures { result ≡ uuid_time uuid }
{
    let low = (uuid >> 96) as u64;
    let mid = ((uuid >> 80) & 0xffff) as u64;
    let high = ((uuid >> 64) & 0x0fff) as u64;
    (high << 48) + (mid << 32) + low
}

/// Each 00 as 00 FF, and then 00 00.
fn escaped(alloc: Global, bytes: &[u8]) -> Result<Vec<u8>, AllocError>
    ensures { IfOk result (λ word. word.items ≡ escaped bytes.now) }
{
    let mut word = Vec::new(alloc);
    for byte in bytes {
        word.push(*byte)?;
        if *byte == 0 {
            word.push(0xff)?;
        }
    }
    word.push(0)?;
    word.push(0)?;
    Ok(word)
}

fn complemented(mut bytes: Vec<u8>) -> Vec<u8>
    ensures { result.items ≡ map (λ b. 255 - b) bytes.items }
{
    for byte in bytes.iter_mut() {
        *byte = !*byte;
    }
    bytes
}

fn timeuuid_word(alloc: Global, uuid: u128) -> Result<Vec<u8>, AllocError>
    ensures { IfOk result (λ word. word.items ≡ to_be_bytes w64 (uuid_time uuid) ++ to_be_bytes w128 uuid) }
{
    let mut word = Vec::from_slice(alloc, &uuid_time(uuid).to_be_bytes())?;
    word.extend_from_slice(&uuid.to_be_bytes())?;
    Ok(word)
}

fn ascending(alloc: Global, v: &CqlValue) -> Result<Vec<u8>, AllocError>
    requires { type_of v.now ≢ types.Uuid }
    ensures { IfOk result (λ word. word.items ≡ ascending_word v.now) }
{
    match v {
        CqlValue::Ascii(text) | CqlValue::Text(text) => escaped(alloc, text.as_str().as_bytes()),
        CqlValue::Bigint(n) | CqlValue::Timestamp(n) => {
            Vec::from_slice(alloc, &flipped(n.to_be_bytes()))
        }
        CqlValue::Blob(bytes) => escaped(alloc, bytes.as_slice()),
        CqlValue::Boolean(b) => Vec::from_slice(alloc, &[u8::from(*b)]),
        CqlValue::Int(n) => Vec::from_slice(alloc, &flipped(n.to_be_bytes())),
        CqlValue::Uuid(_) => unreachable!(),
        CqlValue::Timeuuid(uuid) => timeuuid_word(alloc, *uuid),
        CqlValue::Smallint(n) => Vec::from_slice(alloc, &flipped(n.to_be_bytes())),
        CqlValue::Tinyint(n) => Vec::from_slice(alloc, &flipped(n.to_be_bytes())),
    }
}

/// The bytes of a clustering value in a column, ascending or DESC. Their plain order, as of `Bytes`, is the order of the
/// values, also where the bytes of further columns follow. A `Uuid` is no clustering value.
pub fn order_bytes(alloc: Global, v: &CqlValue, desc: bool) -> Result<Bytes, AllocError>
    requires { type_of v.now ≢ types.Uuid }
    ensures { IfOk result (λ bytes. bytes ≡ order_word desc v.now) }
{
    let word = ascending(alloc, v)?;
    let word = if desc { complemented(word) } else { word };
    Ok(Bytes::from_vec(word))
}
