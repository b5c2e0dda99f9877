//! Values as bytes of the native protocol.

ghost use Rattle.std.specs.Prelude.{◌≡◌, ◌==◌, ◌<◌, List, length, nat_le, position, if◌then◌else◌, IfOk, Ok, Err};
ghost use Rattle.cql_values.specs.Protocol.{Answers, IsWord, decoded, value_bytes};
ghost use Rattle.cql_values.specs.Value.{uuid_version};
ghost use Rattle.cql_values.specs.declared.value.CqlType.TheVariants as types;
ghost use Rattle.cql_values.specs.declared.value.CqlValue.{CqlValue};
ghost use Rattle.cql_values.specs.declared.error.ValueError.TheVariants as errors;

use crate::error::ValueError;
use crate::value::{CqlType, CqlValue};
use cs_base::{Bytes, Text};
use std::alloc::{AllocError, Global};
use std::str;

/// The bytes as an array of the type's width.
fn of_width<const N: usize>(bytes: &[u8]) -> Result<[u8; N], ValueError>
    ensures { Answers result (if length bytes.now == N then Ok bytes.now else Err (errors.BadLength (length bytes.now))) }
{
    match bytes.as_array::<N>() {
        Some(array) => Ok(*array),
        None => Err(ValueError::BadLength(bytes.len())),
    }
}

fn ascii(alloc: Global, bytes: &[u8]) -> Result<CqlValue, ValueError>
    ensures { Answers result (decoded types.Ascii bytes.now) }
{
    if let Some(at) = bytes.iter().position(|byte| 128 <= *byte) {
        return Err(ValueError::NotAscii(at));
    }
    match str::from_utf8(bytes) {
        Ok(text) => Ok(CqlValue::Ascii(Text::from_str(alloc, text)?)),
        Err(_) => unreachable!(),
    }
}

fn text(alloc: Global, bytes: &[u8]) -> Result<CqlValue, ValueError>
    ensures { Answers result (decoded types.Text bytes.now) }
{
    match str::from_utf8(bytes) {
        Ok(text) => Ok(CqlValue::Text(Text::from_str(alloc, text)?)),
        Err(error) => Err(ValueError::NotUtf8(error.valid_up_to())),
    }
}

/// Whether a uuid is of version 1, by time and node.
pub(crate) fn is_timeuuid(uuid: u128) -> bool
    ensures { result ≡ (uuid_version uuid == 1) }
{
    (uuid >> 76) & 0xf == 1
}

fn timeuuid(bytes: &[u8]) -> Result<CqlValue, ValueError>
    ensures { Answers result (decoded types.Timeuuid bytes.now) }
{
    let uuid = u128::from_be_bytes(of_width(bytes)?);
    if is_timeuuid(uuid) {
        Ok(CqlValue::Timeuuid(uuid))
    } else {
        Err(ValueError::NotTimeuuid)
    }
}

fn read(alloc: Global, ty: CqlType, bytes: &[u8]) -> Result<CqlValue, ValueError>
    ensures { Answers result (decoded ty bytes.now) }
{
    match ty {
        CqlType::Ascii => ascii(alloc, bytes),
        CqlType::Bigint => Ok(CqlValue::Bigint(i64::from_be_bytes(of_width(bytes)?))),
        CqlType::Blob => Ok(CqlValue::Blob(Bytes::from_slice(alloc, bytes)?)),
        CqlType::Boolean => {
            let byte: [u8; 1] = of_width(bytes)?;
            Ok(CqlValue::Boolean(byte[0] != 0))
        }
        CqlType::Int => Ok(CqlValue::Int(i32::from_be_bytes(of_width(bytes)?))),
        CqlType::Timestamp => Ok(CqlValue::Timestamp(i64::from_be_bytes(of_width(bytes)?))),
        CqlType::Uuid => Ok(CqlValue::Uuid(u128::from_be_bytes(of_width(bytes)?))),
        CqlType::Text => text(alloc, bytes),
        CqlType::Timeuuid => timeuuid(bytes),
        CqlType::Smallint => Ok(CqlValue::Smallint(i16::from_be_bytes(of_width(bytes)?))),
        CqlType::Tinyint => Ok(CqlValue::Tinyint(i8::from_be_bytes(of_width(bytes)?))),
    }
}

/// The value of a type that the bytes are in the native protocol, version 4 (native_protocol_v4.spec, section 6).
pub fn decode(alloc: Global, ty: CqlType, bytes: &[u8]) -> Result<CqlValue, ValueError>
    // What is read is spelled so.
    ensures found { IfOk result (λ v. IsWord ty bytes.now v) }
    // What is spelled so is read, unless memory runs out.
    ensures only { (v : CqlValue) → IsWord ty bytes.now v → Answers result (Ok v) }
    // Which refusal it is, and where.
    ensures exact { Answers result (decoded ty bytes.now) }
{
    read(alloc, ty, bytes)
}

/// The bytes of a value in the native protocol, version 4.
pub fn encode(alloc: Global, v: &CqlValue) -> Result<Bytes, AllocError>
    ensures { IfOk result (λ bytes. bytes ≡ value_bytes v.now) }
{
    match v {
        CqlValue::Ascii(text) | CqlValue::Text(text) => {
            Bytes::from_slice(alloc, text.as_str().as_bytes())
        }
        CqlValue::Bigint(n) | CqlValue::Timestamp(n) => Bytes::from_slice(alloc, &n.to_be_bytes()),
        CqlValue::Blob(bytes) => bytes.copy(alloc),
        CqlValue::Boolean(b) => Bytes::from_slice(alloc, &[u8::from(*b)]),
        CqlValue::Int(n) => Bytes::from_slice(alloc, &n.to_be_bytes()),
        CqlValue::Uuid(uuid) | CqlValue::Timeuuid(uuid) => {
            Bytes::from_slice(alloc, &uuid.to_be_bytes())
        }
        CqlValue::Smallint(n) => Bytes::from_slice(alloc, &n.to_be_bytes()),
        CqlValue::Tinyint(n) => Bytes::from_slice(alloc, &n.to_be_bytes()),
    }
}
