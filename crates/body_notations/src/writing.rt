//! Words of the notations, at the end of bytes. After an `Err`, memory ran out, and a part of the word may stand there.

ghost use Rattle.std.specs.Prelude.{◌≡◌, ◌<◌, ◌^◌, ◌++◌, length, OnOk};
ghost use Rattle.body_notations.specs.Spelling.{short, int, long, count, consistency as consistency_bytes, string, long_string, short_bytes, bytes as bytes_or_null, value as value_bytes, FitsShort, FitsInt, BytesFit, ValueFits};

use crate::consistency::Consistency;
use crate::value::Value;
use cs_base::{Bytes, Text};
use std::alloc::AllocError;

/// A [short].
pub fn write_short(out: &mut Vec<u8>, n: u16) -> Result<(), AllocError>
    ensures { OnOk result (out.new.items ≡ out.old.items ++ short n) }
{
    out.extend_from_slice(&n.to_be_bytes())
}

/// An [int].
pub fn write_int(out: &mut Vec<u8>, n: i32) -> Result<(), AllocError>
    ensures { OnOk result (out.new.items ≡ out.old.items ++ int n) }
{
    out.extend_from_slice(&n.to_be_bytes())
}

/// A [long].
pub fn write_long(out: &mut Vec<u8>, n: i64) -> Result<(), AllocError>
    ensures { OnOk result (out.new.items ≡ out.old.items ++ long n) }
{
    out.extend_from_slice(&n.to_be_bytes())
}

/// An [int] that says how many of something there are.
pub fn write_count(out: &mut Vec<u8>, n: usize) -> Result<(), AllocError>
    requires { n < 2 ^ 31 }
    ensures { OnOk result (out.new.items ≡ out.old.items ++ count n) }
{
    out.extend_from_slice(&(n as u32).to_be_bytes())
}

/// A [consistency].
pub fn write_consistency(out: &mut Vec<u8>, consistency: Consistency) -> Result<(), AllocError>
    ensures { OnOk result (out.new.items ≡ out.old.items ++ consistency_bytes consistency) }
{
    write_short(out, consistency.code())
}

/// A [string].
pub fn write_string(out: &mut Vec<u8>, text: &Text) -> Result<(), AllocError>
    requires { FitsShort text.now }
    ensures { OnOk result (out.new.items ≡ out.old.items ++ string text.now) }
{
    let text = text.as_str().as_bytes();
    write_short(out, text.len() as u16)?;
    out.extend_from_slice(text)
}

/// A [long string].
pub fn write_long_string(out: &mut Vec<u8>, text: &Text) -> Result<(), AllocError>
    requires { FitsInt text.now }
    ensures { OnOk result (out.new.items ≡ out.old.items ++ long_string text.now) }
{
    let text = text.as_str().as_bytes();
    write_count(out, text.len())?;
    out.extend_from_slice(text)
}

/// [short bytes].
pub fn write_short_bytes(out: &mut Vec<u8>, content: &Bytes) -> Result<(), AllocError>
    requires { FitsShort content.now }
    ensures { OnOk result (out.new.items ≡ out.old.items ++ short_bytes content.now) }
{
    let content = content.as_slice();
    write_short(out, content.len() as u16)?;
    out.extend_from_slice(content)
}

#[inline(always)]
fn write_content(out: &mut Vec<u8>, content: &[u8]) -> Result<(), AllocError>
    requires { FitsInt content.now }
    ensures { OnOk result (out.new.items ≡ out.old.items ++ long_string content.now) }
{
    write_count(out, content.len())?;
    out.extend_from_slice(content)
}

/// [bytes], of which `None` is null.
#[inline(always)]
pub fn write_bytes(out: &mut Vec<u8>, content: &Option<Bytes>) -> Result<(), AllocError>
    requires { BytesFit content.now }
    ensures { OnOk result (out.new.items ≡ out.old.items ++ bytes_or_null content.now) }
{
    match content {
        None => out.extend_from_slice(&u32::MAX.to_be_bytes()),
        Some(content) => write_content(out, content.as_slice()),
    }
}

/// A [value].
pub fn write_value(out: &mut Vec<u8>, value: &Value) -> Result<(), AllocError>
    requires { ValueFits value.now }
    ensures { OnOk result (out.new.items ≡ out.old.items ++ value_bytes value.now) }
{
    match value {
        Value::Null => out.extend_from_slice(&u32::MAX.to_be_bytes()),
        Value::NotSet => out.extend_from_slice(&(u32::MAX - 1).to_be_bytes()),
        Value::Given(content) => write_content(out, content.as_slice()),
    }
}
