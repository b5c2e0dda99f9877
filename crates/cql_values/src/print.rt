//! Values as literals.

ghost use Rattle.std.specs.Prelude.{◌≡◌, IfOk, string_bytes};
ghost use Rattle.uuid.specs.Text.{hyphenated_text, lower};
ghost use Rattle.std.specs.Int.{to_be_bytes, w128};
ghost use Rattle.cql_values.specs.Literals.{literal_text, quoted};

use crate::value::CqlValue;
use cs_base::Text;
use std::alloc::{AllocError, Global};
use uuid::Uuid;

/// A text in single quotes, each quote in it twice.
fn quoted(alloc: Global, content: &str) -> Result<String, AllocError>
    ensures { IfOk result (λ text. string_bytes text ≡ quoted content.now) }
{
    let mut text = Vec::new(alloc);
    text.push(b'\'')?;
    for byte in content.as_bytes() {
        if *byte == b'\'' {
            text.push(b'\'')?;
        }
        text.push(*byte)?;
    }
    text.push(b'\'')?;
    match String::from_utf8(text) {
        Ok(text) => Ok(text),
        Err(_) => unreachable!(),
    }
}

fn hyphenated(alloc: Global, uuid: u128) -> Result<String, AllocError>
    ensures { IfOk result (λ text. string_bytes text ≡ hyphenated_text lower (to_be_bytes w128 uuid)) }
{
    let mut buffer = Uuid::encode_buffer();
    let text = Uuid::from_u128(uuid).hyphenated().encode_lower(&mut buffer);
    String::from_str(alloc, text)
}

fn printed(alloc: Global, v: &CqlValue) -> Result<String, AllocError>
    ensures { IfOk result (λ text. string_bytes text ≡ literal_text v.now) }
{
    match v {
        CqlValue::Ascii(text) | CqlValue::Text(text) => quoted(alloc, text.as_str()),
        CqlValue::Bigint(n) | CqlValue::Timestamp(n) => format!(in alloc; "{n}"),
        CqlValue::Blob(bytes) => {
            let digits = hex::encode(alloc, bytes.as_slice())?;
            format!(in alloc; "0x{digits}")
        }
        CqlValue::Boolean(true) => String::from_str(alloc, "true"),
        CqlValue::Boolean(false) => String::from_str(alloc, "false"),
        CqlValue::Int(n) => format!(in alloc; "{n}"),
        CqlValue::Uuid(uuid) | CqlValue::Timeuuid(uuid) => hyphenated(alloc, *uuid),
        CqlValue::Smallint(n) => format!(in alloc; "{n}"),
        CqlValue::Tinyint(n) => format!(in alloc; "{n}"),
    }
}

/// The literal of a value: a whole number (a timestamp as its milliseconds), `true` or `false`, a string in single
/// quotes, a blob as `0x` and digits in lower case, a uuid with hyphens and in lower case.
pub fn print_literal(alloc: Global, v: &CqlValue) -> Result<Text, AllocError>
    ensures { IfOk result (λ text. text ≡ literal_text v.now) }
{
    Ok(Text::from_string(printed(alloc, v)?))
}
