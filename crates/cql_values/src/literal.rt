//! Literals as values.

ghost use Rattle.std.specs.Prelude.{◌≡◌, ◌≢◌, ◌↔◌, Option, Some, None, is_some, option_map, IfOk, IsSome, Result, Ok, Err};
ghost use Rattle.cql_values.specs.Literals.{Answers, Means, in_range, kind_of, literal_value, natural_of, unquoted, uuid_of, whole_of, word};
ghost use Rattle.cql_values.specs.declared.value.CqlType.TheVariants as types;
ghost use Rattle.cql_values.specs.declared.value.CqlValue.{CqlValue};
ghost use Rattle.cql_values.specs.declared.value.CqlValue.TheVariants as values;
ghost use Rattle.cql_values.specs.declared.error.LiteralError.TheVariants as errors;

use crate::error::LiteralError;
use crate::protocol::is_timeuuid;
use crate::value::{CqlType, CqlValue, Literal, LiteralKind};
use cs_base::{Bytes, Text};
use std::alloc::{AllocError, Global};
use std::str::FromStr;
use uuid::Uuid;

/// The kind of the literals of a type.
fn kind_of(ty: CqlType) -> LiteralKind
    ensures { result ≡ kind_of ty }
{
    match ty {
        CqlType::Ascii | CqlType::Text => LiteralKind::Str,
        CqlType::Bigint
        | CqlType::Int
        | CqlType::Timestamp
        | CqlType::Smallint
        | CqlType::Tinyint => LiteralKind::Whole,
        CqlType::Blob => LiteralKind::Blob,
        CqlType::Boolean => LiteralKind::Bool,
        CqlType::Uuid | CqlType::Timeuuid => LiteralKind::Uuid,
    }
}

/// What stands between the quotes of a string, if it is one.
fn unquoted(alloc: Global, text: &[u8]) -> Result<Option<Vec<u8>>, AllocError>
    ensures { IfOk result (λ content. option_map (λ v. v.items) content ≡ unquoted text.now) }
{
    let [b'\'', body @ ..] = text else {
        return Ok(None);
    };
    let mut content = Vec::new(alloc);
    let mut after_quote = false;
    for byte in body {
        if *byte == b'\'' && !after_quote {
            after_quote = true;
            continue;
        }
        if after_quote && *byte != b'\'' {
            return Ok(None);
        }
        content.push(*byte)?;
        after_quote = false;
    }
    if after_quote {
        Ok(Some(content))
    } else {
        Ok(None)
    }
}

fn string(alloc: Global, text: &str) -> Result<Text, LiteralError>
    ensures { Answers result (word (λ content. content) (unquoted text.now)) }
{
    let Some(content) = unquoted(alloc, text.as_bytes())? else {
        return Err(LiteralError::Malformed);
    };
    match String::from_utf8(content) {
        Ok(content) => Ok(Text::from_string(content)),
        Err(_) => unreachable!(),
    }
}

fn ascii(alloc: Global, text: &str) -> Result<CqlValue, LiteralError>
    ensures { Answers result (literal_value types.Ascii text.now) }
{
    let content = string(alloc, text)?;
    if content.as_str().is_ascii() {
        Ok(CqlValue::Ascii(content))
    } else {
        Err(LiteralError::Malformed)
    }
}

/// Whether bytes are one or more digits.
fn is_natural(digits: &[u8]) -> bool
    ensures { result ≡ is_some (natural_of digits.now) }
{
    !digits.is_empty() && digits.iter().all(|digit| digit.is_ascii_digit())
}

/// Whether a text is an optional minus and one or more digits.
fn is_whole(text: &str) -> bool
    ensures { result ≡ is_some (whole_of text.now) }
{
    match text.as_bytes() {
        [b'-', digits @ ..] => is_natural(digits),
        digits => is_natural(digits),
    }
}

/// The number that a word writes, if it is one of the type.
fn number<N: FromStr>(text: &str) -> Result<N, LiteralError>
where
    N::Err: Drop,
    ensures no_word { whole_of text.now ≡ None → result ≡ Err errors.Malformed }
    ensures word { IsSome (whole_of text.now) → (read : Result N N.Err) × N.from_str_gives text.now read × (result ≡ in_range read) }
{
    if !is_whole(text) {
        return Err(LiteralError::Malformed);
    }
    match text.parse() {
        Ok(n) => Ok(n),
        Err(_) => Err(LiteralError::OutOfRange),
    }
}

fn blob(alloc: Global, text: &str) -> Result<CqlValue, LiteralError>
    ensures { Answers result (literal_value types.Blob text.now) }
{
    let [b'0', b'x' | b'X', digits @ ..] = text.as_bytes() else {
        return Err(LiteralError::Malformed);
    };
    match hex::decode(alloc, digits) {
        Ok(bytes) => Ok(CqlValue::Blob(Bytes::from_vec(bytes))),
        Err(hex::FromHexError::OutOfMemory) => Err(LiteralError::NoMemory),
        Err(_) => Err(LiteralError::Malformed),
    }
}

fn uuid(text: &str) -> Result<u128, LiteralError>
    ensures { result ≡ word (λ uuid. uuid) (uuid_of text.now) }
{
    if text.len() != HYPHENATED_LEN {
        return Err(LiteralError::Malformed);
    }
    match Uuid::parse_str(text) {
        Ok(uuid) => Ok(uuid.as_u128()),
        Err(_) => Err(LiteralError::Malformed),
    }
}

/// How many characters a uuid with hyphens has.
const HYPHENATED_LEN: usize = 36;

fn timeuuid(text: &str) -> Result<CqlValue, LiteralError>
    ensures { result ≡ literal_value types.Timeuuid text.now }
{
    let uuid = uuid(text)?;
    if is_timeuuid(uuid) {
        Ok(CqlValue::Timeuuid(uuid))
    } else {
        Err(LiteralError::Malformed)
    }
}

fn boolean(text: &str) -> Result<CqlValue, LiteralError>
    ensures { result ≡ literal_value types.Boolean text.now }
{
    if text.eq_ignore_ascii_case("true") {
        Ok(CqlValue::Boolean(true))
    } else if text.eq_ignore_ascii_case("false") {
        Ok(CqlValue::Boolean(false))
    } else {
        Err(LiteralError::Malformed)
    }
}

/// The value of a literal of the type's kind.
fn value(alloc: Global, ty: CqlType, text: &str) -> Result<CqlValue, LiteralError>
    ensures { Answers result (literal_value ty text.now) }
{
    match ty {
        CqlType::Ascii => ascii(alloc, text),
        CqlType::Bigint => number(text).map(CqlValue::Bigint),
        CqlType::Blob => blob(alloc, text),
        CqlType::Boolean => boolean(text),
        CqlType::Int => number(text).map(CqlValue::Int),
        CqlType::Timestamp => number(text).map(CqlValue::Timestamp),
        CqlType::Uuid => uuid(text).map(CqlValue::Uuid),
        CqlType::Text => string(alloc, text).map(CqlValue::Text),
        CqlType::Timeuuid => timeuuid(text),
        CqlType::Smallint => number(text).map(CqlValue::Smallint),
        CqlType::Tinyint => number(text).map(CqlValue::Tinyint),
    }
}

/// The value of a type that a literal stands for. Strings are for `Ascii` and `Text`, whole numbers for the four integer
/// types and `Timestamp`, uuids for `Uuid` and `Timeuuid`, blobs and booleans for their own type.
pub fn read_literal(alloc: Global, ty: CqlType, literal: &Literal) -> Result<CqlValue, LiteralError>
    // What is read is a literal of the value.
    ensures found { IfOk result (λ v. Means ty literal.now.kind literal.now.text v) }
    // Each literal of a value is read, unless memory runs out.
    ensures only { (v : CqlValue) → Means ty literal.now.kind literal.now.text v → Answers result (Ok v) }
    // Which refusal it is: another kind comes first.
    ensures wrong_kind { (result ≡ Err errors.WrongKind) ↔ (literal.now.kind ≢ kind_of ty) }
    ensures exact { literal.now.kind ≡ kind_of ty → Answers result (literal_value ty literal.now.text) }
{
    if literal.kind == kind_of(ty) {
        value(alloc, ty, literal.text.as_str())
    } else {
        Err(LiteralError::WrongKind)
    }
}
