//! The bytes of a text whose zeros are escaped, one by one.

ghost use Rattle.std.specs.Prelude.{◌≡◌};
ghost use Rattle.cql_values.specs.Scan.{after_byte, lead, pushed, step_of, utf8_lead};
ghost use Rattle.cql_values.specs.declared.value.CqlType.TheVariants as types;
ghost use Rattle.cql_values.specs.declared.scan.Expected.TheVariants as expect;

use crate::value::CqlType;

/// What may stand next.
#[derive(Clone, Copy, Debug)]
pub(crate) enum Expected {
    /// A character, or the first 00 of an escape or of the end.
    Character,
    /// Behind a 00: FF for a zero of the text, 00 for the end.
    Escape,
    /// A byte from `low` to `high` within a character, and as many more as it says.
    Tail { low: u8, high: u8, more: u8 },
}

/// What a byte means.
#[derive(Clone, Copy, Debug)]
pub(crate) enum Move {
    /// No text goes on with it.
    Bad,
    /// It ends the text.
    End,
    /// It says nothing yet.
    Wait(Expected),
    /// It gives a byte of the text.
    Push(u8, Expected),
}

/// What a first byte of UTF-8 asks for (Unicode, table 3-7).
fn utf8_lead(byte: u8) -> Option<Expected>
    ensures { result ≡ utf8_lead byte }
{
    let (low, high, more) = match byte {
        0..=0x7f => return Some(Expected::Character),
        0x80..=0xc1 => return None,
        0xc2..=0xdf => (0x80, 0xbf, 0),
        0xe0 => (0xa0, 0xbf, 1),
        0xed => (0x80, 0x9f, 1),
        0xe1..=0xef => (0x80, 0xbf, 1),
        0xf0 => (0x90, 0xbf, 2),
        0xf1..=0xf3 => (0x80, 0xbf, 2),
        0xf4 => (0x80, 0x8f, 2),
        _ => return None,
    };
    Some(Expected::Tail { low, high, more })
}

/// What the first byte of a character asks for: each byte of a blob is one, each below 128 of `Ascii`.
fn lead(ty: CqlType, byte: u8) -> Option<Expected>
    ensures { result ≡ lead ty byte }
{
    match ty {
        CqlType::Ascii if byte < 0x80 => Some(Expected::Character),
        CqlType::Ascii => None,
        CqlType::Text => utf8_lead(byte),
        _ => Some(Expected::Character),
    }
}

fn pushed(byte: u8, next: Option<Expected>) -> Move
    ensures { result ≡ pushed byte next }
{
    match next {
        None => Move::Bad,
        Some(next) => Move::Push(byte, next),
    }
}

/// What a byte within a character asks for.
fn after_tail(low: u8, high: u8, more: u8, byte: u8) -> Option<Expected>
    ensures { result ≡ after_byte types.Text (expect.Tail low high more) byte }
{
    if byte < low || high < byte {
        None
    } else if more == 0 {
        Some(Expected::Character)
    } else {
        Some(Expected::Tail {
            low: 0x80,
            high: 0xbf,
            more: more - 1,
        })
    }
}

/// What a byte of the order bytes of `Ascii`, `Blob` or `Text` means.
pub(crate) fn step(ty: CqlType, expected: Expected, byte: u8) -> Move
    ensures { result ≡ step_of ty expected byte }
{
    match (expected, byte) {
        (Expected::Character, 0) => Move::Wait(Expected::Escape),
        (Expected::Character, _) => pushed(byte, lead(ty, byte)),
        (Expected::Escape, 0) => Move::End,
        (Expected::Escape, 0xff) => Move::Push(0, Expected::Character),
        (Expected::Escape, _) => Move::Bad,
        (Expected::Tail { low, high, more }, _) => pushed(byte, after_tail(low, high, more, byte)),
    }
}
