//! Types with a notation, lists of them, and parts that may be left out.

ghost use Rattle.std.specs.Prelude.{◌≡◌, ◌++◌, ◌↔◌, ℕ, List, Result, IsTrue, OnOk};
ghost use Rattle.std.specs.List.{flat_map, All, AllByRecursion};
ghost use Rattle.body_notations.specs.Reading.{Gives, Read, items_at, is_set, list_at, part_at};
ghost use Rattle.body_notations.specs.Spelling.{ListFits, PartFits, list, part};

use crate::consistency::Consistency;
use crate::fault::Fault;
use crate::reading::{
    read_bytes, read_consistency, read_int, read_long, read_short, read_string, read_value,
};
use crate::value::Value;
use crate::writing::{
    write_bytes, write_consistency, write_int, write_long, write_short, write_string, write_value,
};
use cs_base::{Bytes, Items, Text};
use std::alloc::{AllocError, Global};

/// What a [short] and what an [int] can't count.
pub const SHORT_LIMIT: usize = 65_536;

pub const INT_LIMIT: usize = 2_147_483_648;

/// A type whose values are read and written in one notation.
pub trait Notation: Drop + Sized {
    ghost reading: { List ℕ → Read Self };

    ghost spelling: { Self → List ℕ };

    /// The value has a word: no part of it is too long for its length.
    ghost fits: { Self → Type 0 };

    /// The word at the front of the bytes.
    fn read(alloc: Global, bytes: &[u8]) -> Result<(Self, &[u8]), Fault>
        ensures { Gives (λ x. (x.0, x.1.now)) result (reading bytes.now) };

    /// Writes the word at the end.
    fn write(&self, out: &mut Vec<u8>) -> Result<(), AllocError>
        requires { fits self.now }
        ensures { OnOk result (out.new.items ≡ out.old.items ++ spelling self.now) };

    /// Whether the value has a word.
    fn has_word(&self) -> bool
        ensures { IsTrue result ↔ fits self.now };
}

/// So many words, one after another.
pub fn read_items<T: Notation>(
    alloc: Global,
    count: usize,
    bytes: &[u8],
) -> Result<(Items<T>, &[u8]), Fault>
    ensures { Gives (λ x. (x.0, x.1.now)) result (items_at T.reading count bytes.now) }
{
    let mut items = Vec::new(alloc);
    let mut rest = bytes;
    for _ in 0..count {
        let (item, after) = T::read(alloc, rest)?;
        items.push(item)?;
        rest = after;
    }
    Ok((Items::from_vec(items), rest))
}

/// A list: a [short], and so many words.
#[tactic(auto, unfolding(crate::specs::Reading::list_at))]
pub fn read_list<T: Notation>(alloc: Global, bytes: &[u8]) -> Result<(Items<T>, &[u8]), Fault>
    ensures { Gives (λ x. (x.0, x.1.now)) result (list_at T.reading bytes.now) }
{
    let (count, rest) = read_short(bytes)?;
    read_items(alloc, usize::from(count), rest)
}

/// Writes words one after another.
pub fn write_items<T: Notation>(out: &mut Vec<u8>, items: &Items<T>) -> Result<(), AllocError>
    requires { AllByRecursion T.fits items.now }
    ensures { OnOk result (out.new.items ≡ out.old.items ++ flat_map T.spelling items.now) }
{
    for item in items.as_slice() {
        item.write(out)?;
    }
    Ok(())
}

/// Writes a list.
pub fn write_list<T: Notation>(out: &mut Vec<u8>, items: &Items<T>) -> Result<(), AllocError>
    requires { ListFits T.fits items.now }
    ensures { OnOk result (out.new.items ≡ out.old.items ++ list T.spelling items.now) }
{
    write_short(out, items.as_slice().len() as u16)?;
    write_items(out, items)
}

/// Whether a flag is set.
pub fn is_set(flags: u8, flag: u8) -> bool
    ensures { result ≡ is_set flags flag }
{
    flags & flag != 0
}

fn each_has_word<T: Notation>(items: &[T]) -> bool
    ensures { IsTrue result ↔ All T.fits items.now }
{
    items.iter().all(|item| item.has_word())
}

/// Whether each of the values has a word.
pub fn all_have_word<T: Notation>(items: &Items<T>) -> bool
    ensures { IsTrue result ↔ AllByRecursion T.fits items.now }
{
    each_has_word(items.as_slice())
}

/// Whether a list has a word.
pub fn list_has_word<T: Notation>(items: &Items<T>) -> bool
    ensures { IsTrue result ↔ ListFits T.fits items.now }
{
    items.as_slice().len() < SHORT_LIMIT && all_have_word(items)
}

/// Whether a part has a word, or is left out.
pub fn part_has_word<T: Notation>(value: &Option<T>) -> bool
    ensures { IsTrue result ↔ PartFits T.fits value.now }
{
    match value {
        None => true,
        Some(value) => value.has_word(),
    }
}

/// A part that stands there if its flag is set.
pub fn read_part<T: Notation>(
    alloc: Global,
    is_set: bool,
    bytes: &[u8],
) -> Result<(Option<T>, &[u8]), Fault>
    ensures { Gives (λ x. (x.0, x.1.now)) result (part_at is_set T.reading bytes.now) }
{
    if !is_set {
        return Ok((None, bytes));
    }
    let (value, rest) = T::read(alloc, bytes)?;
    Ok((Some(value), rest))
}

/// Writes a part, or nothing.
pub fn write_part<T: Notation>(out: &mut Vec<u8>, value: &Option<T>) -> Result<(), AllocError>
    requires { PartFits T.fits value.now }
    ensures { OnOk result (out.new.items ≡ out.old.items ++ part T.spelling value.now) }
{
    match value {
        None => Ok(()),
        Some(value) => value.write(out),
    }
}

/// A [short].
impl Notation for u16 {
    ghost use Rattle.body_notations.specs.Reading.{short_at};
    ghost use Rattle.body_notations.specs.Spelling.{short, Always};

    ghost reading = { short_at };

    ghost spelling = { short };

    ghost fits = { Always };

    fn read(_: Global, bytes: &[u8]) -> Result<(u16, &[u8]), Fault> {
        read_short(bytes)
    }

    fn write(&self, out: &mut Vec<u8>) -> Result<(), AllocError> {
        write_short(out, *self)
    }

    fn has_word(&self) -> bool {
        true
    }
}

/// An [int].
impl Notation for i32 {
    ghost use Rattle.body_notations.specs.Reading.{int_at};
    ghost use Rattle.body_notations.specs.Spelling.{int, Always};

    ghost reading = { int_at };

    ghost spelling = { int };

    ghost fits = { Always };

    fn read(_: Global, bytes: &[u8]) -> Result<(i32, &[u8]), Fault> {
        read_int(bytes)
    }

    fn write(&self, out: &mut Vec<u8>) -> Result<(), AllocError> {
        write_int(out, *self)
    }

    fn has_word(&self) -> bool {
        true
    }
}

/// A [long].
impl Notation for i64 {
    ghost use Rattle.body_notations.specs.Reading.{long_at};
    ghost use Rattle.body_notations.specs.Spelling.{long, Always};

    ghost reading = { long_at };

    ghost spelling = { long };

    ghost fits = { Always };

    fn read(_: Global, bytes: &[u8]) -> Result<(i64, &[u8]), Fault> {
        read_long(bytes)
    }

    fn write(&self, out: &mut Vec<u8>) -> Result<(), AllocError> {
        write_long(out, *self)
    }

    fn has_word(&self) -> bool {
        true
    }
}

/// A [consistency].
impl Notation for Consistency {
    ghost use Rattle.body_notations.specs.Reading.{consistency_at};
    ghost use Rattle.body_notations.specs.Spelling.{consistency, Always};

    ghost reading = { consistency_at };

    ghost spelling = { consistency };

    ghost fits = { Always };

    fn read(_: Global, bytes: &[u8]) -> Result<(Consistency, &[u8]), Fault> {
        read_consistency(bytes)
    }

    fn write(&self, out: &mut Vec<u8>) -> Result<(), AllocError> {
        write_consistency(out, *self)
    }

    fn has_word(&self) -> bool {
        true
    }
}

/// A [string].
impl Notation for Text {
    ghost use Rattle.body_notations.specs.Reading.{string_at};
    ghost use Rattle.body_notations.specs.Spelling.{string, FitsShort};

    ghost reading = { string_at };

    ghost spelling = { string };

    ghost fits = { FitsShort };

    fn read(alloc: Global, bytes: &[u8]) -> Result<(Text, &[u8]), Fault> {
        read_string(alloc, bytes)
    }

    fn write(&self, out: &mut Vec<u8>) -> Result<(), AllocError> {
        write_string(out, self)
    }

    fn has_word(&self) -> bool {
        self.as_str().len() < SHORT_LIMIT
    }
}

/// A [value].
impl Notation for Value {
    ghost use Rattle.body_notations.specs.Reading.{value_at};
    ghost use Rattle.body_notations.specs.Spelling.{value, ValueFits};

    ghost reading = { value_at };

    ghost spelling = { value };

    ghost fits = { ValueFits };

    fn read(alloc: Global, bytes: &[u8]) -> Result<(Value, &[u8]), Fault> {
        read_value(alloc, bytes)
    }

    fn write(&self, out: &mut Vec<u8>) -> Result<(), AllocError> {
        write_value(out, self)
    }

    fn has_word(&self) -> bool {
        match self {
            Value::Null | Value::NotSet => true,
            Value::Given(content) => content.as_slice().len() < INT_LIMIT,
        }
    }
}

/// [bytes].
impl Notation for Option<Bytes> {
    ghost use Rattle.body_notations.specs.Reading.{bytes_at};
    ghost use Rattle.body_notations.specs.Spelling.{bytes, BytesFit};

    ghost reading = { bytes_at };

    ghost spelling = { bytes };

    ghost fits = { BytesFit };

    fn read(alloc: Global, bytes: &[u8]) -> Result<(Option<Bytes>, &[u8]), Fault> {
        read_bytes(alloc, bytes)
    }

    #[inline(always)]
    fn write(&self, out: &mut Vec<u8>) -> Result<(), AllocError> {
        write_bytes(out, self)
    }

    fn has_word(&self) -> bool {
        match self {
            None => true,
            Some(content) => content.as_slice().len() < INT_LIMIT,
        }
    }
}
