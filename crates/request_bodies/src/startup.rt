//! String maps.

ghost use Rattle.std.specs.Prelude.{◌≡◌, ◌++◌, ◌↔◌, IsTrue, OnOk};
ghost use Rattle.body_notations.specs.Reading.{Gives};

use body_notations::{Fault, Notation, read_string, write_string};
use cs_base::{Items, Text};
use std::alloc::{AllocError, Global};

/// A [string] and its value, another [string].
#[derive(Debug, Drop)]
pub struct StringPair {
    pub key: Text,
    pub value: Text,
}

/// A [string map], in the order of the bytes. A key that stands there twice is there twice.
pub type StringMap = Items<StringPair>;

#[tactic(auto, unfolding(crate::specs::Reading::pair_at))]
impl Notation for StringPair {
    ghost use Rattle.request_bodies.specs.Reading.{pair_at};
    ghost use Rattle.request_bodies.specs.Spelling.{pair, PairFits};

    ghost reading = { pair_at };

    ghost spelling = { pair };

    ghost fits = { PairFits };

    fn read(alloc: Global, bytes: &[u8]) -> Result<(StringPair, &[u8]), Fault> {
        let (key, rest) = read_string(alloc, bytes)?;
        let (value, rest) = read_string(alloc, rest)?;
        Ok((StringPair { key, value }, rest))
    }

    fn write(&self, out: &mut Vec<u8>) -> Result<(), AllocError> {
        write_string(out, &self.key)?;
        write_string(out, &self.value)
    }

    fn has_word(&self) -> bool {
        self.key.has_word() && self.value.has_word()
    }
}
