//! String multimaps.

ghost use Rattle.std.specs.Prelude.{◌≡◌, ◌++◌, ◌↔◌, IsTrue, OnOk};
ghost use Rattle.body_notations.specs.Reading.{Gives};

use body_notations::{
    Fault, Notation, list_has_word, read_list, read_string, write_list, write_string,
};
use cs_base::{Items, Text};
use std::alloc::{AllocError, Global};

/// An option of STARTUP and the values that it can have.
#[derive(Debug, Drop)]
pub struct SupportedOption {
    pub name: Text,
    pub values: Items<Text>,
}

/// A [string multimap], in the order of the bytes.
pub type StringLists = Items<SupportedOption>;

#[tactic(auto, unfolding(crate::specs::Reading::option_at))]
impl Notation for SupportedOption {
    ghost use Rattle.response_bodies.specs.Reading.{option_at};
    ghost use Rattle.response_bodies.specs.Spelling.{option, OptionFits};

    ghost reading = { option_at };

    ghost spelling = { option };

    ghost fits = { OptionFits };

    fn read(alloc: Global, bytes: &[u8]) -> Result<(SupportedOption, &[u8]), Fault> {
        let (name, rest) = read_string(alloc, bytes)?;
        let (values, rest) = read_list(alloc, rest)?;
        Ok((SupportedOption { name, values }, rest))
    }

    fn write(&self, out: &mut Vec<u8>) -> Result<(), AllocError> {
        write_string(out, &self.name)?;
        write_list(out, &self.values)
    }

    fn has_word(&self) -> bool {
        self.name.has_word() && list_has_word(&self.values)
    }
}
