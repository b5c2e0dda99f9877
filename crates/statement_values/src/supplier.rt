//! The values for the markers of a statement, one marker after another.

ghost use Rattle.std.specs.Prelude.{◌≡◌, [], option_copied};
ghost use Rattle.statement_values.specs.declared.params.Params.TheVariants as from;
ghost use Rattle.statement_values.specs.Supply.{left_of, next_given, has_left};
ghost use Rattle.statement_values.specs.Sources.{left_in};

use crate::params::{Param, Params};
use std::collections::BTreeMap;

/// Where the values for the markers that are still to come are found.
#[derive(Drop)]
enum Source<'a> {
    Next(&'a [Param]),
    Named(&'a BTreeMap<String, Param>),
}

/// The values for the markers that are still to come.
#[derive(Drop)]
pub struct Supplier<'a> {
    source: Source<'a>,
}

impl<'a> Supplier<'a> {
    /// All values of a request.
    pub fn new(params: &'a Params) -> Supplier<'a>
        ensures { left_in result ≡ params.now }
    {
        let source = match params {
            Params::ByPlace(values) => Source::Next(values.as_slice()),
            Params::ByName(values) => Source::Named(values),
        };
        Supplier { source }
    }

    /// No values.
    pub fn empty() -> Supplier<'a>
        ensures { left_in result ≡ from.ByPlace [] }
    {
        Supplier {
            source: Source::Next(&[]),
        }
    }

    /// The value for the next marker, which has this name.
    pub fn take(&mut self, name: &str) -> Option<&'a Param>
        ensures value { option_copied result ≡ next_given (left_in self.old) name.now }
        ensures left { left_in self.new ≡ left_of (left_in self.old) }
    {
        match self.source {
            Source::Named(values) => values.get(name),
            Source::Next([]) => None,
            Source::Next([next, rest @ ..]) => {
                self.source = Source::Next(rest);
                Some(next)
            }
        }
    }

    /// Whether values are left that no marker took.
    pub fn has_left(&self) -> bool
        ensures { result ≡ has_left (left_in self.now) }
    {
        match self.source {
            Source::Next(values) => !values.is_empty(),
            Source::Named(_) => false,
        }
    }
}
