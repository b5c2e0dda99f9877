//! The history of a lock.

ghost use Rattle.std.specs.Prelude.{◌≡◌, ◌<◌, [], ◌∷◌, ◌++◌, length, IfOk};

use std::alloc::{AllocError, Global};
use std::marker::Model;

/// How many entries a history has at most.
pub const MOST_ENTRIES: u64 = 400_000;

/// The entries of all steps, each with the number of the pass that made it. Contracts see it as their list.
#[derive(Debug, Drop)]
pub struct History<E> {
    entries: Vec<(u32, E)>,
}

impl<E> Model for History<E> {
    ghost use Rattle.std.specs.Prelude.{ℕ, ◌≤◌, List, vec_capacity};

    ghost Value = { List (ℕ × E) };

    ghost view = { λ a. a.entries.items };

    // there is room for all entries from the start
    ghost invariant = { λ a. 400000 ≤ vec_capacity a.entries };
}

impl<E> History<E> {
    /// An empty history, with the memory for all its entries.
    pub(crate) fn new(alloc: Global) -> Result<History<E>, AllocError>
        ensures { IfOk result (λ history. history ≡ []) }
    {
        let entries = Vec::with_capacity(alloc, MOST_ENTRIES as usize)?;
        Ok(History { entries })
    }

    pub(crate) fn len(&self) -> u64
        ensures { result ≡ length self.now }
    {
        self.entries.len() as u64
    }

    pub(crate) fn push(&mut self, number: u32, entry: E)
        requires { length self.old < 400000 }
        ensures { self.new ≡ self.old ++ (number, entry) ∷ [] }
    {
        self.entries.push_reserved((number, entry));
    }

    pub fn as_slice(&self) -> &[(u32, E)]
        ensures { result.now ≡ self.now }
    {
        self.entries.as_slice()
    }

    /// Gives the entries back, without an allocation.
    pub fn into_vec(self) -> Vec<(u32, E)>
        ensures { result.items ≡ self }
    {
        self.entries
    }
}
