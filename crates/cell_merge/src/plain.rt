//! The plain program of contents, which scans lists.

ghost use Rattle.std.specs.Prelude.{◌≡◌, ◌↔◌, ◌+◌, ◌<◌, ◌≤◌, ◌∷◌, ◌++◌, [], IsTrue, MatchBool, OnOk, OnErr, Contains, vec_len, vec_capacity};
ghost use Rattle.changes.specs.Order.{Outranks};
ghost use Rattle.changes.specs.Contents.{AreApart, Either, IsContent, IsReachedBy};
ghost use Rattle.cell_merge.specs.Parts.{IsLeftBy};

use crate::lists::is_same;
use changes::Held;
use std::alloc::{AllocError, Global};
use std::marker::Model;

/// Whether one of the changes is this one or outranks it.
fn is_reached(by: &[Held], x: &Held) -> bool
    ensures { IsTrue result ↔ IsReachedBy by.now x.now }
{
    for y in by {
        if is_same(y, x) || y.outranks(x) {
            return true;
        }
    }
    false
}

fn stays_beside(x: &Held, y: &Held) -> bool
    ensures { MatchBool result (Outranks x.now y.now → ⊥) (Outranks x.now y.now) }
{
    !x.outranks(y)
}

fn remove_outranked(kept: &mut Vec<Held>, x: &Held)
    ensures items { IsLeftBy x.now kept.old.items kept.new.items }
    ensures len { vec_len kept.new ≤ vec_len kept.old }
    ensures capacity { vec_capacity kept.new ≡ vec_capacity kept.old }
{
    kept.retain(|y| stays_beside(x, y));
}

/// Puts a change behind the others, into room that is there.
fn push_in_room(kept: &mut Vec<Held>, x: Held)
    requires { vec_len kept.old < vec_capacity kept.old }
    ensures items { kept.new.items ≡ kept.old.items ++ x ∷ [] }
    ensures len { vec_len kept.new ≡ vec_len kept.old + 1 }
    ensures capacity { vec_capacity kept.old ≤ vec_capacity kept.new }
{
    kept.push_reserved(x);
}

/// Takes in a change, unless one of the list outranks it or is it. There is room for it.
fn take_in(kept: &mut Vec<Held>, x: Held)
    requires room { vec_len kept.old < vec_capacity kept.old }
    requires apart { AreApart kept.old.items }
    ensures content { IsContent kept.new.items (Either (Contains kept.old.items) (λ y. x ≡ y)) }
    ensures len { vec_len kept.new ≤ vec_len kept.old + 1 }
    ensures capacity { vec_capacity kept.old ≤ vec_capacity kept.new }
{
    if is_reached(kept, &x) {
        drop(x);
        return;
    }
    remove_outranked(kept, &x);
    push_in_room(kept, x);
}

/// Takes in changes, for all of which there is room.
fn take_all(kept: &mut Vec<Held>, changes: Vec<Held>)
    requires room { vec_len kept.old + vec_len changes ≤ vec_capacity kept.old }
    requires apart { AreApart kept.old.items }
    ensures { IsContent kept.new.items (Either (Contains kept.old.items) (Contains changes.items)) }
{
    for x in changes {
        take_in(kept, x);
    }
}

/// The plain program of contents: one list of changes none of which outranks another, in no order. Each change that comes is
/// compared with all others, so it serves to compare `Content` with.
#[derive(Debug, Drop)]
pub struct PlainContent {
    changes: Vec<Held>,
}

impl Model for PlainContent {
    ghost use Rattle.std.specs.Prelude.{List};
    ghost use Rattle.changes.specs.declared.Held.{Held};
    ghost use Rattle.changes.specs.Contents.{AreApart};

    ghost Value = { List Held };

    ghost view = { λ a. a.changes.items };

    ghost invariant = { λ a. AreApart a.changes.items };
}

impl PlainContent {
    /// No changes, without an allocation.
    pub fn new(alloc: Global) -> PlainContent
        ensures { result ≡ [] }
    {
        PlainContent {
            changes: Vec::new(alloc),
        }
    }

    /// The changes, in no order.
    pub fn as_slice(&self) -> &[Held]
        ensures { result.now ≡ self.now }
    {
        &self.changes
    }

    /// Adds changes: the content is then that of the old one and these.
    pub fn apply(&mut self, changes: Vec<Held>) -> Result<(), AllocError>
        ensures ok { OnOk result (IsContent self.new (Either (Contains self.old) (Contains changes.items))) }
        ensures err { OnErr result (self.new ≡ self.old) }
    {
        self.changes.reserve(changes.len())?;
        take_all(&mut self.changes, changes);
        Ok(())
    }
}
