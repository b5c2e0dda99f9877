//! The content of a partition, or of a part of it: changes none of which another one there outranks, in order.

ghost use Rattle.std.specs.Prelude.{◌≡◌, ◌↔◌, [], IsTrue, IfOk, Contains};
ghost use Rattle.changes.specs.Contents.{IsContent, IsMergeOf, AreApart};
ghost use Rattle.changes.specs.Places.{AreInOrder};
ghost use Rattle.changes.specs.Queries.{IsSlice};
ghost use Rattle.cell_merge.specs.Walks.{IsWalkOver};

use crate::lists::{are_same, copy_meeting, copy_onto, merged, rows_between, settled};
use crate::ranking::split_rows;
use crate::walk::RowWalk;
use changes::{Bound, Held};
use std::alloc::{AllocError, Global};
use std::marker::Model;

/// Changes of a partition none of which another one there outranks, in the order of their places. It is what goes between
/// nodes: a slice of what a node keeps, a reply, and what merges replies.
#[derive(Debug, Drop)]
pub struct Content {
    changes: Vec<Held>,
}

impl Model for Content {
    ghost use Rattle.std.specs.Prelude.{List};
    ghost use Rattle.changes.specs.declared.Held.{Held};
    ghost use Rattle.cell_merge.specs.Settled.{IsSettled};

    ghost Value = { List Held };

    ghost view = { λ a. a.changes.items };

    ghost invariant = { λ a. IsSettled a.changes.items };
}

impl Content {
    /// No changes, without an allocation.
    pub fn new(alloc: Global) -> Content
        ensures { result ≡ [] }
    {
        Content {
            changes: Vec::new(alloc),
        }
    }

    /// The content of changes in any order. Changes that are in order and that no deletion of rows among them covers are looked
    /// at a few times; others are sorted, and each costs the logarithm of the number of deletions of rows, and again for each
    /// deletion of a range around it. Only deletions of rows are copied.
    pub fn from_changes(alloc: Global, changes: Vec<Held>) -> Result<Content, AllocError>
        ensures { IfOk result (λ content. IsContent content (Contains changes.items)) }
    {
        let changes = settled(alloc, changes)?;
        Ok(Content { changes })
    }

    /// The content of changes that are in order and none of which another one there outranks, without a look at them.
    pub fn from_settled(changes: Vec<Held>) -> Content
        requires ordered { AreInOrder changes.items }
        requires apart { AreApart changes.items }
        ensures { result ≡ changes.items }
    {
        Content { changes }
    }

    /// The changes, in order.
    pub fn as_slice(&self) -> &[Held]
        ensures value { result.now ≡ self.now }
        ensures ordered { AreInOrder self.now }
        ensures apart { AreApart self.now }
    {
        &self.changes
    }

    /// The changes, in order, without an allocation.
    pub fn into_changes(self) -> Vec<Held>
        ensures value { result.items ≡ self }
        ensures ordered { AreInOrder self }
        ensures apart { AreApart self }
    {
        self.changes
    }

    /// Whether there are no changes.
    pub fn is_empty(&self) -> bool
        ensures { IsTrue result ↔ (self.now ≡ []) }
    {
        self.changes.as_slice().is_empty()
    }

    /// Whether both have the same changes, in one walk over both.
    pub fn is_same(&self, other: &Content) -> bool
        ensures { IsTrue result ↔ (self.now ≡ other.now) }
    {
        are_same(&self.changes, &other.changes)
    }

    /// An equal content, in memory of its own.
    pub fn copy(&self, alloc: Global) -> Result<Content, AllocError>
        ensures { IfOk result (λ copy. copy ≡ self.now) }
    {
        let mut changes = Vec::new(alloc);
        copy_onto(alloc, &mut changes, &self.changes)?;
        Ok(Content { changes })
    }

    /// The content of both. Equal contents, as replicas mostly give them, are seen in one walk; of others it costs the
    /// logarithm of the one for each change of the other, and again for each deletion of a range around that change. No change
    /// is copied.
    pub fn merge(self, alloc: Global, other: Content) -> Result<Content, AllocError>
        ensures { IfOk result (λ merged. IsMergeOf merged self other) }
    {
        if self.is_same(&other) {
            return Ok(self);
        }
        let changes = merged(alloc, self.changes, other.changes)?;
        Ok(Content { changes })
    }

    /// What the rows between the bounds ask of the content: the changes of these rows, and the deletions of rows that meet
    /// the bounds, in memory of their own. It costs the logarithm of the changes, the number of deletions of ranges, and the
    /// changes given.
    pub fn slice(&self, alloc: Global, from: &Bound, upto: &Bound) -> Result<Content, AllocError>
        ensures { IfOk result (λ part. IsSlice from.now upto.now self.now part) }
    {
        let (wide, rows) = split_rows(&self.changes);
        let mut changes = copy_meeting(alloc, wide, from, upto)?;
        copy_onto(alloc, &mut changes, rows_between(rows, from, upto))?;
        Ok(Content { changes })
    }

    /// A walk over the rows between the bounds that have changes, in clustering order or in reverse. It costs the logarithm of
    /// the changes to begin; nothing is copied.
    pub fn rows(&self, from: &Bound, upto: &Bound, reversed: bool) -> RowWalk<'_>
        ensures rows { IsWalkOver from.now upto.now self.now reversed result }
        ensures apart { AreApart self.now }
    {
        RowWalk::new(rows_between(&self.changes, from, upto), reversed)
    }
}
