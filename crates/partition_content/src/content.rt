//! What a node keeps of a partition.

ghost use Rattle.std.specs.Prelude.{◌≡◌, ◌↔◌, ◌≤◌, [], None, length, map, Contains, IsTrue, IfOk, OnOk, OnErr, IfSome, IfNone};
ghost use Rattle.cell_merge.specs.Settled.{IsSettled};
ghost use Rattle.changes.specs.Contents.{IsMergeOf};
ghost use Rattle.changes.specs.Lengths.{changes_length};
ghost use Rattle.changes.specs.Places.{AreInOrder};
ghost use Rattle.changes.specs.Queries.{IsSlice};

use crate::Arrived;
use crate::lengths::length_with;
use crate::memory::{Ready, give_back, give_back_unused, stays_bare, take_memory};
use crate::reading::{copy_all, copy_slice, copy_stored};
use crate::runs::{length_of, plant};
use crate::slots::{Slots, stored_of_place};
use crate::taking::put_all;
use cell_merge::Content;
use changes::{Bound, Place, encoded_length};
use cs_base::Micros;
use std::alloc::{AllocError, Global};
use std::collections::BTreeMap;
use std::marker::Model;

/// The changes of a partition, none of which another one there outranks, in the order of their places. Further ones are put
/// in by `apply`, once `reserve` has taken the memory that this needs.
#[derive(Drop)]
pub struct PartitionContent {
    slots: Slots,
    ready: Option<Ready>,
    length: u64,
    /// Whether no deletion of rows is among the changes, so that a cell is outranked at its own place alone.
    bare: bool,
    alloc: Global,
}

impl Model for PartitionContent {
    ghost use Rattle.partition_content.specs.Partition.{Partition, places_in, IsKept};
    ghost use Rattle.partition_content.specs.Slots.{stored_of, helds_of};

    ghost Value = { Partition };

    ghost view = { λ a. record { stored = stored_of a.slots.entries; ready = places_in a.ready } };

    ghost invariant = { λ a. IsKept (helds_of a.slots) a.ready a.length a.bare };
}

impl PartitionContent {
    ghost use Rattle.partition_content.specs.Lengths.{IsMergedLength};
    ghost use Rattle.partition_content.specs.Arrivals.{held_of, ComeAt, IsVacant};
    ghost use Rattle.partition_content.specs.Partition.{changes_in, AreBare, IsReadyFor};

    /// No changes, without an allocation. Further memory comes from this allocator.
    pub fn new(alloc: Global) -> PartitionContent
        ensures stored { result.stored ≡ [] }
        ensures ready { result.ready ≡ None }
    {
        PartitionContent {
            slots: BTreeMap::new(alloc),
            ready: None,
            length: encoded_length(&[]),
            bare: true,
            alloc,
        }
    }

    /// What is kept of these changes, cells and markers in the order of their places. It is an error too where their length
    /// would not be below 2^64.
    pub(crate) fn of_run(alloc: Global, run: Vec<Arrived>) -> Result<PartitionContent, AllocError>
        requires ordered { AreInOrder (map held_of run.items) }
        requires bare { AreBare (map held_of run.items) }
        ensures { IfOk result (λ content. content.stored ≡ run.items) }
    {
        let Some(length) = length_of(&run) else {
            return Err(AllocError);
        };
        let slots = plant(alloc, run)?;
        Ok(PartitionContent {
            slots,
            ready: None,
            length,
            bare: true,
            alloc,
        })
    }

    /// Gives back the memory that was taken for changes that did not come.
    fn release(&mut self)
        ensures stored { self.new.stored ≡ self.old.stored }
        ensures ready { self.new.ready ≡ None }
    {
        if let Some(ready) = self.ready.take() {
            give_back(&mut self.slots, &ready.keys);
        }
    }

    /// Takes all the memory that `apply` needs for these changes, so that it can't fail. The changes stay as they are. Memory
    /// that was taken before for others is given back. It is an error too where the length would not be below 2^64. A change
    /// costs the logarithm of the changes held, and a deletion of rows also what is held in its place: a copy of each key there.
    pub fn reserve(&mut self, incoming: &Content) -> Result<(), AllocError>
        ensures stored { self.new.stored ≡ self.old.stored }
        ensures ready { OnOk result (IsReadyFor self.new incoming.now) }
        ensures err { OnErr result (self.new.ready ≡ None) }
    {
        self.release();
        let changes = incoming.as_slice();
        if self.length.checked_add(encoded_length(changes)).is_none() {
            return Err(AllocError);
        }
        let bare = stays_bare(self.bare, changes);
        let ready = take_memory(&mut self.slots, self.alloc, bare, changes)?;
        self.ready = Some(ready);
        Ok(())
    }

    /// Puts in changes for which there is memory, at a node time: the content is then that of both. What was there keeps its
    /// arrival, also where it comes again, and what was not comes at this time. It takes no memory, and moves the changes. A
    /// change costs the logarithm of the changes held and the number of deletions of ranges, and a deletion of rows also what
    /// is held in its place.
    pub fn apply(&mut self, incoming: Content, at: Micros)
        requires { IsReadyFor self.old incoming }
        ensures content { IsMergeOf (changes_in self.new) (changes_in self.old) incoming }
        ensures arrivals { ComeAt at self.old.stored self.new.stored }
        ensures ready { self.new.ready ≡ None }
    {
        if let Some(ready) = self.ready.take() {
            self.length = put_all(
                &mut self.slots,
                self.length,
                self.alloc,
                ready.bare,
                &ready.keys,
                &ready.inside,
                incoming.into_changes(),
                at,
            );
            self.bare = ready.bare;
            give_back_unused(&mut self.slots, &ready);
        }
    }

    /// The length that `apply` would leave, as the changes are stored, told before it is called; `reserve` has to come first. It
    /// costs what `apply` costs, and where deletions of rows come, for each change that is outranked the logarithm of those that
    /// come and the number of deletions of ranges among them.
    pub fn length_with(&self, incoming: &Content) -> u64
        requires { IsReadyFor self.now incoming.now }
        ensures { IsMergedLength (changes_in self.now) incoming.now result }
    {
        match &self.ready {
            Some(ready) => length_with(
                &self.slots,
                self.length,
                self.alloc,
                ready.bare,
                &ready.keys,
                incoming.as_slice(),
            ),
            None => self.length,
        }
    }

    /// What the rows between the bounds ask of the content: the changes of these rows, and the deletions of rows that meet the
    /// bounds, in memory of their own. It costs the logarithm of the changes held, the changes given, and the number of
    /// deletions of ranges.
    pub fn slice(&self, alloc: Global, from: &Bound, upto: &Bound) -> Result<Content, AllocError>
        ensures { IfOk result (λ part. IsSlice from.now upto.now (changes_in self.now) part) }
    {
        let changes = copy_slice(alloc, &self.slots, from, upto)?;
        Ok(Content::from_settled(changes))
    }

    /// All changes, in memory of their own.
    pub fn whole(&self, alloc: Global) -> Result<Content, AllocError>
        ensures { IfOk result (λ content. content ≡ changes_in self.now) }
    {
        let changes = copy_all(alloc, &self.slots)?;
        Ok(Content::from_settled(changes))
    }

    /// All changes with their arrivals, in the order of their places, in memory of their own.
    pub fn stored(&self, alloc: Global) -> Result<Vec<Arrived>, AllocError>
        ensures { IfOk result (λ all. all.items ≡ self.now.stored) }
    {
        copy_stored(alloc, &self.slots)
    }

    /// The change at a place, with its arrival. Keys are places that are owned, so a caller who has but a reference copies it.
    pub fn get(&self, place: Place) -> Option<&Arrived>
        ensures there { IfSome result (λ x. Contains self.now.stored x.now × (x.now.held.place ≡ place)) }
        ensures none { IfNone result (IsVacant self.now.stored place) }
    {
        stored_of_place(&self.slots, place)
    }

    /// Whether there are no changes.
    pub fn is_empty(&self) -> bool
        ensures { IsTrue result ↔ (changes_in self.now ≡ []) }
    {
        self.length == encoded_length(&[])
    }

    /// The length of the changes as they are stored.
    pub fn encoded_length(&self) -> u64
        ensures length { result ≡ changes_length (changes_in self.now) }
        ensures settled { IsSettled (changes_in self.now) }
    {
        self.length
    }

    /// How many keys the tree has: one for each change, and one for each place for which memory is taken.
    pub fn key_count(&self) -> usize
        ensures { length self.now.stored ≤ result }
    {
        self.slots.len()
    }
}
