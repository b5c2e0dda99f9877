//! A table of hints, with what finds them by number and by age.

ghost use Rattle.std.specs.Prelude.{◌≡◌, ◌+◌, [], false, not, filter, length, OnOk, OnErr, IfErr, IfSome, IfNone};
ghost use Rattle.std.specs.List.{list_any};
ghost use Rattle.std.specs.BTreeMap.{insert_entry, IsOrdered};
ghost use Rattle.std.specs.Map.{values_of};
ghost use Rattle.hint_store.specs.Tables.{place_cmp, is_place, is_hint, IsVacant, IsPushed, IsAt};

use crate::index::{ByAge, ByNumber, enter, leave};
use cs_base::NodeId;
use row_change::Hint;
use std::alloc::{AllocError, Global};
use std::collections::{BTreeMap, BTreeSet};
use std::marker::Model;
use std::ops::Bound;

/// A hint's peer, and its place in the sequence in which hints came.
pub(crate) type Place = (NodeId, u64);

/// Hints by place, so that each peer's own stand in the order in which they came; and beside it by number and by age.
#[derive(Drop)]
pub(crate) struct HintTable {
    pub(crate) by_place: BTreeMap<Place, Hint>,
    pub(crate) by_number: ByNumber,
    pub(crate) by_age: ByAge,
    /// The place in the sequence that the next hint gets.
    pub(crate) next: u64,
}

impl Model for HintTable {
    ghost use Rattle.hint_store.specs.Tables.{Filed, IsTable};

    ghost Value = { Filed };

    ghost view = { λ a. record { entries = a.by_place.entries; next = a.next } };

    ghost invariant = { λ a. IsTable a.by_place.entries a.by_number.keys a.by_age.keys a.next };
}

/// Puts in a hint at a place, or hands it back for want of memory.
fn put_in(by_place: &mut BTreeMap<Place, Hint>, place: Place, hint: Hint) -> Result<(), Hint>
    ensures entries { OnOk result (by_place.new.entries ≡ insert_entry place_cmp by_place.old.entries place hint) }
    ensures ordered { IsOrdered place_cmp by_place.new }
    ensures err { OnErr result (by_place.new.entries ≡ by_place.old.entries) }
    ensures back { IfErr result (λ back. back ≡ hint) }
{
    match by_place.insert(place, hint) {
        Ok(old) => {
            drop(old);
            Ok(())
        }
        Err(failed) => Err(failed.value.1),
    }
}

impl HintTable {
    /// No hints, without an allocation. Further memory comes from this allocator.
    pub fn new(alloc: Global) -> HintTable
        ensures { result.entries ≡ [] }
    {
        HintTable {
            by_place: BTreeMap::new(alloc),
            by_number: BTreeSet::new(alloc),
            by_age: BTreeSet::new(alloc),
            next: 0,
        }
    }

    /// The place of a hint of this peer that would come now.
    pub fn next_place(&self, peer: NodeId) -> Place
        ensures place { result ≡ (peer, self.now.next) }
        ensures vacant { IsVacant (peer, self.now.next) self.now.entries }
    {
        (peer, self.next)
    }

    /// Puts in a hint at the place that comes next.
    pub fn push(&mut self, hint: Hint) -> Result<(), AllocError>
        ensures ok { OnOk result (IsPushed self.old.entries (hint.peer, self.old.next) hint self.new.entries) }
        ensures err { OnErr result (self.new ≡ self.old) }
    {
        let sequence = self.next;
        let Some(next) = sequence.checked_add(1) else {
            return Err(AllocError);
        };
        enter(&mut self.by_number, &mut self.by_age, &hint, sequence)?;
        if let Err(hint) = put_in(&mut self.by_place, (hint.peer, sequence), hint) {
            leave(&mut self.by_number, &mut self.by_age, &hint, sequence);
            drop(hint);
            return Err(AllocError);
        }
        self.next = next;
        Ok(())
    }

    /// Takes out the hint at a place, if there is one.
    pub fn remove(&mut self, place: &Place)
        ensures { self.new.entries ≡ filter (λ e. not (is_place place.now e.0)) self.old.entries }
    {
        if let Some(hint) = self.by_place.remove(place) {
            leave(&mut self.by_number, &mut self.by_age, &hint, place.1);
            drop(hint);
        }
    }

    /// The place in the sequence of the first of a peer's hints of this number.
    fn sequence_of(&self, peer: NodeId, number: u64) -> Option<u64>
        ensures there { IfSome result (λ sequence. IsAt peer number sequence self.now.entries) }
        ensures none { IfNone result (list_any (λ e. is_hint peer number e.1) self.now.entries ≡ false) }
    {
        let from = (peer, number, 0);
        let upto = (peer, number, self.next);
        let mut sequences = self
            .by_number
            .range((Bound::Included(&from), Bound::Excluded(&upto)));
        match sequences.next() {
            Some(key) => Some(key.2),
            None => None,
        }
    }

    /// How many hints a peer has of this number: one or none, unless what was restored had several.
    pub fn count(&self, peer: NodeId, number: u64) -> usize
        ensures { result ≡ length (filter (is_hint peer number) (values_of self.now.entries)) }
    {
        let from = (peer, number, 0);
        let upto = (peer, number, self.next);
        self.by_number
            .range((Bound::Included(&from), Bound::Excluded(&upto)))
            .count()
    }

    /// Takes out a peer's hints of this number.
    pub fn remove_number(&mut self, peer: NodeId, number: u64)
        ensures { self.new.entries ≡ filter (λ e. not (is_hint peer number e.1)) self.old.entries }
    {
        while let Some(sequence) = self.sequence_of(peer, number) {
            self.remove(&(peer, sequence));
        }
    }
}
