//! The store of a node's hints.

ghost use Rattle.std.specs.Prelude.{◌≡◌, ◌↔◌, ◌++◌, ◌+◌, ◌-◌, ℕ, [], ◌∷◌, IsTrue, IfOk, OnOk, OnErr, Contains, length, slice_index_or};
ghost use Rattle.std.specs.List.{list_any};
ghost use Rattle.std.specs.Map.{values_of};
ghost use Rattle.row_change.specs.declared.entry.Hint as hint;
ghost use Rattle.durable_state.specs.State.{hints_of, last_of};
ghost use Rattle.node_steps.specs.Hints.{is_full, is_kept, push_hint, drop_hint};
ghost use Rattle.hint_store.specs.Staged.{IsSameHints, no_hints, next_number, first_of};
ghost use Rattle.hint_store.specs.Tables.{is_hint};
ghost use Rattle.hint_store.specs.Tallies.{SetsAt};
ghost use Rattle.hint_store.specs.Stores.{hints_before, hints_now, HasNow};

use crate::aging::Expired;
use crate::gone::{Gone, is_among, remove_added, remove_gone};
use crate::table::{HintTable, Place};
use crate::tally::Tally;
use changes::Mutation;
use cs_base::{Items, Micros, NodeId};
use durable_state::LastNumber;
use peer_messages::Setting;
use row_change::Hint;
use std::alloc::{AllocError, Global};
use std::collections::BTreeSet;
use std::marker::Model;

/// A peer has so many hints at most.
const MOST: usize = 65_536;

/// The hints of a node and the last number of each peer, as they were kept last and as the step has them now.
#[derive(Drop)]
pub struct HintStore {
    /// The hints of before, and those that the step added.
    table: HintTable,
    /// What the step takes away.
    gone: Gone,
    /// Where the hints are that the step added.
    added: Vec<Place>,
    current: Tally,
    settled: Tally,
}

/// Puts in a hint, and counts it.
fn take_in(table: &mut HintTable, tally: &mut Tally, hint: Hint) -> Result<(), AllocError>
    ensures hints { OnOk result ((peer : ℕ) → hints_of (values_of table.new.entries) peer ≡ hints_of (values_of table.old.entries) peer ++ hints_of (hint ∷ []) peer) }
    ensures count { OnOk result (SetsAt hint.peer (slice_index_or tally.old.count hint.peer 0 + 1) tally.old.count tally.new.count) }
    ensures last { tally.new.last ≡ tally.old.last }
{
    let peer = hint.peer;
    if tally.count(peer) == usize::MAX {
        return Err(AllocError);
    }
    table.push(hint)?;
    tally.gain(peer);
    Ok(())
}

/// A table of these hints, each of which is counted.
fn fill(alloc: Global, hints: Vec<Hint>, tally: &mut Tally) -> Result<HintTable, AllocError>
    requires { (peer : ℕ) → slice_index_or tally.old.count peer 0 ≡ 0 }
    ensures hints { IfOk result (λ table. (peer : ℕ) → hints_of (values_of table.entries) peer ≡ hints_of hints.items peer) }
    ensures count { OnOk result ((peer : ℕ) → slice_index_or tally.new.count peer 0 ≡ length (hints_of hints.items peer)) }
    ensures last { tally.new.last ≡ tally.old.last }
{
    let mut table = HintTable::new(alloc);
    for hint in hints {
        take_in(&mut table, tally, hint)?;
    }
    Ok(table)
}

/// Puts in a hint, and notes its place among those that the step added.
fn stage(table: &mut HintTable, added: &mut Vec<Place>, hint: Hint) -> Result<(), AllocError>
    ensures before { hints_before added.new.items table.new.entries ≡ hints_before added.old.items table.old.entries }
    ensures now { OnOk result (HasNow hint table.old.entries table.new.entries) }
    ensures err { OnErr result (table.new.entries ≡ table.old.entries) }
{
    added.push(table.next_place(hint.peer))?;
    table.push(hint)?;
    Ok(())
}

/// Whether a peer has a hint of this number that is not gone.
fn is_left(table: &HintTable, gone: &Gone, peer: NodeId, number: u64) -> bool
    ensures { result ≡ list_any (is_hint peer number) (hints_now gone.now.keys table.now.entries) }
{
    if is_among(gone, peer, number) {
        return false;
    }
    table.count(peer, number) > 0
}

/// The oldest birth of a hint that is not past its age.
fn oldest_birth(expiry: Micros, time: Micros) -> Micros
    ensures { result ≡ time - expiry }
{
    Micros::new(time.count().saturating_sub(expiry.count()))
}

impl Model for HintStore {
    ghost use Rattle.hint_store.specs.Staged.{Staged};
    ghost use Rattle.hint_store.specs.Tallies.{numbers_from};
    ghost use Rattle.hint_store.specs.Stores.{hints_before, hints_now, IsStore};

    ghost Value = { Staged };

    ghost view = { λ a. record {
      before = record { hints = hints_before a.added.items a.table.entries; numbers = numbers_from 0 a.settled.last };
      now = record { hints = hints_now a.gone.keys a.table.entries; numbers = numbers_from 0 a.current.last };
    } };

    ghost invariant = { λ a. IsStore a.table.entries a.gone.keys a.added.items a.current a.settled };
}

impl HintStore {
    ghost use Rattle.hint_store.specs.Expiry.{IsExpired, AreOldestFirst, expired_of};
    ghost use Rattle.hint_store.specs.declared.aging.Expired as expired;

    /// No hints, without an allocation. Further memory comes from this allocator.
    pub fn new(alloc: Global) -> HintStore
        ensures before { result.before ≡ no_hints }
        ensures now { result.now ≡ no_hints }
    {
        let none = Tally::none();
        HintStore {
            table: HintTable::new(alloc),
            gone: BTreeSet::new(alloc),
            added: Vec::new(alloc),
            current: none,
            settled: none,
        }
    }

    /// These hints and last numbers, as a load found them: numbers of a peer in any order, and repeated.
    pub fn restore(
        alloc: Global,
        hints: Items<Hint>,
        numbers: &[LastNumber],
    ) -> Result<HintStore, AllocError>
        ensures now { IfOk result (λ store. IsSameHints (record { hints = hints; numbers = numbers.now }) store.now) }
        ensures before { IfOk result (λ store. store.before ≡ store.now) }
    {
        let mut tally = Tally::of_numbers(numbers);
        let table = fill(alloc, hints.into_vec(), &mut tally)?;
        Ok(HintStore {
            table,
            gone: BTreeSet::new(alloc),
            added: Vec::new(alloc),
            current: tally,
            settled: tally,
        })
    }

    /// The last number that was given to a hint of a peer, 0 for none.
    pub fn last(&self, peer: NodeId) -> u64
        ensures { result ≡ last_of self.now.now.numbers peer }
    {
        self.current.last(peer)
    }

    /// Whether a peer has as many hints as it may have, or its numbers are at their end.
    pub fn is_full(&self, peer: NodeId) -> bool
        ensures { result ≡ is_full self.now.now peer }
    {
        self.current.count(peer) >= MOST || self.current.last(peer) == u64::MAX
    }

    /// Whether a hint of this number was given to a peer, and is kept.
    pub fn is_kept(&self, peer: NodeId, number: u64) -> bool
        ensures { result ≡ is_kept self.now.now peer number }
    {
        number <= self.current.last(peer) && is_left(&self.table, &self.gone, peer, number)
    }

    /// Keeps a hint for a peer, unless the peer is full, and tells its number. It costs the logarithm of the hints.
    pub fn add(
        &mut self,
        peer: NodeId,
        born: Micros,
        mutation: Mutation,
    ) -> Result<Option<u64>, AllocError>
        ensures number { IfOk result (λ number. number ≡ next_number self.old.now peer) }
        ensures now { OnOk result (IsSameHints (push_hint peer born mutation self.old.now) self.new.now) }
        ensures before { self.new.before ≡ self.old.before }
        ensures err { OnErr result (self.new.now ≡ self.old.now) }
    {
        if self.is_full(peer) {
            drop(mutation);
            return Ok(None);
        }
        let number = self.current.last(peer) + 1;
        let hint = Hint {
            peer,
            number,
            born,
            mutation,
        };
        stage(&mut self.table, &mut self.added, hint)?;
        self.current.give(peer, number);
        Ok(Some(number))
    }

    /// A peer has a hint: it goes, and whether there was one is told. It costs the logarithm of the hints.
    pub fn done(&mut self, peer: NodeId, number: u64) -> Result<bool, AllocError>
        ensures kept { IfOk result (λ kept. kept ≡ is_kept self.old.now peer number) }
        ensures now { OnOk result (self.new.now ≡ drop_hint peer number self.old.now) }
        ensures before { self.new.before ≡ self.old.before }
        ensures err { OnErr result (self.new.now ≡ self.old.now) }
    {
        if !self.is_kept(peer, number) {
            return Ok(false);
        }
        self.gone.insert((peer, number))?;
        self.current.lose(peer, self.table.count(peer, number));
        Ok(true)
    }

    /// Copies of the first 64 hints of a peer whose tables are there.
    pub fn first(
        &self,
        alloc: Global,
        setting: &Setting,
        peer: NodeId,
    ) -> Result<Items<Hint>, AllocError>
        ensures { IfOk result (λ hints. hints ≡ first_of setting.now self.now.now.hints peer) }
    {
        self.table.first(alloc, setting, &self.gone, peer)
    }

    /// Whether a hint is past its age, without an allocation. It costs the logarithm of the hints, and what the
    /// step took away.
    pub fn has_expired(&self, expiry: Micros, time: Micros) -> bool
        ensures { IsTrue result ↔ ((h : hint.Hint) × Contains self.now.now.hints h × IsExpired expiry time h) }
    {
        self.table.has_older(&self.gone, oldest_birth(expiry, time))
    }

    /// The hints that are past their age, the oldest first.
    pub fn expired(
        &self,
        alloc: Global,
        expiry: Micros,
        time: Micros,
    ) -> Result<Items<Expired>, AllocError>
        ensures ordered { IfOk result (λ all. AreOldestFirst all) }
        ensures each { IfOk result (λ all. (x : expired.Expired) → Contains all x ↔ ((h : hint.Hint) × Contains self.now.now.hints h × IsExpired expiry time h × (x ≡ expired_of h))) }
    {
        self.table
            .older(alloc, &self.gone, oldest_birth(expiry, time))
    }

    /// Keeps what the step did. It takes no memory.
    pub fn settle(&mut self)
        ensures before { self.new.before ≡ self.old.now }
        ensures now { self.new.now ≡ self.old.now }
    {
        remove_gone(&mut self.table, &self.gone);
        self.gone.clear();
        self.added.clear();
        self.settled = self.current;
    }

    /// Undoes what the step did. It takes no memory.
    pub fn back(&mut self)
        ensures before { self.new.before ≡ self.old.before }
        ensures now { self.new.now ≡ self.old.before }
    {
        remove_added(&mut self.table, &self.added);
        self.gone.clear();
        self.added.clear();
        self.current = self.settled;
    }

    /// Copies of all hints, each peer's in the order in which they came.
    pub fn to_items(&self, alloc: Global) -> Result<Items<Hint>, AllocError>
        ensures { IfOk result (λ hints. hints ≡ self.now.now.hints) }
    {
        self.table.hints(alloc, &self.gone)
    }

    /// The last numbers of the peers that have one.
    pub fn last_numbers(&self, alloc: Global) -> Result<Items<LastNumber>, AllocError>
        ensures { IfOk result (λ numbers. numbers ≡ self.now.now.numbers) }
    {
        self.current.numbers(alloc)
    }
}
