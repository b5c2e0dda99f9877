//! Cells and markers in the order of their places, of which a tree is made at once.

ghost use Rattle.std.specs.Prelude.{◌≡◌, ◌∷◌, ◌++◌, ◌+◌, ◌≤◌, [], Some, map, IsTrue, IfOk, IfSome, OnOk, OnErr, Contains, vec_len, vec_capacity};
ghost use Rattle.std.specs.BTreeMap.{IsFromIterResult};
ghost use Rattle.std.specs.declared.cmp.Ordering.TheVariants.{Less};
ghost use Rattle.changes.specs.declared.Held.{Held as held_value};
ghost use Rattle.changes.specs.Lengths.{held_length, changes_length};
ghost use Rattle.changes.specs.Places.{stored_cmp, AreInOrder};
ghost use Rattle.partition_content.specs.Arrivals.{held_of};
ghost use Rattle.partition_content.specs.Runs.{arrived_at, entry_of};
ghost use Rattle.partition_content.specs.Spots.{spot_cmp};
ghost use Rattle.partition_content.specs.declared.spots.Spot.TheVariants.{At};

use crate::Arrived;
use crate::slots::Slots;
use crate::spots::Spot;
use changes::{Held, encoded_length};
use cs_base::Micros;
use std::alloc::{AllocError, Global};
use std::collections::BTreeMap;
use std::iter::FromIterator;

/// Whether all changes of a run stand before this one.
fn is_before(run: &[Arrived], first: &Held) -> bool
    requires { AreInOrder (map held_of run.now) }
    ensures { IsTrue result → (x : held_value) → Contains (map held_of run.now) x → stored_cmp x first.now ≡ Less }
{
    match run.last() {
        Some(last) => last.held.place.cmp(&first.place).is_lt(),
        None => true,
    }
}

/// Whether the changes stand behind all of a run.
pub(crate) fn goes_on(run: &[Arrived], changes: &[Held]) -> bool
    requires run { AreInOrder (map held_of run.now) }
    requires changes { AreInOrder changes.now }
    ensures { IsTrue result → AreInOrder (map held_of run.now ++ changes.now) }
{
    match changes.first() {
        Some(first) => is_before(run, first),
        None => true,
    }
}

/// Puts a change that came at a time behind a run in which there is room.
fn push_in_room(run: &mut Vec<Arrived>, x: Held, at: Micros)
    requires { vec_len run.old + 1 ≤ vec_capacity run.old }
    ensures items { run.new.items ≡ run.old.items ++ map (arrived_at at) (x ∷ []) }
    ensures len { vec_len run.new ≡ vec_len run.old + 1 }
    ensures capacity { vec_capacity run.old ≤ vec_capacity run.new }
{
    run.push(Arrived {
        held: x,
        arrival: at,
    })
    .unwrap();
}

/// Puts changes that came at a time behind a run in which there is room.
fn push_each(run: &mut Vec<Arrived>, changes: Vec<Held>, at: Micros)
    requires { vec_len run.old + vec_len changes ≤ vec_capacity run.old }
    ensures { run.new.items ≡ run.old.items ++ map (arrived_at at) changes.items }
{
    for x in changes {
        push_in_room(run, x, at);
    }
}

/// Puts changes that came at a time behind a run.
pub(crate) fn push_all(
    run: &mut Vec<Arrived>,
    changes: Vec<Held>,
    at: Micros,
) -> Result<(), AllocError>
    ensures pushed { OnOk result (run.new.items ≡ run.old.items ++ map (arrived_at at) changes.items) }
    ensures kept { OnErr result (run.new.items ≡ run.old.items) }
{
    run.reserve(changes.len())?;
    push_each(run, changes, at);
    Ok(())
}

/// The length of others and of a change, if it is below 2^64.
fn add_length(length: u64, x: &Held) -> Option<u64>
    requires { 4 ≤ length }
    ensures { IfSome result (λ sum. sum ≡ length + held_length x.now) }
{
    length.checked_add(x.encoded_length())
}

/// The length of the changes as they are stored, if it is below 2^64.
pub(crate) fn length_of(run: &[Arrived]) -> Option<u64>
    ensures { IfSome result (λ length. length ≡ changes_length (map held_of run.now)) }
{
    let mut length = encoded_length(&[]);
    for x in run {
        length = add_length(length, &x.held)?;
    }
    Some(length)
}

/// The key of a change.
fn key_of(alloc: Global, x: &Arrived) -> Result<Spot, AllocError>
    ensures { IfOk result (λ at. at ≡ At x.now.held.place) }
{
    Spot::of_place(alloc, &x.held.place)
}

/// Puts a change at this key behind the entries that are there.
fn push_entry(
    entries: &mut Vec<(Spot, Option<Arrived>)>,
    at: Spot,
    x: Arrived,
) -> Result<(), AllocError>
    ensures { OnOk result (entries.new.items ≡ entries.old.items ++ ((at, Some x) ∷ [])) }
{
    entries.push((at, Some(x)))?;
    Ok(())
}

/// Puts a change with its key behind the entries that are there.
fn add_entry(
    entries: &mut Vec<(Spot, Option<Arrived>)>,
    alloc: Global,
    x: Arrived,
) -> Result<(), AllocError>
    ensures { OnOk result (entries.new.items ≡ entries.old.items ++ (entry_of x ∷ [])) }
{
    match key_of(alloc, &x) {
        Ok(at) => push_entry(entries, at, x),
        Err(error) => {
            drop(x);
            Err(error)
        }
    }
}

/// The changes with their keys.
fn entries_of(alloc: Global, run: Vec<Arrived>) -> Result<Vec<(Spot, Option<Arrived>)>, AllocError>
    ensures { IfOk result (λ entries. entries.items ≡ map entry_of run.items) }
{
    let mut entries = Vec::with_capacity(alloc, run.len())?;
    for x in run {
        add_entry(&mut entries, alloc, x)?;
    }
    Ok(entries)
}

/// A tree of these entries, the later one of equal keys.
fn collect(alloc: Global, entries: Vec<(Spot, Option<Arrived>)>) -> Result<Slots, AllocError>
    ensures { IfOk result (IsFromIterResult spot_cmp entries.items) }
{
    BTreeMap::from_iter(alloc, entries)
}

/// The tree of these changes.
pub(crate) fn plant(alloc: Global, run: Vec<Arrived>) -> Result<Slots, AllocError>
    requires { AreInOrder (map held_of run.items) }
    ensures { IfOk result (λ slots. slots.entries ≡ map entry_of run.items) }
{
    let entries = entries_of(alloc, run)?;
    collect(alloc, entries)
}
