//! The length that the changes have with others, told before these are put in.

ghost use Rattle.std.specs.Prelude.{◌≡◌, ◌+◌, ◌<◌, ◌≤◌, ◌^◌, true, Some, Bool, map};
ghost use Rattle.std.specs.List.{sum_by};
ghost use Rattle.std.specs.Option.{option_to_list};
ghost use Rattle.cell_merge.specs.Parts.{IsOutrankedBy};
ghost use Rattle.changes.specs.Contents.{AreApart, IsReachedBy};
ghost use Rattle.changes.specs.Lengths.{held_length, changes_length};
ghost use Rattle.changes.specs.Places.{AreInOrder};
ghost use Rattle.partition_content.specs.declared.spots.Spot.TheVariants.{At};
ghost use Rattle.partition_content.specs.Spots.{spot_cmp};
ghost use Rattle.partition_content.specs.Slots.{helds_in, helds_of, slot_at, changes_of, change_in, IsGood};
ghost use Rattle.partition_content.specs.Keys.{keys_for};
ghost use Rattle.partition_content.specs.Lengths.{IsGainedWith, IsLengthAt, IsLengthBeside, IsMergedLength, IsPartLength};
ghost use Rattle.partition_content.specs.Partition.{place_of, AreSlotsFor, AreBare};

use crate::keys::Keys;
use crate::losing::lost_by;
use crate::memory::are_narrow;
use crate::slots::{Slots, change_at};
use crate::spots::Spot;
use crate::taking::{is_outranked_over, is_reached_at};
use cell_merge::Rivals;
use changes::{Held, encoded_length};
use std::alloc::Global;
use std::cmp::Ordering;

/// The length with x in place of a change of its place, if x beats it.
fn length_after(held: &Held, length: u64, x: &Held) -> u64
    requires there { held_length held.now ≤ length }
    requires fits { length + held_length x.now < 2 ^ 64 }
    ensures { IsLengthAt x.now (Some held.now) length result }
{
    if held.rank(x) != Ordering::Less {
        return length;
    }
    length - held.encoded_length() + x.encoded_length()
}

/// The length with x at its key, unless it is there or a change that beats it.
fn length_at(slots: &Slots, length: u64, at: &Spot, x: &Held) -> u64
    requires there { sum_by held_length (option_to_list (change_in (slot_at (helds_of slots.now) at.now))) ≤ length }
    requires fits { length + held_length x.now < 2 ^ 64 }
    ensures { IsLengthAt x.now (change_in (slot_at (helds_of slots.now) at.now)) length result }
{
    match change_at(slots, at) {
        Some(held) => length_after(held, length, x),
        None => length + x.encoded_length(),
    }
}

/// The length with a cell or a marker, where nothing else comes to its place.
fn length_beside(slots: &Slots, length: u64, alloc: Global, bare: bool, own: &Keys, x: &Held) -> u64
    requires keys { own.now ≡ keys_for bare x.now.place }
    requires good { IsGood (helds_of slots.now) }
    requires bare { bare ≡ true → AreBare (changes_of (helds_in slots.now.entries)) }
    requires there { sum_by held_length (option_to_list (change_in (slot_at (helds_of slots.now) (At x.now.place)))) ≤ length }
    requires fits { length + held_length x.now < 2 ^ 64 }
    ensures { IsLengthBeside (helds_of slots.now) x.now length result }
{
    if is_outranked_over(slots, alloc, bare, own, x) {
        return length;
    }
    length_at(slots, length, &own.at, x)
}

/// The length with cells and markers for which there is memory.
fn length_with_cells(
    slots: &Slots,
    length: u64,
    alloc: Global,
    bare: bool,
    keys: &[Keys],
    changes: &[Held],
) -> u64
    requires keys { keys.now ≡ map (keys_for bare) (map place_of changes.now) }
    requires slots { AreSlotsFor (helds_of slots.now) changes.now }
    requires good { IsGood (helds_of slots.now) }
    requires length { length ≡ changes_length (changes_of (helds_in slots.now.entries)) }
    requires fits { length + sum_by held_length changes.now < 2 ^ 64 }
    requires bare { bare ≡ true → AreBare (changes_of (helds_in slots.now.entries)) }
    requires narrow { AreBare changes.now }
    requires ordered { AreInOrder changes.now }
    requires apart { AreApart changes.now }
    ensures { IsMergedLength (changes_of (helds_in slots.now.entries)) changes.now result }
{
    let mut length = length;
    let mut at = 0;
    for x in changes {
        length = length_beside(slots, length, alloc, bare, &keys[at], x);
        at += 1;
    }
    length
}

/// The length of the changes that are there and that none of the others outranks, by a look at what lies in their places.
fn kept_length(slots: &Slots, length: u64, alloc: Global, keys: &[Keys], changes: &[Held]) -> u64
    requires keys { (bare : Bool) × (keys.now ≡ map (keys_for bare) (map place_of changes.now)) }
    requires good { IsGood (helds_of slots.now) }
    requires length { length ≡ changes_length (changes_of (helds_in slots.now.entries)) }
    requires ordered { AreInOrder changes.now }
    ensures { IsPartLength (IsOutrankedBy changes.now) (changes_of (helds_in slots.now.entries)) result }
{
    let mut kept = length - encoded_length(&[]);
    let mut at = 0;
    for x in changes {
        let before = Rivals::new(&changes[..at]);
        kept -= lost_by(slots, alloc, &keys[at], &before, x);
        at += 1;
    }
    kept
}

/// The length of x, unless it is reached by a change that is there, with that of others.
fn gained_with(slots: &Slots, alloc: Global, bare: bool, own: &Keys, x: &Held, others: u64) -> u64
    requires keys { own.now ≡ keys_for bare x.now.place }
    requires good { IsGood (helds_of slots.now) }
    requires bare { bare ≡ true → AreBare (changes_of (helds_in slots.now.entries)) }
    requires fits { held_length x.now + others < 2 ^ 64 }
    ensures { IsGainedWith (changes_of (helds_in slots.now.entries)) x.now others result }
{
    if is_outranked_over(slots, alloc, bare, own, x) {
        return others;
    }
    if is_reached_at(slots, &own.at, x) {
        return others;
    }
    x.encoded_length() + others
}

/// The length of those of the changes that no change that is there reaches.
fn gained_length(slots: &Slots, alloc: Global, bare: bool, keys: &[Keys], changes: &[Held]) -> u64
    requires keys { keys.now ≡ map (keys_for bare) (map place_of changes.now) }
    requires good { IsGood (helds_of slots.now) }
    requires bare { bare ≡ true → AreBare (changes_of (helds_in slots.now.entries)) }
    requires fits { sum_by held_length changes.now < 2 ^ 64 }
    requires ordered { AreInOrder changes.now }
    ensures { IsPartLength (IsReachedBy (changes_of (helds_in slots.now.entries))) changes.now result }
{
    let mut gained = 0;
    let mut at = 0;
    for x in changes {
        gained = gained_with(slots, alloc, bare, &keys[at], x, gained);
        at += 1;
    }
    gained
}

/// The length with changes of any kind for which there is memory.
fn length_with_deletions(
    slots: &Slots,
    length: u64,
    alloc: Global,
    bare: bool,
    keys: &[Keys],
    changes: &[Held],
) -> u64
    requires keys { keys.now ≡ map (keys_for bare) (map place_of changes.now) }
    requires good { IsGood (helds_of slots.now) }
    requires length { length ≡ changes_length (changes_of (helds_in slots.now.entries)) }
    requires fits { changes_length (changes_of (helds_in slots.now.entries)) + sum_by held_length changes.now < 2 ^ 64 }
    requires bare { bare ≡ true → AreBare (changes_of (helds_in slots.now.entries)) }
    requires ordered { AreInOrder changes.now }
    requires apart { AreApart changes.now }
    ensures { IsMergedLength (changes_of (helds_in slots.now.entries)) changes.now result }
{
    let kept = kept_length(slots, length, alloc, keys, changes);
    let gained = gained_length(slots, alloc, bare, keys, changes);
    encoded_length(&[]) + kept + gained
}

/// The length that the changes will have with others for which there is memory.
pub(crate) fn length_with(
    slots: &Slots,
    length: u64,
    alloc: Global,
    bare: bool,
    keys: &[Keys],
    changes: &[Held],
) -> u64
    requires keys { keys.now ≡ map (keys_for bare) (map place_of changes.now) }
    requires slots { AreSlotsFor (helds_of slots.now) changes.now }
    requires good { IsGood (helds_of slots.now) }
    requires length { length ≡ changes_length (changes_of (helds_in slots.now.entries)) }
    requires fits { changes_length (changes_of (helds_in slots.now.entries)) + changes_length changes.now < 2 ^ 64 }
    requires bare { bare ≡ true → AreBare (changes_of (helds_in slots.now.entries)) }
    requires ordered { AreInOrder changes.now }
    requires apart { AreApart changes.now }
    ensures { IsMergedLength (changes_of (helds_in slots.now.entries)) changes.now result }
{
    if are_narrow(changes) {
        return length_with_cells(slots, length, alloc, bare, keys, changes);
    }
    length_with_deletions(slots, length, alloc, bare, keys, changes)
}
