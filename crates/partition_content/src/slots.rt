//! The tree that keeps the changes of a partition.

ghost use Rattle.std.specs.Prelude.{◌≡◌, ◌⊎◌, ◌↔◌, ◌+◌, ◌<◌, ◌≤◌, ◌^◌, ℕ, List, [], true, false, Some, None, IsTrue, IsSome, IfOk, OnOk, OnErr, Contains};
ghost use Rattle.std.specs.Option.{option_copied};
ghost use Rattle.std.specs.BTreeMap.{get, keys, is_at, insert_entry, IsOrdered};
ghost use Rattle.std.specs.declared.cmp.Ordering.TheVariants.{Less};
ghost use Rattle.std.specs.Map.{set_value};
ghost use Rattle.std.specs.List.Sorted.{IsStrictlySortedBy};
ghost use Rattle.changes.specs.declared.Held.{Held as held_value};
ghost use Rattle.changes.specs.declared.Place.{Place as place_value};
ghost use Rattle.std.specs.Option.{option_to_list};
ghost use Rattle.std.specs.List.{sum_by};
ghost use Rattle.changes.specs.Lengths.{held_length};
ghost use Rattle.partition_content.specs.Spots.{spot_cmp};
ghost use Rattle.partition_content.specs.declared.spots.Spot.TheVariants.{At};
ghost use Rattle.partition_content.specs.Slots.{stored_of, stored_in, held_in, helds_in, helds_of, spots_in, slot_at, changes_of, change_in, AreFiled, HasSlot, IsReachedAt, IsPutIn, ComesIn, IsPutAt, is_wide_spot};

use crate::Arrived;
use crate::spots::Spot;
use changes::{Held, Place};
use cs_base::Micros;
use std::alloc::{AllocError, Global};
use std::cmp::Ordering;
use std::collections::BTreeMap;
use std::collections::btree_map::Range;

/// The changes with their arrivals, by their keys. A key without a change is memory that is taken for one.
pub(crate) type Slots = BTreeMap<Spot, Option<Arrived>>;

/// What is stored at a key.
pub(crate) fn stored_at<'a>(slots: &'a Slots, at: &Spot) -> Option<&'a Arrived>
    ensures { option_copied result ≡ stored_in (get spot_cmp slots.now at.now) }
{
    match slots.get(at) {
        Some(Some(x)) => Some(x),
        _ => None,
    }
}

/// What is stored at a place.
pub(crate) fn stored_of_place(slots: &Slots, place: Place) -> Option<&Arrived>
    ensures { option_copied result ≡ stored_in (get spot_cmp slots.now (At place)) }
{
    let at = Spot::At(place);
    let stored = stored_at(slots, &at);
    drop(at);
    stored
}

/// The change at a key.
pub(crate) fn change_at<'a>(slots: &'a Slots, at: &Spot) -> Option<&'a Held>
    ensures { option_copied result ≡ change_in (slot_at (helds_of slots.now) at.now) }
{
    match stored_at(slots, at) {
        Some(x) => Some(&x.held),
        None => None,
    }
}

/// Has the tree hold this key, with what it holds there, or memory alone.
fn make_at(slots: &mut Slots, at: Spot) -> Result<(), AllocError>
    ensures made { OnOk result (slots.new.entries ≡ insert_entry spot_cmp slots.old.entries at (stored_in (get spot_cmp slots.old at))) }
    ensures ordered { OnOk result (IsOrdered spot_cmp slots.new) }
    ensures kept { OnErr result (slots.new.entries ≡ slots.old.entries) }
    ensures was { IsOrdered spot_cmp slots.old }
{
    slots.entry(at)?.or_insert(None);
    Ok(())
}

/// Takes memory for a change at the key of its place.
pub(crate) fn make_slot(slots: &mut Slots, alloc: Global, place: &Place) -> Result<(), AllocError>
    ensures stored { stored_of slots.new.entries ≡ stored_of slots.old.entries }
    ensures there { OnOk result (HasSlot (helds_of slots.new) place.now) }
    ensures others { (spot : _) → Contains (spots_in (helds_of slots.old)) spot → Contains (spots_in (helds_of slots.new)) spot }
    ensures filed { AreFiled (helds_in slots.old.entries) → AreFiled (helds_in slots.new.entries) }
    ensures sorted { IsStrictlySortedBy spot_cmp (spots_in (helds_of slots.old)) → IsStrictlySortedBy spot_cmp (spots_in (helds_of slots.new)) }
{
    make_at(slots, Spot::of_place(alloc, place)?)?;
    Ok(())
}

/// Puts a change in a slot.
fn fill(slot: &mut Option<Arrived>, x: Held, time: Micros)
    ensures { slot.new ≡ Some (record { held = x; arrival = time }) }
{
    drop(slot.replace(Arrived {
        held: x,
        arrival: time,
    }));
}

/// Puts a change in at a key where there is memory for it.
pub(crate) fn put_at(slots: &mut Slots, at: &Spot, x: Held, time: Micros)
    requires { IsSome (get spot_cmp slots.old at.now) }
    ensures entries { slots.new.entries ≡ set_value (is_at (spot_cmp at.now)) slots.old.entries (Some (record { held = x; arrival = time })) }
    ensures keys { keys slots.new ≡ keys slots.old }
{
    match slots.get_mut(at) {
        Some(slot) => fill(slot, x, time),
        None => drop(x),
    }
}

/// Whether the change in a slot is this one or beats it, where both are of one place.
fn is_reached_in(slot: &Option<Arrived>, x: &Held) -> bool
    ensures { IsTrue result ↔ IsReachedAt (held_in slot.now) x.now }
{
    match slot {
        Some(there) => there.held.rank(x) != Ordering::Less,
        None => false,
    }
}

/// The length of the change in a slot.
fn length_in(slot: &Option<Arrived>) -> u64
    requires { sum_by held_length (option_to_list (held_in slot.now)) < 2 ^ 64 }
    ensures { result ≡ sum_by held_length (option_to_list (held_in slot.now)) }
{
    match slot {
        Some(there) => there.held.encoded_length(),
        None => 0,
    }
}

/// Puts a change in a slot, unless it is there or a change that beats it, where both are of one place, and gives the length
/// that the changes then have. What stays keeps its arrival.
fn put_in(slot: &mut Option<Arrived>, length: u64, x: Held, time: Micros) -> u64
    requires there { sum_by held_length (option_to_list (held_in slot.old)) ≤ length }
    requires fits { length + held_length x < 2 ^ 64 }
    ensures put { IsPutIn x (held_in slot.old) (held_in slot.new) length result }
    ensures comes { ComesIn time x slot.old slot.new }
{
    if is_reached_in(slot, &x) {
        drop(x);
        return length;
    }
    let others = length - length_in(slot);
    let gained = x.encoded_length();
    fill(slot, x, time);
    others + gained
}

/// Puts a change in at its key where there is memory for it, unless it is there or a change that beats it, and gives the length
/// that the changes then have.
pub(crate) fn put_own(slots: &mut Slots, length: u64, at: &Spot, x: Held, time: Micros) -> u64
    requires slot { IsSome (get spot_cmp slots.old at.now) }
    requires there { sum_by held_length (changes_of (helds_in slots.old.entries)) ≤ length }
    requires fits { length + held_length x < 2 ^ 64 }
    ensures { IsPutAt time x at.now slots.old.entries slots.new.entries length result }
{
    match slots.get_mut(at) {
        Some(slot) => put_in(slot, length, x, time),
        None => {
            drop(x);
            length
        }
    }
}

/// Whether memory is taken at the key that no change has.
fn is_unused(slots: &Slots, at: &Spot) -> bool
    ensures { IsTrue result → stored_in (get spot_cmp slots.now at.now) ≡ None }
{
    match slots.get(at) {
        Some(slot) => slot.is_none(),
        None => false,
    }
}

/// Gives memory back that is taken at a key, if no change has it.
pub(crate) fn drop_unused(slots: &mut Slots, at: &Spot)
    ensures stored { stored_of slots.new.entries ≡ stored_of slots.old.entries }
    ensures filed { AreFiled (helds_in slots.old.entries) → AreFiled (helds_in slots.new.entries) }
    ensures sorted { IsStrictlySortedBy spot_cmp (spots_in (helds_of slots.old)) → IsStrictlySortedBy spot_cmp (spots_in (helds_of slots.new)) }
{
    if is_unused(slots, at) {
        drop(slots.remove(at));
    }
}

/// All of it, in order.
pub(crate) fn whole(slots: &Slots) -> Range<'_, Spot, Option<Arrived>>
    ensures { result ≡ slots.now.entries }
{
    slots.range(..)
}

/// Whether the place is in no single row.
fn is_wide(at: &Spot) -> bool
    ensures { result ≡ is_wide_spot at.now }
{
    match at {
        Spot::At(place) => place.row().is_none(),
        Spot::Edge(_) => false,
    }
}

/// Whether the first key is that of a deletion of a range or of the partition. Where it is not, there is none.
pub(crate) fn begins_wide(slots: &Slots) -> bool
    requires { IsStrictlySortedBy spot_cmp (keys slots.now) }
    ensures { result ≡ false → (spot : _) → Contains (keys slots.now) spot → is_wide_spot spot ≡ false }
{
    match slots.first_key_value() {
        Some((first, _)) => is_wide(first),
        None => false,
    }
}
