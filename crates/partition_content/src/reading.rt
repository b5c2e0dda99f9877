//! Copies of the changes of a partition, as they go to other nodes.

ghost use Rattle.std.specs.Prelude.{◌≡◌, ◌⊎◌, ◌++◌, ◌↔◌, ◌+◌, ◌≤◌, List, [], Some, IsTrue, IfOk, OnOk, Contains, vec_len, vec_capacity};
ghost use Rattle.std.specs.Option.{option_to_list};
ghost use Rattle.changes.specs.declared.Held.{Held as held_value};
ghost use Rattle.changes.specs.declared.Place.{Place as place_value};
ghost use Rattle.std.specs.declared.cmp.Ordering.TheVariants.{Less};
ghost use Rattle.std.specs.BTreeMap.Range.{entries_between};
ghost use Rattle.std.specs.List.Sorted.{IsStrictlySortedBy};
ghost use Rattle.std.specs.declared.ops.Bound.TheVariants.{Excluded};
ghost use Rattle.changes.specs.Places.{bound_cmp, AreInOrder};
ghost use Rattle.changes.specs.Queries.{MeetsBounds};
ghost use Rattle.partition_content.specs.Spots.{spot_cmp};
ghost use Rattle.partition_content.specs.declared.spots.Spot.TheVariants.{Edge};
ghost use Rattle.partition_content.specs.Slots.{stored_of, held_in, helds_in, helds_of, spots_in, changes_of, AreFiled};
ghost use Rattle.partition_content.specs.Reading.{wide_of, rows_of, first_row as first_key, IsAdded};

use crate::Arrived;
use crate::losing::{before_rows, between};
use crate::slots::{Slots, begins_wide, whole};
use crate::spots::Spot;
use changes::{Bound, Held};
use cs_base::Bytes;
use std::alloc::{AllocError, Global};
use std::cmp::Ordering;
use std::collections::btree_map::Range;

/// A key behind those of the deletions of ranges and of the partition, and before those of the rows.
pub(crate) fn first_row(alloc: Global) -> Spot
    ensures { result ≡ first_key }
{
    Spot::Edge(Bound {
        at: Bytes::new(alloc),
        after: false,
    })
}

/// Puts a copy of the change in a slot behind those that are there, if it meets the bounds.
fn copy_if_met(
    onto: &mut Vec<Held>,
    alloc: Global,
    slot: &Option<Arrived>,
    from: &Bound,
    upto: &Bound,
) -> Result<(), AllocError>
    ensures met { OnOk result ((x : held_value) → Contains onto.new.items x ↔ (Contains onto.old.items x ⊎ ((held_in slot.now ≡ Some x) × MeetsBounds from.now upto.now x.place))) }
    ensures added { OnOk result (IsAdded (held_in slot.now) onto.old.items onto.new.items) }
{
    if let Some(there) = slot {
        if there.held.place.meets(from, upto) {
            onto.push(there.held.copy(alloc)?)?;
        }
    }
    Ok(())
}

/// Puts copies of the changes on a walk that meet the bounds behind those that are there.
fn copy_met(
    onto: &mut Vec<Held>,
    alloc: Global,
    walk: Range<'_, Spot, Option<Arrived>>,
    from: &Bound,
    upto: &Bound,
) -> Result<(), AllocError>
    ensures met { OnOk result ((x : held_value) → Contains onto.new.items x ↔ (Contains onto.old.items x ⊎ (Contains (changes_of (helds_in walk.entry)) x × MeetsBounds from.now upto.now x.place))) }
    ensures ordered { OnOk result (AreInOrder (onto.old.items ++ changes_of (helds_in walk.entry)) → AreInOrder onto.new.items) }
{
    for (_, slot) in walk {
        copy_if_met(onto, alloc, slot, from, upto)?;
    }
    Ok(())
}

/// Puts copies of the deletions of ranges and of the partition that meet the bounds behind those that are there.
fn copy_wide(
    onto: &mut Vec<Held>,
    alloc: Global,
    slots: &Slots,
    from: &Bound,
    upto: &Bound,
) -> Result<(), AllocError>
    requires filed { AreFiled (helds_in slots.now.entries) }
    requires sorted { IsStrictlySortedBy spot_cmp (spots_in (helds_of slots.now)) }
    ensures met { OnOk result ((x : held_value) → Contains onto.new.items x ↔ (Contains onto.old.items x ⊎ (Contains (changes_of (wide_of (helds_in slots.now.entries))) x × MeetsBounds from.now upto.now x.place))) }
    ensures ordered { OnOk result (AreInOrder (onto.old.items ++ changes_of (wide_of (helds_in slots.now.entries))) → AreInOrder onto.new.items) }
{
    if !begins_wide(slots) {
        return Ok(());
    }
    copy_met(onto, alloc, before_rows(slots, alloc), from, upto)
}

/// Puts a copy of the change in a slot behind those that are there.
fn copy_slot(all: &mut Vec<Held>, alloc: Global, slot: &Option<Arrived>) -> Result<(), AllocError>
    ensures { OnOk result (all.new.items ≡ all.old.items ++ option_to_list (held_in slot.now)) }
{
    if let Some(there) = slot {
        all.push(there.held.copy(alloc)?)?;
    }
    Ok(())
}

/// Puts copies of the changes on a walk behind those that are there.
fn copy_each(
    onto: &mut Vec<Held>,
    alloc: Global,
    walk: Range<'_, Spot, Option<Arrived>>,
) -> Result<(), AllocError>
    ensures { OnOk result (onto.new.items ≡ onto.old.items ++ changes_of (helds_in walk.entry)) }
{
    for (_, slot) in walk {
        copy_slot(onto, alloc, slot)?;
    }
    Ok(())
}

/// Puts copies of the changes between two keys, the first of which is before the second, behind those that are there.
fn copy_ahead(
    onto: &mut Vec<Held>,
    alloc: Global,
    slots: &Slots,
    low: &Spot,
    high: &Spot,
) -> Result<(), AllocError>
    requires { spot_cmp low.now high.now ≡ Less }
    ensures { OnOk result (onto.new.items ≡ onto.old.items ++ changes_of (entries_between spot_cmp (Excluded low.now) (Excluded high.now) (helds_in slots.now.entries))) }
{
    copy_each(onto, alloc, between(slots, low, high))
}

/// Puts copies of the changes between a key and a bound that is behind it behind those that are there.
fn copy_behind(
    onto: &mut Vec<Held>,
    alloc: Global,
    slots: &Slots,
    low: &Spot,
    upto: &Bound,
) -> Result<(), AllocError>
    requires { spot_cmp low.now (Edge upto.now) ≡ Less }
    ensures { OnOk result (onto.new.items ≡ onto.old.items ++ changes_of (entries_between spot_cmp (Excluded low.now) (Excluded (Edge upto.now)) (helds_in slots.now.entries))) }
{
    let high = Spot::of_bound(alloc, upto)?;
    let copied = copy_ahead(onto, alloc, slots, low, &high);
    drop(high);
    copied
}

/// Puts copies of the changes of the rows between two bounds behind those that are there. They all meet the bounds.
fn copy_between(
    onto: &mut Vec<Held>,
    alloc: Global,
    slots: &Slots,
    from: &Bound,
    upto: &Bound,
) -> Result<(), AllocError>
    requires { bound_cmp from.now upto.now ≡ Less }
    ensures { OnOk result (onto.new.items ≡ onto.old.items ++ changes_of (rows_of from.now upto.now (helds_in slots.now.entries))) }
{
    let low = Spot::of_bound(alloc, from)?;
    let copied = copy_behind(onto, alloc, slots, &low, upto);
    drop(low);
    copied
}

/// Puts copies of the changes of the rows between the bounds, if the first is before the second, behind those that are there.
fn copy_rows(
    onto: &mut Vec<Held>,
    alloc: Global,
    slots: &Slots,
    from: &Bound,
    upto: &Bound,
) -> Result<(), AllocError>
    ensures { OnOk result (onto.new.items ≡ onto.old.items ++ changes_of (rows_of from.now upto.now (helds_in slots.now.entries))) }
{
    match from.cmp(upto) {
        Ordering::Less => copy_between(onto, alloc, slots, from, upto),
        Ordering::Equal | Ordering::Greater => Ok(()),
    }
}

/// Puts a copy of the change in a slot behind those that are there, where there is room.
fn copy_in_room(
    all: &mut Vec<Held>,
    alloc: Global,
    slot: &Option<Arrived>,
) -> Result<(), AllocError>
    requires { vec_len all.old + 1 ≤ vec_capacity all.old }
    ensures items { OnOk result (all.new.items ≡ all.old.items ++ option_to_list (held_in slot.now)) }
    ensures len { vec_len all.new ≤ vec_len all.old + 1 }
    ensures capacity { vec_capacity all.old ≤ vec_capacity all.new }
{
    if let Some(there) = slot {
        all.push_reserved(there.held.copy(alloc)?);
    }
    Ok(())
}

/// Copies of all changes, in order.
pub(crate) fn copy_all(alloc: Global, slots: &Slots) -> Result<Vec<Held>, AllocError>
    ensures { IfOk result (λ all. all.items ≡ changes_of (helds_in slots.now.entries)) }
{
    let mut all = Vec::with_capacity(alloc, slots.len())?;
    for (_, slot) in whole(slots) {
        copy_in_room(&mut all, alloc, slot)?;
    }
    Ok(all)
}

/// Copies of the changes that meet the bounds, in order, by a look at the bounds.
fn copy_part(
    alloc: Global,
    slots: &Slots,
    from: &Bound,
    upto: &Bound,
) -> Result<Vec<Held>, AllocError>
    requires filed { AreFiled (helds_in slots.now.entries) }
    requires sorted { IsStrictlySortedBy spot_cmp (spots_in (helds_of slots.now)) }
    ensures ordered { IfOk result (λ part. AreInOrder part.items) }
    ensures met { IfOk result (λ part. (x : held_value) → Contains part.items x ↔ (Contains (changes_of (helds_in slots.now.entries)) x × MeetsBounds from.now upto.now x.place)) }
{
    let mut part = Vec::new(alloc);
    copy_wide(&mut part, alloc, slots, from, upto)?;
    copy_rows(&mut part, alloc, slots, from, upto)?;
    Ok(part)
}

/// Whether the bound is at an end of all rows: behind them, or before them.
fn is_at_end(bound: &Bound, after: bool) -> bool
    ensures { IsTrue result → bound.now ≡ record { at = []; after = after } }
{
    bound.after == after && bound.at.as_slice().is_empty()
}

/// Whether the first bound is before all rows and the second behind them, as where a whole partition is read.
fn are_outermost(from: &Bound, upto: &Bound) -> bool
    ensures { IsTrue result → (p : place_value) → MeetsBounds from.now upto.now p }
{
    is_at_end(from, false) && is_at_end(upto, true)
}

/// Copies of the changes that meet the bounds, in order.
pub(crate) fn copy_slice(
    alloc: Global,
    slots: &Slots,
    from: &Bound,
    upto: &Bound,
) -> Result<Vec<Held>, AllocError>
    requires filed { AreFiled (helds_in slots.now.entries) }
    requires sorted { IsStrictlySortedBy spot_cmp (spots_in (helds_of slots.now)) }
    ensures ordered { IfOk result (λ part. AreInOrder part.items) }
    ensures met { IfOk result (λ part. (x : held_value) → Contains part.items x ↔ (Contains (changes_of (helds_in slots.now.entries)) x × MeetsBounds from.now upto.now x.place)) }
{
    if are_outermost(from, upto) {
        return copy_all(alloc, slots);
    }
    copy_part(alloc, slots, from, upto)
}

/// Puts a copy of what is in a slot behind those that are there.
fn copy_arrived(
    all: &mut Vec<Arrived>,
    alloc: Global,
    slot: &Option<Arrived>,
) -> Result<(), AllocError>
    ensures { OnOk result (all.new.items ≡ all.old.items ++ option_to_list slot.now) }
{
    if let Some(there) = slot {
        all.push(there.copy(alloc)?)?;
    }
    Ok(())
}

/// Copies of all that is stored, in order.
pub(crate) fn copy_stored(alloc: Global, slots: &Slots) -> Result<Vec<Arrived>, AllocError>
    ensures { IfOk result (λ all. all.items ≡ stored_of slots.now.entries) }
{
    let mut all = Vec::new(alloc);
    for (_, slot) in whole(slots) {
        copy_arrived(&mut all, alloc, slot)?;
    }
    Ok(all)
}
