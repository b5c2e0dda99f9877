//! The length of what a change takes from those that are there, found by walks over the keys that lie in its place.

ghost use Rattle.std.specs.Prelude.{◌≡◌, ◌↔◌, ◌+◌, ◌<◌, ◌^◌, ℕ, IsTrue};
ghost use Rattle.std.specs.List.{sum_by};
ghost use Rattle.std.specs.Option.{option_to_list};
ghost use Rattle.std.specs.BTreeMap.Range.{entries_between};
ghost use Rattle.std.specs.declared.cmp.Ordering.TheVariants.{Less};
ghost use Rattle.std.specs.declared.ops.Bound.TheVariants.{Included, Excluded};
ghost use Rattle.changes.specs.Lengths.{held_length};
ghost use Rattle.cell_merge.specs.Parts.{IsInnermost};
ghost use Rattle.partition_content.specs.declared.keys.Span.TheVariants.{Row, Rows};
ghost use Rattle.partition_content.specs.declared.spots.Spot.TheVariants.{At};
ghost use Rattle.partition_content.specs.Spots.{spot_cmp};
ghost use Rattle.partition_content.specs.Keys.{AreKeysOf};
ghost use Rattle.partition_content.specs.Reading.{wide_of};
ghost use Rattle.partition_content.specs.Slots.{held_in, helds_in, helds_of, changes_of, IsGood, IsCountedWith, IsLengthOf, IsNewlyOutranked};

use crate::Arrived;
use crate::keys::{Keys, Span};
use crate::reading::first_row;
use crate::slots::{Slots, whole};
use crate::spots::Spot;
use cell_merge::Rivals;
use changes::Held;
use std::alloc::Global;
use std::cmp::Ordering;
use std::collections::btree_map::Range;
use std::ops;

/// What is at one key.
fn at_key<'a>(slots: &'a Slots, at: &Spot) -> Range<'a, Spot, Option<Arrived>>
    ensures { helds_in result ≡ entries_between spot_cmp (Included at.now) (Included at.now) (helds_in slots.now.entries) }
{
    slots.range((ops::Bound::Included(at), ops::Bound::Included(at)))
}

/// What is from the key of a row's deletion on and before the row's end.
pub(crate) fn in_row<'a>(
    slots: &'a Slots,
    at: &Spot,
    end: &Spot,
) -> Range<'a, Spot, Option<Arrived>>
    requires { spot_cmp at.now end.now ≡ Less }
    ensures { helds_in result ≡ entries_between spot_cmp (Included at.now) (Excluded end.now) (helds_in slots.now.entries) }
{
    slots.range((ops::Bound::Included(at), ops::Bound::Excluded(end)))
}

/// What is behind one bound and before another.
pub(crate) fn between<'a>(
    slots: &'a Slots,
    from: &Spot,
    upto: &Spot,
) -> Range<'a, Spot, Option<Arrived>>
    requires { spot_cmp from.now upto.now ≡ Less }
    ensures { helds_in result ≡ entries_between spot_cmp (Excluded from.now) (Excluded upto.now) (helds_in slots.now.entries) }
{
    slots.range((ops::Bound::Excluded(from), ops::Bound::Excluded(upto)))
}

/// What is before the rows: deletions of ranges, and that of the partition.
pub(crate) fn before_rows(slots: &Slots, alloc: Global) -> Range<'_, Spot, Option<Arrived>>
    ensures { helds_in result ≡ wide_of (helds_in slots.now.entries) }
{
    let rows = first_row(alloc);
    let walk = slots.range((ops::Bound::Unbounded, ops::Bound::Excluded(&rows)));
    drop(rows);
    walk
}

/// Whether x outranks the change, and none of the others does.
fn is_newly_outranked(others: &Rivals<'_>, x: &Held, there: &Held) -> bool
    ensures { IsTrue result ↔ IsNewlyOutranked others.now x.now there.now }
{
    x.outranks(there) && !others.outrank(there)
}

/// The length of the change in a slot, if x outranks it and none of the others does, with a length that was counted before.
fn lost_with(slot: &Option<Arrived>, others: &Rivals<'_>, x: &Held, counted: u64) -> u64
    requires { sum_by held_length (option_to_list (held_in slot.now)) + counted < 2 ^ 64 }
    ensures { IsCountedWith (IsNewlyOutranked others.now x.now) (held_in slot.now) counted result }
{
    match slot {
        Some(there) => if is_newly_outranked(others, x, &there.held) {
            there.held.encoded_length() + counted
        } else {
            counted
        },
        None => counted,
    }
}

/// The length of the changes on a walk that x outranks and none of the others does.
fn lost_on(walk: Range<'_, Spot, Option<Arrived>>, others: &Rivals<'_>, x: &Held) -> u64
    requires { sum_by held_length (changes_of (helds_in walk)) < 2 ^ 64 }
    ensures { IsLengthOf (IsNewlyOutranked others.now x.now) (helds_in walk.entry) result }
{
    let mut lost = 0;
    for (_, slot) in walk {
        lost = lost_with(slot, others, x, lost);
    }
    lost
}

/// The length of the changes between two bounds that x outranks and none of the others does.
fn lost_between(slots: &Slots, from: &Spot, upto: &Spot, others: &Rivals<'_>, x: &Held) -> u64
    requires { sum_by held_length (changes_of (helds_in slots.now.entries)) < 2 ^ 64 }
    ensures { IsLengthOf (IsNewlyOutranked others.now x.now) (entries_between spot_cmp (Excluded from.now) (Excluded upto.now) (helds_in slots.now.entries)) result }
{
    match from.cmp(upto) {
        Ordering::Less => lost_on(between(slots, from, upto), others, x),
        Ordering::Equal | Ordering::Greater => 0,
    }
}

/// The length of the deletions of ranges and of the partition that x outranks and none of the others does.
fn lost_wide(slots: &Slots, alloc: Global, others: &Rivals<'_>, x: &Held) -> u64
    requires { sum_by held_length (changes_of (helds_in slots.now.entries)) < 2 ^ 64 }
    ensures { IsLengthOf (IsNewlyOutranked others.now x.now) (wide_of (helds_in slots.now.entries)) result }
{
    lost_on(before_rows(slots, alloc), others, x)
}

/// The length of the change that a cell or a marker outranks and none of the others does.
fn lost_at(slots: &Slots, at: &Spot, others: &Rivals<'_>, x: &Held) -> u64
    requires at { at.now ≡ At x.now.place }
    requires narrow { IsInnermost x.now.place }
    requires good { IsGood (helds_of slots.now) }
    requires fits { sum_by held_length (changes_of (helds_in slots.now.entries)) < 2 ^ 64 }
    ensures { IsLengthOf (IsNewlyOutranked others.now x.now) (helds_in slots.now.entries) result }
{
    lost_on(at_key(slots, at), others, x)
}

/// The length of the changes that the deletion of a row outranks and none of the others does.
fn lost_in_row(slots: &Slots, own: &Keys, end: &Spot, others: &Rivals<'_>, x: &Held) -> u64
    requires keys { AreKeysOf own.now x.now.place }
    requires span { own.now.span ≡ Row end.now }
    requires good { IsGood (helds_of slots.now) }
    requires fits { sum_by held_length (changes_of (helds_in slots.now.entries)) < 2 ^ 64 }
    ensures { IsLengthOf (IsNewlyOutranked others.now x.now) (helds_in slots.now.entries) result }
{
    lost_on(in_row(slots, &own.at, end), others, x)
}

/// The length of the changes that the deletion of a range outranks and none of the others does.
fn lost_in_range(
    slots: &Slots,
    alloc: Global,
    own: &Keys,
    from: &Spot,
    upto: &Spot,
    others: &Rivals<'_>,
    x: &Held,
) -> u64
    requires keys { AreKeysOf own.now x.now.place }
    requires span { own.now.span ≡ Rows from.now upto.now }
    requires good { IsGood (helds_of slots.now) }
    requires fits { sum_by held_length (changes_of (helds_in slots.now.entries)) < 2 ^ 64 }
    ensures { IsLengthOf (IsNewlyOutranked others.now x.now) (helds_in slots.now.entries) result }
{
    let wide = lost_wide(slots, alloc, others, x);
    let rows = lost_between(slots, from, upto, others, x);
    wide + rows
}

/// The length of all changes that x outranks and none of the others does.
fn lost_of_all(slots: &Slots, others: &Rivals<'_>, x: &Held) -> u64
    requires { sum_by held_length (changes_of (helds_in slots.now.entries)) < 2 ^ 64 }
    ensures { IsLengthOf (IsNewlyOutranked others.now x.now) (helds_in slots.now.entries) result }
{
    lost_on(whole(slots), others, x)
}

/// The length of the changes that x outranks and none of the others does. It costs what lies in the place of x, each time the
/// logarithm of the others and the number of deletions of ranges among them; that of a deletion of a range also the number of
/// deletions of ranges that are there.
pub(crate) fn lost_by(
    slots: &Slots,
    alloc: Global,
    own: &Keys,
    others: &Rivals<'_>,
    x: &Held,
) -> u64
    requires keys { AreKeysOf own.now x.now.place }
    requires good { IsGood (helds_of slots.now) }
    requires fits { sum_by held_length (changes_of (helds_in slots.now.entries)) < 2 ^ 64 }
    ensures { IsLengthOf (IsNewlyOutranked others.now x.now) (helds_in slots.now.entries) result }
{
    match &own.span {
        Span::Alone | Span::Under(_) => lost_at(slots, &own.at, others, x),
        Span::Row(end) => lost_in_row(slots, own, end, others, x),
        Span::Rows(from, upto) => lost_in_range(slots, alloc, own, from, upto, others, x),
        Span::All => lost_of_all(slots, others, x),
    }
}
