//! The keys that lie in a place, found when memory is taken for its deletion: without them a deletion would have to look
//! through all of the tree.

ghost use Rattle.std.specs.Prelude.{◌≡◌, ◌⊎◌, ◌++◌, IfOk, OnOk, Contains, map};
ghost use Rattle.std.specs.Map.{keys_of};
ghost use Rattle.std.specs.BTreeMap.Range.{entries_between};
ghost use Rattle.std.specs.declared.cmp.Ordering.TheVariants.{Less};
ghost use Rattle.std.specs.declared.ops.Bound.TheVariants.{Excluded};
ghost use Rattle.partition_content.specs.declared.spots.Spot.{Spot as spot_value};
ghost use Rattle.partition_content.specs.declared.keys.Keys.{Keys as keys_value};
ghost use Rattle.partition_content.specs.declared.keys.Span.TheVariants.{Row, Rows};
ghost use Rattle.partition_content.specs.Spots.{spot_cmp};
ghost use Rattle.partition_content.specs.Keys.{AreKeysOf};
ghost use Rattle.partition_content.specs.Inside.{IsInside, AreNoted};
ghost use Rattle.partition_content.specs.Partition.{place_of_keys};
ghost use Rattle.partition_content.specs.Reading.{wide_of};
ghost use Rattle.partition_content.specs.Slots.{helds_in, helds_of, spots_in};

use crate::Arrived;
use crate::keys::{Keys, Span};
use crate::losing::{before_rows, between, in_row};
use crate::slots::{Slots, whole};
use crate::spots::Spot;
use std::alloc::{AllocError, Global};
use std::cmp::Ordering;
use std::collections::btree_map::Range;

/// Puts copies of the keys on a walk behind those that are there.
fn copy_keys(
    onto: &mut Vec<Spot>,
    alloc: Global,
    walk: Range<'_, Spot, Option<Arrived>>,
) -> Result<(), AllocError>
    ensures { OnOk result (onto.new.items ≡ onto.old.items ++ keys_of (helds_in walk.entry)) }
{
    for (at, _) in walk {
        onto.push(at.copy(alloc)?)?;
    }
    Ok(())
}

/// Puts copies of the keys between two bounds, the first of which is before the second, behind those that are there.
fn copy_ahead(
    onto: &mut Vec<Spot>,
    alloc: Global,
    slots: &Slots,
    from: &Spot,
    upto: &Spot,
) -> Result<(), AllocError>
    requires { spot_cmp from.now upto.now ≡ Less }
    ensures { OnOk result ((s : spot_value) → Contains onto.old.items s ⊎ Contains (keys_of (entries_between spot_cmp (Excluded from.now) (Excluded upto.now) (helds_in slots.now.entries))) s → Contains onto.new.items s) }
{
    copy_keys(onto, alloc, between(slots, from, upto))?;
    Ok(())
}

/// Puts copies of the keys between two bounds behind those that are there.
fn copy_between(
    onto: &mut Vec<Spot>,
    alloc: Global,
    slots: &Slots,
    from: &Spot,
    upto: &Spot,
) -> Result<(), AllocError>
    ensures { OnOk result ((s : spot_value) → Contains onto.old.items s ⊎ Contains (keys_of (entries_between spot_cmp (Excluded from.now) (Excluded upto.now) (helds_in slots.now.entries))) s → Contains onto.new.items s) }
{
    match from.cmp(upto) {
        Ordering::Less => copy_ahead(onto, alloc, slots, from, upto),
        Ordering::Equal | Ordering::Greater => Ok(()),
    }
}

/// Puts copies of the keys in a row behind those that are there.
fn copy_row(
    onto: &mut Vec<Spot>,
    alloc: Global,
    slots: &Slots,
    own: &Keys,
    end: &Spot,
) -> Result<(), AllocError>
    requires keys { AreKeysOf own.now (place_of_keys own.now) }
    requires span { own.now.span ≡ Row end.now }
    ensures { OnOk result (IsInside (spots_in (helds_of slots.now)) (place_of_keys own.now) onto.new.items) }
{
    copy_keys(onto, alloc, in_row(slots, &own.at, end))?;
    Ok(())
}

/// Puts copies of the keys in a range, and of those of deletions of ranges, behind those that are there.
fn copy_range(
    onto: &mut Vec<Spot>,
    alloc: Global,
    slots: &Slots,
    own: &Keys,
    from: &Spot,
    upto: &Spot,
) -> Result<(), AllocError>
    requires keys { AreKeysOf own.now (place_of_keys own.now) }
    requires span { own.now.span ≡ Rows from.now upto.now }
    ensures { OnOk result (IsInside (spots_in (helds_of slots.now)) (place_of_keys own.now) onto.new.items) }
{
    copy_keys(onto, alloc, before_rows(slots, alloc))?;
    copy_between(onto, alloc, slots, from, upto)?;
    Ok(())
}

/// Puts copies of all keys behind those that are there.
fn copy_whole(
    onto: &mut Vec<Spot>,
    alloc: Global,
    slots: &Slots,
    own: &Keys,
) -> Result<(), AllocError>
    ensures { OnOk result (IsInside (spots_in (helds_of slots.now)) (place_of_keys own.now) onto.new.items) }
{
    copy_keys(onto, alloc, whole(slots))?;
    Ok(())
}

/// Puts copies of the keys in the place that has these keys behind those that are there.
fn copy_inside(
    onto: &mut Vec<Spot>,
    alloc: Global,
    slots: &Slots,
    own: &Keys,
) -> Result<(), AllocError>
    requires { AreKeysOf own.now (place_of_keys own.now) }
    ensures { OnOk result (IsInside (spots_in (helds_of slots.now)) (place_of_keys own.now) onto.new.items) }
{
    match &own.span {
        Span::Alone | Span::Under(_) => Ok(()),
        Span::Row(end) => copy_row(onto, alloc, slots, own, end),
        Span::Rows(from, upto) => copy_range(onto, alloc, slots, own, from, upto),
        Span::All => copy_whole(onto, alloc, slots, own),
    }
}

/// The keys in each of the places that have these keys. Of a cell or a marker there are none.
pub(crate) fn inside_each(
    alloc: Global,
    slots: &Slots,
    keys: &[Keys],
) -> Result<Vec<Vec<Spot>>, AllocError>
    requires { (own : keys_value) → Contains keys.now own → AreKeysOf own (place_of_keys own) }
    ensures { IfOk result (λ all. AreNoted (spots_in (helds_of slots.now)) (map place_of_keys keys.now) all.items) }
{
    let mut all = Vec::with_capacity(alloc, keys.len())?;
    for own in keys {
        let mut inside = Vec::new(alloc);
        copy_inside(&mut inside, alloc, slots, own)?;
        all.push(inside)?;
    }
    Ok(all)
}
