//! Lists of changes in order: copied, rid of what others outrank, and put together.

ghost use Rattle.std.specs.Prelude.{◌≡◌, ◌≤◌, ◌↔◌, ◌⊎◌, ◌++◌, ◌&&◌, length, true, false, IsTrue, IfOk, MatchBool, OnOk, Contains};
ghost use Rattle.std.specs.List.{filter};
ghost use Rattle.std.specs.List.Sorted.{IsPartitionPoint};
ghost use Rattle.changes.specs.declared.Held.{Held as held_value};
ghost use Rattle.changes.specs.Contents.{AreApart, IsContent, IsMergeOf};
ghost use Rattle.changes.specs.Places.{AreInOrder, stored_cmp};
ghost use Rattle.changes.specs.Queries.{MeetsBounds};
ghost use Rattle.cell_merge.specs.Tests.{is_behind_bound, is_before_bound};
ghost use Rattle.cell_merge.specs.Parts.{IsInnermost, IsOutrankedBy, IsParted, IsRidOf, IsUnrivalled};
ghost use Rattle.cell_merge.specs.Settled.{IsSettled};

use crate::ranges::{is_before, is_behind};
use crate::ranking::Ranking;
use changes::{Bound, Held, Place, in_order};
use std::alloc::{AllocError, Global};
use std::cmp::Ordering;

/// Equal changes, in memory of their own, behind others.
pub(crate) fn copy_onto(
    alloc: Global,
    copies: &mut Vec<Held>,
    changes: &[Held],
) -> Result<(), AllocError>
    ensures { OnOk result (copies.new.items ≡ copies.old.items ++ changes.now) }
{
    copies.reserve(changes.len())?;
    for x in changes {
        copies.push(x.copy(alloc)?)?;
    }
    Ok(())
}

/// Copies of the changes whose places meet the bounds.
pub(crate) fn copy_meeting(
    alloc: Global,
    changes: &[Held],
    from: &Bound,
    upto: &Bound,
) -> Result<Vec<Held>, AllocError>
    ensures { IfOk result (λ copies. IsParted (λ x. MeetsBounds from.now upto.now x.place) (λ x. MeetsBounds from.now upto.now x.place → ⊥) changes.now copies.items) }
{
    let mut copies = Vec::new(alloc);
    for x in changes {
        if x.place.meets(from, upto) {
            copies.push(x.copy(alloc)?)?;
        }
    }
    Ok(copies)
}

/// Whether no other place lies in it.
fn is_innermost(place: &Place) -> bool
    ensures { IsTrue result ↔ IsInnermost place.now }
{
    matches!(place, Place::Cell(_, _) | Place::Marker(_))
}

/// Copies of the deletions that other changes may lie in.
fn copy_deletions(alloc: Global, changes: &[Held]) -> Result<Vec<Held>, AllocError>
    ensures { IfOk result (λ copies. IsParted (λ x. IsInnermost x.place → ⊥) (λ x. IsInnermost x.place) changes.now copies.items) }
{
    let mut copies = Vec::new(alloc);
    for x in changes {
        if !is_innermost(&x.place) {
            copies.push(x.copy(alloc)?)?;
        }
    }
    Ok(copies)
}

/// How many changes, in the order of places, stand before the rows behind a bound.
fn rows_start(changes: &[Held], from: &Bound) -> usize
    requires { AreInOrder changes.now }
    ensures bound { result ≤ length changes.now }
    ensures point { IsPartitionPoint (λ y. is_behind_bound from.now y.place ≡ false) (λ y. is_behind_bound from.now y.place ≡ true) changes.now result }
{
    changes.partition_point(|y| !is_behind(from, &y.place))
}

/// How many changes, in the order of places, stand before a bound.
fn rows_end(changes: &[Held], upto: &Bound) -> usize
    requires { AreInOrder changes.now }
    ensures bound { result ≤ length changes.now }
    ensures point { IsPartitionPoint (λ y. is_before_bound upto.now y.place ≡ true) (λ y. is_before_bound upto.now y.place ≡ false) changes.now result }
{
    changes.partition_point(|y| is_before(upto, &y.place))
}

/// The changes in rows between the bounds, found by binary search.
pub(crate) fn rows_between<'a>(changes: &'a [Held], from: &Bound, upto: &Bound) -> &'a [Held]
    requires { AreInOrder changes.now }
    ensures { result.now ≡ filter (λ x. is_behind_bound from.now x.place && is_before_bound upto.now x.place) changes.now }
{
    let (front, _) = changes.split_at(rows_end(changes, upto));
    let start = rows_start(changes, from).min(front.len());
    let (_, between) = front.split_at(start);
    between
}

fn is_unrivalled(ranking: &Ranking<'_>, x: &Held) -> bool
    ensures { MatchBool result (IsUnrivalled ranking.now x.now) (IsOutrankedBy ranking.now x.now) }
{
    !ranking.outranks(x)
}

/// Removes the changes that one of the others outranks.
fn remove_outranked(
    alloc: Global,
    changes: &mut Vec<Held>,
    others: &[Held],
) -> Result<(), AllocError>
    requires { AreInOrder others.now }
    ensures { OnOk result (IsRidOf others.now changes.old.items changes.new.items) }
{
    if others.is_empty() {
        return Ok(());
    }
    let ranking = Ranking::new(alloc, others)?;
    changes.retain(|x| is_unrivalled(&ranking, x));
    Ok(())
}

fn stored_order(x: &Held, y: &Held) -> Ordering
    ensures { result ≡ stored_cmp x.now y.now }
{
    x.place.cmp(&y.place)
}

/// The changes of both lists in order, each once. Two lists that are in order are merged in one walk.
fn in_one(first: Vec<Held>, second: Vec<Held>) -> Result<Vec<Held>, AllocError>
    requires { AreApart (first.items ++ second.items) }
    ensures ordered { IfOk result (λ all. AreInOrder all.items) }
    ensures all { IfOk result (λ all. (x : held_value) → Contains all.items x ↔ (Contains first.items x ⊎ Contains second.items x)) }
{
    let mut all = first;
    let mut second = second;
    all.append(&mut second)?;
    all.sort_by(stored_order)?;
    all.dedup_by(|next, kept| stored_order(next, kept).is_eq());
    Ok(all)
}

/// The changes of two contents that no other one of either outranks.
pub(crate) fn merged(
    alloc: Global,
    first: Vec<Held>,
    second: Vec<Held>,
) -> Result<Vec<Held>, AllocError>
    requires first { IsSettled first.items }
    requires second { IsSettled second.items }
    ensures settled { IfOk result (λ all. IsSettled all.items) }
    ensures merge { IfOk result (λ all. IsMergeOf all.items first.items second.items) }
{
    let mut first = first;
    let mut second = second;
    remove_outranked(alloc, &mut first, &second)?;
    remove_outranked(alloc, &mut second, &first)?;
    let all = in_one(first, second)?;
    Ok(all)
}

/// The changes that no other one outranks, in order.
pub(crate) fn settled(alloc: Global, changes: Vec<Held>) -> Result<Vec<Held>, AllocError>
    ensures settled { IfOk result (λ kept. IsSettled kept.items) }
    ensures content { IfOk result (λ kept. IsContent kept.items (Contains changes.items)) }
{
    let mut changes = in_order(changes);
    let deletions = copy_deletions(alloc, &changes)?;
    remove_outranked(alloc, &mut changes, &deletions)?;
    Ok(changes)
}

pub(crate) fn is_same(x: &Held, y: &Held) -> bool
    ensures { IsTrue result ↔ (x.now ≡ y.now) }
{
    x.place == y.place && x.rank(y).is_eq()
}

/// Whether both are the same changes in the same order.
pub(crate) fn are_same(xs: &[Held], ys: &[Held]) -> bool
    ensures { IsTrue result ↔ (xs.now ≡ ys.now) }
{
    if xs.len() != ys.len() {
        return false;
    }
    for (i, x) in xs.iter().enumerate() {
        let y = &ys[i];
        if !is_same(x, y) {
            return false;
        }
    }
    true
}
