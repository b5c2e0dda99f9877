//! Which changes a list of changes in order outranks.

ghost use Rattle.std.specs.Prelude.{◌≡◌, ◌↔◌, ◌≤◌, ◌++◌, length, true, false, IfOk, IsTrue, IsSome, IsSomeAnd, None, slice_get};
ghost use Rattle.std.specs.List.Sorted.{IsPartitionPoint};
ghost use Rattle.changes.specs.Order.{row_of, Outranks};
ghost use Rattle.changes.specs.Places.{AreInOrder};
ghost use Rattle.cell_merge.specs.Tests.{is_before_place, is_before_row};
ghost use Rattle.cell_merge.specs.Parts.{IsOutrankedBy};
ghost use Rattle.cell_merge.specs.Ranges.{AllWide, AllInRows};

use crate::ranges::RangeIndex;
use changes::{Held, Place};
use cs_base::Bytes;
use std::alloc::{AllocError, Global};
use std::marker::Model;

/// Whether the place stands before those of the row.
fn stands_before_row(place: &Place, row: &Bytes) -> bool
    ensures { result ≡ is_before_row row.now place.now }
{
    match place.row() {
        Some(own) => own < row,
        None => true,
    }
}

/// The place of the first change that is in the row, or behind it.
fn row_start(rows: &[Held], row: &Bytes) -> usize
    requires { AreInOrder rows.now }
    ensures bound { result ≤ length rows.now }
    ensures point { IsPartitionPoint (λ y. is_before_row row.now y.place ≡ true) (λ y. is_before_row row.now y.place ≡ false) rows.now result }
{
    rows.partition_point(|y| stands_before_row(&y.place, row))
}

/// The place of the first change that is at this place of the partition, or behind it.
fn place_start(rows: &[Held], place: &Place) -> usize
    requires { AreInOrder rows.now }
    ensures bound { result ≤ length rows.now }
    ensures point { IsPartitionPoint (λ y. is_before_place place.now y.place ≡ true) (λ y. is_before_place place.now y.place ≡ false) rows.now result }
{
    rows.partition_point(|y| y.place < *place)
}

fn outranks_at(changes: &[Held], at: usize, x: &Held) -> bool
    ensures { IsTrue result ↔ IsSomeAnd (slice_get changes.now at) (λ y. Outranks y x.now) }
{
    match changes.get(at) {
        Some(y) => y.outranks(x),
        None => false,
    }
}

/// Whether a change of the change's own row outranks it: the row's deletion, or one at its place.
fn outranks_in_row(rows: &[Held], x: &Held) -> bool
    requires ordered { AreInOrder rows.now }
    requires rows { AllInRows rows.now }
    ensures { IsTrue result ↔ IsOutrankedBy rows.now x.now }
{
    let Some(row) = x.place.row() else {
        return false;
    };
    outranks_at(rows, row_start(rows, row), x) || outranks_at(rows, place_start(rows, &x.place), x)
}

/// How many changes, in the order of places, are in no single row.
fn wide_count(changes: &[Held]) -> usize
    requires { AreInOrder changes.now }
    ensures bound { result ≤ length changes.now }
    ensures point { IsPartitionPoint (λ y. row_of y.place ≡ None) (λ y. IsSome (row_of y.place)) changes.now result }
{
    changes.partition_point(|y| y.place.row().is_none())
}

/// The changes in no single row, and those in rows.
pub(crate) fn split_rows(changes: &[Held]) -> (&[Held], &[Held])
    requires { AreInOrder changes.now }
    ensures whole { result.0.now ++ result.1.now ≡ changes.now }
    ensures wide { AllWide result.0.now }
    ensures rows { AllInRows result.1.now }
{
    changes.split_at(wide_count(changes))
}

/// Changes in order, so that whether one of them outranks a change is found by binary search.
#[derive(Drop)]
pub(crate) struct Ranking<'a> {
    wide: &'a [Held],
    rows: &'a [Held],
    index: RangeIndex,
}

impl<'a> Model for Ranking<'a> {
    ghost use Rattle.std.specs.Prelude.{List, ◌++◌};
    ghost use Rattle.changes.specs.declared.Held.{Held};

    ghost Value = { List Held };

    ghost view = { λ a. a.wide.now ++ a.rows.now };

    ghost use Rattle.cell_merge.specs.Ranges.{IsRanking};

    ghost invariant = { λ a. IsRanking a.wide.now a.rows.now a.index };
}

impl<'a> Ranking<'a> {
    pub(crate) fn new(alloc: Global, changes: &'a [Held]) -> Result<Ranking<'a>, AllocError>
        requires { AreInOrder changes.now }
        ensures { IfOk result (λ ranking. ranking ≡ changes.now) }
    {
        let (wide, rows) = split_rows(changes);
        let index = RangeIndex::new(alloc, wide)?;
        Ok(Ranking { wide, rows, index })
    }

    /// Whether one of the changes outranks this one. It costs the logarithm of their number, and again for each deletion of a
    /// range around the change's place.
    pub(crate) fn outranks(&self, x: &Held) -> bool
        ensures { IsTrue result ↔ IsOutrankedBy self.now x.now }
    {
        self.index.outranks(self.wide, x) || outranks_in_row(self.rows, x)
    }
}

/// Whether one of the changes outranks x, by a look at each.
fn is_outranked_by(changes: &[Held], x: &Held) -> bool
    ensures { IsTrue result ↔ IsOutrankedBy changes.now x.now }
{
    for y in changes {
        if y.outranks(x) {
            return true;
        }
    }
    false
}

/// Changes in order that may outrank others, told without memory of their own: those in rows by binary search, and the
/// deletions of ranges one after another.
#[derive(Drop)]
pub struct Rivals<'a> {
    wide: &'a [Held],
    rows: &'a [Held],
}

impl<'a> Model for Rivals<'a> {
    ghost use Rattle.std.specs.Prelude.{List, ◌++◌};
    ghost use Rattle.changes.specs.declared.Held.{Held};

    ghost Value = { List Held };

    ghost view = { λ a. a.wide.now ++ a.rows.now };

    ghost use Rattle.cell_merge.specs.Ranges.{AreRivals};

    ghost invariant = { λ a. AreRivals a.wide.now a.rows.now };
}

impl<'a> Rivals<'a> {
    /// These changes. It costs the logarithm of their number.
    pub fn new(changes: &'a [Held]) -> Rivals<'a>
        requires { AreInOrder changes.now }
        ensures { result ≡ changes.now }
    {
        let (wide, rows) = split_rows(changes);
        Rivals { wide, rows }
    }

    /// Whether one of the changes outranks this one. It costs the logarithm of their number, and the number of deletions of
    /// ranges among them.
    pub fn outrank(&self, x: &Held) -> bool
        ensures { IsTrue result ↔ IsOutrankedBy self.now x.now }
    {
        is_outranked_by(self.wide, x) || outranks_in_row(self.rows, x)
    }
}
