//! The order of bounds and of places, and which place lies in which.

ghost use Rattle.std.specs.Prelude.{◌≡◌, ◌↔◌, IsTrue, None};
ghost use Rattle.std.specs.Option.{option_copied};
ghost use Rattle.changes.specs.Order.{Encloses, IsBetween, NotAbove, StandsBelow, bound_signs, row_of, row_signs};
ghost use Rattle.changes.specs.Places.{place_cmp};
ghost use Rattle.changes.specs.Queries.{MeetsBounds};
ghost use Rattle.changes.specs.Tests.{is_past as is_past_of, step_of};

use crate::{Bound, Partition, Place};
use cs_base::Bytes;
use std::cmp::Ordering;

impl PartialOrd for Partition {
    ghost use Rattle.std.specs.Cmp.{po};
    ghost use Rattle.std.specs.Ordering.{as_partial_cmp};
    ghost use Rattle.changes.specs.Order.{partition_cmp};
    ghost use Rattle.changes.specs.Totals.{partition_ties, partition_total};

    ghost partial_cmp = { as_partial_cmp partition_cmp };

    ghost laws = { po partition_total partition_ties };

    fn partial_cmp(&self, other: &Partition) -> Option<Ordering> {
        Some(self.cmp(other))
    }
}

/// By token, then table, then key.
impl Ord for Partition {
    ghost use Rattle.std.specs.Prelude.{refl};
    ghost use Rattle.changes.specs.Order.{partition_cmp};
    ghost use Rattle.changes.specs.Totals.{partition_ties, partition_total};

    ghost cmp = { partition_cmp };

    ghost total = { partition_total };

    ghost matches_partial_cmp = { λ a b. refl };

    ghost matches_eq = { partition_ties };

    fn cmp(&self, other: &Partition) -> Ordering {
        self.token
            .cmp(&other.token)
            .then_with(|| self.table.cmp(&other.table))
            .then_with(|| self.key.cmp(&other.key))
    }
}

impl Bound {
    /// Whether it stands behind all rows that begin with its bytes, of which the row is one.
    fn is_past(&self, row: &[u8]) -> bool
        ensures { result ≡ is_past_of self.now row.now }
    {
        self.after && row.starts_with(self.at.as_slice())
    }

    /// Whether it stands behind the row.
    pub fn is_behind(&self, row: &[u8]) -> bool
        ensures { IsTrue result ↔ StandsBelow (row_signs row.now) (bound_signs self.now) }
    {
        match row.cmp(self.at.as_slice()) {
            Ordering::Less => true,
            Ordering::Equal => self.after,
            Ordering::Greater => self.is_past(row),
        }
    }

    /// Whether it stands before the row.
    pub fn is_before(&self, row: &[u8]) -> bool
        ensures { IsTrue result ↔ StandsBelow (bound_signs self.now) (row_signs row.now) }
    {
        !self.is_behind(row)
    }
}

impl PartialEq for Bound {
    ghost use Rattle.std.specs.Cmp.{partial_equiv_from_equiv, eq_by_cmp_equiv};
    ghost use Rattle.std.specs.Ordering.{eq_by_cmp};
    ghost use Rattle.changes.specs.Places.{bound_cmp};
    ghost use Rattle.changes.specs.Totals.{bound_total};

    ghost eq = { eq_by_cmp bound_cmp };

    ghost laws = { partial_equiv_from_equiv (eq_by_cmp_equiv bound_total) };

    fn eq(&self, other: &Bound) -> bool {
        self.cmp(other).is_eq()
    }
}

impl Eq for Bound {
    ghost use Rattle.std.specs.Cmp.{eq_by_cmp_equiv};
    ghost use Rattle.changes.specs.Totals.{bound_total};

    ghost laws = { eq_by_cmp_equiv bound_total };
}

impl PartialOrd for Bound {
    ghost use Rattle.std.specs.Cmp.{partial_order_from_total};
    ghost use Rattle.std.specs.Ordering.{as_partial_cmp};
    ghost use Rattle.changes.specs.Places.{bound_cmp};
    ghost use Rattle.changes.specs.Totals.{bound_total};

    ghost partial_cmp = { as_partial_cmp bound_cmp };

    ghost laws = { partial_order_from_total bound_total };

    fn partial_cmp(&self, other: &Bound) -> Option<Ordering> {
        Some(self.cmp(other))
    }
}

/// Before all rows that begin with the bytes, or behind them: the bytes decide, unless one begins with the other.
impl Ord for Bound {
    ghost use Rattle.std.specs.Prelude.{refl};
    ghost use Rattle.changes.specs.Places.{bound_cmp};
    ghost use Rattle.changes.specs.Totals.{bound_total};

    ghost cmp = { bound_cmp };

    ghost total = { bound_total };

    ghost matches_partial_cmp = { λ a b. refl };

    ghost matches_eq = { λ a b. refl };

    fn cmp(&self, other: &Bound) -> Ordering {
        match self.at.cmp(&other.at) {
            Ordering::Less => if self.is_past(other.at.as_slice()) {
                Ordering::Greater
            } else {
                Ordering::Less
            },
            Ordering::Equal => self.after.cmp(&other.after),
            Ordering::Greater => if other.is_past(self.at.as_slice()) {
                Ordering::Less
            } else {
                Ordering::Greater
            },
        }
    }
}

impl Place {
    /// The row of a place that is in one row.
    pub fn row(&self) -> Option<&Bytes>
        ensures { option_copied result ≡ row_of self.now }
    {
        match self {
            Place::Cell(row, _) | Place::Marker(row) | Place::RowGone(row) => Some(row),
            Place::RangeGone(_, _) | Place::PartGone => None,
        }
    }

    /// Where it stands in its row: the row's deletion, its marker, and its cells by column.
    fn step(&self) -> (u8, u8)
        ensures { result ≡ step_of self.now }
    {
        match self {
            Place::Cell(_, column) => (2, *column),
            Place::Marker(_) => (1, 0),
            Place::RowGone(_) | Place::RangeGone(_, _) | Place::PartGone => (0, 0),
        }
    }

    /// Whether the other place lies in it, and is not it.
    pub fn encloses(&self, inner: &Place) -> bool
        ensures { IsTrue result ↔ Encloses self.now inner.now }
    {
        match (self, inner) {
            (Place::PartGone, Place::PartGone) => false,
            (Place::PartGone, _) => true,
            (Place::RangeGone(from, upto), Place::RangeGone(start, end)) => {
                self != inner && spans(from, upto, start, end)
            }
            (
                Place::RangeGone(from, upto),
                Place::Cell(row, _) | Place::Marker(row) | Place::RowGone(row),
            ) => is_between(from, upto, row.as_slice()),
            (Place::RowGone(gone), Place::Cell(row, _) | Place::Marker(row)) => gone == row,
            _ => false,
        }
    }

    /// Whether it is in a row between the bounds, or is a deletion of rows that meets them.
    pub fn meets(&self, from: &Bound, upto: &Bound) -> bool
        ensures { IsTrue result ↔ MeetsBounds from.now upto.now self.now }
    {
        match self {
            Place::Cell(row, _) | Place::Marker(row) | Place::RowGone(row) => {
                is_between(from, upto, row.as_slice())
            }
            Place::RangeGone(start, end) => start <= upto && from <= end,
            Place::PartGone => true,
        }
    }
}

/// Whether the first range begins no later and ends no earlier than the second.
fn spans(from: &Bound, upto: &Bound, start: &Bound, end: &Bound) -> bool
    ensures { IsTrue result ↔ (NotAbove (bound_signs from.now) (bound_signs start.now) × NotAbove (bound_signs end.now) (bound_signs upto.now)) }
{
    from <= start && end <= upto
}

/// Whether the row stands between the bounds.
fn is_between(from: &Bound, upto: &Bound, row: &[u8]) -> bool
    ensures { IsTrue result ↔ IsBetween from.now upto.now row.now }
{
    from.is_before(row) && upto.is_behind(row)
}

/// The order of places that are not in one row.
fn wide_order(a: &Place, b: &Place) -> Ordering
    requires first { row_of a.now ≡ None }
    requires second { row_of b.now ≡ None }
    ensures { result ≡ place_cmp a.now b.now }
{
    match (a, b) {
        (Place::RangeGone(from, upto), Place::RangeGone(start, end)) => {
            match from.cmp(start) {
                Ordering::Equal => upto.cmp(end),
                Ordering::Less => Ordering::Less,
                Ordering::Greater => Ordering::Greater,
            }
        }
        (Place::RangeGone(_, _), _) => Ordering::Greater,
        (_, Place::RangeGone(_, _)) => Ordering::Less,
        _ => Ordering::Equal,
    }
}

/// The order of places of any kind. Most places that are compared are cells: kept out of their comparison, which stays small.
#[inline(never)]
fn mixed_order(a: &Place, b: &Place) -> Ordering
    ensures { result ≡ place_cmp a.now b.now }
{
    match (a.row(), b.row()) {
        (Some(row), Some(beside)) => match row.cmp(beside) {
            Ordering::Equal => a.step().cmp(&b.step()),
            Ordering::Less => Ordering::Less,
            Ordering::Greater => Ordering::Greater,
        },
        (Some(_), None) => Ordering::Greater,
        (None, Some(_)) => Ordering::Less,
        (None, None) => wide_order(a, b),
    }
}

impl PartialEq for Place {
    ghost use Rattle.std.specs.Cmp.{partial_equiv_from_equiv, eq_by_cmp_equiv};
    ghost use Rattle.std.specs.Ordering.{eq_by_cmp};
    ghost use Rattle.changes.specs.Places.{place_cmp};
    ghost use Rattle.changes.specs.Totals.{place_total};

    ghost eq = { eq_by_cmp place_cmp };

    ghost laws = { partial_equiv_from_equiv (eq_by_cmp_equiv place_total) };

    fn eq(&self, other: &Place) -> bool {
        self.cmp(other).is_eq()
    }
}

impl Eq for Place {
    ghost use Rattle.std.specs.Cmp.{eq_by_cmp_equiv};
    ghost use Rattle.changes.specs.Totals.{place_total};

    ghost laws = { eq_by_cmp_equiv place_total };
}

impl PartialOrd for Place {
    ghost use Rattle.std.specs.Cmp.{partial_order_from_total};
    ghost use Rattle.std.specs.Ordering.{as_partial_cmp};
    ghost use Rattle.changes.specs.Places.{place_cmp};
    ghost use Rattle.changes.specs.Totals.{place_total};

    ghost partial_cmp = { as_partial_cmp place_cmp };

    ghost laws = { partial_order_from_total place_total };

    fn partial_cmp(&self, other: &Place) -> Option<Ordering> {
        Some(self.cmp(other))
    }
}

/// As changes are stored: the deletion of the partition, deletions of ranges by their bounds, and then row by row the row's
/// deletion, its marker and its cells by column.
impl Ord for Place {
    ghost use Rattle.std.specs.Prelude.{refl};
    ghost use Rattle.changes.specs.Places.{place_cmp};
    ghost use Rattle.changes.specs.Totals.{place_total};

    ghost cmp = { place_cmp };

    ghost total = { place_total };

    ghost matches_partial_cmp = { λ a b. refl };

    ghost matches_eq = { λ a b. refl };

    fn cmp(&self, other: &Place) -> Ordering {
        match (self, other) {
            (Place::Cell(row, column), Place::Cell(beside, facing)) => match row.cmp(beside) {
                Ordering::Equal => column.cmp(facing),
                Ordering::Less => Ordering::Less,
                Ordering::Greater => Ordering::Greater,
            },
            _ => mixed_order(self, other),
        }
    }
}
