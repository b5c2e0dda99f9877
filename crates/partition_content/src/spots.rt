//! The keys of the tree: places as they are stored, and the bounds of rows between them.

ghost use Rattle.std.specs.Prelude.{◌≡◌, ◌∷◌, ℕ, IfOk};
ghost use Rattle.std.specs.Cmp.Lexicographic.{slice_cmp};
ghost use Rattle.std.specs.Ordering.{nat_cmp};
ghost use Rattle.changes.specs.declared.Place.TheVariants.{Cell};
ghost use Rattle.changes.specs.Order.{bound_signs, signs_cmp};
ghost use Rattle.changes.specs.Places.{place_cmp, place_signs};

use changes::{Bound, Place};
use cs_base::Bytes;
use std::alloc::{AllocError, Global};
use std::cmp::Ordering;

/// The place of a change, or a bound among the places of rows. No change has a bound as its key: it serves to look for
/// the rows from it on or up to it.
#[derive(Debug, Drop)]
pub(crate) enum Spot {
    At(Place),
    Edge(Bound),
}

impl Spot {
    /// The key of a place, in memory of its own.
    pub(crate) fn of_place(alloc: Global, place: &Place) -> Result<Spot, AllocError>
        ensures { IfOk result (λ spot. spot ≡ Spot.At place.now) }
    {
        Ok(Spot::At(place.copy(alloc)?))
    }

    /// A bound among the keys, in memory of its own.
    pub(crate) fn of_bound(alloc: Global, bound: &Bound) -> Result<Spot, AllocError>
        ensures { IfOk result (λ spot. spot ≡ Spot.Edge bound.now) }
    {
        Ok(Spot::Edge(bound.copy(alloc)?))
    }

    /// An equal key, in memory of its own.
    pub(crate) fn copy(&self, alloc: Global) -> Result<Spot, AllocError>
        ensures { IfOk result (λ copy. copy ≡ self.now) }
    {
        match self {
            Spot::At(place) => Spot::of_place(alloc, place),
            Spot::Edge(bound) => Spot::of_bound(alloc, bound),
        }
    }
}

/// How a bound stands to a place: deletions of rows stand before all bounds. Few keys that are compared are bounds: kept out of
/// the comparison of keys, which stays small.
#[inline(never)]
fn standing(bound: &Bound, place: &Place) -> Ordering
    ensures { result ≡ signs_cmp ((2, 0) ∷ bound_signs bound.now) (place_signs place.now) }
{
    match place.row() {
        None => Ordering::Greater,
        Some(row) => if bound.is_before(row.as_slice()) {
            Ordering::Less
        } else {
            Ordering::Greater
        },
    }
}

/// The longest row that is compared byte by byte. The slices' own comparison goes by groups of bytes, which costs more on a row
/// of few.
const SHORT: usize = 16;

/// The order of rows by their bytes, one by one.
fn short_order(row: &[u8], beside: &[u8]) -> Ordering
    ensures { result ≡ slice_cmp nat_cmp row.now beside.now }
{
    for at in 0..row.len().min(beside.len()) {
        if row[at] != beside[at] {
            return row[at].cmp(&beside[at]);
        }
    }
    row.len().cmp(&beside.len())
}

/// The order of rows by their bytes.
fn row_order(row: &[u8], beside: &[u8]) -> Ordering
    ensures { result ≡ slice_cmp nat_cmp row.now beside.now }
{
    if row.len() > SHORT {
        return row.cmp(beside);
    }
    short_order(row, beside)
}

/// The order of cells by their rows, and in a row by their columns.
fn cell_order(row: &Bytes, column: u8, beside: &Bytes, facing: u8) -> Ordering
    ensures { result ≡ place_cmp (Cell row.now column) (Cell beside.now facing) }
{
    match row_order(row.as_slice(), beside.as_slice()) {
        Ordering::Equal => column.cmp(&facing),
        Ordering::Less => Ordering::Less,
        Ordering::Greater => Ordering::Greater,
    }
}

/// The order of places. Most that are compared are cells.
fn place_order(place: &Place, beside: &Place) -> Ordering
    ensures { result ≡ place_cmp place.now beside.now }
{
    match (place, beside) {
        (Place::Cell(row, column), Place::Cell(other, facing)) => {
            cell_order(row, *column, other, *facing)
        }
        _ => place.cmp(beside),
    }
}

/// As the places are stored, with a bound before the rows that are behind it.
impl Ord for Spot {
    ghost use Rattle.std.specs.Prelude.{refl};
    ghost use Rattle.partition_content.specs.Spots.{spot_cmp};
    ghost use Rattle.partition_content.specs.SpotLaws.{spot_total};

    ghost cmp = { spot_cmp };

    ghost total = { spot_total };

    ghost matches_partial_cmp = { λ a b. refl };

    ghost matches_eq = { λ a b. refl };

    fn cmp(&self, other: &Spot) -> Ordering {
        match (self, other) {
            (Spot::At(place), Spot::At(beside)) => place_order(place, beside),
            (Spot::Edge(bound), Spot::Edge(edge)) => bound.cmp(edge),
            (Spot::Edge(bound), Spot::At(place)) => standing(bound, place),
            (Spot::At(place), Spot::Edge(bound)) => standing(bound, place).reverse(),
        }
    }
}

impl PartialOrd for Spot {
    ghost use Rattle.std.specs.Cmp.{partial_order_from_total};
    ghost use Rattle.std.specs.Ordering.{as_partial_cmp};
    ghost use Rattle.partition_content.specs.Spots.{spot_cmp};
    ghost use Rattle.partition_content.specs.SpotLaws.{spot_total};

    ghost partial_cmp = { as_partial_cmp spot_cmp };

    ghost laws = { partial_order_from_total spot_total };

    fn partial_cmp(&self, other: &Spot) -> Option<Ordering> {
        Some(self.cmp(other))
    }
}

impl PartialEq for Spot {
    ghost use Rattle.std.specs.Ordering.{eq_by_cmp};
    ghost use Rattle.std.specs.Cmp.{partial_equiv_from_equiv, eq_by_cmp_equiv};
    ghost use Rattle.partition_content.specs.Spots.{spot_cmp};
    ghost use Rattle.partition_content.specs.SpotLaws.{spot_total};

    ghost eq = { eq_by_cmp spot_cmp };

    ghost laws = { partial_equiv_from_equiv (eq_by_cmp_equiv spot_total) };

    fn eq(&self, other: &Spot) -> bool {
        self.cmp(other).is_eq()
    }
}

impl Eq for Spot {
    ghost use Rattle.std.specs.Cmp.{eq_by_cmp_equiv};
    ghost use Rattle.partition_content.specs.SpotLaws.{spot_total};

    ghost laws = { eq_by_cmp_equiv spot_total };
}
