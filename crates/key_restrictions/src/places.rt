//! Which key columns relations fix, and which they bound.

ghost use Rattle.std.specs.Prelude.{◌≡◌, option_copied};
ghost use Rattle.key_restrictions.specs.Places.{is_partition as is_partition_of, is_clustering as is_clustering_of, is_key as is_key_of, is_partition_at as is_partition_at_of, is_clustering_at as is_clustering_at_of, is_key_at as is_key_at_of, fixes as fixes_of, bounds_below as bounds_below_of, bounds_above as bounds_above_of, is_fixed as is_fixed_of, fixing as fixing_of, lower_bound as lower_bound_of, upper_bound as upper_bound_of, open_place as open_place_of};

use crate::operators::{is_equal, is_lower, is_upper};
use crate::restriction::Restriction;
use schema_book::{ColumnDef, ColumnKind};

/// Whether it is a column of the partition key.
pub fn is_partition(kind: ColumnKind) -> bool
    ensures { result ≡ is_partition_of kind }
{
    match kind {
        ColumnKind::Partition => true,
        ColumnKind::Clustering | ColumnKind::Regular => false,
    }
}

/// Whether it is a clustering column.
pub fn is_clustering(kind: ColumnKind) -> bool
    ensures { result ≡ is_clustering_of kind }
{
    match kind {
        ColumnKind::Clustering => true,
        ColumnKind::Partition | ColumnKind::Regular => false,
    }
}

/// Whether it is a column of the key.
pub fn is_key(kind: ColumnKind) -> bool
    ensures { result ≡ is_key_of kind }
{
    match kind {
        ColumnKind::Partition | ColumnKind::Clustering => true,
        ColumnKind::Regular => false,
    }
}

pub(crate) fn is_partition_at(columns: &[ColumnDef], place: usize) -> bool
    ensures { result ≡ is_partition_at_of columns.now place }
{
    match columns.get(place) {
        Some(column) => is_partition(column.kind),
        None => false,
    }
}

pub(crate) fn is_clustering_at(columns: &[ColumnDef], place: usize) -> bool
    ensures { result ≡ is_clustering_at_of columns.now place }
{
    match columns.get(place) {
        Some(column) => is_clustering(column.kind),
        None => false,
    }
}

/// Whether the column at this place is of the key.
pub fn is_key_at(columns: &[ColumnDef], place: usize) -> bool
    ensures { result ≡ is_key_at_of columns.now place }
{
    match columns.get(place) {
        Some(column) => is_key(column.kind),
        None => false,
    }
}

pub(crate) fn fixes<V: Drop>(place: usize, restriction: &Restriction<V>) -> bool
    ensures { result ≡ fixes_of place restriction.now }
{
    restriction.column == place && is_equal(restriction.operator)
}

pub(crate) fn bounds_below<V: Drop>(place: usize, restriction: &Restriction<V>) -> bool
    ensures { result ≡ bounds_below_of place restriction.now }
{
    restriction.column == place && is_lower(restriction.operator)
}

pub(crate) fn bounds_above<V: Drop>(place: usize, restriction: &Restriction<V>) -> bool
    ensures { result ≡ bounds_above_of place restriction.now }
{
    restriction.column == place && is_upper(restriction.operator)
}

pub(crate) fn is_fixed<V: Drop>(restrictions: &[Restriction<V>], place: usize) -> bool
    ensures { result ≡ is_fixed_of restrictions.now place }
{
    restrictions
        .iter()
        .any(|restriction| fixes(place, restriction))
}

pub(crate) fn fixing<V: Drop>(
    restrictions: &[Restriction<V>],
    place: usize,
) -> Option<&Restriction<V>>
    ensures { option_copied result ≡ fixing_of restrictions.now place }
{
    restrictions
        .iter()
        .find(|restriction| fixes(place, restriction))
}

pub(crate) fn lower_bound<V: Drop>(
    restrictions: &[Restriction<V>],
    place: usize,
) -> Option<&Restriction<V>>
    ensures { option_copied result ≡ lower_bound_of restrictions.now place }
{
    restrictions
        .iter()
        .find(|restriction| bounds_below(place, restriction))
}

pub(crate) fn upper_bound<V: Drop>(
    restrictions: &[Restriction<V>],
    place: usize,
) -> Option<&Restriction<V>>
    ensures { option_copied result ≡ upper_bound_of restrictions.now place }
{
    restrictions
        .iter()
        .find(|restriction| bounds_above(place, restriction))
}

/// The place of the first column that is not a fixed column of the key.
pub(crate) fn open_place<V: Drop>(columns: &[ColumnDef], restrictions: &[Restriction<V>]) -> usize
    ensures { result ≡ open_place_of columns.now restrictions.now }
{
    for (place, column) in columns.iter().enumerate() {
        if !(is_key(column.kind) && is_fixed(restrictions, place)) {
            return place;
        }
    }
    columns.len()
}
