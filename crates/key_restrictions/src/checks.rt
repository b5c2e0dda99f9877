//! What is wrong with the relations of a WHERE.

ghost use Rattle.std.specs.Prelude.{◌≡◌};
ghost use Rattle.std.specs.List.{list_any};
ghost use Rattle.key_restrictions.specs.Checks.{bounds_partition as bounds_partition_of, bounds_key as bounds_key_of, is_behind as is_behind_of, is_whole as is_whole_of, misses_whole as misses_whole_of, misses_slice as misses_slice_of, fixed_times as fixed_times_of, lower_times as lower_times_of, upper_times as upper_times_of, is_fixed_twice as is_fixed_twice_of, is_twice_at as is_twice_at_of, is_twice as is_twice_of, is_other as is_other_of, filters as filters_of, is_on_row as is_on_row_of, names_rows as names_rows_of};

use crate::operators::is_equal;
use crate::places::{
    bounds_above, bounds_below, fixes, is_clustering_at, is_key, is_key_at, is_partition_at,
    open_place,
};
use crate::restriction::Restriction;
use schema_book::ColumnDef;

fn bounds_partition<V: Drop>(columns: &[ColumnDef], restriction: &Restriction<V>) -> bool
    ensures { result ≡ bounds_partition_of columns.now restriction.now }
{
    is_partition_at(columns, restriction.column) && !is_equal(restriction.operator)
}

/// Whether some relation bounds a column of the partition key.
fn has_partition_bound<V: Drop>(columns: &[ColumnDef], restrictions: &[Restriction<V>]) -> bool
    ensures { result ≡ list_any (bounds_partition_of columns.now) restrictions.now }
{
    restrictions
        .iter()
        .any(|restriction| bounds_partition(columns, restriction))
}

fn bounds_key<V: Drop>(columns: &[ColumnDef], restriction: &Restriction<V>) -> bool
    ensures { result ≡ bounds_key_of columns.now restriction.now }
{
    is_key_at(columns, restriction.column) && !is_equal(restriction.operator)
}

/// Whether some relation bounds a column of the key.
fn has_key_bound<V: Drop>(columns: &[ColumnDef], restrictions: &[Restriction<V>]) -> bool
    ensures { result ≡ list_any (bounds_key_of columns.now) restrictions.now }
{
    restrictions
        .iter()
        .any(|restriction| bounds_key(columns, restriction))
}

fn is_behind<V: Drop>(columns: &[ColumnDef], first: usize, restriction: &Restriction<V>) -> bool
    ensures { result ≡ is_behind_of columns.now first restriction.now }
{
    is_key_at(columns, restriction.column) && first < restriction.column
}

/// Whether some relation is on a column of the key behind this one.
fn has_one_behind<V: Drop>(
    columns: &[ColumnDef],
    first: usize,
    restrictions: &[Restriction<V>],
) -> bool
    ensures { result ≡ list_any (is_behind_of columns.now first) restrictions.now }
{
    restrictions
        .iter()
        .any(|restriction| is_behind(columns, first, restriction))
}

/// Whether each key column is fixed.
pub fn is_whole<V: Drop>(columns: &[ColumnDef], restrictions: &[Restriction<V>]) -> bool
    ensures { result ≡ is_whole_of columns.now restrictions.now }
{
    !is_key_at(columns, open_place(columns, restrictions))
}

/// Whether the relations don't name one row by its whole key.
pub fn misses_whole<V: Drop>(columns: &[ColumnDef], restrictions: &[Restriction<V>]) -> bool
    ensures { result ≡ misses_whole_of columns.now restrictions.now }
{
    !is_whole(columns, restrictions) || has_key_bound(columns, restrictions)
}

/// Whether the relations don't name rows of one partition that stand together.
pub fn misses_slice<V: Drop>(columns: &[ColumnDef], restrictions: &[Restriction<V>]) -> bool
    ensures { result ≡ misses_slice_of columns.now restrictions.now }
{
    let open = open_place(columns, restrictions);
    is_partition_at(columns, open)
        || has_partition_bound(columns, restrictions)
        || has_one_behind(columns, open, restrictions)
}

fn fixed_times<V: Drop>(restrictions: &[Restriction<V>], place: usize) -> usize
    ensures { result ≡ fixed_times_of restrictions.now place }
{
    restrictions
        .iter()
        .filter(|restriction| fixes(place, restriction))
        .count()
}

fn lower_times<V: Drop>(restrictions: &[Restriction<V>], place: usize) -> usize
    ensures { result ≡ lower_times_of restrictions.now place }
{
    restrictions
        .iter()
        .filter(|restriction| bounds_below(place, restriction))
        .count()
}

fn upper_times<V: Drop>(restrictions: &[Restriction<V>], place: usize) -> usize
    ensures { result ≡ upper_times_of restrictions.now place }
{
    restrictions
        .iter()
        .filter(|restriction| bounds_above(place, restriction))
        .count()
}

fn is_twice_at<V: Drop>(restrictions: &[Restriction<V>], place: usize) -> bool
    ensures { result ≡ is_twice_at_of restrictions.now place }
{
    let fixed = fixed_times(restrictions, place);
    let lower = lower_times(restrictions, place);
    let upper = upper_times(restrictions, place);
    fixed > 1 || (fixed > 0 && (lower > 0 || upper > 0)) || lower > 1 || upper > 1
}

/// Whether a key column is fixed twice, fixed and bounded, or bounded twice from one side.
pub fn is_twice<V: Drop>(columns: &[ColumnDef], restrictions: &[Restriction<V>]) -> bool
    ensures { result ≡ is_twice_of columns.now restrictions.now }
{
    for (place, column) in columns.iter().enumerate() {
        if is_key(column.kind) && is_twice_at(restrictions, place) {
            return true;
        }
    }
    false
}

fn is_other<V: Drop>(columns: &[ColumnDef], restriction: &Restriction<V>) -> bool
    ensures { result ≡ is_other_of columns.now restriction.now }
{
    !is_key_at(columns, restriction.column)
}

/// Whether a column is restricted that is not of the key.
pub fn filters<V: Drop>(columns: &[ColumnDef], restrictions: &[Restriction<V>]) -> bool
    ensures { result ≡ filters_of columns.now restrictions.now }
{
    restrictions
        .iter()
        .any(|restriction| is_other(columns, restriction))
}

fn is_on_row<V: Drop>(columns: &[ColumnDef], restriction: &Restriction<V>) -> bool
    ensures { result ≡ is_on_row_of columns.now restriction.now }
{
    is_clustering_at(columns, restriction.column)
}

/// Whether a clustering column is restricted.
pub fn names_rows<V: Drop>(columns: &[ColumnDef], restrictions: &[Restriction<V>]) -> bool
    ensures { result ≡ names_rows_of columns.now restrictions.now }
{
    restrictions
        .iter()
        .any(|restriction| is_on_row(columns, restriction))
}
