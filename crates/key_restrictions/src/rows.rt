//! The rows of a partition that relations name.

ghost use Rattle.std.specs.Prelude.{◌≡◌, IfOk};
ghost use Rattle.key_restrictions.specs.Rows.{bounds_of, prefix_bytes as prefix_bytes_of, is_long as is_long_bytes};

use crate::bounds::{begin_at, end_at, falls_at, first_bound, last_bound, prefix_bytes};
use crate::places::open_place;
use crate::restriction::Restriction;
use changes::Bound;
use cql_values::CqlValue;
use cs_base::Bytes;
use schema_book::ColumnDef;
use std::alloc::{AllocError, Global};

/// The most bytes of a partition key, and of a row.
const MOST_KEY_BYTES: usize = 65_535;

/// Whether the bytes of a partition key, of a row or of a bound are more than 65,535.
pub fn is_long(bytes: &[u8]) -> bool
    ensures { result ≡ is_long_bytes bytes.now }
{
    bytes.len() > MOST_KEY_BYTES
}

/// Between which bounds rows of a partition stand.
#[derive(Debug, Drop)]
pub struct RowBounds {
    pub from: Bound,
    pub upto: Bound,
}

/// The bytes of the clustering columns that are fixed, from the first on: a row, where all are.
pub fn row_bytes(
    alloc: Global,
    columns: &[ColumnDef],
    restrictions: &[Restriction<CqlValue>],
) -> Result<Bytes, AllocError>
    ensures { IfOk result (λ row. row ≡ prefix_bytes_of columns.now restrictions.now) }
{
    prefix_bytes(alloc, columns, restrictions)
}

/// Between which bounds the rows stand that the relations name. They are to be such as `misses_slice`, `is_twice` and
/// `filters` find nothing wrong with, with values of their columns' types.
pub fn row_bounds(
    alloc: Global,
    columns: &[ColumnDef],
    restrictions: &[Restriction<CqlValue>],
) -> Result<RowBounds, AllocError>
    ensures { IfOk result (λ bounds. bounds ≡ bounds_of columns.now restrictions.now) }
{
    let prefix = prefix_bytes(alloc, columns, restrictions)?;
    let open = open_place(columns, restrictions);
    let falls = falls_at(columns, open);
    let first = first_bound(falls, restrictions, open);
    let last = last_bound(falls, restrictions, open);
    Ok(RowBounds {
        from: begin_at(alloc, prefix.as_slice(), falls, first)?,
        upto: end_at(alloc, prefix.as_slice(), falls, last)?,
    })
}
