//! The rows of a partition that relations name.

ghost use Rattle.std.specs.Prelude.{◌≡◌, ◌++◌, slice_get, option_copied, IfOk};
ghost use Rattle.cql_values.specs.Order.{order_word};
ghost use Rattle.key_restrictions.specs.Rows.{word_in as word_in_of, prefix_bytes as prefix_bytes_of, falls_at as falls_at_of, first_bound as first_bound_of, last_bound as last_bound_of, begin_at as begin_at_of, end_at as end_at_of};

use crate::operators::is_strict;
use crate::places::{fixing, is_clustering, is_fixed, is_partition, lower_bound, upper_bound};
use crate::restriction::Restriction;
use changes::Bound;
use cql_values::{CqlValue, order_bytes};
use cs_base::Bytes;
use schema_book::ColumnDef;
use std::alloc::{AllocError, Global};

/// The order bytes of a value; a uuid has none.
fn word_of(alloc: Global, falls: bool, value: &CqlValue) -> Result<Bytes, AllocError>
    ensures { IfOk result (λ word. word ≡ order_word falls value.now) }
{
    match value {
        CqlValue::Uuid(_) => Ok(Bytes::new(alloc)),
        value => order_bytes(alloc, value, falls),
    }
}

/// The order bytes of the value that a column is to equal.
fn word_in(
    alloc: Global,
    falls: bool,
    relation: Option<&Restriction<CqlValue>>,
) -> Result<Bytes, AllocError>
    ensures { IfOk result (λ word. word ≡ word_in_of falls (option_copied relation.entry)) }
{
    match relation {
        Some(restriction) => word_of(alloc, falls, &restriction.value),
        None => Ok(Bytes::new(alloc)),
    }
}

/// Bytes and others behind them. Where there are none before, they are the others' own.
fn joined(alloc: Global, front: &[u8], back: Bytes) -> Result<Bytes, AllocError>
    ensures { IfOk result (λ both. both ≡ front.now ++ back) }
{
    if front.is_empty() {
        return Ok(back);
    }
    let mut bytes = Vec::with_capacity(alloc, front.len() + back.as_slice().len())?;
    bytes.extend_from_slice(front)?;
    bytes.extend_from_slice(back.as_slice())?;
    Ok(Bytes::from_vec(bytes))
}

/// The order bytes of the clustering columns that are fixed, from the first on.
pub(crate) fn prefix_bytes(
    alloc: Global,
    columns: &[ColumnDef],
    restrictions: &[Restriction<CqlValue>],
) -> Result<Bytes, AllocError>
    ensures { IfOk result (λ prefix. prefix ≡ prefix_bytes_of columns.now restrictions.now) }
{
    let mut prefix = Bytes::new(alloc);
    for (place, column) in columns.iter().enumerate() {
        if is_partition(column.kind) {
            continue;
        }
        if !(is_clustering(column.kind) && is_fixed(restrictions, place)) {
            break;
        }
        let word = word_in(alloc, column.is_descending, fixing(restrictions, place))?;
        prefix = joined(alloc, prefix.as_slice(), word)?;
    }
    Ok(prefix)
}

/// Whether the rows of a partition stand by falling values of the column at this place.
pub(crate) fn falls_at(columns: &[ColumnDef], place: usize) -> bool
    ensures { result ≡ falls_at_of (slice_get columns.now place) }
{
    match columns.get(place) {
        Some(column) => column.is_descending,
        None => false,
    }
}

/// The relation that bounds the rows from the front: in falling order the upper bound comes first.
pub(crate) fn first_bound(
    falls: bool,
    restrictions: &[Restriction<CqlValue>],
    place: usize,
) -> Option<&Restriction<CqlValue>>
    ensures { option_copied result ≡ first_bound_of falls restrictions.now place }
{
    if falls {
        upper_bound(restrictions, place)
    } else {
        lower_bound(restrictions, place)
    }
}

/// The relation that bounds the rows from the back.
pub(crate) fn last_bound(
    falls: bool,
    restrictions: &[Restriction<CqlValue>],
    place: usize,
) -> Option<&Restriction<CqlValue>>
    ensures { option_copied result ≡ last_bound_of falls restrictions.now place }
{
    if falls {
        lower_bound(restrictions, place)
    } else {
        upper_bound(restrictions, place)
    }
}

/// The order bytes of a value behind those of the columns before it.
fn bytes_at(
    alloc: Global,
    prefix: &[u8],
    falls: bool,
    value: &CqlValue,
) -> Result<Bytes, AllocError>
    ensures { IfOk result (λ bytes. bytes ≡ prefix.now ++ order_word falls value.now) }
{
    joined(alloc, prefix, word_of(alloc, falls, value)?)
}

/// Where the rows begin that have these bytes in front and that the relation lets through.
pub(crate) fn begin_at(
    alloc: Global,
    prefix: &[u8],
    falls: bool,
    bound: Option<&Restriction<CqlValue>>,
) -> Result<Bound, AllocError>
    ensures { IfOk result (λ begin. begin ≡ begin_at_of prefix.now falls (option_copied bound.entry)) }
{
    match bound {
        Some(restriction) => Ok(Bound {
            at: bytes_at(alloc, prefix, falls, &restriction.value)?,
            after: is_strict(restriction.operator),
        }),
        None => Ok(Bound {
            at: Bytes::from_slice(alloc, prefix)?,
            after: false,
        }),
    }
}

/// Where they end.
pub(crate) fn end_at(
    alloc: Global,
    prefix: &[u8],
    falls: bool,
    bound: Option<&Restriction<CqlValue>>,
) -> Result<Bound, AllocError>
    ensures { IfOk result (λ end. end ≡ end_at_of prefix.now falls (option_copied bound.entry)) }
{
    match bound {
        Some(restriction) => Ok(Bound {
            at: bytes_at(alloc, prefix, falls, &restriction.value)?,
            after: !is_strict(restriction.operator),
        }),
        None => Ok(Bound {
            at: Bytes::from_slice(alloc, prefix)?,
            after: true,
        }),
    }
}
