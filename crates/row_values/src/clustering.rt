//! The values of the clustering columns.

ghost use Rattle.std.specs.Prelude.{IfOk, OnOk};
ghost use Rattle.row_values.specs.Fronts.{IsFrontOf, Adds};
ghost use Rattle.row_values.specs.Values.{AreRead, clustering_columns};

use crate::front::Front;
use cql_values::{CqlType, CqlValue, OrderError, read_order};
use key_restrictions::is_clustering;
use schema_book::ColumnDef;
use std::alloc::{AllocError, Global};

/// The value of a column whose order bytes stand at the front.
pub(crate) fn order_front(
    alloc: Global,
    column: &ColumnDef,
    bytes: &[u8],
) -> Result<Front, AllocError>
    ensures { IfOk result (λ front. IsFrontOf column.now bytes.now front) }
{
    let ty = column.ty;
    if matches!(ty, CqlType::Uuid) {
        return Ok(Front::none(bytes));
    }
    match read_order(alloc, ty, column.is_descending, bytes) {
        Ok((value, len)) => Ok(Front {
            value: Some(value),
            len,
        }),
        Err(OrderError::NoMemory) => Err(AllocError),
        Err(OrderError::Short) => Ok(Front::none(bytes)),
        Err(OrderError::Malformed(_)) => Ok(Front::none(bytes)),
    }
}

/// Adds the values of the clustering columns.
pub(crate) fn push_clustering_values(
    alloc: Global,
    values: &mut Vec<Option<CqlValue>>,
    columns: &[ColumnDef],
    row: &[u8],
) -> Result<(), AllocError>
    ensures { OnOk result (Adds (AreRead (clustering_columns columns.now) row.now) values.old.items values.new.items) }
{
    let mut rest = row;
    for column in columns {
        if is_clustering(column.kind) {
            let front = order_front(alloc, column, rest)?;
            values.push(front.value)?;
            rest = &rest[front.len..];
        }
    }
    Ok(())
}
