//! The values of a row.

ghost use Rattle.std.specs.Prelude.{IfOk};
ghost use Rattle.row_values.specs.Values.{AreValuesOf};

use crate::clustering::push_clustering_values;
use crate::key::push_key_values;
use crate::others::push_other_values;
use changes::ShownRow;
use cql_values::CqlValue;
use cs_base::Items;
use schema_book::ColumnDef;
use std::alloc::{AllocError, Global};

/// A value for each column of a table, by its number; None where there is none.
pub type RowValues = Items<Option<CqlValue>>;

/// The values of a row of a table with these columns, whose partition has the key: those of the partition key, then those
/// of the clustering columns, then the others, which is the order in which a table has its columns.
///
/// The key and the cells are in the encoding of the native protocol (native_protocol_v4.spec, section 6), and the row's
/// bytes are order bytes. A key of several columns has each part between its length, in two bytes, and a zero byte, as
/// Cassandra's `CompositeType`. Where bytes are no value of a column's type, it has None; and where a part of the key or
/// a clustering value is broken, so have those behind it. What is left behind the last is not looked at.
///
/// It takes a pass over the columns for each of their kinds and one to count those of the partition key, and copies each
/// value once. For each column that is not of the key it looks through the row's cells.
pub fn values_of(
    alloc: Global,
    columns: &[ColumnDef],
    key: &[u8],
    row: &ShownRow,
) -> Result<RowValues, AllocError>
    ensures { IfOk result (λ values. AreValuesOf columns.now key.now row.now values) }
{
    let mut values = Vec::with_capacity(alloc, columns.len())?;
    push_key_values(alloc, &mut values, columns, key)?;
    push_clustering_values(alloc, &mut values, columns, row.row.as_slice())?;
    push_other_values(alloc, &mut values, columns, row.cells.as_slice())?;
    Ok(Items::from_vec(values))
}
