//! The columns of a table.

ghost use Rattle.std.specs.Prelude.{◌≡◌, IfOk};
ghost use Rattle.prepared_statement.specs.Structure.{all_numbers as all_numbers_of};

use crate::change::TableColumns;
use crate::names::column_number;
use cs_base::Items;
use schema_book::ColumnDef;
use statement_plan::ColumnNumbers;
use std::alloc::{AllocError, Global};

fn copied(alloc: Global, column: &ColumnDef) -> Result<ColumnDef, AllocError>
    ensures { IfOk result (λ copy. copy ≡ column.now) }
{
    Ok(ColumnDef {
        name: column.name.copy(alloc)?,
        ty: column.ty,
        kind: column.kind,
        is_descending: column.is_descending,
    })
}

/// Equal columns.
pub(crate) fn copied_columns(
    alloc: Global,
    columns: &[ColumnDef],
) -> Result<TableColumns, AllocError>
    ensures { IfOk result (λ copies. copies ≡ columns.now) }
{
    let mut copies = Items::new(alloc);
    for column in columns {
        copies.push(copied(alloc, column)?)?;
    }
    Ok(copies)
}

/// All columns of a table, by number.
pub(crate) fn all_numbers(alloc: Global, columns: &[ColumnDef]) -> Result<ColumnNumbers, AllocError>
    ensures { IfOk result (λ numbers. numbers ≡ all_numbers_of columns.now) }
{
    let mut numbers = Items::new(alloc);
    for place in 0..columns.len() {
        numbers.push(column_number(place))?;
    }
    Ok(numbers)
}
