//! The values of the columns that are not of the key.

ghost use Rattle.std.specs.Prelude.{◌≡◌, ◌++◌, ◌==◌, option_copied, IfOk, OnOk};
ghost use Rattle.std.specs.List.{find};
ghost use Rattle.row_values.specs.Values.{cell_value as cell_value_of, other_values};

use crate::front::value_in;
use changes::ShownCell;
use cql_values::{CqlType, CqlValue};
use key_restrictions::is_key;
use schema_book::ColumnDef;
use std::alloc::{AllocError, Global};

pub(crate) fn cell_at(cells: &[ShownCell], number: usize) -> Option<&ShownCell>
    ensures { option_copied result ≡ find (λ c. c.column == number) cells.now }
{
    cells.iter().find(|cell| usize::from(cell.column) == number)
}

/// The value of the cell of the column of this number.
fn cell_value(
    alloc: Global,
    cells: &[ShownCell],
    number: usize,
    ty: CqlType,
) -> Result<Option<CqlValue>, AllocError>
    ensures { IfOk result (λ value. value ≡ cell_value_of cells.now number ty) }
{
    match cell_at(cells, number) {
        Some(cell) => value_in(alloc, ty, cell.value.as_slice()),
        None => Ok(None),
    }
}

/// Adds the values of the columns that are not of the key.
pub(crate) fn push_other_values(
    alloc: Global,
    values: &mut Vec<Option<CqlValue>>,
    columns: &[ColumnDef],
    cells: &[ShownCell],
) -> Result<(), AllocError>
    ensures { OnOk result (values.new.items ≡ values.old.items ++ other_values columns.now cells.now) }
{
    for (number, column) in columns.iter().enumerate() {
        if !is_key(column.kind) {
            values.push(cell_value(alloc, cells, number, column.ty)?)?;
        }
    }
    Ok(())
}
