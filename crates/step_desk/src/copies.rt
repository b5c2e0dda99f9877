//! Equal rows in memory of their own.

ghost use Rattle.std.specs.Prelude.{◌≡◌, IfOk};

use changes::{ShownCell, ShownRow, ShownRows};
use cs_base::Items;
use std::alloc::{AllocError, Global};

fn copy_cells(alloc: Global, cells: &Items<ShownCell>) -> Result<Items<ShownCell>, AllocError>
    ensures { IfOk result (λ copy. copy ≡ cells.now) }
{
    let mut copy = Vec::with_capacity(alloc, cells.as_slice().len())?;
    for cell in cells.as_slice() {
        copy.push(ShownCell {
            column: cell.column,
            value: cell.value.copy(alloc)?,
        })?;
    }
    Ok(Items::from_vec(copy))
}

/// Equal rows.
pub(crate) fn copy_rows(alloc: Global, rows: &ShownRows) -> Result<ShownRows, AllocError>
    ensures { IfOk result (λ copy. copy ≡ rows.now) }
{
    let mut copy = Vec::with_capacity(alloc, rows.as_slice().len())?;
    for row in rows.as_slice() {
        copy.push(ShownRow {
            row: row.row.copy(alloc)?,
            cells: copy_cells(alloc, &row.cells)?,
        })?;
    }
    Ok(Items::from_vec(copy))
}
