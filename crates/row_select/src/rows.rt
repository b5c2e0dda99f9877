//! A row as it is shown, with its cells.

ghost use Rattle.std.specs.Prelude.{◌≡◌, ◌++◌, IfOk, OnOk};
ghost use Rattle.std.specs.List.{list_any};
ghost use Rattle.std.specs.Option.{option_map};
ghost use Rattle.row_select.specs.Rows.{is_sign_of_row, cell_of_held, cells_of as cells_shown_of, cell_list, row_shown};

use changes::{Held, Place, ShownCell, ShownRow};
use cs_base::{Bytes, Items};
use std::alloc::{AllocError, Global};

/// Whether a row with this change is shown: a marker or a cell with a value.
fn is_sign(held: &Held) -> bool
    ensures { result ≡ is_sign_of_row held.now }
{
    match (&held.place, &held.value) {
        (Place::Cell(_, _), Some(_)) => true,
        (Place::Marker(_), _) => true,
        _ => false,
    }
}

/// Whether a row with these changes is shown.
pub(crate) fn has_sign(changes: &[Held]) -> bool
    ensures { result ≡ list_any is_sign_of_row changes.now }
{
    changes.iter().any(|held| is_sign(held))
}

/// The cell that a change shows in its row.
fn cell_shown(held: &Held) -> Option<(u8, &Bytes)>
    ensures { option_map (λ c. (c.0, c.1.now)) result ≡ cell_of_held held.now }
{
    match (&held.place, &held.value) {
        (Place::Cell(_, column), Some(value)) => Some((*column, value)),
        _ => None,
    }
}

/// Puts the cell that a change shows behind the others, if it shows one.
fn add_cell(alloc: Global, cells: &mut Items<ShownCell>, held: &Held) -> Result<(), AllocError>
    ensures { OnOk result (cells.new ≡ cells.old ++ cell_list held.now) }
{
    let Some((column, value)) = cell_shown(held) else {
        return Ok(());
    };
    let value = value.copy(alloc)?;
    cells.push(ShownCell { column, value })?;
    Ok(())
}

/// The cells that the changes of a row show, which are in order of columns as the changes are.
fn cells_of(alloc: Global, changes: &[Held]) -> Result<Items<ShownCell>, AllocError>
    ensures { IfOk result (λ cells. cells ≡ cells_shown_of changes.now) }
{
    let mut cells = Items::new(alloc);
    for held in changes {
        add_cell(alloc, &mut cells, held)?;
    }
    Ok(cells)
}

/// A row as it is shown.
pub(crate) fn row_of(alloc: Global, row: &Bytes, changes: &[Held]) -> Result<ShownRow, AllocError>
    ensures { IfOk result (λ shown. shown ≡ row_shown row.now changes.now) }
{
    let cells = cells_of(alloc, changes)?;
    Ok(ShownRow {
        row: row.copy(alloc)?,
        cells,
    })
}
