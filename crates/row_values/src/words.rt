//! Bytes in print, without a value in between where they are a plain text.

ghost use Rattle.std.specs.Prelude.{◌≡◌, ◌++◌, Option, IfOk, OnOk};
ghost use Rattle.cql_values.specs.declared.value.CqlValue.{CqlValue as value_of_cql};
ghost use Rattle.row_values.specs.Fronts.{IsFrontAs};
ghost use Rattle.row_values.specs.Prints.{value_text};
ghost use Rattle.row_values.specs.Values.{value_in as value_in_of, cell_value};

use crate::clustering::order_front;
use crate::front::value_in;
use crate::others::cell_at;
use crate::plain::{is_plain_word, plain_front, push_plain};
use crate::print::push_value;
use changes::ShownCell;
use cql_values::CqlType;
use schema_book::ColumnDef;
use std::alloc::{AllocError, Global};

/// Prints the value of a type that the bytes are in the native protocol.
fn push_word(alloc: Global, out: &mut Vec<u8>, ty: CqlType, bytes: &[u8]) -> Result<(), AllocError>
    ensures { OnOk result (out.new.items ≡ out.old.items ++ value_text (value_in_of ty bytes.now)) }
{
    if is_plain_word(ty, bytes) {
        return push_plain(out, bytes);
    }
    let value = value_in(alloc, ty, bytes)?;
    push_value(alloc, out, &value)
}

/// Prints the value of the cell of the column of this number.
pub(crate) fn push_cell(
    alloc: Global,
    out: &mut Vec<u8>,
    cells: &[ShownCell],
    number: usize,
    ty: CqlType,
) -> Result<(), AllocError>
    ensures { OnOk result (out.new.items ≡ out.old.items ++ value_text (cell_value cells.now number ty)) }
{
    match cell_at(cells, number) {
        Some(cell) => push_word(alloc, out, ty, cell.value.as_slice()),
        None => out.extend_from_slice(b"null"),
    }
}

/// Prints the value of a column whose order bytes stand at the front, and says how many of them it takes.
pub(crate) fn push_front(
    alloc: Global,
    out: &mut Vec<u8>,
    column: &ColumnDef,
    bytes: &[u8],
) -> Result<usize, AllocError>
    ensures { IfOk result (λ len. (value : Option value_of_cql) × IsFrontAs column.now bytes.now value len × (out.new.items ≡ out.old.items ++ value_text value)) }
{
    if let Some(len) = plain_front(column, bytes) {
        push_plain(out, &bytes[..len])?;
        return Ok(len + 2);
    }
    let front = order_front(alloc, column, bytes)?;
    push_value(alloc, out, &front.value)?;
    Ok(front.len)
}
