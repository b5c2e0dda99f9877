//! The lines of rows.

ghost use Rattle.std.specs.Prelude.{◌≡◌, ◌≤◌, ◌∷◌, ◌++◌, [], ℕ, List, Option, length, slice_get, slice_range, IfOk, OnOk};
ghost use Rattle.cql_values.specs.declared.value.CqlValue.{CqlValue as value_of_cql};
ghost use Rattle.row_values.specs.Fronts.{IsFrontAs};
ghost use Rattle.row_values.specs.Lines.{IsLine, AreLines};
ghost use Rattle.row_values.specs.Texts.{AreOfSome, Extends, ExtendsBy, shown_at, shown_text, Begins, IsMarked, HasLine};
ghost use Rattle.row_values.specs.Values.{AreRead, clustering_columns, cell_value, other_values, key_values};

use crate::key::push_key_values;
use crate::literals::{Literals, Mark, Span};
use crate::print::push_value;
use crate::words::{push_cell, push_front};
use changes::{ShownCell, ShownRow};
use cql_values::{CqlType, CqlValue};
use key_restrictions::{is_clustering, is_key};
use schema_book::ColumnDef;
use std::alloc::{AllocError, Global};

fn push_value_literal(
    alloc: Global,
    literals: &mut Literals,
    value: &Option<CqlValue>,
) -> Result<(), AllocError>
    ensures { OnOk result (Extends (value.now ∷ []) literals.old literals.new) }
{
    let start = literals.text_len();
    push_value(alloc, &mut literals.text, value)?;
    literals.end(start)?;
    Ok(())
}

fn push_value_literals(
    alloc: Global,
    literals: &mut Literals,
    values: &[Option<CqlValue>],
) -> Result<(), AllocError>
    ensures { OnOk result (Extends values.now literals.old literals.new) }
{
    for value in values {
        push_value_literal(alloc, literals, value)?;
    }
    Ok(())
}

/// Adds the literals of the values of the partition key.
fn push_key_literals(
    alloc: Global,
    literals: &mut Literals,
    columns: &[ColumnDef],
    key: &[u8],
) -> Result<(), AllocError>
    ensures { OnOk result (Extends (key_values columns.now key.now) literals.old literals.new) }
{
    let mut values = Vec::new(alloc);
    push_key_values(alloc, &mut values, columns, key)?;
    push_value_literals(alloc, literals, values.as_slice())
}

fn push_front_literal(
    alloc: Global,
    literals: &mut Literals,
    column: &ColumnDef,
    bytes: &[u8],
) -> Result<usize, AllocError>
    ensures { IfOk result (λ len. (value : Option value_of_cql) × IsFrontAs column.now bytes.now value len × Extends (value ∷ []) literals.old literals.new) }
{
    let start = literals.text_len();
    let len = push_front(alloc, &mut literals.text, column, bytes)?;
    literals.end(start)?;
    Ok(len)
}

/// Adds the literals of the values of the clustering columns.
fn push_clustering_literals(
    alloc: Global,
    literals: &mut Literals,
    columns: &[ColumnDef],
    row: &[u8],
) -> Result<(), AllocError>
    ensures { OnOk result (ExtendsBy (AreRead (clustering_columns columns.now) row.now) literals.old literals.new) }
{
    let mut rest = row;
    for column in columns {
        if is_clustering(column.kind) {
            let len = push_front_literal(alloc, literals, column, rest)?;
            rest = &rest[len..];
        }
    }
    Ok(())
}

fn push_cell_literal(
    alloc: Global,
    literals: &mut Literals,
    cells: &[ShownCell],
    number: usize,
    ty: CqlType,
) -> Result<(), AllocError>
    ensures { OnOk result (Extends (cell_value cells.now number ty ∷ []) literals.old literals.new) }
{
    let start = literals.text_len();
    push_cell(alloc, &mut literals.text, cells, number, ty)?;
    literals.end(start)?;
    Ok(())
}

/// Adds the literals of the values of the columns that are not of the key.
fn push_other_literals(
    alloc: Global,
    literals: &mut Literals,
    columns: &[ColumnDef],
    cells: &[ShownCell],
) -> Result<(), AllocError>
    ensures { OnOk result (Extends (other_values columns.now cells.now) literals.old literals.new) }
{
    for (number, column) in columns.iter().enumerate() {
        if !is_key(column.kind) {
            push_cell_literal(alloc, literals, cells, number, column.ty)?;
        }
    }
    Ok(())
}

fn span_at(literals: &Literals, number: u8) -> Option<Span>
    ensures { result ≡ slice_get literals.now.spans.items number }
{
    literals.spans.get(usize::from(number)).copied()
}

fn piece(text: &[u8], start: usize, end: usize) -> &[u8]
    requires order { start ≤ end }
    requires within { end ≤ length text.now }
    ensures { result.now ≡ slice_range text.now start end }
{
    &text[start..end]
}

/// Prints the literal of this number, or `null`.
fn push_literal_at(out: &mut Vec<u8>, literals: &Literals, number: u8) -> Result<(), AllocError>
    requires { AreOfSome literals.now }
    ensures { OnOk result (out.new.items ≡ out.old.items ++ shown_at literals.now number) }
{
    match span_at(literals, number) {
        Some(span) => {
            let text = literals.text.as_slice();
            out.extend_from_slice(piece(text, span.start, span.end))
        }
        None => out.extend_from_slice(b"null"),
    }
}

/// Prints the literals of these numbers, with ` | ` between them.
fn push_shown(out: &mut Vec<u8>, literals: &Literals, shown: &[u8]) -> Result<(), AllocError>
    requires { AreOfSome literals.now }
    ensures { OnOk result (out.new.items ≡ out.old.items ++ shown_text literals.now shown.now) }
{
    let [first, later @ ..] = shown else {
        return Ok(());
    };
    push_literal_at(out, literals, *first)?;
    for number in later {
        out.extend_from_slice(b" | ")?;
        push_literal_at(out, literals, *number)?;
    }
    Ok(())
}

/// Prints the line of a row, where those of the key stand before the mark.
fn push_line(
    alloc: Global,
    out: &mut Vec<u8>,
    literals: &mut Literals,
    mark: Mark,
    columns: &[ColumnDef],
    shown: &[u8],
    row: &ShownRow,
) -> Result<(), AllocError>
    requires { IsMarked mark literals.old }
    ensures { OnOk result ((keys : List (Option value_of_cql)) → Begins keys mark literals.old → HasLine columns.now row.now shown.now keys mark out.old.items literals.new out.new.items) }
{
    literals.back_to(mark);
    push_clustering_literals(alloc, literals, columns, row.row.as_slice())?;
    push_other_literals(alloc, literals, columns, row.cells.as_slice())?;
    out.push(b' ')?;
    push_shown(out, literals, shown)?;
    out.push(b'\n')?;
    Ok(())
}

/// Prints a line for each row of a partition with this key, of a table with these columns: a space, the values of the
/// columns of the numbers that are shown, as [`push_values`](crate::push_values) prints those of
/// [`values_of`](crate::values_of), and a line feed.
///
/// The key is read once. A text is copied from its bytes where they stand in its literal as they are, and its value is
/// not made. An `Err` leaves what was printed up to there.
pub fn push_lines(
    alloc: Global,
    out: &mut Vec<u8>,
    columns: &[ColumnDef],
    key: &[u8],
    shown: &[u8],
    rows: &[ShownRow],
) -> Result<(), AllocError>
    ensures { OnOk result ((lines : List ℕ) × AreLines (IsLine columns.now key.now shown.now) rows.now lines × (out.new.items ≡ out.old.items ++ lines)) }
{
    let mut literals = Literals::with_room(alloc, columns.len())?;
    push_key_literals(alloc, &mut literals, columns, key)?;
    let mark = literals.mark();
    for row in rows {
        push_line(alloc, out, &mut literals, mark, columns, shown, row)?;
    }
    Ok(())
}
