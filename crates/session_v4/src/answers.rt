//! What a client is answered once a node has told.

ghost use Rattle.std.specs.Prelude.{◌≡◌, ◌++◌, ◌∷◌, [], min, length, slice_get, IfOk, OnOk, option_copied};
ghost use Rattle.session_v4.specs.Described.{columns_of as columns_of_table};
ghost use Rattle.session_v4.specs.Answers.{cell_of as cell_of_value, cell_at as cell_at_number, cells_at, count_cell as count_cell_of, metadata_of as metadata_of_read, next_state as next_state_of, AreCells, AreRows, IsAnswer, IsRowsAnswer};

use crate::described::{columns_of, count_of, shown_in, table_numbered, told_columns};
use crate::outcome::{Shown, Wanted};
use crate::refusals::{no_memory, refused};
use changes::ShownRow;
use client_desk::Answer;
use cql_values::{CqlValue, encode};
use cs_base::{Bytes, Items};
use frame_bodies::{Response, Rows, RowsMetadata};
use page_state::write_paging;
use row_values::values_of;
use schema_book::{ColumnDef, Schema, Table};
use std::alloc::{AllocError, Global};

type Cells = Vec<Option<Bytes>>;

fn cell_of(alloc: Global, value: &Option<CqlValue>) -> Result<Option<Bytes>, AllocError>
    ensures { IfOk result (λ cell. cell ≡ cell_of_value value.now) }
{
    match value {
        None => Ok(None),
        Some(value) => Ok(Some(encode(alloc, value)?)),
    }
}

/// Adds the cell of a value, if there is one.
fn push_valued(
    cells: &mut Cells,
    alloc: Global,
    value: Option<&Option<CqlValue>>,
) -> Result<(), AllocError>
    ensures { OnOk result (cells.new.items ≡ cells.old.items ++ cell_at_number (option_copied value.entry)) }
{
    if let Some(value) = value {
        cells.push(cell_of(alloc, value)?)?;
    }
    Ok(())
}

/// Adds the cell of a number, if the row has one.
fn push_cell(
    cells: &mut Cells,
    alloc: Global,
    values: &[Option<CqlValue>],
    number: u8,
) -> Result<(), AllocError>
    ensures { OnOk result (cells.new.items ≡ cells.old.items ++ cell_at_number (slice_get values.now number)) }
{
    push_valued(cells, alloc, values.get(usize::from(number)))
}

#[tactic(auto, using(crate::proofs::CellLaws::cells_more))]
fn push_cells(
    cells: &mut Cells,
    alloc: Global,
    numbers: &[u8],
    values: &[Option<CqlValue>],
) -> Result<(), AllocError>
    ensures { OnOk result (cells.new.items ≡ cells.old.items ++ cells_at numbers.now values.now) }
{
    for number in numbers {
        push_cell(cells, alloc, values, *number)?;
    }
    Ok(())
}

/// The cells of the rows of a partition, row by row.
fn cells_of(
    alloc: Global,
    columns: &[ColumnDef],
    key: &[u8],
    numbers: &[u8],
    rows: &[ShownRow],
) -> Result<Items<Option<Bytes>>, AllocError>
    ensures { IfOk result (AreCells columns.now key.now numbers.now rows.now) }
{
    let mut cells = Vec::new(alloc);
    for row in rows {
        let values = values_of(alloc, columns, key, row)?;
        push_cells(&mut cells, alloc, numbers, values.as_slice())?;
    }
    Ok(Items::from_vec(cells))
}

/// The number of rows as a bigint.
fn count_cell(alloc: Global, count: usize) -> Result<Option<Bytes>, AllocError>
    ensures { IfOk result (λ cell. cell ≡ count_cell_of count) }
{
    let count = count.min(i64::MAX as usize) as i64;
    Ok(Some(encode(alloc, &CqlValue::Bigint(count))?))
}

/// The state behind which the next page begins, where there is one.
fn next_state(
    alloc: Global,
    is_paged: bool,
    more: bool,
    rows: &[ShownRow],
) -> Result<Option<Option<Bytes>>, AllocError>
    ensures { IfOk result (λ state. state ≡ next_state_of is_paged more rows.now) }
{
    if !(is_paged && more) {
        return Ok(None);
    }
    match rows.last() {
        None => Ok(None),
        Some(row) => Ok(Some(Some(write_paging(alloc, &row.row)?))),
    }
}

fn metadata_of(
    alloc: Global,
    table: Option<&Table>,
    shown: &Shown,
    more: bool,
    rows: &[ShownRow],
) -> Result<RowsMetadata, AllocError>
    ensures { IfOk result (λ metadata. metadata ≡ metadata_of_read (option_copied table.entry) shown.now more rows.now) }
{
    let columns = shown_in(alloc, table, &shown.columns)?;
    Ok(RowsMetadata {
        columns: told_columns(shown.skip_metadata, columns),
        paging_state: next_state(alloc, shown.is_paged, more, rows)?,
    })
}

/// The rows of a read.
fn rows_of(
    alloc: Global,
    table: Option<&Table>,
    shown: &Shown,
    more: bool,
    rows: &[ShownRow],
) -> Result<Response, AllocError>
    ensures { IfOk result (AreRows (option_copied table.entry) shown.now shown.now.columns more rows.now) }
{
    let metadata = metadata_of(alloc, table, shown, more, rows)?;
    match &shown.columns {
        statement_plan::Columns::Listed(numbers) => {
            let columns = columns_of(table);
            let cells = cells_of(
                alloc,
                columns,
                shown.key.as_slice(),
                numbers.as_slice(),
                rows,
            )?;
            Ok(Response::Rows(Rows {
                metadata,
                row_count: count_of(rows.len()),
                cells,
            }))
        }
        statement_plan::Columns::Count => {
            let mut cells = Items::new(alloc);
            cells.push(count_cell(alloc, rows.len())?)?;
            Ok(Response::Rows(Rows {
                metadata,
                row_count: 1,
                cells,
            }))
        }
    }
}

fn rows_answer(
    alloc: Global,
    schema: &Schema,
    shown: &Option<Shown>,
    more: bool,
    rows: &[ShownRow],
) -> Result<Response, AllocError>
    ensures { IfOk result (IsRowsAnswer schema.now shown.now more rows.now) }
{
    match shown {
        None => Ok(Response::Void),
        Some(shown) => {
            let table = table_numbered(schema, shown.table);
            rows_of(alloc, table, shown, more, rows)
        }
    }
}

/// The response to what a node told.
pub(crate) fn answer_of(
    alloc: Global,
    schema: &Schema,
    wanted: &Wanted,
    answer: &Answer,
) -> Result<Response, AllocError>
    ensures { IfOk result (IsAnswer schema.now wanted.now answer.now) }
{
    match answer {
        Answer::Acknowledged => Ok(Response::Void),
        Answer::Rows(rows, more) => {
            rows_answer(alloc, schema, &wanted.shown, *more, rows.as_slice())
        }
        Answer::Refused(refusal) => refused(alloc, wanted.consistency, *refusal),
        Answer::NoMemory => no_memory(alloc),
    }
}
