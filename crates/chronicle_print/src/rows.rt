//! The lines of rows.

ghost use Rattle.std.specs.Prelude.{◌≡◌, ◌++◌, OnOk, ℕ, List, length};
ghost use Rattle.chronicle_print.specs.Printed.{columns_of as columns_of_table, rows_line, count_lines, IsRowLine, AreRowLines, AreRowsOf, AreRows};
ghost use Rattle.std.specs.Option.{option_copied};
ghost use Rattle.chronicle_print.specs.Printing.{started_in};
ghost use Rattle.statement_plan.specs.declared.plan.Columns.TheVariants.{Listed};

use crate::lines::push_number;
use changes::{Partition, ShownRow};
use peer_messages::Entry;
use row_values::push_lines;
use schema_book::{ColumnDef, Table};
use statement_plan::Columns;
use std::alloc::{AllocError, Global};

/// The columns of the table of this number; none where there is no such table.
fn columns_of(tables: &[Table], number: u16) -> &[ColumnDef]
    ensures { result.now ≡ columns_of_table tables.now number }
{
    match tables.get(usize::from(number)) {
        Some(table) => table.columns.as_slice(),
        None => &[],
    }
}

fn push_rows_line(out: &mut Vec<u8>, number: u64, count: u64) -> Result<(), AllocError>
    ensures { OnOk result (out.new.items ≡ out.old.items ++ rows_line number count) }
{
    push_number(out, number)?;
    out.extend_from_slice(b" rows ")?;
    push_number(out, count)?;
    out.push(b'\n')?;
    Ok(())
}

fn push_count(out: &mut Vec<u8>, number: u64, count: u64) -> Result<(), AllocError>
    ensures { OnOk result (out.new.items ≡ out.old.items ++ count_lines number count) }
{
    push_rows_line(out, number, 1)?;
    out.push(b' ')?;
    push_number(out, count)?;
    out.push(b'\n')?;
    Ok(())
}

fn push_listed(
    alloc: Global,
    out: &mut Vec<u8>,
    number: u64,
    columns: &[ColumnDef],
    key: &[u8],
    listed: &[u8],
    rows: &[ShownRow],
) -> Result<(), AllocError>
    ensures { OnOk result ((behind : List ℕ) × AreRowLines (IsRowLine columns.now key.now listed.now) rows.now behind × (out.new.items ≡ out.old.items ++ (rows_line number (length rows.now) ++ behind))) }
{
    push_rows_line(out, number, rows.len() as u64)?;
    push_lines(alloc, out, columns, key, listed, rows)?;
    Ok(())
}

fn push_shaped(
    alloc: Global,
    out: &mut Vec<u8>,
    tables: &[Table],
    number: u64,
    partition: &Partition,
    columns: &Columns,
    rows: &[ShownRow],
) -> Result<(), AllocError>
    ensures { OnOk result ((lines : List ℕ) × AreRowsOf tables.now partition.now columns.now number rows.now lines × (out.new.items ≡ out.old.items ++ lines)) }
{
    match columns {
        Columns::Listed(listed) => push_listed(
            alloc,
            out,
            number,
            columns_of(tables, partition.table),
            partition.key.as_slice(),
            listed.as_slice(),
            rows,
        ),
        Columns::Count => push_count(out, number, rows.len() as u64),
    }
}

/// The lines of an answered read, which began with this entry.
pub(crate) fn push_rows(
    alloc: Global,
    out: &mut Vec<u8>,
    tables: &[Table],
    number: u64,
    start: Option<&Entry>,
    rows: &[ShownRow],
) -> Result<(), AllocError>
    ensures { OnOk result ((lines : List ℕ) × AreRows tables.now (started_in (option_copied start.entry)) number rows.now lines × (out.new.items ≡ out.old.items ++ lines)) }
{
    match start {
        Some(Entry::Began(_, query, _, columns)) => {
            push_shaped(alloc, out, tables, number, &query.partition, columns, rows)
        }
        _ => push_rows_line(out, number, rows.len() as u64),
    }
}
