//! What a client is told of columns and markers (native_protocol_v4.spec, sections 4.2.5.2 and 4.2.5.4).

ghost use Rattle.std.specs.Prelude.{◌≡◌, ◌++◌, map, min, slice_get, IfOk, OnOk, option_copied};
ghost use Rattle.prepared_statement.specs.Markers.{markers_in};
ghost use Rattle.session_v4.specs.Described.{column_at as column_at_number, columns_at, columns_of as columns_of_table, count_column as count_column_of, count_of as count_of_length, in_table as in_table_of, result_columns as result_columns_of, result_of as result_of_statement, shown_columns as shown_columns_of, shown_in as shown_in_table, table_numbered as table_numbered_in, table_of as table_of_book, told_columns as told_columns_of, told_of as told_of_statement, variable_of, variables_of as variables_of_markers};

use cql_values::CqlType;
use cs_base::{Bytes, Items, Text};
use frame_bodies::{Column, Columns, RowsMetadata, TableColumns, VariablesMetadata};
use prepared_statement::{Marker, Markers, Prepared};
use schema_book::{ColumnDef, Schema, Table};
use std::alloc::{AllocError, Global};

type ColumnList = Items<Column>;

/// The table of a number.
pub(crate) fn table_numbered(schema: &Schema, number: u16) -> Option<&Table>
    ensures { option_copied result ≡ table_numbered_in schema.now number }
{
    schema.tables().get(usize::from(number))
}

fn table_of(schema: &Schema, number: Option<u16>) -> Option<&Table>
    ensures { option_copied result ≡ table_of_book schema.now number }
{
    match number {
        None => None,
        Some(number) => table_numbered(schema, number),
    }
}

pub(crate) fn columns_of(table: Option<&Table>) -> &[ColumnDef]
    ensures { result.now ≡ columns_of_table (option_copied table.entry) }
{
    match table {
        None => &[],
        Some(table) => table.columns.as_slice(),
    }
}

/// Columns of a table. Without one both names are empty.
fn in_table(
    alloc: Global,
    table: Option<&Table>,
    columns: ColumnList,
) -> Result<TableColumns, AllocError>
    ensures { IfOk result (λ described. described ≡ in_table_of (option_copied table.entry) columns) }
{
    match table {
        None => Ok(TableColumns {
            keyspace: Text::from_str(alloc, "")?,
            table: Text::from_str(alloc, "")?,
            columns,
        }),
        Some(table) => Ok(TableColumns {
            keyspace: table.keyspace.copy(alloc)?,
            table: table.name.copy(alloc)?,
            columns,
        }),
    }
}

/// Adds a column, if there is one.
fn push_defined(
    columns: &mut ColumnList,
    alloc: Global,
    def: Option<&ColumnDef>,
) -> Result<(), AllocError>
    ensures { OnOk result (columns.new ≡ columns.old ++ column_at_number (option_copied def.entry)) }
{
    if let Some(def) = def {
        columns.push(Column {
            name: def.name.copy(alloc)?,
            ty: def.ty,
        })?;
    }
    Ok(())
}

/// Adds the column of a number, if the table has one.
fn push_column(
    columns: &mut ColumnList,
    alloc: Global,
    defs: &[ColumnDef],
    number: u8,
) -> Result<(), AllocError>
    ensures { OnOk result (columns.new ≡ columns.old ++ column_at_number (slice_get defs.now number)) }
{
    push_defined(columns, alloc, defs.get(usize::from(number)))
}

#[tactic(auto, using(crate::proofs::CellLaws::columns_more))]
fn listed_columns(
    alloc: Global,
    defs: &[ColumnDef],
    numbers: &[u8],
) -> Result<ColumnList, AllocError>
    ensures { IfOk result (λ columns. columns ≡ columns_at defs.now numbers.now) }
{
    let mut columns = Items::new(alloc);
    for number in numbers {
        push_column(&mut columns, alloc, defs, *number)?;
    }
    Ok(columns)
}

fn count_column(alloc: Global) -> Result<Column, AllocError>
    ensures { IfOk result (λ column. column ≡ count_column_of) }
{
    Ok(Column {
        name: Text::from_str(alloc, "count")?,
        ty: CqlType::Bigint,
    })
}

fn shown_columns(
    alloc: Global,
    defs: &[ColumnDef],
    shown: &statement_plan::Columns,
) -> Result<ColumnList, AllocError>
    ensures { IfOk result (λ columns. columns ≡ shown_columns_of defs.now shown.now) }
{
    match shown {
        statement_plan::Columns::Listed(numbers) => listed_columns(alloc, defs, numbers.as_slice()),
        statement_plan::Columns::Count => {
            let mut columns = Items::new(alloc);
            columns.push(count_column(alloc)?)?;
            Ok(columns)
        }
    }
}

/// The columns of a table that are shown.
pub(crate) fn shown_in(
    alloc: Global,
    table: Option<&Table>,
    shown: &statement_plan::Columns,
) -> Result<TableColumns, AllocError>
    ensures { IfOk result (λ columns. columns ≡ shown_in_table (option_copied table.entry) shown.now) }
{
    let columns = shown_columns(alloc, columns_of(table), shown)?;
    in_table(alloc, table, columns)
}

/// A number in 32 bits.
pub(crate) fn count_of(length: usize) -> u32
    ensures { result ≡ count_of_length length }
{
    length.min(u32::MAX as usize) as u32
}

/// A client that knows the columns is told how many there are.
pub(crate) fn told_columns(skip: bool, columns: TableColumns) -> Columns
    ensures { result ≡ told_columns_of skip columns }
{
    if skip {
        Columns::Counted(count_of(columns.columns.as_slice().len()))
    } else {
        Columns::Described(columns)
    }
}

/// What a marker is told as.
fn variable(alloc: Global, marker: &Marker) -> Result<Column, AllocError>
    ensures { IfOk result (λ column. column ≡ variable_of marker.now) }
{
    Ok(Column {
        name: marker.name.copy(alloc)?,
        ty: marker.ty,
    })
}

fn variable_columns(alloc: Global, markers: &[Marker]) -> Result<ColumnList, AllocError>
    ensures { IfOk result (λ columns. columns ≡ map variable_of markers.now) }
{
    let mut columns = Items::new(alloc);
    for marker in markers {
        columns.push(variable(alloc, marker)?)?;
    }
    Ok(columns)
}

fn variables_of(
    alloc: Global,
    schema: &Schema,
    markers: Markers,
) -> Result<VariablesMetadata, AllocError>
    ensures { IfOk result (λ variables. variables ≡ variables_of_markers schema.now markers) }
{
    let columns = variable_columns(alloc, markers.list.as_slice())?;
    Ok(VariablesMetadata {
        variables: in_table(alloc, table_of(schema, markers.table), columns)?,
        key_indexes: markers.key,
    })
}

/// What the columns of a statement's rows are, if it shows rows whatever it finds.
fn result_columns(
    alloc: Global,
    schema: &Schema,
    prepared: &Prepared,
) -> Result<Columns, AllocError>
    ensures { IfOk result (λ columns. columns ≡ result_columns_of schema.now prepared.now) }
{
    match prepared {
        Prepared::Read(read) => {
            let table = table_numbered(schema, read.table);
            Ok(Columns::Described(shown_in(alloc, table, &read.shown)?))
        }
        Prepared::Create | Prepared::Use(_) | Prepared::Change(_) | Prepared::Batch(_) => {
            Ok(Columns::Counted(0))
        }
    }
}

/// What a client is told of a prepared statement.
pub(crate) fn told_of(
    alloc: Global,
    schema: &Schema,
    id: &Bytes,
    prepared: &Prepared,
) -> Result<frame_bodies::Prepared, AllocError>
    ensures { IfOk result (λ told. told ≡ told_of_statement schema.now id.now prepared.now) }
{
    let markers = prepared.markers(alloc)?;
    Ok(frame_bodies::Prepared {
        id: id.copy(alloc)?,
        variables: variables_of(alloc, schema, markers)?,
        result: RowsMetadata {
            columns: result_columns(alloc, schema, prepared)?,
            paging_state: None,
        },
    })
}
