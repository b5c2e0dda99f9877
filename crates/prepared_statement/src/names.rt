//! The tables and columns that a statement names.

ghost use Rattle.std.specs.Prelude.{◌≡◌, IfOk, option_copied, map};
ghost use Rattle.prepared_statement.specs.Names.{table_named as table_named_of, place_of as place_of_name, type_at as type_at_of, column_number as column_number_of};

use cql_statement::TableName;
use cql_values::CqlType;
use cs_base::{Items, Text};
use schema_book::{ColumnDef, ColumnDefs, Schema, Table};
use statement_plan::ColumnNumbers;
use std::alloc::{AllocError, Global};

/// The table of a name, in its keyspace, or else in the one in use.
pub(crate) fn table_named<'a>(
    schema: &'a Schema,
    used: Option<&str>,
    reference: &TableName,
) -> Option<&'a Table>
    ensures { option_copied result ≡ table_named_of schema.now (option_copied used.entry) reference.now }
{
    match &reference.keyspace {
        Some(keyspace) => schema.table(keyspace.as_str(), reference.name.as_str()),
        None => match used {
            Some(keyspace) => schema.table(keyspace, reference.name.as_str()),
            None => None,
        },
    }
}

/// The place of a column; one that is not there has that behind the last.
pub(crate) fn place_of(columns: &ColumnDefs, name: &str) -> usize
    ensures { result ≡ place_of_name columns.now name.now }
{
    match columns.place(name) {
        Some(place) => place,
        None => columns.as_slice().len(),
    }
}

/// The type of the column at this place; where there is none, blob.
pub(crate) fn type_at(columns: &[ColumnDef], place: usize) -> CqlType
    ensures { result ≡ type_at_of columns.now place }
{
    match columns.get(place) {
        Some(column) => column.ty,
        None => CqlType::Blob,
    }
}

/// The number of a column by its place: a table has no more than 256.
pub fn column_number(place: usize) -> u8
    ensures { result ≡ column_number_of place }
{
    (place % 256) as u8
}

/// The places of columns.
pub(crate) fn places_of(
    alloc: Global,
    columns: &ColumnDefs,
    names: &[Text],
) -> Result<Items<usize>, AllocError>
    ensures { IfOk result (λ places. places ≡ map (place_of_name columns.now) names.now) }
{
    let mut places = Items::new(alloc);
    for name in names {
        places.push(place_of(columns, name.as_str()))?;
    }
    Ok(places)
}

/// The numbers of columns.
pub(crate) fn numbers_of(alloc: Global, places: &[usize]) -> Result<ColumnNumbers, AllocError>
    ensures { IfOk result (λ numbers. numbers ≡ map column_number_of places.now) }
{
    let mut numbers = Items::new(alloc);
    for place in places {
        numbers.push(column_number(*place))?;
    }
    Ok(numbers)
}
