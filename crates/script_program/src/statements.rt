//! The statements of the lines `put` and `get`, which are for the table `script.kv (k text, c text, v text, PRIMARY KEY (k, c))`:
//! prepared once a run, with a marker for each word of a line.

ghost use Rattle.std.specs.Prelude.{◌≡◌, None, IfOk};
ghost use Rattle.std.specs.Int.{cast_unsigned, to_be_bytes, w64};
ghost use Rattle.cql_values.specs.declared.value.CqlType.TheVariants as types;
ghost use Rattle.prepared_statement.specs.Prepared.{outline_of};
ghost use Rattle.prepared_statement.specs.Slots.{stands_for};
ghost use Rattle.prepared_statement.specs.declared.slot.Stands.TheVariants.{Own};
ghost use Rattle.statement_values.specs.declared.params.Param.TheVariants.{Given};
ghost use Rattle.script_program.specs.Requests.{kv_table as kv_table_of, text_term, number_term};
ghost use Rattle.script_program.specs.Lines.{ArePrepared, ScriptsHaveKv, marker_for, marked_put as marked_put_of, marked_get as marked_get_of, put_values as put_values_of, get_values as get_values_of};

use cql_statement::{
    Assignment, Relation, RelationOperator, Select, Selection, Stamp, Statement, TableName, Term,
    Update,
};
use cql_values::reading_undoes_printing;
use cs_base::{Bytes, Items, Text};
use fault_script::{GetRequest, PutRequest, scripts_have_their_schema};
use prepared_statement::{Prepared, outline};
use schema_book::Schema;
use statement_values::{Param, Params};
use std::alloc::{AllocError, Global};

/// The statements of the lines `put` and `get`.
#[derive(Drop)]
pub struct LineStatements {
    pub put: Prepared,
    pub get: Prepared,
}

/// The schema of each script has the table.
pub fn scripts_have_kv()
    ensures { ScriptsHaveKv }
{
    scripts_have_their_schema();
}

/// A text's constant stands for its bytes.
pub fn text_is_read(text: &str)
    ensures { stands_for types.Text (text_term text.now) ≡ Own (Given text.now) }
{
    reading_undoes_printing();
    // which are UTF-8
    text.as_bytes();
}

/// A number's constant stands for its bytes.
fn number_is_read(number: i64)
    ensures { stands_for types.Bigint (number_term number) ≡ Own (Given (to_be_bytes w64 (cast_unsigned w64 number))) }
{
    reading_undoes_printing();
}

/// So does that of the timestamp of a line `put`.
pub fn timestamp_is_read(put: &PutRequest)
    ensures { stands_for types.Bigint (number_term put.now.timestamp) ≡ Own (Given (to_be_bytes w64 (cast_unsigned w64 put.now.timestamp))) }
{
    number_is_read(put.timestamp);
}

fn kv_table(alloc: Global) -> Result<TableName, AllocError>
    ensures { IfOk result (λ table. table ≡ kv_table_of) }
{
    Ok(TableName {
        keyspace: Some(Text::from_str(alloc, "script")?),
        name: Text::from_str(alloc, "kv")?,
    })
}

fn marker_equals(alloc: Global, column: &str) -> Result<Relation, AllocError>
    ensures { IfOk result (λ relation. relation ≡ marker_for column.now) }
{
    Ok(Relation {
        column: Text::from_str(alloc, column)?,
        operator: RelationOperator::Equal,
        term: Term::Marker,
    })
}

/// The UPDATE of lines `put`.
fn marked_put(alloc: Global) -> Result<Statement, AllocError>
    ensures { IfOk result (λ statement. statement ≡ marked_put_of) }
{
    let mut assignments = Items::new(alloc);
    assignments.push(Assignment {
        column: Text::from_str(alloc, "v")?,
        term: Term::Marker,
    })?;
    let mut relations = Items::new(alloc);
    relations.push(marker_equals(alloc, "k")?)?;
    relations.push(marker_equals(alloc, "c")?)?;
    Ok(Statement::Update(Update {
        table: kv_table(alloc)?,
        stamp: Some(Stamp {
            timestamp: Term::Marker,
        }),
        assignments,
        relations,
        condition: None,
    }))
}

/// The SELECT of lines `get`.
fn marked_get(alloc: Global) -> Result<Statement, AllocError>
    ensures { IfOk result (λ statement. statement ≡ marked_get_of) }
{
    let mut columns = Items::new(alloc);
    columns.push(Text::from_str(alloc, "c")?)?;
    columns.push(Text::from_str(alloc, "v")?)?;
    let mut relations = Items::new(alloc);
    relations.push(marker_equals(alloc, "k")?)?;
    Ok(Statement::Select(Select {
        selection: Selection::Columns(columns),
        table: kv_table(alloc)?,
        relations,
        orders: Items::new(alloc),
        limit: None,
    }))
}

/// A statement of a line, prepared.
fn prepared(alloc: Global, schema: &Schema, statement: Statement) -> Result<Prepared, AllocError>
    ensures { IfOk result (λ prepared. prepared ≡ outline_of schema.now None statement) }
{
    let prepared = outline(alloc, schema, None, &statement);
    drop(statement);
    prepared
}

fn prepared_put(alloc: Global, schema: &Schema) -> Result<Prepared, AllocError>
    ensures { IfOk result (λ prepared. prepared ≡ outline_of schema.now None marked_put_of) }
{
    prepared(alloc, schema, marked_put(alloc)?)
}

fn prepared_get(alloc: Global, schema: &Schema) -> Result<Prepared, AllocError>
    ensures { IfOk result (λ prepared. prepared ≡ outline_of schema.now None marked_get_of) }
{
    prepared(alloc, schema, marked_get(alloc)?)
}

impl LineStatements {
    pub fn prepare(alloc: Global, schema: &Schema) -> Result<LineStatements, AllocError>
        ensures { IfOk result (ArePrepared schema.now) }
    {
        let put = prepared_put(alloc, schema)?;
        match prepared_get(alloc, schema) {
            Ok(get) => Ok(LineStatements { put, get }),
            Err(error) => {
                drop(put);
                Err(error)
            }
        }
    }
}

fn given(alloc: Global, bytes: &[u8]) -> Result<Param, AllocError>
    ensures { IfOk result (λ param. param ≡ Given bytes.now) }
{
    Ok(Param::Given(Bytes::from_slice(alloc, bytes)?))
}

/// The values of a line `put`, in the order of its statement's markers.
pub fn put_values(alloc: Global, put: &PutRequest) -> Result<Params, AllocError>
    ensures { IfOk result (λ values. values ≡ put_values_of put.now) }
{
    let mut values = Items::new(alloc);
    values.push(given(alloc, &put.timestamp.to_be_bytes())?)?;
    values.push(given(alloc, put.value.as_str().as_bytes())?)?;
    values.push(given(alloc, put.key.as_str().as_bytes())?)?;
    values.push(given(alloc, put.row.as_str().as_bytes())?)?;
    Ok(Params::ByPlace(values))
}

/// The value of a line `get`.
pub fn get_values(alloc: Global, get: &GetRequest) -> Result<Params, AllocError>
    ensures { IfOk result (λ values. values ≡ get_values_of get.now) }
{
    let mut values = Items::new(alloc);
    values.push(given(alloc, get.key.as_str().as_bytes())?)?;
    Ok(Params::ByPlace(values))
}
