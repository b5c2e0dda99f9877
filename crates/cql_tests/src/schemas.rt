//! The least lists of statements that give each fault, and what stands in the tables that are made.

use crate::helpers::{each_line, push};
use cql_parser::parse;
use cql_statement::Statements;
use cs_base::Items;
use schema_book::{ColumnDef, Fault, Refused, Schema, SchemaError, Table};
use std::alloc::{AllocError, Global};
use std::fmt::Write;
use std::test::Fail;

/// Which statement is refused and why, or `taken`, and the statements; a `;` stands between them.
const ALONE: &str =
    "taken|CREATE KEYSPACE ks WITH replication = {'class': 'SimpleStrategy', 'replication_factor': 3}
0 BadReplication|CREATE KEYSPACE ks WITH replication = {'class': 'SimpleStrategy', 'replication_factor': 4}
0 BadReplication|CREATE KEYSPACE ks WITH replication = {'class': 'SimpleStrategy', 'replication_factor': 0}
0 BadReplication|CREATE KEYSPACE ks WITH replication = {'class': 'NetworkTopologyStrategy', 'replication_factor': 1}
taken|CREATE KEYSPACE ks WITH replication = {'class': 'SimpleStrategy', 'replication_factor': '3'}
0 BadReplication|CREATE KEYSPACE ks WITH replication = {'class': 'SimpleStrategy', 'replication_factor': '4'}
0 BadReplication|CREATE KEYSPACE ks WITH replication = {'class': 'SimpleStrategy', 'replication_factor': 'x'}
0 NotSchema|USE script";

/// A keyspace with two replicas.
const KEYSPACE: &str =
    "CREATE KEYSPACE ks WITH replication = {'class': 'SimpleStrategy', 'replication_factor': 2}";

/// The same for statements behind that keyspace. The first five have all faults behind their own in the order.
const BEHIND_KEYSPACE: &str = "1 DuplicateColumn|CREATE TABLE no.t (k int, k int, u uuid)
1 NoKey|CREATE TABLE no.t (k int, u uuid)
1 KeyColumnUnknown|CREATE TABLE no.t (k int, u uuid, PRIMARY KEY (x, u))
1 NoKeyspace|CREATE TABLE no.t (k int, u uuid, PRIMARY KEY (k, u))
1 UuidClustering|CREATE TABLE ks.t (k int, u uuid, PRIMARY KEY (k, u))
1 NoKey|CREATE TABLE ks.t (k int PRIMARY KEY, a int, PRIMARY KEY (k))
1 DuplicateColumn|CREATE TABLE ks.t (k int, a int, PRIMARY KEY (k, k))
1 DuplicateColumn|CREATE TABLE ks.t (k int, a int, PRIMARY KEY ((k, k)))
1 KeyColumnUnknown|CREATE TABLE ks.t (k int, a int, PRIMARY KEY (k, b))
1 BadOption|CREATE TABLE ks.t (z int, c int, k int, b int, a int, PRIMARY KEY (k, c, b)) WITH speed = 1
taken|CREATE TABLE ks.t (z int, c int, k int, b int, a int, PRIMARY KEY (k, c, b)) WITH comment = 1
taken|CREATE TABLE ks.t (z int, c int, k int, b int, a int, PRIMARY KEY (k, c, b)) WITH gc_grace_seconds = 100000000
1 BadOption|CREATE TABLE ks.t (z int, c int, k int, b int, a int, PRIMARY KEY (k, c, b)) WITH gc_grace_seconds = 100000001
1 BadOption|CREATE TABLE ks.t (z int, c int, k int, b int, a int, PRIMARY KEY (k, c, b)) WITH gc_grace_seconds = -1
taken|CREATE TABLE ks.t (z int, c int, k int, b int, a int, PRIMARY KEY (k, c, b)) WITH CLUSTERING ORDER BY (c ASC, b DESC)
taken|CREATE TABLE ks.t (z int, c int, k int, b int, a int, PRIMARY KEY (k, c, b)) WITH CLUSTERING ORDER BY (c ASC)
1 BadOption|CREATE TABLE ks.t (z int, c int, k int, b int, a int, PRIMARY KEY (k, c, b)) WITH CLUSTERING ORDER BY (b DESC)
1 BadOption|CREATE TABLE ks.t (z int, c int, k int, b int, a int, PRIMARY KEY (k, c, b)) WITH CLUSTERING ORDER BY (c ASC, b DESC, a ASC)
2 DuplicateTable|CREATE TABLE ks.t (z int, c int, k int, b int, a int, PRIMARY KEY (k, c, b));CREATE TABLE ks.t (z int, c int, k int, b int, a int, PRIMARY KEY (k, c, b))
1 DuplicateTable|CREATE KEYSPACE ks WITH replication = {'class': 'SimpleStrategy', 'replication_factor': 2}";

fn push_statement(alloc: Global, statements: &mut Statements, text: &str) -> Result<(), Fail> {
    let statement = parse(alloc, text)?;
    Ok(push(statements, statement)?)
}

fn push_statements(alloc: Global, statements: &mut Statements, texts: &str) -> Result<(), Fail> {
    for text in texts.split(';') {
        push_statement(alloc, statements, text)?;
    }
    Ok(())
}

fn alone(alloc: Global, texts: &str) -> Result<Statements, Fail> {
    let mut statements = Items::new(alloc);
    push_statements(alloc, &mut statements, texts)?;
    Ok(statements)
}

fn behind_keyspace(alloc: Global, texts: &str) -> Result<Statements, Fail> {
    let mut statements = alone(alloc, KEYSPACE)?;
    push_statements(alloc, &mut statements, texts)?;
    Ok(statements)
}

/// The schema of three nodes.
fn schema(alloc: Global, statements: &Statements) -> Result<Schema, SchemaError> {
    Schema::from_statements(alloc, statements, 3, 1, 500)
}

fn is_refusal(alloc: Global, refused: Refused, want: &str) -> Result<bool, AllocError> {
    let Refused { statement, fault } = refused;
    Ok(format!(in alloc; "{statement} {fault:?}")?.as_str() == want)
}

fn is_answer(alloc: Global, error: Option<SchemaError>, want: &str) -> Result<bool, AllocError> {
    match error {
        Some(SchemaError::Refused(refused)) => is_refusal(alloc, refused, want),
        Some(SchemaError::NoMemory) => Err(AllocError),
        None => Ok(want == "taken"),
    }
}

fn is_answered(alloc: Global, statements: &Statements, want: &str) -> Result<bool, AllocError> {
    is_answer(alloc, schema(alloc, statements).err(), want)
}

fn is_answer_alone(alloc: Global, line: &str) -> Result<bool, Fail> {
    let (want, texts) = line.split_once('|').unwrap_or((line, ""));
    Ok(is_answered(alloc, &alone(alloc, texts)?, want)?)
}

fn is_answer_behind(alloc: Global, line: &str) -> Result<bool, Fail> {
    let (want, texts) = line.split_once('|').unwrap_or((line, ""));
    Ok(is_answered(alloc, &behind_keyspace(alloc, texts)?, want)?)
}

/// Replication, with factors in quotes too, and other statements.
#[test]
fn keyspaces_are_looked_at(rt: HostRuntime) -> Result<(), Fail> {
    each_line(&rt, rt.alloc(), ALONE, is_answer_alone)
}

/// The lowest fault is told, and keys, options, orders and what exists are looked at.
#[test]
fn tables_are_looked_at(rt: HostRuntime) -> Result<(), Fail> {
    each_line(&rt, rt.alloc(), BEHIND_KEYSPACE, is_answer_behind)
}

/// The schema of statements behind the keyspace.
fn made(alloc: Global, texts: &str) -> Result<Schema, Fail> {
    Ok(schema(alloc, &behind_keyspace(alloc, texts)?)?)
}

fn table_count(alloc: Global, texts: &str) -> Result<usize, Fail> {
    Ok(made(alloc, texts)?.tables().len())
}

#[test]
fn what_exists_is_passed_over(rt: HostRuntime) -> Result<(), Fail> {
    let twice = "CREATE TABLE ks.t (z int, c int, k int, b int, a int, PRIMARY KEY (k, c, b));\
        CREATE TABLE IF NOT EXISTS ks.t (z int, c int, k int, b int, a int, PRIMARY KEY (k, c, b))";
    assert!(rt; table_count(rt.alloc(), twice)? == 2);
    Ok(())
}

/// Adds a column's name, and an arrow if it falls.
fn push_column(names: &mut String, column: &ColumnDef) -> Result<(), AllocError> {
    names.push_str(column.name.as_str())?;
    if column.is_descending {
        names.push('>')?;
    }
    Ok(())
}

/// Whether a table has columns of these names, with an arrow behind each that falls.
fn has_columns(alloc: Global, table: &Table, columns: &str) -> Result<bool, AllocError> {
    let mut names = String::new(alloc);
    for column in table.columns.as_slice() {
        push_column(&mut names, column)?;
    }
    Ok(names.as_str() == columns)
}

/// Whether there is a table with these columns, and with this number, factor and grace.
fn has_table(
    alloc: Global,
    made: &Schema,
    (keyspace, name, columns): (&str, &str, &str),
    (number, factor, grace): (u16, u8, u64),
) -> Result<bool, AllocError> {
    match made.table(keyspace, name) {
        Some(table) if table.number == number && table.factor == factor => {
            Ok(table.grace == grace && has_columns(alloc, table, columns)?)
        }
        _ => Ok(false),
    }
}

fn is_ordered(alloc: Global, made: Schema) -> Result<bool, AllocError> {
    has_table(alloc, &made, ("ks", "t", "kcb>az"), (1, 2, 7))
}

#[test]
fn tables_are_made(rt: HostRuntime) -> Result<(), Fail> {
    let table = "CREATE TABLE ks.t (z int, c int, k int, b int, a int, PRIMARY KEY (k, c, b)) \
        WITH CLUSTERING ORDER BY (c ASC, b DESC) AND gc_grace_seconds = 7";
    assert!(rt; is_ordered(rt.alloc(), made(rt.alloc(), table)?)?);
    Ok(())
}

fn is_script(alloc: Global, made: Schema) -> Result<bool, AllocError> {
    if made.table("ks", "kv").is_some() || made.table("script", "t").is_some() {
        return Ok(false);
    }
    has_table(alloc, &made, ("script", "kv", "kcv"), (0, 1, 500))
}

#[test]
fn a_table_is_always_there(rt: HostRuntime) -> Result<(), Fail> {
    let alloc = rt.alloc();
    assert!(rt; is_script(alloc, schema(alloc, &Items::new(alloc))?)?);
    Ok(())
}

fn is_place(made: &Schema, name: &str, place: Option<usize>) -> bool {
    match made.table("ks", "t") {
        Some(table) => table.columns.place(name) == place,
        None => false,
    }
}

fn are_places(made: &Schema) -> bool {
    is_place(made, "k", Some(0))
        && is_place(made, "b", Some(2))
        && is_place(made, "z", Some(4))
        && is_place(made, "y", None)
}

fn are_found(alloc: Global, texts: &str) -> Result<bool, Fail> {
    Ok(are_places(&made(alloc, texts)?))
}

#[test]
fn columns_are_found(rt: HostRuntime) -> Result<(), Fail> {
    let table = "CREATE TABLE ks.t (z int, c int, k int, b int, a int, PRIMARY KEY (k, c, b))";
    assert!(rt; are_found(rt.alloc(), table)?);
    Ok(())
}

fn push_numbered(text: &mut String, number: usize) -> Result<(), AllocError> {
    write!(text, ", c{number} int")
}

/// A table with so many columns besides its key.
fn wide(alloc: Global, others: usize) -> Result<String, AllocError> {
    let mut text = String::from_str(alloc, "CREATE TABLE ks.t (k int, PRIMARY KEY (k)")?;
    for number in 0..others {
        push_numbered(&mut text, number)?;
    }
    text.push(')')?;
    Ok(text)
}

fn is_wide(alloc: Global, others: usize, want: &str) -> Result<bool, Fail> {
    let statements = behind_keyspace(alloc, wide(alloc, others)?.as_str())?;
    Ok(is_answered(alloc, &statements, want)?)
}

#[test]
fn columns_are_counted(rt: HostRuntime) -> Result<(), Fail> {
    let alloc = rt.alloc();
    assert!(rt; is_wide(alloc, 255, "taken")?);
    assert!(rt; is_wide(alloc, 256, "1 TooManyColumns")?);
    Ok(())
}

fn is_printed(alloc: Global, error: SchemaError, want: &str) -> Result<bool, AllocError> {
    Ok(format!(in alloc; "{error}")?.as_str() == want)
}

#[test]
fn refusals_are_printed(rt: HostRuntime) -> Result<(), Fail> {
    let error = SchemaError::Refused(Refused {
        statement: 3,
        fault: Fault::NoKeyspace,
    });
    let want = "statement 3: the keyspace is not named, or does not exist";
    assert!(rt; is_printed(rt.alloc(), error, want)?);
    Ok(())
}
