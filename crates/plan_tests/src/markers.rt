//! The markers of statements, in rows of text.
//!
//! A row is a statement, ` => `, the number of its table or `-`, each marker with its name and type, `key`, and the numbers of the
//! markers that give the partition key.

use crate::schemas::{schema_of, statement_of};
use cql_statement::Statement;
use prepared_statement::{Marker, Markers, Prepared};
use schema_book::Schema;
use statement_binder::{lasting_refusals_hold, lowest_is_told, prepare, preparing_tells_lowest};
use std::alloc::Global;
use std::fmt::Write;
use std::test::Fail;

const TABLES: &str =
    "CREATE KEYSPACE ks WITH replication = {'class': 'SimpleStrategy', 'replication_factor': 1}
CREATE TABLE ks.t (k int, c int, v text, w bigint, PRIMARY KEY (k, c))
CREATE TABLE ks.two (a int, b text, c int, v uuid, PRIMARY KEY ((a, b), c))";

fn print_table(out: &mut String, table: Option<u16>) -> Result<(), Fail> {
    match table {
        Some(number) => write!(out, "{number}")?,
        None => write!(out, "-")?,
    }
    Ok(())
}

fn print_marker(out: &mut String, marker: &Marker) -> Result<(), Fail> {
    let name = marker.name.as_str();
    let ty = marker.ty;
    write!(out, " {name} {ty:?}")?;
    Ok(())
}

fn print_list(out: &mut String, list: &[Marker]) -> Result<(), Fail> {
    for marker in list {
        print_marker(out, marker)?;
    }
    Ok(())
}

fn print_key(out: &mut String, key: &[u16]) -> Result<(), Fail> {
    write!(out, " key")?;
    for number in key {
        write!(out, " {number}")?;
    }
    Ok(())
}

fn print_markers(out: &mut String, markers: &Markers) -> Result<(), Fail> {
    print_table(out, markers.table)?;
    print_list(out, markers.list.as_slice())?;
    print_key(out, markers.key.as_slice())
}

fn print_prepared(out: &mut String, alloc: Global, prepared: &Prepared) -> Result<(), Fail> {
    print_markers(out, &prepared.markers(alloc)?)
}

fn print_statement(
    out: &mut String,
    alloc: Global,
    schema: &Schema,
    statement: &Statement,
) -> Result<(), Fail> {
    let prepared = prepare(alloc, schema, Some("ks"), statement)?;
    print_prepared(out, alloc, &prepared)
}

fn print_statements(
    out: &mut String,
    alloc: Global,
    schema: &Schema,
    statements: &[Statement],
) -> Result<(), Fail> {
    match statements {
        [statement] => print_statement(out, alloc, schema, statement),
        _ => Ok(()),
    }
}

fn print_text(out: &mut String, alloc: Global, schema: &Schema, text: &str) -> Result<(), Fail> {
    let statement = statement_of(alloc, text)?;
    print_statements(out, alloc, schema, statement.as_slice())
}

fn printed(alloc: Global, schema: &Schema, text: &str) -> Result<String, Fail> {
    let mut out = String::new(alloc);
    print_text(&mut out, alloc, schema, text)?;
    Ok(out)
}

fn add_other(out: &mut String, text: &str, expected: &str, found: &str) -> Result<(), Fail> {
    if found != expected {
        write!(out, "{text} => {found}\n")?;
    }
    Ok(())
}

/// Adds a row as it is, where it is wrong.
fn add_wrong(out: &mut String, alloc: Global, schema: &Schema, row: &str) -> Result<(), Fail> {
    let (text, expected) = row.split_once(" => ").unwrap_or((row, ""));
    let found = printed(alloc, schema, text)?;
    add_other(out, text, expected, found.as_str())
}

fn add_rows(out: &mut String, alloc: Global, schema: &Schema) -> Result<(), Fail> {
    for row in ROWS.lines() {
        add_wrong(out, alloc, schema, row)?;
    }
    Ok(())
}

fn add_all_wrong(out: &mut String, alloc: Global) -> Result<(), Fail> {
    let schema = schema_of(alloc, TABLES)?;
    add_rows(out, alloc, &schema)
}

/// The rows that are wrong, as they are.
fn wrong(alloc: Global) -> Result<String, Fail> {
    let mut out = String::new(alloc);
    add_all_wrong(&mut out, alloc)?;
    Ok(out)
}

const ROWS: &str =
    "INSERT INTO two (b, a, v, c) VALUES (?, ?, ?, 1) USING TIMESTAMP ? => 2 b Text a Int v Uuid [timestamp] Bigint key 1 0
INSERT INTO two (b, a, v, c) VALUES ('x', ?, ?, ?) => 2 a Int v Uuid c Int key
UPDATE t USING TIMESTAMP :at SET v = ? WHERE k = ? AND c = ? => 1 at Bigint v Text k Int c Int key 2
UPDATE t SET v = ?, w = :sum WHERE k = :key AND c = ? IF w > ? => 1 v Text sum Bigint key Int c Int w Bigint key 2
DELETE v FROM t USING TIMESTAMP ? WHERE c = ? AND k = ? => 1 [timestamp] Bigint c Int k Int key 2
DELETE FROM t WHERE k = 1 AND c > ? AND c < ? => 1 c Int c Int key
SELECT v FROM t WHERE k = ? AND c >= :least LIMIT ? => 1 k Int least Int [limit] Int key 0
BEGIN BATCH USING TIMESTAMP ? UPDATE t SET v = ? WHERE k = ? AND c = 1; DELETE FROM two WHERE a = ? AND b = ? APPLY BATCH => 1 [timestamp] Bigint v Text k Int a Int b Text key 2
BEGIN BATCH DELETE FROM t WHERE k = 1; DELETE FROM t WHERE k = ? APPLY BATCH => 1 k Int key
USE ks => - key";

#[test]
fn markers_have_names_and_types(rt: HostRuntime) -> Result<(), Fail> {
    assert_eq!(rt; wrong(rt.alloc())?.as_str(), "");
    Ok(())
}

#[test]
fn laws_are_told(_rt: HostRuntime) -> Result<(), Fail> {
    lowest_is_told();
    preparing_tells_lowest();
    lasting_refusals_hold();
    Ok(())
}
