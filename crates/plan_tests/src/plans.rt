//! Statements with their plans or refusals, in rows of text.
//!
//! A row is a statement, ` ## ` and values for its markers if there are any, ` => `, and the plan as it is printed here. Where
//! each statement of a batch has its own values, ` | ` stands between their lists.

use crate::schemas::{schema_of, statement_of};
use changes::{Bound, Draft, Drafts, Partition, Place, Query};
use cql_statement::Statement;
use cs_base::{Bytes, Items};
use prepared_statement::Prepared;
use schema_book::Schema;
use statement_binder::{BindError, Values, bind, fill, prepare};
use statement_plan::{CellTest, Columns, ConditionalOperation, Fault, Feature, Plan, Test};
use statement_values::{Param, ParamList, Params};
use std::alloc::{AllocError, Global};
use std::collections::BTreeMap;
use std::fmt::Write;
use std::test::Fail;

// ---- printing

fn print_bytes(out: &mut String, bytes: &[u8]) -> Result<(), Fail> {
    for byte in bytes {
        write!(out, "{byte:02x}")?;
    }
    Ok(())
}

/// `-` stands behind a bound before the rows that begin with its bytes, and `+` behind one after them.
fn print_end(out: &mut String, bound: &Bound) -> Result<(), Fail> {
    print_bytes(out, bound.at.as_slice())?;
    let sign = if bound.after { "+" } else { "-" };
    write!(out, "{sign}")?;
    Ok(())
}

fn print_range(out: &mut String, from: &Bound, upto: &Bound) -> Result<(), Fail> {
    print_end(out, from)?;
    write!(out, "..")?;
    print_end(out, upto)
}

fn print_named(out: &mut String, name: &str, row: &Bytes) -> Result<(), Fail> {
    write!(out, " {name} ")?;
    print_bytes(out, row.as_slice())
}

fn print_place(out: &mut String, place: &Place) -> Result<(), Fail> {
    match place {
        Place::Cell(row, column) => {
            print_named(out, "cell", row)?;
            write!(out, ".{column}")?;
        }
        Place::Marker(row) => print_named(out, "marker", row)?,
        Place::RowGone(row) => print_named(out, "row", row)?,
        Place::RangeGone(from, upto) => {
            write!(out, " range ")?;
            print_range(out, from, upto)?;
        }
        Place::PartGone => write!(out, " partition")?,
    }
    Ok(())
}

fn print_given(out: &mut String, bytes: &[u8]) -> Result<(), Fail> {
    write!(out, "[")?;
    print_bytes(out, bytes)?;
    write!(out, "]")?;
    Ok(())
}

fn print_value(out: &mut String, value: &Option<Bytes>) -> Result<(), Fail> {
    match value {
        Some(bytes) => print_given(out, bytes.as_slice())?,
        None => write!(out, "[null]")?,
    }
    Ok(())
}

fn print_draft(out: &mut String, draft: &Draft) -> Result<(), Fail> {
    print_place(out, &draft.place)?;
    print_value(out, &draft.value)?;
    if let Some(timestamp) = draft.timestamp {
        write!(out, "@{timestamp}")?;
    }
    Ok(())
}

fn print_drafts(out: &mut String, drafts: &Drafts) -> Result<(), Fail> {
    for draft in drafts.as_slice() {
        print_draft(out, draft)?;
    }
    Ok(())
}

fn print_partition(out: &mut String, partition: &Partition) -> Result<(), Fail> {
    let table = partition.table;
    write!(out, "{table}:")?;
    print_bytes(out, partition.key.as_slice())
}

fn print_numbers(out: &mut String, numbers: &[u8]) -> Result<(), Fail> {
    write!(out, " columns")?;
    for number in numbers {
        write!(out, " {number}")?;
    }
    Ok(())
}

fn print_columns(out: &mut String, columns: &Columns) -> Result<(), Fail> {
    match columns {
        Columns::Listed(numbers) => print_numbers(out, numbers.as_slice())?,
        Columns::Count => write!(out, " count")?,
    }
    Ok(())
}

fn print_query(out: &mut String, query: &Query) -> Result<(), Fail> {
    print_partition(out, &query.partition)?;
    write!(out, " ")?;
    print_range(out, &query.from, &query.upto)?;
    if query.reversed {
        write!(out, " reversed")?;
    }
    if query.limit != 2_147_483_647 {
        let limit = query.limit;
        write!(out, " limit {limit}")?;
    }
    Ok(())
}

fn print_cell_test(out: &mut String, test: &CellTest) -> Result<(), Fail> {
    let column = test.column;
    let compare = test.compare;
    let order = test.order;
    write!(out, " {column} {compare:?} {order:?}")?;
    print_value(out, &test.value)
}

fn print_test(out: &mut String, test: &Test) -> Result<(), Fail> {
    match test {
        Test::Absent => write!(out, " absent")?,
        Test::Present => write!(out, " present")?,
        Test::Cells(tests) => {
            for test in tests.as_slice() {
                print_cell_test(out, test)?;
            }
        }
        Test::Read(_) => write!(out, " read")?,
    }
    Ok(())
}

fn print_operation(out: &mut String, operation: &ConditionalOperation) -> Result<(), Fail> {
    print_partition(out, &operation.partition)?;
    print_named(out, "of", &operation.row)?;
    write!(out, " if")?;
    print_test(out, &operation.test)?;
    write!(out, " then")?;
    print_drafts(out, &operation.changes)?;
    print_columns(out, &operation.shown)
}

fn print_plan(out: &mut String, plan: &Plan) -> Result<(), Fail> {
    match plan {
        Plan::Write(mutation) => {
            print_partition(out, &mutation.partition)?;
            print_drafts(out, &mutation.changes)?;
        }
        Plan::Read(query, columns) => {
            print_query(out, query)?;
            print_columns(out, columns)?;
        }
        Plan::Conditional(operation) => print_operation(out, operation)?,
        Plan::Use(keyspace) => {
            let keyspace = keyspace.as_str();
            write!(out, "use {keyspace}")?;
        }
    }
    Ok(())
}

fn print_refusal(out: &mut String, error: BindError) -> Result<(), Fail> {
    match error {
        BindError::Refused(fault) => write!(out, "{fault:?}")?,
        BindError::NoMemory => write!(out, "no memory")?,
    }
    Ok(())
}

// ---- schemas and values

const TABLES: &str =
    "CREATE KEYSPACE ks WITH replication = {'class': 'SimpleStrategy', 'replication_factor': 1}
CREATE TABLE ks.t (k int, c int, v text, w int, PRIMARY KEY (k, c))
CREATE TABLE ks.one (k text PRIMARY KEY, v text)
CREATE TABLE ks.two (a int, b text, c int, d int, e text, PRIMARY KEY ((a, b), c, d)) WITH CLUSTERING ORDER BY (c ASC, d DESC)
CREATE TABLE ks.types (k int PRIMARY KEY, a ascii, b bigint, c blob, d boolean, e timestamp, f uuid, g timeuuid, h smallint, i tinyint)
CREATE TABLE ks.text (k int, c text, v int, PRIMARY KEY (k, c))
CREATE TABLE ks.wide (k text PRIMARY KEY, a text, b text, c text, d text, e text)
CREATE TABLE ks.pair (k text, c text, v text, PRIMARY KEY (k, c))";

/// An int behind `#`, a bigint behind `##`, or a text behind `'`.
fn given(alloc: Global, word: &str) -> Result<Bytes, AllocError> {
    if let Some(digits) = word.strip_prefix("##") {
        let number: i64 = digits.parse().unwrap_or(0);
        return Bytes::from_slice(alloc, &number.to_be_bytes());
    }
    if let Some(digits) = word.strip_prefix('#') {
        let number: i32 = digits.parse().unwrap_or(0);
        return Bytes::from_slice(alloc, &number.to_be_bytes());
    }
    Bytes::from_slice(alloc, word.strip_prefix('\'').unwrap_or("").as_bytes())
}

fn param(alloc: Global, word: &str) -> Result<Param, AllocError> {
    match word {
        "null" => Ok(Param::Null),
        "unset" => Ok(Param::NotSet),
        _ => Ok(Param::Given(given(alloc, word)?)),
    }
}

fn add_param(values: &mut ParamList, alloc: Global, word: &str) -> Result<(), AllocError> {
    values.push(param(alloc, word)?)?;
    Ok(())
}

fn params_by_place(alloc: Global, words: &str) -> Result<Params, AllocError> {
    let mut values = Items::new(alloc);
    for word in words.split_whitespace() {
        add_param(&mut values, alloc, word)?;
    }
    Ok(Params::ByPlace(values))
}

type ParamMap = BTreeMap<String, Param>;

/// Adds a value with its name, and `=` between them.
fn add_named(values: &mut ParamMap, alloc: Global, word: &str) -> Result<(), AllocError> {
    let (name, value) = word.split_once('=').unwrap_or((word, ""));
    let value = param(alloc, value)?;
    values.insert(String::from_str(alloc, name)?, value)?;
    Ok(())
}

fn params_by_name(alloc: Global, words: &str) -> Result<Params, AllocError> {
    let mut values = BTreeMap::new(alloc);
    for word in words.split_whitespace() {
        add_named(&mut values, alloc, word)?;
    }
    Ok(Params::ByName(values))
}

fn params(alloc: Global, words: &str) -> Result<Params, AllocError> {
    if words.contains('=') {
        params_by_name(alloc, words)
    } else {
        params_by_place(alloc, words)
    }
}

fn add_list(lists: &mut Items<Params>, alloc: Global, words: &str) -> Result<(), AllocError> {
    lists.push(params(alloc, words)?)?;
    Ok(())
}

/// A list of values for each statement.
fn lists(alloc: Global, words: &str) -> Result<Items<Params>, AllocError> {
    let mut lists = Items::new(alloc);
    for list in words.split('|') {
        add_list(&mut lists, alloc, list)?;
    }
    Ok(lists)
}

// ---- rows

/// What a row asks for.
#[derive(Clone, Copy)]
struct Asked<'a> {
    /// The keyspace in use.
    used: Option<&'a str>,
    text: &'a str,
    /// The timestamp that the protocol gives.
    timestamp: Option<i64>,
}

/// A statement, with `ks` in use where it begins with a space.
fn asked_by(text: &str) -> Asked {
    Asked {
        used: if text.starts_with(' ') {
            Some("ks")
        } else {
            None
        },
        text,
        timestamp: None,
    }
}

fn print_bound_plan(out: &mut String, plan: Plan) -> Result<(), Fail> {
    print_plan(out, &plan)
}

fn print_bound_statement(
    out: &mut String,
    alloc: Global,
    schema: &Schema,
    asked: Asked,
    statement: &Statement,
    values: &Params,
) -> Result<(), Fail> {
    match bind(
        alloc,
        schema,
        asked.used,
        statement,
        values,
        asked.timestamp,
    ) {
        Ok(plan) => print_bound_plan(out, plan),
        Err(error) => print_refusal(out, error),
    }
}

fn print_bound_statements(
    out: &mut String,
    alloc: Global,
    schema: &Schema,
    asked: Asked,
    statements: &[Statement],
    values: &Params,
) -> Result<(), Fail> {
    match statements {
        [statement] => print_bound_statement(out, alloc, schema, asked, statement, values),
        _ => Ok(()),
    }
}

/// Prints the plan of a statement.
fn print_bound(
    out: &mut String,
    alloc: Global,
    schema: &Schema,
    asked: Asked,
    values: &Params,
) -> Result<(), Fail> {
    let statement = statement_of(alloc, asked.text)?;
    print_bound_statements(out, alloc, schema, asked, statement.as_slice(), values)
}

fn print_fill(
    out: &mut String,
    alloc: Global,
    prepared: &Prepared,
    values: Values,
) -> Result<(), Fail> {
    match fill(alloc, prepared, values, None) {
        Ok(plan) => print_bound_plan(out, plan),
        Err(error) => print_refusal(out, error),
    }
}

fn print_prepared(
    out: &mut String,
    alloc: Global,
    prepared: Prepared,
    values: Values,
) -> Result<(), Fail> {
    print_fill(out, alloc, &prepared, values)
}

fn print_filled_statement(
    out: &mut String,
    alloc: Global,
    schema: &Schema,
    used: Option<&str>,
    statement: &Statement,
    values: Values,
) -> Result<(), Fail> {
    match prepare(alloc, schema, used, statement) {
        Ok(prepared) => print_prepared(out, alloc, prepared, values),
        Err(error) => print_refusal(out, error),
    }
}

fn print_filled_statements(
    out: &mut String,
    alloc: Global,
    schema: &Schema,
    used: Option<&str>,
    statements: &[Statement],
    values: Values,
) -> Result<(), Fail> {
    match statements {
        [statement] => print_filled_statement(out, alloc, schema, used, statement, values),
        _ => Ok(()),
    }
}

/// Prints what a statement that was prepared asks for with these values, or why it is not prepared.
fn print_filled(
    out: &mut String,
    alloc: Global,
    schema: &Schema,
    asked: Asked,
    values: Values,
) -> Result<(), Fail> {
    let statement = statement_of(alloc, asked.text)?;
    print_filled_statements(out, alloc, schema, asked.used, statement.as_slice(), values)
}

fn print_with_lists(
    out: &mut String,
    alloc: Global,
    schema: &Schema,
    asked: Asked,
    words: &str,
) -> Result<(), Fail> {
    let lists = lists(alloc, words)?;
    print_filled(out, alloc, schema, asked, Values::Each(lists.as_slice()))
}

fn print_with_params(
    out: &mut String,
    alloc: Global,
    schema: &Schema,
    asked: Asked,
    words: &str,
) -> Result<(), Fail> {
    let values = params(alloc, words)?;
    print_bound(out, alloc, schema, asked, &values)
}

fn print_with(
    out: &mut String,
    alloc: Global,
    schema: &Schema,
    asked: Asked,
    words: &str,
) -> Result<(), Fail> {
    if words.contains('|') {
        print_with_lists(out, alloc, schema, asked, words)
    } else {
        print_with_params(out, alloc, schema, asked, words)
    }
}

/// The plan of a statement.
fn outcome(alloc: Global, schema: &Schema, asked: Asked, words: &str) -> Result<String, Fail> {
    let mut out = String::new(alloc);
    print_with(&mut out, alloc, schema, asked, words)?;
    Ok(out)
}

fn add_other(out: &mut String, row: &str, expected: &str, found: &str) -> Result<(), Fail> {
    if found != expected {
        write!(out, "{row} => {found}\n")?;
    }
    Ok(())
}

/// Adds a row as it is, where it is wrong.
fn add_wrong(out: &mut String, alloc: Global, schema: &Schema, line: &str) -> Result<(), Fail> {
    let (row, expected) = line.split_once(" => ").unwrap_or((line, ""));
    let (text, words) = row.split_once(" ## ").unwrap_or((row, ""));
    let found = outcome(alloc, schema, asked_by(text), words)?;
    add_other(out, row, expected, found.as_str())
}

fn add_rows(out: &mut String, alloc: Global, schema: &Schema, rows: &str) -> Result<(), Fail> {
    for row in rows.lines() {
        add_wrong(out, alloc, schema, row)?;
    }
    Ok(())
}

/// Writes have their changes.
const WRITES: &str =
    "INSERT INTO ks.t (k, c, v) VALUES (1, 2, 'x') => 1:00000001 marker 80000002[] cell 80000002.2[78]
 INSERT INTO t (v, c, k) VALUES ('x', 2, 1) => 1:00000001 marker 80000002[] cell 80000002.2[78]
INSERT INTO ks.t (k, c) VALUES (1, -1) => 1:00000001 marker 7fffffff[]
INSERT INTO ks.t (k, c, v, w) VALUES (1, 2, null, 7) USING TIMESTAMP 9 => 1:00000001 marker 80000002[]@9 cell 80000002.2[null]@9 cell 80000002.3[00000007]@9
INSERT INTO ks.t (k, c, v, v) VALUES (1, 2, 'b', 'a') => 1:00000001 marker 80000002[] cell 80000002.2[62]
INSERT INTO ks.t (k, c, v, v) VALUES (1, 2, 'a', null) => 1:00000001 marker 80000002[] cell 80000002.2[null]
INSERT INTO script.kv (k, c, v) VALUES ('k', 'a', 'x') => 0:6b marker 610000[] cell 610000.2[78]
UPDATE ks.t SET v = 'x' WHERE k = 1 AND c = 2 => 1:00000001 cell 80000002.2[78]
UPDATE ks.t USING TIMESTAMP -9 SET w = 1, v = null WHERE c = 2 AND k = 1 => 1:00000001 cell 80000002.2[null]@-9 cell 80000002.3[00000001]@-9
UPDATE ks.one SET v = '' WHERE k = 'a' => 2:61 cell .1[]
UPDATE ks.two SET e = 'x' WHERE a = 1 AND b = 'a' AND c = 1 AND d = 1 => 3:0004000000010000016100 cell 800000017ffffffe.4[78]
DELETE v FROM ks.t WHERE k = 1 AND c = 2 => 1:00000001 cell 80000002.2[null]
DELETE w, v, v FROM ks.t USING TIMESTAMP 5 WHERE k = 1 AND c = 2 => 1:00000001 cell 80000002.2[null]@5 cell 80000002.3[null]@5
DELETE FROM ks.t WHERE k = 1 AND c = 2 => 1:00000001 row 80000002[null]
DELETE FROM ks.one WHERE k = 'a' => 2:61 row [null]
DELETE FROM ks.t WHERE k = 1 => 1:00000001 partition[null]
DELETE FROM ks.t WHERE k = 1 AND c > 1 AND c <= 3 => 1:00000001 range 80000001+..80000003+[null]
DELETE FROM ks.t WHERE k = 1 AND c >= 1 => 1:00000001 range 80000001-..+[null]
DELETE FROM ks.t WHERE k = 1 AND c < 1 => 1:00000001 range -..80000001-[null]
DELETE FROM ks.two WHERE a = 1 AND b = 'a' AND c = 1 => 3:0004000000010000016100 range 80000001-..80000001+[null]
DELETE FROM ks.two WHERE a = 1 AND b = 'a' AND c = 1 AND d > 1 => 3:0004000000010000016100 range 80000001-..800000017ffffffe-[null]
USE ks => use ks
USE script => use script";

/// Values are of the types of their columns.
const TYPES: &str =
    "INSERT INTO ks.types (k, a, b, c, d, e) VALUES (1, 'a', -1, 0x00ff, true, 5) => 4:00000001 marker [] cell .1[61] cell .2[ffffffffffffffff] cell .3[00ff] cell .4[01] cell .5[0000000000000005]
INSERT INTO ks.types (k, f, h, i) VALUES (1, 00112233-4455-6677-8899-aabbccddeeff, -2, 127) => 4:00000001 marker [] cell .6[00112233445566778899aabbccddeeff] cell .8[fffe] cell .9[7f]
UPDATE ks.types SET g = 00112233-4455-1677-8899-aabbccddeeff WHERE k = 1 => 4:00000001 cell .7[00112233445516778899aabbccddeeff]
UPDATE ks.types SET a = 'x', b = 'x' WHERE k = 1 => TypeMismatch
UPDATE ks.types SET a = 5 WHERE k = 1 => TypeMismatch
UPDATE ks.types SET c = 'x' WHERE k = 1 => TypeMismatch
UPDATE ks.types SET d = 1 WHERE k = 1 => TypeMismatch
UPDATE ks.types SET e = 'x' WHERE k = 1 => TypeMismatch
UPDATE ks.types SET f = 5 WHERE k = 1 => TypeMismatch
UPDATE ks.types SET g = 00112233-4455-6677-8899-aabbccddeeff WHERE k = 1 => TypeMismatch
UPDATE ks.types SET h = 32768 WHERE k = 1 => TypeMismatch
UPDATE ks.types SET i = -129 WHERE k = 1 => TypeMismatch
UPDATE ks.types SET b = ? WHERE k = ? ## ##7 #1 => 4:00000001 cell .2[0000000000000007]
UPDATE ks.types SET b = ? WHERE k = ? ## #7 #1 => TypeMismatch";

/// Markers take their values.
const MARKERS: &str =
    "INSERT INTO ks.t (k, c, v, w) VALUES (?, ?, ?, ?) USING TIMESTAMP ? ## #1 #2 'x unset ##9 => 1:00000001 marker 80000002[]@9 cell 80000002.2[78]@9
INSERT INTO ks.t (k, c, v, w) VALUES (:k, :c, :v, :v2) ## #1 #2 null #3 => 1:00000001 marker 80000002[] cell 80000002.2[null] cell 80000002.3[00000003]
INSERT INTO ks.t (k, c, v, w) VALUES (?, ?, :x, 4) ## x='x c=#2 k=#1 z=#5 => 1:00000001 marker 80000002[] cell 80000002.2[78] cell 80000002.3[00000004]
UPDATE ks.t USING TIMESTAMP ? SET v = ?, w = ? WHERE k = ? AND c = ? ## ##9 null unset #1 #2 => 1:00000001 cell 80000002.2[null]@9
UPDATE ks.t USING TIMESTAMP ? SET v = 'x' WHERE k = 1 AND c = ? ## [timestamp]=##9 c=#2 => 1:00000001 cell 80000002.2[78]@9
UPDATE ks.t USING TIMESTAMP ? SET v = ? WHERE k = 1 AND c = 2 ## unset unset => 1:00000001
UPDATE ks.t USING TIMESTAMP ? SET v = 'x' WHERE k = 1 AND c = 2 ## null => TypeMismatch
UPDATE ks.t USING TIMESTAMP ? SET v = 'x' WHERE k = 1 AND c = 2 ## #9 => TypeMismatch
UPDATE ks.t SET v = 'x' WHERE k = ? AND c = 2 ## null => NullKey
UPDATE ks.t SET v = 'x' WHERE k = 1 AND c = ? ## unset => NullKey
INSERT INTO ks.t (k, c) VALUES (?, 1) ## unset => NullKey
INSERT INTO ks.t (k, c) VALUES (1, null) => NullKey
DELETE FROM ks.t USING TIMESTAMP ? WHERE k = ? AND c > ? ## ##3 #1 #2 => 1:00000001 range 80000002+..+[null]@3
DELETE FROM ks.t WHERE k = 1 AND c > ? ## null => NullKey
SELECT * FROM ks.t WHERE k = ? AND c > ? LIMIT ? ## #1 #2 #3 => 1:00000001 80000002+..+ limit 3 columns 0 1 2 3
SELECT * FROM ks.t WHERE k = 1 LIMIT ? ## [limit]=#3 => 1:00000001 -..+ limit 3 columns 0 1 2 3
SELECT * FROM ks.t WHERE k = 1 LIMIT ? ## unset => 1:00000001 -..+ columns 0 1 2 3
SELECT * FROM ks.t WHERE k = 1 LIMIT ? ## null => TypeMismatch
SELECT * FROM ks.t WHERE k = 1 LIMIT ? ## #0 => TypeMismatch
SELECT * FROM ks.t WHERE k = 1 LIMIT ? ## ##3 => TypeMismatch
UPDATE ks.t SET v = ? WHERE k = ? AND c = ? IF v = ? AND w > ? ## 'x #1 #2 null #5 => 1:00000001 of 80000002 if 2 Equal Plain[null] 3 Greater Signed[00000005] then cell 80000002.2[78] columns 2 3
UPDATE ks.t SET v = 'x' WHERE k = 1 AND c = 2 IF v = ? ## unset => TypeMismatch
BEGIN BATCH USING TIMESTAMP ? UPDATE ks.t SET v = ? WHERE k = ? AND c = 1; DELETE FROM ks.t WHERE k = 1 AND c = ?; APPLY BATCH ## ##9 'x #1 #2 => 1:00000001 cell 80000001.2[78]@9 row 80000002[null]@9
UPDATE ks.t SET v = ? WHERE k = 1 AND c = 2 => ValueCount
UPDATE ks.t SET v = 'x' WHERE k = 1 AND c = 2 ## #1 => ValueCount
UPDATE ks.t SET v = :v WHERE k = 1 AND c = 2 ## w='x => ValueCount
SELECT * FROM ks.t WHERE k = 1 LIMIT ? => ValueCount
INSERT INTO ks.t (k, c) VALUES (1, 2) USING TIMESTAMP ? => ValueCount
UPDATE ks.t SET v = 'x' WHERE k = 1 AND c = 2 IF v = :v => ValueCount
BEGIN BATCH UPDATE ks.t SET v = 'x' WHERE k = 1 AND c = 1 APPLY BATCH ## #1 => ValueCount";

/// Reads have their rows.
const READS: &str = "SELECT * FROM ks.t WHERE k = 1 => 1:00000001 -..+ columns 0 1 2 3
SELECT v, k, v FROM ks.t WHERE k = 1 => 1:00000001 -..+ columns 2 0 2
SELECT COUNT(*) FROM ks.t WHERE k = 1 LIMIT 5 => 1:00000001 -..+ limit 5 count
 SELECT * FROM t WHERE k = 1 AND c = 2 => 1:00000001 80000002-..80000002+ columns 0 1 2 3
SELECT * FROM ks.t WHERE k = 1 AND c > 1 AND c < 3 => 1:00000001 80000001+..80000003- columns 0 1 2 3
SELECT * FROM ks.t WHERE c <= 3 AND k = 1 AND c >= 1 => 1:00000001 80000001-..80000003+ columns 0 1 2 3
SELECT e FROM ks.two WHERE a = 1 AND b = 'a' => 3:0004000000010000016100 -..+ columns 4
SELECT e FROM ks.two WHERE a = 1 AND b = 'a' AND c < 2 => 3:0004000000010000016100 -..80000002- columns 4
SELECT e FROM ks.two WHERE a = 1 AND b = 'a' AND c = 1 AND d > 1 => 3:0004000000010000016100 80000001-..800000017ffffffe- columns 4
SELECT e FROM ks.two WHERE a = 1 AND b = 'a' AND c = 1 AND d >= 1 => 3:0004000000010000016100 80000001-..800000017ffffffe+ columns 4
SELECT e FROM ks.two WHERE a = 1 AND b = 'a' AND c = 1 AND d < 1 => 3:0004000000010000016100 800000017ffffffe+..80000001+ columns 4
SELECT e FROM ks.two WHERE a = 1 AND b = 'a' AND c = 1 AND d <= 1 AND d > -1 => 3:0004000000010000016100 800000017ffffffe-..8000000180000000- columns 4
SELECT v FROM ks.text WHERE k = 1 AND c = 'a' => 5:00000001 610000-..610000+ columns 2
SELECT * FROM ks.t WHERE k = 1 ORDER BY c => 1:00000001 -..+ columns 0 1 2 3
SELECT * FROM ks.t WHERE k = 1 ORDER BY c DESC LIMIT 2 => 1:00000001 -..+ reversed limit 2 columns 0 1 2 3
SELECT e FROM ks.two WHERE a = 1 AND b = 'a' ORDER BY c ASC, d DESC => 3:0004000000010000016100 -..+ columns 4
SELECT e FROM ks.two WHERE a = 1 AND b = 'a' ORDER BY c DESC, d ASC => 3:0004000000010000016100 -..+ reversed columns 4
SELECT e FROM ks.two WHERE a = 1 AND b = 'a' ORDER BY c DESC => 3:0004000000010000016100 -..+ reversed columns 4
SELECT e FROM ks.two WHERE a = 1 AND b = 'a' ORDER BY c ASC, d ASC => NotSupported(OrderBy)
SELECT e FROM ks.two WHERE a = 1 AND b = 'a' ORDER BY d DESC => NotSupported(OrderBy)
SELECT e FROM ks.two WHERE a = 1 AND b = 'a' ORDER BY c ASC, d DESC, e ASC => NotSupported(OrderBy)
SELECT * FROM ks.t WHERE k = 1 ORDER BY k => NotSupported(OrderBy)
SELECT * FROM ks.t WHERE k = 1 LIMIT 2147483647 => 1:00000001 -..+ columns 0 1 2 3
SELECT * FROM ks.t WHERE k = 1 LIMIT 2147483648 => TypeMismatch
SELECT * FROM ks.t WHERE k = 1 LIMIT 0 => TypeMismatch
SELECT * FROM ks.t WHERE k = 1 LIMIT -1 => TypeMismatch
SELECT * FROM ks.t WHERE k = 1 LIMIT '1' => TypeMismatch
SELECT * FROM ks.t WHERE k = 1 LIMIT null => TypeMismatch";

/// Conditions have their operations.
const CONDITIONS: &str =
    "INSERT INTO ks.t (k, c, v) VALUES (1, 2, 'x') IF NOT EXISTS => 1:00000001 of 80000002 if absent then marker 80000002[] cell 80000002.2[78] columns 0 1 2 3
UPDATE ks.t SET v = 'x' WHERE k = 1 AND c = 2 IF EXISTS => 1:00000001 of 80000002 if present then cell 80000002.2[78] columns 0 1 2 3
DELETE FROM ks.t WHERE k = 1 AND c = 2 IF EXISTS => 1:00000001 of 80000002 if present then row 80000002[null] columns 0 1 2 3
DELETE v FROM ks.t WHERE k = 1 AND c = 2 IF w = 3 => 1:00000001 of 80000002 if 3 Equal Signed[00000003] then cell 80000002.2[null] columns 3
UPDATE ks.t SET v = 'x' WHERE k = 1 AND c = 2 IF w != 1 AND v < 'b' AND w >= 0 => 1:00000001 of 80000002 if 3 NotEqual Signed[00000001] 2 Less Plain[62] 3 GreaterOrEqual Signed[00000000] then cell 80000002.2[78] columns 3 2
UPDATE ks.t SET v = 'x' WHERE k = 1 AND c = 2 IF v = null AND w <= 5 => 1:00000001 of 80000002 if 2 Equal Plain[null] 3 LessOrEqual Signed[00000005] then cell 80000002.2[78] columns 2 3
UPDATE ks.types SET h = 1 WHERE k = 1 IF g > 00112233-4455-1677-8899-aabbccddeeff AND f = null AND e = 1 AND d = true => 4:00000001 of  if 7 Greater Time[00112233445516778899aabbccddeeff] 6 Equal Plain[null] 5 Equal Signed[0000000000000001] 4 Equal Plain[01] then cell .8[0001] columns 7 6 5 4
INSERT INTO ks.t (k, c) VALUES (1, 2) IF NOT EXISTS USING TIMESTAMP 5 => TimestampOnCondition
UPDATE ks.t USING TIMESTAMP 5 SET v = 'x' WHERE k = 1 AND c = 2 IF EXISTS => TimestampOnCondition
DELETE FROM ks.t WHERE k = 1 IF EXISTS => KeyMissing
UPDATE ks.t SET v = 'x' WHERE k = 1 AND c = 2 IF c = 2 => NotSupported(Condition)";

/// Batches are one mutation.
const BATCHES: &str =
    "BEGIN BATCH INSERT INTO ks.t (k, c) VALUES (1, 2); UPDATE ks.t SET v = 'x' WHERE k = 1 AND c = 1; DELETE FROM ks.t WHERE k = 1 AND c > 5; APPLY BATCH => 1:00000001 range 80000005+..+[null] cell 80000001.2[78] marker 80000002[]
BEGIN UNLOGGED BATCH UPDATE ks.t SET v = 'a' WHERE k = 1 AND c = 1 UPDATE ks.t SET v = 'b' WHERE k = 1 AND c = 1 APPLY BATCH => 1:00000001 cell 80000001.2[62]
BEGIN BATCH UPDATE ks.t USING TIMESTAMP 7 SET v = 'a' WHERE k = 1 AND c = 1 UPDATE ks.t USING TIMESTAMP 3 SET v = 'b' WHERE k = 1 AND c = 1 APPLY BATCH => 1:00000001 cell 80000001.2[61]@7
BEGIN BATCH USING TIMESTAMP 5 UPDATE ks.t USING TIMESTAMP 7 SET v = 'a' WHERE k = 1 AND c = 1 UPDATE ks.t SET w = 1 WHERE k = 1 AND c = 1 APPLY BATCH => 1:00000001 cell 80000001.2[61]@7 cell 80000001.3[00000001]@5
BEGIN BATCH UPDATE ks.t USING TIMESTAMP 7 SET v = 'a' WHERE k = 1 AND c = 1 UPDATE ks.t SET v = 'b' WHERE k = 1 AND c = 1 APPLY BATCH => 1:00000001 cell 80000001.2[61]@7 cell 80000001.2[62]
BEGIN BATCH UPDATE ks.t SET v = 'a' WHERE k = 1 AND c = 1 UPDATE ks.t SET v = 'b' WHERE k = 2 AND c = 1 APPLY BATCH => NotSupported(Batch)
BEGIN BATCH INSERT INTO ks.one (k) VALUES ('a') INSERT INTO script.kv (k, c) VALUES ('a', 'b') APPLY BATCH => NotSupported(Batch)
BEGIN BATCH APPLY BATCH => NotSupported(Batch)
BEGIN BATCH INSERT INTO ks.t (k, c) VALUES (1, 2) IF NOT EXISTS APPLY BATCH => NotSupported(Condition)
BEGIN BATCH INSERT INTO ks.t (k, c) VALUES (1, 2) INSERT INTO ks.nope (k) VALUES (1) APPLY BATCH => UnknownTable
BEGIN BATCH INSERT INTO ks.t (k) VALUES (1) INSERT INTO ks.t (k, c, z) VALUES (1, 2, 3) APPLY BATCH => UnknownColumn
BEGIN BATCH INSERT INTO ks.t (k, c) VALUES (1, null) INSERT INTO ks.t (k) VALUES (2) APPLY BATCH => KeyMissing
BEGIN BATCH USING TIMESTAMP 'x' INSERT INTO ks.t (k, c) VALUES (1, 2) APPLY BATCH => TypeMismatch
BEGIN BATCH USING TIMESTAMP null INSERT INTO ks.t (k) VALUES (1) APPLY BATCH => KeyMissing";

/// Each statement of a batch has a list of values: one too many, one too few, a list too many and a list too few.
const LISTS: &str =
    "BEGIN BATCH UPDATE ks.t SET v = ? WHERE k = ? AND c = 1; DELETE FROM ks.t WHERE k = 1 AND c = ?; APPLY BATCH ## 'x #1 | #2 => 1:00000001 cell 80000001.2[78] row 80000002[null]
BEGIN BATCH UPDATE ks.t SET v = ? WHERE k = ? AND c = 1; DELETE FROM ks.t WHERE k = 1 AND c = ?; APPLY BATCH ## 'x | #1 #2 => ValueCount
BEGIN BATCH UPDATE ks.t SET v = ? WHERE k = ? AND c = 1; DELETE FROM ks.t WHERE k = 1 AND c = ?; APPLY BATCH ## 'x #1 #2 | #2 => ValueCount
BEGIN BATCH UPDATE ks.t SET v = ? WHERE k = ? AND c = 1; DELETE FROM ks.t WHERE k = 1 AND c = ?; APPLY BATCH ## 'x #1 | #2 #3 => ValueCount
BEGIN BATCH UPDATE ks.t SET v = ? WHERE k = ? AND c = 1; DELETE FROM ks.t WHERE k = 1 AND c = ?; APPLY BATCH ## 'x #1 | => ValueCount
BEGIN BATCH UPDATE ks.t SET v = ? WHERE k = ? AND c = 1; APPLY BATCH ## 'x #1 | #2 => ValueCount
BEGIN BATCH UPDATE ks.t SET v = :v WHERE k = :k AND c = 1; DELETE FROM ks.t WHERE k = 1 AND c = ?; APPLY BATCH ## v='x k=#1 | c=#2 => 1:00000001 cell 80000001.2[78] row 80000002[null]
BEGIN BATCH USING TIMESTAMP ? UPDATE ks.t SET v = 'x' WHERE k = 1 AND c = 1; DELETE FROM ks.t WHERE k = 1 AND c = 2; APPLY BATCH ## ##9 | => ValueCount
UPDATE ks.t SET v = ? WHERE k = 1 AND c = 1 ## 'x | 'y => ValueCount";

/// What is refused whatever the values are, with other values than those that are refused for themselves.
const PREPARED: &str = "UPDATE ks.t SET v = ? WHERE k = 1 AND c = 'x' ## | => TypeMismatch
INSERT INTO ks.t (k, c) VALUES (?, null) ## | => NullKey
INSERT INTO ks.t (k, c, v) VALUES (?, ?) ## | => ValueCount
INSERT INTO ks.t (k, c) VALUES (?, ?, ?) ## | => ValueCount
SELECT * FROM ks.t WHERE k = ? LIMIT 0 ## | => TypeMismatch
SELECT z FROM ks.t WHERE k = ? ## | => UnknownColumn
SELECT * FROM ks.nope WHERE k = ? ## | => UnknownTable
DELETE FROM ks.t WHERE c = ? ## | => KeyMissing
BEGIN BATCH APPLY BATCH ## | => NotSupported(Batch)
BEGIN BATCH INSERT INTO ks.t (k, c) VALUES (?, ?) IF NOT EXISTS APPLY BATCH ## | => NotSupported(Condition)
CREATE TABLE ks.x (k int PRIMARY KEY) ## | => NotSupported(Create)
USE nope ## | => UnknownKeyspace";

/// The least statement for each refusal, and each with the next one in the order.
const REFUSALS: &str = "SELECT * FROM ks.nope WHERE k = 1 => UnknownTable
SELECT * FROM nope.t WHERE k = 1 => UnknownTable
SELECT * FROM t WHERE k = 1 => UnknownTable
SELECT z FROM ks.nope WHERE k = 1 => UnknownTable
SELECT z FROM ks.t WHERE k = 1 => UnknownColumn
SELECT * FROM ks.t WHERE z = 1 => UnknownColumn
SELECT * FROM ks.t WHERE k = 1 ORDER BY z => UnknownColumn
INSERT INTO ks.t (k, c, z) VALUES (1, 2, 3) => UnknownColumn
UPDATE ks.t SET z = 1 WHERE k = 1 AND c = 1 => UnknownColumn
UPDATE ks.t SET v = 'x' WHERE k = 1 AND c = 1 IF z = 1 => UnknownColumn
DELETE z FROM ks.t WHERE k = 1 AND c = 1 => UnknownColumn
INSERT INTO ks.t (k, z) VALUES (1, 2) => UnknownColumn
INSERT INTO ks.t (k) VALUES (1) => KeyMissing
UPDATE ks.t SET v = 'x' WHERE k = 1 => KeyMissing
UPDATE ks.t SET v = 'x' WHERE k = 1 AND c > 1 => KeyMissing
DELETE v FROM ks.t WHERE k = 1 => KeyMissing
DELETE FROM ks.t WHERE c = 1 => KeyMissing
SELECT * FROM ks.t WHERE c = 1 => KeyMissing
SELECT * FROM ks.t WHERE k > 1 => KeyMissing
SELECT * FROM ks.two WHERE a = 1 => KeyMissing
SELECT * FROM ks.two WHERE a = 1 AND b = 'a' AND d = 1 => KeyMissing
SELECT * FROM ks.two WHERE a = 1 AND b = 'a' AND c > 1 AND d = 1 => KeyMissing
INSERT INTO ks.t (k, k) VALUES (1, 2) => KeyMissing
INSERT INTO ks.t (k, c, k) VALUES (1, 2, 1) => KeyTwice
UPDATE ks.t SET v = 'x', c = 2 WHERE k = 1 AND c = 1 => KeyTwice
UPDATE ks.t SET v = 'x' WHERE k = 1 AND c = 1 AND k = 1 => KeyTwice
SELECT * FROM ks.t WHERE k = 1 AND c = 1 AND c > 0 => KeyTwice
SELECT * FROM ks.t WHERE k = 1 AND c > 1 AND c >= 0 => KeyTwice
SELECT * FROM ks.t WHERE k = 1 AND c < 1 AND c < 2 => KeyTwice
INSERT INTO ks.t (k, c, k) VALUES (1, 'x', 1) => KeyTwice
INSERT INTO ks.t (k, c) VALUES (1, 'x') => TypeMismatch
INSERT INTO ks.t (k, c) VALUES (1, 'x', 3) => TypeMismatch
INSERT INTO ks.t (k, c, v) VALUES (1, 2) => ValueCount
INSERT INTO ks.t (k, c) VALUES (1, 2, 3) => ValueCount
INSERT INTO ks.t (k, c) VALUES (1, null, 3) => ValueCount
INSERT INTO ks.t (k, c) VALUES (1, null) IF NOT EXISTS USING TIMESTAMP 5 => NullKey
UPDATE ks.t USING TIMESTAMP 5 SET v = 'x' WHERE k = 1 AND c = 1 IF c = 1 => TimestampOnCondition
DELETE c FROM ks.t WHERE k = 1 AND c = 1 => NotSupported(DeletedKey)
DELETE c FROM ks.t WHERE k = 1 AND c = 1 AND v = 'x' => NotSupported(DeletedKey)
UPDATE ks.t SET w = 1 WHERE k = 1 AND c = 1 AND v = 'x' IF c = 1 => NotSupported(Filtering)
SELECT * FROM ks.t WHERE k = 1 AND v = 'x' => NotSupported(Filtering)
SELECT * FROM ks.t WHERE k = 1 AND v = 5 => TypeMismatch
CREATE KEYSPACE x WITH replication = {'class': 'SimpleStrategy', 'replication_factor': 1} => NotSupported(Create)
CREATE TABLE ks.x (k int PRIMARY KEY) => NotSupported(Create)
INSERT INTO ks.one (k) VALUES ('') => EmptyKey
SELECT * FROM ks.one WHERE k = '' => EmptyKey
SELECT * FROM ks.one WHERE k = '' AND v = 'x' => NotSupported(Filtering)
USE nope => UnknownKeyspace
USE nope ## #1 => ValueCount
USE ks ## #1 => ValueCount
CREATE TABLE ks.x (k int PRIMARY KEY) ## #1 => ValueCount";

const PARTS: [&str; 9] = [
    WRITES, TYPES, MARKERS, READS, CONDITIONS, BATCHES, LISTS, PREPARED, REFUSALS,
];

fn add_parts(out: &mut String, alloc: Global, schema: &Schema) -> Result<(), Fail> {
    for rows in PARTS {
        add_rows(out, alloc, schema, rows)?;
    }
    Ok(())
}

fn add_all_wrong(out: &mut String, alloc: Global) -> Result<(), Fail> {
    let schema = schema_of(alloc, TABLES)?;
    add_parts(out, alloc, &schema)
}

/// The rows that are wrong, as they are.
fn wrong(alloc: Global) -> Result<String, Fail> {
    let mut out = String::new(alloc);
    add_all_wrong(&mut out, alloc)?;
    Ok(out)
}

#[test]
fn statements_have_their_plans(rt: HostRuntime) -> Result<(), Fail> {
    assert_eq!(rt; wrong(rt.alloc())?.as_str(), "");
    Ok(())
}

// ---- sizes

/// So many zero bytes, which are a text too.
fn zeros(alloc: Global, count: usize) -> Result<Param, AllocError> {
    Ok(Param::Given(Bytes::from_vec(vec![in alloc; 0u8; count]?)))
}

fn add_zeros(values: &mut ParamList, alloc: Global, count: usize) -> Result<(), AllocError> {
    values.push(zeros(alloc, count)?)?;
    Ok(())
}

/// Texts of these lengths.
fn texts(alloc: Global, lengths: &[usize]) -> Result<Params, AllocError> {
    let mut values = Items::new(alloc);
    for length in lengths {
        add_zeros(&mut values, alloc, *length)?;
    }
    Ok(Params::ByPlace(values))
}

/// How a statement with these values is bound, with `ks` in use.
#[derive(Clone, Copy, Debug, PartialEq, Eq)]
enum Binding {
    Taken,
    Refused(Fault),
    Other,
}

fn refused(error: BindError) -> Binding {
    match error {
        BindError::Refused(fault) => Binding::Refused(fault),
        BindError::NoMemory => Binding::Other,
    }
}

fn taken(_: Plan) -> Binding {
    Binding::Taken
}

fn bound(alloc: Global, schema: &Schema, statement: &Statement, values: &Params) -> Binding {
    match bind(alloc, schema, Some("ks"), statement, values, None) {
        Ok(plan) => taken(plan),
        Err(error) => refused(error),
    }
}

fn bound_alone(
    alloc: Global,
    schema: &Schema,
    statements: &[Statement],
    values: &Params,
) -> Binding {
    match statements {
        [statement] => bound(alloc, schema, statement, values),
        _ => Binding::Other,
    }
}

fn bound_text(
    alloc: Global,
    schema: &Schema,
    text: &str,
    values: &Params,
) -> Result<Binding, Fail> {
    let statement = statement_of(alloc, text)?;
    Ok(bound_alone(alloc, schema, statement.as_slice(), values))
}

fn sized_in(
    alloc: Global,
    schema: &Schema,
    text: &str,
    lengths: &[usize],
) -> Result<Binding, Fail> {
    let values = texts(alloc, lengths)?;
    bound_text(alloc, schema, text, &values)
}

/// What becomes of a statement with texts of such lengths for its markers.
fn sized(alloc: Global, text: &str, lengths: &[usize]) -> Result<Binding, Fail> {
    let schema = schema_of(alloc, TABLES)?;
    sized_in(alloc, &schema, text, lengths)
}

const ONE: &str = "UPDATE one SET v = ? WHERE k = ?";

/// A zero byte has two order bytes, and the end two more.
const TEXT: &str = "SELECT v FROM text WHERE k = 1 AND c > ?";

/// Four cells with rows of four bytes have 4 * (1 + 8 + 1 + 5 + 25) bytes beside their values, and the partition and the
/// count 18 + 4.
const BATCH: &str =
    "BEGIN BATCH UPDATE t SET v = ? WHERE k = 1 AND c = 1 UPDATE t SET v = ? WHERE k = 1 AND c = 2
    UPDATE t SET v = ? WHERE k = 1 AND c = 3 UPDATE t SET v = ? WHERE k = 1 AND c = 4 APPLY BATCH";

const MIB: usize = 1_048_576;

/// What is left for the last of four values.
const MOST: usize = MIB - 4 * 40 - 22;

const WIDE: &str = "UPDATE wide SET a = ?, b = ?, c = ?, d = ?, e = ? WHERE k = ?";

const FILTERED: &str = "UPDATE wide SET a = ? WHERE k = ? AND b = 'x'";

const PAIR: &str = "UPDATE pair SET v = 'x' WHERE k = ? AND c = ?";

const FILTERING: Fault = Fault::NotSupported(Feature::Filtering);

type SizedRows = &'static [(&'static str, &'static [usize], Binding)];

/// Values and keys.
const LONG_PARTS: SizedRows = &[
    (ONE, &[1_048_576, 1], Binding::Taken),
    (ONE, &[1_048_577, 1], Binding::Refused(Fault::ValueTooLong)),
    (
        ONE,
        &[1_048_577, 65_536],
        Binding::Refused(Fault::ValueTooLong),
    ),
    (ONE, &[1, 65_535], Binding::Taken),
    (ONE, &[1, 65_536], Binding::Refused(Fault::KeyTooLong)),
    (ONE, &[1_048_577, 0], Binding::Refused(Fault::ValueTooLong)),
    (ONE, &[1, 0], Binding::Refused(Fault::EmptyKey)),
];

/// Rows and mutations.
const LONG_WHOLES: SizedRows = &[
    (TEXT, &[32_766], Binding::Taken),
    (TEXT, &[32_767], Binding::Refused(Fault::KeyTooLong)),
    (BATCH, &[MIB, MIB, MIB, MOST], Binding::Taken),
    (
        BATCH,
        &[MIB, MIB, MIB, MOST + 1],
        Binding::Refused(Fault::MutationTooLong),
    ),
];

/// Refusals, each with the next one in the order.
const LONG_IN_ORDER: SizedRows = &[
    (FILTERED, &[1_048_577, 1], Binding::Refused(FILTERING)),
    (PAIR, &[0, 32_767], Binding::Refused(Fault::KeyTooLong)),
    (PAIR, &[0, 32_766], Binding::Refused(Fault::EmptyKey)),
    (
        WIDE,
        &[MIB, MIB, MIB, MIB, MIB, 0],
        Binding::Refused(Fault::EmptyKey),
    ),
    (
        WIDE,
        &[MIB, MIB, MIB, MIB, MIB, 1],
        Binding::Refused(Fault::MutationTooLong),
    ),
    (WIDE, &[MIB, MIB, MIB, 1, 1, 1], Binding::Taken),
];

#[test]
fn long_values_keys_rows_and_mutations_are_refused(rt: HostRuntime) -> Result<(), Fail> {
    for rows in [LONG_PARTS, LONG_WHOLES, LONG_IN_ORDER] {
        for (text, lengths, want) in rows {
            let found = sized(rt.alloc(), text, lengths)?;
            assert!(rt; found == *want, "{text} {lengths:?} {found:?}");
        }
    }
    Ok(())
}

// ---- timestamps

fn print_written_at(out: &mut String, alloc: Global, asked: Asked) -> Result<(), Fail> {
    let schema = schema_of(alloc, TABLES)?;
    print_with_params(out, alloc, &schema, asked, "")
}

/// The plan of a statement, where the protocol gives a timestamp.
fn written_at(alloc: Global, text: &str, timestamp: Option<i64>) -> Result<String, Fail> {
    let mut out = String::new(alloc);
    let asked = Asked {
        used: Some("ks"),
        text,
        timestamp,
    };
    print_written_at(&mut out, alloc, asked)?;
    Ok(out)
}

const WRITTEN: [(&str, &str); 3] = [
    ("DELETE FROM one WHERE k = 'a'", "2:61 row [null]@5"),
    (
        "DELETE FROM one USING TIMESTAMP 7 WHERE k = 'a'",
        "2:61 row [null]@7",
    ),
    (
        "DELETE FROM one WHERE k = 'a' IF EXISTS",
        "2:61 of  if present then row [null] columns 0 1",
    ),
];

fn is_written_as(alloc: Global, text: &str, plan: &str) -> Result<bool, Fail> {
    Ok(written_at(alloc, text, Some(5))?.as_str() == plan)
}

#[test]
fn own_timestamp_counts_first(rt: HostRuntime) -> Result<(), Fail> {
    for (text, plan) in WRITTEN {
        assert!(rt; is_written_as(rt.alloc(), text, plan)?, "{text}");
    }
    Ok(())
}
