use crate::helpers::{each_line, show};
use crate::tokens::spaced;
use cql_parser::*;
use std::alloc::{AllocError, Global};
use std::test::Fail;

/// Statements of each kind.
const STATEMENTS: &str =
    "CREATE KEYSPACE ks WITH REPLICATION = {'class': 'SimpleStrategy', 'replication_factor': 3}
create keyspace if not exists ks with replication={'class':'SimpleStrategy','replication_factor':'3'} and durable_writes=true;
CREATE KEYSPACE \"Ks\" WITH replication = {'a': -1} AND DURABLE_WRITES = TRUE
CREATE KEYSPACE add_1 WITH REPLICATION = {'it''s': ''}
CREATE TABLE t (k int PRIMARY KEY)
CREATE TABLE ks.t (k int PRIMARY KEY, v text);
create table if not exists ks.\"T\" (\"K\" bigint, c ascii, v varchar, primary key (\"K\", c))
CREATE TABLE t (a blob, b boolean, c timestamp, d uuid, e timeuuid, f smallint, g tinyint, PRIMARY KEY ((a, b), c, d))
CREATE TABLE t (PRIMARY KEY (a), a TEXT)
CREATE TABLE t (a int, PRIMARY KEY ((a)))
CREATE TABLE t (int int, text text, PRIMARY KEY (int)) WITH comment = 'none'
CREATE TABLE t (k int, c int, PRIMARY KEY (k, c)) WITH CLUSTERING ORDER BY (c DESC)
CREATE TABLE t (k int, c int, d int, PRIMARY KEY (k, c, d)) with clustering order by (c asc, d desc) and gc_grace_seconds = 10 and comment = 'it''s'
CREATE TABLE t (k int PRIMARY KEY) WITH clustering = 1 AND clustering = 'x' AND other = -5
CREATE TABLE t (clustering int, count int, exists int, PRIMARY KEY (clustering, count, exists))
CREATE TABLE t (asc int, PRIMARY KEY (asc)) WITH CLUSTERING ORDER BY (asc ASC)
USE ks
use \"Ks\";
USE replication
INSERT INTO t (k) VALUES (1)
INSERT INTO ks.t (k, v) VALUES (?, 0xff) IF NOT EXISTS;
insert into t (k,v) values ('it''s', null) using timestamp 5
INSERT INTO t (k, v) VALUES (-7, TRUE) IF NOT EXISTS USING TIMESTAMP :stamp
INSERT INTO t (a, b, c, d) VALUES (false, 0x, 123e4567-e89b-12d3-a456-426614174000, :\"Name\")
INSERT INTO t (a) VALUES (1, 2, 3)
INSERT INTO \"A\".\"b\"\"c\" (\"\"\"\", ttl) VALUES ('\u{e9}', '')
UPDATE t SET v = 1 WHERE k = 2
update ks.t using timestamp ? set v = 'a', w = null where k = 1 and c = 2;
UPDATE t SET v = :v WHERE k = ? IF EXISTS
UPDATE t SET v = 1 WHERE k = 2 IF v = 1
UPDATE t SET v = 1 WHERE k = 2 IF v != 1 AND w < 2 AND x <= 3 AND y > 4 AND z >= 5
UPDATE t SET v = 1 WHERE k = 2 IF exists = 1
UPDATE t SET v = 1 WHERE k = 2 IF EXISTS >= 1 AND exists = 2;
UPDATE t SET v = 1 WHERE k = 2 IF \"exists\" = 1
UPDATE timestamp SET timestamp = TRUE WHERE true = FALSE
DELETE FROM t WHERE k = 1
DELETE v FROM t WHERE k = 1
delete v, w from ks.t using timestamp 12 where k = 1 and c >= 2 and c < 3 if exists;
DELETE FROM t USING TIMESTAMP -1 WHERE k = 1 AND c <= 'x'
DELETE \"From\" FROM t WHERE k = 1 IF v = NULL AND w != 'a'
SELECT * FROM t WHERE k = 1
select k, \"V\" from ks.t where k = 'x' and c > 1 and c <= 5 order by c limit 10;
SELECT COUNT(*) FROM t WHERE k = 1
select count ( * ) from t where k = 1 limit ?
SELECT count FROM t WHERE k = 1
SELECT count, k FROM t WHERE count = 1
SELECT \"count\" FROM t WHERE k = 1
SELECT k, count FROM t WHERE k = :key LIMIT :count
SELECT * FROM t WHERE k = 1 ORDER BY c ASC, d DESC, e
SELECT * FROM t WHERE k = 1 ORDER BY asc DESC LIMIT 1
SELECT * FROM t WHERE k = 1 ORDER BY desc;
SELECT asc, desc, order_by FROM ks.count WHERE token = 0xAB
SELECT * FROM t WHERE k = 123E4567-E89B-12D3-A456-426614174000
SELECT * /* all */ FROM t WHERE k = 1 -- the row
BEGIN BATCH APPLY BATCH
BEGIN BATCH INSERT INTO t (k) VALUES (1) APPLY BATCH
BEGIN BATCH INSERT INTO t (k) VALUES (1); UPDATE t SET v = 1 WHERE k = 2; DELETE FROM t WHERE k = 3; APPLY BATCH;
begin unlogged batch insert into t (k) values (1) insert into t (k) values (2) apply batch
BEGIN UNLOGGED BATCH USING TIMESTAMP 7 DELETE v FROM t WHERE k = 1 IF EXISTS UPDATE t SET v = 2 WHERE k = 3 IF v = 4; APPLY BATCH
BEGIN BATCH USING TIMESTAMP ? INSERT INTO t (k) VALUES (?) IF NOT EXISTS USING TIMESTAMP ?; APPLY BATCH
BEGIN BATCH UPDATE t SET v = 1 WHERE k = 1 DELETE FROM t WHERE k = 2 INSERT INTO t (k) VALUES (3); APPLY BATCH
CREATE KEYSPACE exists WITH REPLICATION = {'class': 'SimpleStrategy'}
USE timestamp;
INSERT INTO values (values) VALUES (1)
SELECT varchar FROM int WHERE text = TRUE";

/// Why a text is refused, and the text, with a `^` at the place.
const REFUSALS: &str = "Unexpected|^
Unexpected|   ^
Unexpected|^SELEC $
Unexpected|SELECT ^
Unexpected|SELECT ^FROM t WHERE k = 1
Unexpected|SELECT ^'k' FROM t WHERE k = 1
Unexpected|SELECT *^, k FROM t WHERE k = 1
Unexpected|SELECT count(^k) FROM t WHERE k = 1
Unexpected|SELECT count(*^, k) FROM t WHERE k = 1
Unexpected|SELECT * FROM t^
Unexpected|SELECT * FROM t WHERE k ^!= 1
Unexpected|SELECT * FROM t WHERE k = 1 ORDER ^c
Unexpected|SELECT * FROM t WHERE k = 1 AND^
Unexpected|SELECT * FROM t WHERE k = 1;^;
Unexpected|SELECT * FROM t WHERE k = 1; ^SELECT
Unexpected|SELECT * FROM t WHERE k = 1 LIMIT 1 ^ORDER BY c
Unexpected|SELECT * FROM t WHERE k = 1 ORDER BY c, ^LIMIT 1
Char|SELECT * FROM t WHERE k = 1; ^$
Char|SELECT ^$
Char|^$ SELECT
Unclosed|SELECT * FROM t WHERE k = ^'x
Unclosed|SELECT ^\"k FROM t WHERE k = 1
Unclosed|SELECT * FROM t WHERE k = 1 ^/* end
Unexpected|SELECT k FROM ^where WHERE k = 1 'x
Unexpected|USE ^keyspace
Unexpected|USE ^'ks'
Unexpected|USE ks^.t
Unexpected|INSERT INTO t (k ^VALUES (1)
Unexpected|INSERT INTO t (^) VALUES ()
Unexpected|INSERT INTO t (k) VALUES (^select)
Unexpected|INSERT INTO t (k) VALUES (1) IF ^EXISTS
Unexpected|INSERT INTO t (k) VALUES (1) IF ^v = 1
Unexpected|INSERT INTO t (k) VALUES (1) USING TIMESTAMP 1 ^IF NOT EXISTS
Unexpected|UPDATE t SET v = '\u{e9}' ^FROM t
Unexpected|UPDATE t SET v = 1 WHERE k = ^k
Unexpected|UPDATE t SET v = 1, ^WHERE k = 1
Unexpected|UPDATE t SET v = 1 WHERE k = 1 IF ^NOT EXISTS
Unexpected|UPDATE t SET v = 1 WHERE k = 1 IF EXISTS ^AND v = 1
Unexpected|UPDATE t SET v = 1 WHERE k = 1 IF v ^EXISTS
Unexpected|CREATE TABLE t (k ^integer PRIMARY KEY)
Unexpected|CREATE TABLE t (k ^\"int\" PRIMARY KEY)
Unexpected|CREATE TABLE t (PRIMARY KEY ((a, b, c))^
Unexpected|CREATE TABLE t (k int PRIMARY KEY) WITH CLUSTERING ORDER BY (c^, d DESC)
Unexpected|CREATE TABLE t (k int PRIMARY KEY) WITH CLUSTERING ^BY (c)
Unexpected|CREATE TABLE t (k int PRIMARY KEY) WITH comment = ^comment
Unexpected|CREATE ^INDEX i ON t (v)
Unexpected|CREATE KEYSPACE ks WITH REPLICATION = {^}
Unexpected|CREATE KEYSPACE ks WITH REPLICATION = {'class': 'SimpleStrategy'} AND DURABLE_WRITES = ^FALSE
Unexpected|BEGIN BATCH ^SELECT * FROM t WHERE k = 1; APPLY BATCH
Unexpected|BEGIN BATCH ^BEGIN BATCH APPLY BATCH APPLY BATCH
Unexpected|BEGIN BATCH DELETE FROM t WHERE k = 1;^; APPLY BATCH
Unexpected|BEGIN BATCH APPLY ^;";

fn shown(alloc: Global, text: &str) -> Result<String, AllocError> {
    match parse(alloc, text) {
        Ok(statement) => show(alloc, statement),
        Err(error) => show(alloc, error),
    }
}

/// Whether this is what is shown of the text.
fn is_shown(alloc: Global, text: &str, expected: &str) -> Result<bool, AllocError> {
    Ok(shown(alloc, text)?.as_str() == expected)
}

/// Whether this is what is shown of the text's tokens, with blanks between them.
fn is_shown_again(alloc: Global, text: &str, expected: &str) -> Result<bool, AllocError> {
    is_shown(alloc, spaced(alloc, text)?.as_str(), expected)
}

fn is_printed_the_same(alloc: Global, text: &str) -> Result<bool, Fail> {
    let first = shown(alloc, text)?;
    Ok(first.len() > 20 && is_shown_again(alloc, text, first.as_str())?)
}

#[test]
fn printed_statements_are_the_same(rt: HostRuntime) -> Result<(), Fail> {
    each_line(&rt, rt.alloc(), STATEMENTS, is_printed_the_same)
}

fn joined(alloc: Global, front: &str, behind: &str) -> Result<String, AllocError> {
    let mut text = String::from_str(alloc, front)?;
    text.push_str(behind)?;
    Ok(text)
}

/// Whether the text is refused for this cause at this place.
fn is_cause(alloc: Global, text: &str, cause: &str, at: usize) -> Result<bool, AllocError> {
    let expected = format!(in alloc; "{cause}({at})")?;
    is_shown(alloc, text, expected.as_str())
}

fn is_refused(alloc: Global, line: &str) -> Result<bool, Fail> {
    let (cause, marked) = line.split_once('|').unwrap_or((line, ""));
    let (front, behind) = marked.split_once('^').unwrap_or((marked, ""));
    let text = joined(alloc, front, behind)?;
    Ok(is_cause(alloc, text.as_str(), cause, front.len())?)
}

#[test]
fn refusals_of_the_table(rt: HostRuntime) -> Result<(), Fail> {
    each_line(&rt, rt.alloc(), REFUSALS, is_refused)
}

/// What is shown of a statement, and the statement.
const SHOWN: &str = "Use(Use { keyspace: \"Ks\" })|USE \"Ks\";
Use(Use { keyspace: \"a\\\"b\" })|USE \"a\"\"b\"
Use(Use { keyspace: \"ks_1\" })|use Ks_1
CreateKeyspace(CreateKeyspace { if_not_exists: true, name: \"ks\", replication: Items { items: [ReplicationEntry { key: Literal { kind: Str, text: \"'class'\" }, value: Literal { kind: Whole, text: \"3\" } }] } })|CREATE KEYSPACE IF NOT EXISTS ks WITH REPLICATION = {'class': 3} AND DURABLE_WRITES = TRUE
CreateTable(CreateTable { if_not_exists: false, table: TableName { keyspace: Some(\"ks\"), name: \"t\" }, items: Items { items: [Column(ColumnItem { name: \"k\", ty: Int, is_primary_key: true }), Column(ColumnItem { name: \"v\", ty: Text, is_primary_key: false })] }, options: Items { items: [Named(OptionItem { name: \"comment\", value: Literal { kind: Str, text: \"'x'\" } })] } })|CREATE TABLE ks.t (k int PRIMARY KEY, v varchar) WITH Comment = 'x'
CreateTable(CreateTable { if_not_exists: false, table: TableName { keyspace: None, name: \"t\" }, items: Items { items: [PrimaryKey(KeyItem { partition: Items { items: [\"a\", \"b\"] }, clustering: Items { items: [\"c\"] } })] }, options: Items { items: [ClusteringOrder(Items { items: [ColumnOrder { column: \"c\", is_descending: true }] })] } })|CREATE TABLE t (PRIMARY KEY ((a, b), c)) WITH CLUSTERING ORDER BY (c DESC)
Insert(Insert { table: TableName { keyspace: None, name: \"t\" }, columns: Items { items: [\"k\"] }, values: Items { items: [Constant(Literal { kind: Whole, text: \"1\" })] }, if_not_exists: true, stamp: Some(Stamp { timestamp: Marker }) })|INSERT INTO t (K) VALUES (1) IF NOT EXISTS USING TIMESTAMP ?
Update(Update { table: TableName { keyspace: None, name: \"t\" }, stamp: None, assignments: Items { items: [Assignment { column: \"v\", term: Null }] }, relations: Items { items: [Relation { column: \"k\", operator: Equal, term: NamedMarker(\"m\") }] }, condition: Some(Tests(Items { items: [Test { column: \"exists\", operator: NotEqual, term: Constant(Literal { kind: Bool, text: \"tRUE\" }) }] })) })|UPDATE t SET v = NULL WHERE k = :M IF Exists != tRUE
Delete(Delete { columns: Items { items: [] }, table: TableName { keyspace: None, name: \"t\" }, stamp: None, relations: Items { items: [Relation { column: \"k\", operator: GreaterOrEqual, term: Constant(Literal { kind: Blob, text: \"0xAb\" }) }] }, condition: Some(Exists) })|DELETE FROM t WHERE k >= 0xAb IF EXISTS
Select(Select { selection: Count, table: TableName { keyspace: None, name: \"t\" }, relations: Items { items: [Relation { column: \"k\", operator: Less, term: Constant(Literal { kind: Str, text: \"'it''s'\" }) }] }, orders: Items { items: [ColumnOrder { column: \"c\", is_descending: false }, ColumnOrder { column: \"d\", is_descending: true }] }, limit: Some(Marker) })|SELECT COUNT(*) FROM t WHERE k < 'it''s' ORDER BY c, d DESC LIMIT ?
Batch(Batch { is_unlogged: true, stamp: None, statements: Items { items: [] } })|BEGIN UNLOGGED BATCH APPLY BATCH";

fn is_shown_of_line(alloc: Global, line: &str) -> Result<bool, Fail> {
    let (expected, text) = line.split_once('|').unwrap_or((line, ""));
    Ok(is_shown(alloc, text, expected)?)
}

#[test]
fn statements_of_the_table(rt: HostRuntime) -> Result<(), Fail> {
    each_line(&rt, rt.alloc(), SHOWN, is_shown_of_line)
}

/// A SELECT with so many relations.
fn long_select(alloc: Global, relations: usize) -> Result<String, AllocError> {
    let mut text = String::from_str(alloc, "SELECT * FROM t WHERE a=1")?;
    for _ in 1..relations {
        text.push_str(" AND a=1")?;
    }
    Ok(text)
}

/// Whether the text is refused for this as tokens alone, or is not refused.
fn is_fault(alloc: Global, text: &str, fault: Option<ParseError>) -> bool {
    tokens(alloc, text).err() == fault
}

/// Whether the text is refused for this as a statement and as tokens, or is not refused.
fn is_fault_of_both(alloc: Global, text: &str, fault: Option<ParseError>) -> bool {
    parse(alloc, text).err() == fault && is_fault(alloc, text, fault)
}

/// Four tokens, and four for each relation.
#[test]
fn too_many_tokens(rt: HostRuntime) -> Result<(), Fail> {
    let alloc = rt.alloc();
    for (relations, fault) in [(16382, None), (16383, Some(ParseError::TooLong))] {
        assert!(rt; is_fault_of_both(alloc, long_select(alloc, relations)?.as_str(), fault));
    }
    Ok(())
}

#[test]
fn tokens_alone(rt: HostRuntime) {
    for (text, fault) in [
        ("SELECT , ;", None),
        ("a $ 'b", Some(ParseError::Char(2))),
        ("a 'b", Some(ParseError::Unclosed(2))),
    ] {
        assert!(rt; is_fault(rt.alloc(), text, fault), "{text}");
    }
}
