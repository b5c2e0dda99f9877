//! Relations on keys: what is wrong with them, and the rows that they name, as bytes.

use crate::given::{Given, bytes, list};
use cql_statement::RelationOperator;
use cql_values::CqlValue;
use cs_base::Text;
use key_restrictions::{
    Restriction, is_key_at, is_long, is_twice, is_whole, misses_slice, misses_whole, names_rows,
    partition_of, row_bounds, row_bytes,
};
use schema_book::ColumnDef;
use std::alloc::{AllocError, Global};
use std::test::Fail;

/// A number, `uuid`, `#` and the length of a blob, or else a text.
fn value(alloc: Global, word: &str) -> Result<CqlValue, AllocError> {
    if let Ok(n) = word.parse::<i32>() {
        return Ok(CqlValue::Int(n));
    }
    if word.starts_with('#') {
        return Ok(CqlValue::Blob(bytes(alloc, word)?));
    }
    match word {
        "uuid" => Ok(CqlValue::Uuid(1)),
        _ => Ok(CqlValue::Text(Text::from_str(alloc, word)?)),
    }
}

/// Those whose signs begin with others' come first.
const OPERATORS: [(&str, RelationOperator); 5] = [
    ("<=", RelationOperator::LessOrEqual),
    (">=", RelationOperator::GreaterOrEqual),
    ("<", RelationOperator::Less),
    (">", RelationOperator::Greater),
    ("=", RelationOperator::Equal),
];

/// A relation such as `0=7` or `1>=2`, with the column's place in front.
impl Given for Restriction<CqlValue> {
    fn given(alloc: Global, word: &str) -> Result<Restriction<CqlValue>, AllocError> {
        for (sign, operator) in &OPERATORS {
            if let Some((column, word)) = word.split_once(*sign) {
                return Ok(Restriction {
                    column: column.parse::<usize>().unwrap_or(0),
                    operator: *operator,
                    value: value(alloc, word)?,
                });
            }
        }
        Err(AllocError)
    }
}

/// What the relations of a row are asked for.
#[derive(Clone, Copy)]
enum Asked {
    /// Whether they miss the whole key or a slice, whether a column stands twice, and whether they name rows.
    Faults,
    /// Whether they are whole, and whether the columns 1 and 2 are of the key.
    Key,
    /// The table, the token and the key.
    Partition,
    /// The bytes of the columns that are fixed, and the two bounds, each with whether it is behind the rows with its bytes.
    Rows,
    /// Whether the key or a bound is too long.
    Length,
}

fn faults(
    alloc: Global,
    columns: &[ColumnDef],
    restrictions: &[Restriction<CqlValue>],
) -> Result<String, AllocError> {
    let misses_whole = misses_whole(columns, restrictions);
    let misses_slice = misses_slice(columns, restrictions);
    let is_twice = is_twice(columns, restrictions);
    let names_rows = names_rows(columns, restrictions);
    format!(in alloc; "{misses_whole} {misses_slice} {is_twice} {names_rows}")
}

fn key(
    alloc: Global,
    columns: &[ColumnDef],
    restrictions: &[Restriction<CqlValue>],
) -> Result<String, AllocError> {
    let is_whole = is_whole(columns, restrictions);
    let first = is_key_at(columns, 1);
    let second = is_key_at(columns, 2);
    format!(in alloc; "{is_whole} {first} {second}")
}

fn partition(
    alloc: Global,
    columns: &[ColumnDef],
    restrictions: &[Restriction<CqlValue>],
) -> Result<String, AllocError> {
    let partition = partition_of(alloc, 5, columns, restrictions)?;
    let key = hex::encode(alloc, partition.key.as_slice())?;
    format!(in alloc; "{} {} {key}", partition.table, partition.token)
}

fn rows(
    alloc: Global,
    columns: &[ColumnDef],
    restrictions: &[Restriction<CqlValue>],
) -> Result<String, AllocError> {
    let row = row_bytes(alloc, columns, restrictions)?;
    let bounds = row_bounds(alloc, columns, restrictions)?;
    let (from, upto) = (&bounds.from, &bounds.upto);
    format!(in alloc;
        "{row:?} {:?} {} {:?} {}",
        from.at, from.after, upto.at, upto.after
    )
}

fn length(
    alloc: Global,
    columns: &[ColumnDef],
    restrictions: &[Restriction<CqlValue>],
) -> Result<String, AllocError> {
    let partition = partition_of(alloc, 5, columns, restrictions)?;
    let bounds = row_bounds(alloc, columns, restrictions)?;
    let is_long = is_long(partition.key.as_slice())
        || is_long(bounds.from.at.as_slice())
        || is_long(bounds.upto.at.as_slice());
    format!(in alloc; "{is_long}")
}

/// What is told of these relations on a table of these columns.
fn told(alloc: Global, asked: Asked, columns: &str, words: &str) -> Result<String, AllocError> {
    let columns = list(alloc, columns)?;
    let restrictions = list(alloc, words)?;
    let (columns, restrictions) = (columns.as_slice(), restrictions.as_slice());
    match asked {
        Asked::Faults => faults(alloc, columns, restrictions),
        Asked::Key => key(alloc, columns, restrictions),
        Asked::Partition => partition(alloc, columns, restrictions),
        Asked::Rows => rows(alloc, columns, restrictions),
        Asked::Length => length(alloc, columns, restrictions),
    }
}

/// A row is named by its whole key.
const ROW: &str = "false false false true";

/// Some rows of a partition are named.
const ROWS: &str = "true false false true";

/// A partition is named.
const PARTITION: &str = "true false false false";

/// Rows that do not stand together, or of no partition.
const NO_SLICE: &str = "true true false true";

const NO_PARTITION: &str = "true true false false";

const ROW_TWICE: &str = "false false true true";

const ROWS_TWICE: &str = "true false true true";

/// What is asked, the columns, the relations, and what is told.
const CASES: [(Asked, &str, &str, &str); 53] = [
    // open columns
    (Asked::Faults, "p c", "1=1 0=1", ROW),
    (Asked::Faults, "p c", "0=1", PARTITION),
    (Asked::Faults, "p c", "", NO_PARTITION),
    (Asked::Faults, "p c", "1=1", NO_SLICE),
    (Asked::Faults, "p p c", "0=1", NO_PARTITION),
    (Asked::Faults, "p p c", "1=1", NO_PARTITION),
    (Asked::Faults, "p c c c", "0=1 1=1 2=1", ROWS),
    // a gap among the clustering columns, and a bound on one that is not the last
    (Asked::Faults, "p c c c", "0=1 1=1 3=1", NO_SLICE),
    (Asked::Faults, "p c c c", "0=1 2=1", NO_SLICE),
    (Asked::Faults, "p c c c", "0=1 1=1 2>1", ROWS),
    (Asked::Faults, "p c c c", "0=1 1>1 2=1", NO_SLICE),
    (Asked::Faults, "p c c c", "0=1 1>1 2<1", NO_SLICE),
    // a bound on the partition key
    (Asked::Faults, "p c", "0>1", NO_PARTITION),
    // columns that stand twice
    (Asked::Faults, "p c", "0=1 1=1 0=1", ROW_TWICE),
    (Asked::Faults, "p c", "0=1 1=1 1=2", ROW_TWICE),
    // an equality and a bound
    (Asked::Faults, "p c", "0=1 1=1 1>0", ROWS_TWICE),
    (Asked::Faults, "p c", "0=1 1<=2 1=1", ROWS_TWICE),
    (Asked::Faults, "p c", "0=1 0<2 1=1", "true true true true"),
    // two bounds of one side, and one of each
    (Asked::Faults, "p c", "0=1 1>1 1>=2", ROWS_TWICE),
    (Asked::Faults, "p c", "0=1 1<=1 1<2", ROWS_TWICE),
    (Asked::Faults, "p c", "0=1 1>1 1<2", ROWS),
    // whole keys
    (Asked::Key, "p c v", "1=1 0=1", "true true false"),
    (Asked::Key, "p c v", "0=1 1>=1", "false true false"),
    // keys and tokens of the DataStax Python driver for Apache Cassandra
    (
        Asked::Partition,
        "p c",
        "1=9 0=1",
        "5 -4069959284402364209 00000001",
    ),
    (
        Asked::Partition,
        "p p",
        "1=a 0=1",
        "5 6516349416904725244 0004000000010000016100",
    ),
    // lengths have two bytes
    (
        Asked::Partition,
        "p p p",
        "2=-1 0=#258 1=",
        around_sevens!("5 2642487843421482192 0102", "000000000004ffffffff00"),
    ),
    // bounds are ends: of the bytes of 1 and 5, also in a column that is DESC
    (Asked::Rows, "p c", "0=7", "[] [] false [] true"),
    (Asked::Rows, "p", "0=7", "[] [] false [] true"),
    (
        Asked::Rows,
        "p c",
        "0=7 1>1",
        "[] [128, 0, 0, 1] true [] true",
    ),
    (
        Asked::Rows,
        "p c",
        "0=7 1>=1",
        "[] [128, 0, 0, 1] false [] true",
    ),
    (
        Asked::Rows,
        "p c",
        "0=7 1<1",
        "[] [] false [128, 0, 0, 1] false",
    ),
    (
        Asked::Rows,
        "p c",
        "0=7 1<=1",
        "[] [] false [128, 0, 0, 1] true",
    ),
    (
        Asked::Rows,
        "p c",
        "0=7 1<5 1>=1",
        "[] [128, 0, 0, 1] false [128, 0, 0, 5] false",
    ),
    (
        Asked::Rows,
        "p d",
        "0=7 1>1",
        "[] [] false [127, 255, 255, 254] false",
    ),
    (
        Asked::Rows,
        "p d",
        "0=7 1>=1",
        "[] [] false [127, 255, 255, 254] true",
    ),
    (
        Asked::Rows,
        "p d",
        "0=7 1<1",
        "[] [127, 255, 255, 254] true [] true",
    ),
    (
        Asked::Rows,
        "p d",
        "0=7 1<=1",
        "[] [127, 255, 255, 254] false [] true",
    ),
    (
        Asked::Rows,
        "p d",
        "0=7 1<5 1>=1",
        "[] [127, 255, 255, 250] true [127, 255, 255, 254] true",
    ),
    // fixed columns stand before bounds
    (
        Asked::Rows,
        "p c c",
        "0=7 1=1",
        "[128, 0, 0, 1] [128, 0, 0, 1] false [128, 0, 0, 1] true",
    ),
    (
        Asked::Rows,
        "p d c",
        "0=7 1=1",
        "[127, 255, 255, 254] [127, 255, 255, 254] false [127, 255, 255, 254] true",
    ),
    // the order of the bounded column counts, and not that of those before it
    (
        Asked::Rows,
        "p d c",
        "0=7 2>5 1=1",
        "[127, 255, 255, 254] [127, 255, 255, 254, 128, 0, 0, 5] true [127, 255, 255, 254] true",
    ),
    (
        Asked::Rows,
        "p c d",
        "0=7 2>5 1=1",
        "[128, 0, 0, 1] [128, 0, 0, 1] false [128, 0, 0, 1, 127, 255, 255, 250] false",
    ),
    // a whole row, and its neighbour in which a uuid, which is no clustering value, has no order bytes
    (
        Asked::Rows,
        "p c c v",
        "0=7 2=a 1=1",
        "[128, 0, 0, 1, 97, 0, 0] [128, 0, 0, 1, 97, 0, 0] false [128, 0, 0, 1, 97, 0, 0] true",
    ),
    (
        Asked::Rows,
        "p c c v",
        "0=7 2=uuid 1=1",
        "[128, 0, 0, 1] [128, 0, 0, 1] false [128, 0, 0, 1] true",
    ),
    // keys and rows have 65,535 bytes
    (Asked::Length, "p", "0=#65535", "false"),
    (Asked::Length, "p", "0=#65536", "true"),
    // two parts have six bytes more
    (Asked::Length, "p p", "0=1 1=#65525", "false"),
    (Asked::Length, "p p", "0=1 1=#65526", "true"),
    // an order word has two bytes more
    (Asked::Length, "p c", "0=1 1=#65533", "false"),
    (Asked::Length, "p c", "0=1 1=#65534", "true"),
    (Asked::Length, "p c", "0=1 1<#65533", "false"),
    (Asked::Length, "p c", "0=1 1<#65534", "true"),
    (Asked::Length, "p d", "0=1 1<#65534", "true"),
];

#[test]
fn relations_are_told(rt: HostRuntime) -> Result<(), Fail> {
    for (asked, columns, words, expected) in &CASES {
        let told = told(rt.alloc(), *asked, columns, words)?;
        assert!(rt; told.as_str() == *expected, "{columns} {words}");
    }
    Ok(())
}
