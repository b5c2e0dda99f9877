//! Comparisons with and without null, by the order of each kind of type, and conditions of several tests.

use crate::given::{Given, list, row, value};
use changes::{Bound, Partition, Query, ShownRow};
use condition_test::holds;
use cs_base::Bytes;
use statement_plan::{CellTest, Compare, Test, ValueOrder};
use std::alloc::{AllocError, Global};
use std::test::Fail;

const SIGNS: [char; 6] = ['=', '≠', '<', '≤', '>', '≥'];

// which of these hold
const OF_EQUALS: [bool; 6] = [true, false, false, true, false, true];

const OF_LESS: [bool; 6] = [false, true, true, true, false, false];

const OF_GREATER: [bool; 6] = [false, true, false, false, true, true];

const OF_NULLS: [bool; 6] = [true, false, false, false, false, false];

const OF_NULL_AND_VALUE: [bool; 6] = [false, true, false, false, false, false];

fn compare(sign: Option<char>) -> Compare {
    match sign {
        Some('≠') => Compare::NotEqual,
        Some('<') => Compare::Less,
        Some('≤') => Compare::LessOrEqual,
        Some('>') => Compare::Greater,
        Some('≥') => Compare::GreaterOrEqual,
        _ => Compare::Equal,
    }
}

fn order(letter: Option<char>) -> ValueOrder {
    match letter {
        Some('s') => ValueOrder::Signed,
        Some('t') => ValueOrder::Time,
        _ => ValueOrder::Plain,
    }
}

fn column(digit: Option<char>) -> u8 {
    match digit {
        Some('2') => 2,
        Some('3') => 3,
        _ => 4,
    }
}

/// A test such as `3p<6162`: of column 2, 3 or 4, in the order of signed numbers by `s`, of plain bytes by `p` and of times
/// by `t`.
impl Given for CellTest {
    fn given(alloc: Global, word: &str) -> Result<CellTest, AllocError> {
        let mut letters = word.chars();
        let column = column(letters.next());
        let order = order(letters.next());
        let compare = compare(letters.next());
        Ok(CellTest {
            column,
            compare,
            value: value(alloc, letters.as_str())?,
            order,
        })
    }
}

fn bound(alloc: Global) -> Bound {
    Bound {
        at: Bytes::new(alloc),
        after: false,
    }
}

fn read(alloc: Global) -> Test {
    Test::Read(Query {
        partition: Partition {
            table: 1,
            token: 0,
            key: Bytes::new(alloc),
        },
        from: bound(alloc),
        upto: bound(alloc),
        reversed: false,
        limit: 1,
    })
}

fn test(alloc: Global, words: &str) -> Result<Test, AllocError> {
    match words {
        "absent" => Ok(Test::Absent),
        "present" => Ok(Test::Present),
        "read" => Ok(read(alloc)),
        words => Ok(Test::Cells(list(alloc, words)?)),
    }
}

fn holds_of(alloc: Global, row: Option<&ShownRow>, tests: &str) -> Result<bool, AllocError> {
    Ok(holds(row, &test(alloc, tests)?))
}

/// Whether the tests hold of a row with these cells, or of one that is not there.
fn is_held(alloc: Global, cells: &str, tests: &str) -> Result<bool, AllocError> {
    if cells == "no row" {
        return holds_of(alloc, None, tests);
    }
    holds_of(alloc, Some(&row(alloc, "72", cells)?), tests)
}

/// The cells of a row with a value in column 2, and with this one, if any, in column 3.
fn cells(alloc: Global, value: &str) -> Result<String, AllocError> {
    if value == "null" {
        return String::from_str(alloc, "2=7365636f6e64");
    }
    format!(in alloc; "2=7365636f6e64 3={value}")
}

/// Which comparisons of a row's value with that of a test hold.
fn held(alloc: Global, order: char, value: &str, other: &str) -> Result<[bool; 6], AllocError> {
    let cells = cells(alloc, value)?;
    let mut held = [false; 6];
    for i in 0..6 {
        let sign = SIGNS[i];
        let test = format!(in alloc; "3{order}{sign}{other}")?;
        held[i] = is_held(alloc, cells.as_str(), test.as_str())?;
    }
    Ok(held)
}

/// Whether these comparisons of a row's value with that of a test hold in each order.
fn compare_so(
    alloc: Global,
    value: &str,
    other: &str,
    expected: [bool; 6],
) -> Result<bool, AllocError> {
    Ok(
        held(alloc, 's', value, other)? == expected
            && held(alloc, 'p', value, other)? == expected
            && held(alloc, 't', value, other)? == expected,
    )
}

/// Whether the first is below the second, the second above the first, and the first equal to itself.
fn rise(alloc: Global, order: char, low: &str, high: &str) -> Result<bool, AllocError> {
    Ok(
        held(alloc, order, low, high)? == OF_LESS
            && held(alloc, order, high, low)? == OF_GREATER
            && held(alloc, order, low, low)? == OF_EQUALS,
    )
}

/// Whether each is below the next.
fn all_rise(alloc: Global, order: char, values: &[&str]) -> Result<bool, AllocError> {
    for i in 1..values.len() {
        if !rise(alloc, order, values[i - 1], values[i])? {
            return Ok(false);
        }
    }
    Ok(true)
}

/// A value or null, another, and which comparisons of the two hold, in each order.
const NULLS: [(&str, &str, [bool; 6]); 7] = [
    ("null", "null", OF_NULLS),
    ("76", "null", OF_NULL_AND_VALUE),
    ("null", "76", OF_NULL_AND_VALUE),
    ("76", "76", OF_EQUALS),
    // an empty value is no null
    ("", "", OF_EQUALS),
    ("", "null", OF_NULL_AND_VALUE),
    ("null", "", OF_NULL_AND_VALUE),
];

/// Rising values of an order.
const RISING: [(char, &[&str]); 11] = [
    // numbers of one, two, four and eight bytes: the least, others below and above 0, and the greatest
    ('s', &["80", "81", "fe", "ff", "00", "01", "7f"]),
    (
        's',
        &["8000", "ff00", "ffff", "0000", "0001", "0100", "7fff"],
    ),
    (
        's',
        &[
            "80000000", "ffffff00", "ffffffff", "00000000", "00000001", "00000100", "7fffffff",
        ],
    ),
    (
        's',
        &[
            "8000000000000000",
            "ffffffffffffff00",
            "ffffffffffffffff",
            "0000000000000000",
            "0000000000000001",
            "0000000000000100",
            "7fffffffffffffff",
        ],
    ),
    // "", "a", "ab" and "b", and then "Z" and "a", "z" and "ä", "a" and "a\0"
    ('p', &["#0", "61", "6162", "62"]),
    ('p', &["5a", "61"]),
    ('p', &["7a", "c3a4"]),
    ('p', &["61", "6100"]),
    ('p', &["7f", "80"]),
    // the times are ffffffff, 1_00000000, the same with a greater node, 1_0000_00000000 and 1000_0000_00000000 hundreds
    // of nanoseconds
    (
        't',
        &[
            "ffffffff00001000800000000000000f",
            "0000000000011000800000000000000a",
            "0000000000011000800000000000000b",
            "00000000000010018000000000000002",
            "0000000000001fff8000000000000001",
        ],
    ),
    // bytes that are no uuid have no time
    ('t', &["ff01", "ff02"]),
];

/// The cells of a row, tests, and whether they hold.
const CONDITIONS: [(&str, &str, bool); 17] = [
    // a row that is not there has only nulls
    ("no row", "absent", true),
    ("no row", "present", false),
    ("no row", "3p=null", true),
    ("no row", "3p≠null", false),
    ("no row", "3p=76", false),
    ("no row", "3p≠76", true),
    ("no row", "3p<76", false),
    // a row without the value is there
    ("2=7365636f6e64", "absent", false),
    ("2=7365636f6e64", "present", true),
    // all tests have to hold: "second", "third" and null
    (
        "2=7365636f6e64 3=7468697264",
        "2p=7365636f6e64 3p=7468697264 4p=null",
        true,
    ),
    (
        "2=7365636f6e64 3=7468697264",
        "2p=7468697264 3p=7468697264 4p=null",
        false,
    ),
    (
        "2=7365636f6e64 3=7468697264",
        "2p=7365636f6e64 3p=7365636f6e64 4p=null",
        false,
    ),
    ("no row", "2p=7365636f6e64 3p=7468697264 4p=null", false),
    ("2=7365636f6e64 3=7468697264", "", true),
    ("no row", "", true),
    // a read lets nothing be written
    ("2=7365636f6e64", "read", false),
    ("no row", "read", false),
];

#[test]
fn conditions_hold(rt: HostRuntime) -> Result<(), Fail> {
    let alloc = rt.alloc();
    for (value, other, expected) in &NULLS {
        assert!(rt;
            compare_so(alloc, value, other, *expected)?,
            "{value} {other}"
        );
    }
    for (order, values) in &RISING {
        assert!(rt; all_rise(alloc, *order, values)?, "{values:?}");
    }
    for (cells, tests, expected) in &CONDITIONS {
        assert!(rt;
            is_held(alloc, cells, tests)? == *expected,
            "{cells} {tests}"
        );
    }
    Ok(())
}
