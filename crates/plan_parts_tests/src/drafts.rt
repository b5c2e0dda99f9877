//! Changes of one place, and sizes.

use crate::given::{Given, bytes, list, value};
use changes::{Bound, Draft, DraftMutation, Partition, Place};
use mutation_drafts::{is_long, kept};
use std::alloc::{AllocError, Global};
use std::test::Fail;

/// An end of a range such as `61-`, before the rows that begin with these bytes, or `61+`, behind them.
fn bound(alloc: Global, word: &str) -> Result<Bound, AllocError> {
    Ok(Bound {
        at: bytes(alloc, word.trim_end_matches(['-', '+']))?,
        after: word.ends_with('+'),
    })
}

fn range(alloc: Global, word: &str) -> Result<Place, AllocError> {
    let Some((from, upto)) = word.split_once("..") else {
        return Err(AllocError);
    };
    Ok(Place::RangeGone(bound(alloc, from)?, bound(alloc, upto)?))
}

fn cell(alloc: Global, word: &str) -> Result<Place, AllocError> {
    let Some((row, column)) = word.split_once('.') else {
        return Err(AllocError);
    };
    let column = column.parse::<u8>().unwrap_or(0);
    Ok(Place::Cell(bytes(alloc, row)?, column))
}

/// A cell such as `c61.0`, a marker `m61`, a deleted row `r61`, a deleted range `g61-..62+`, or the deleted partition `p`.
fn place(alloc: Global, word: &str) -> Result<Place, AllocError> {
    let mut letters = word.chars();
    let kind = letters.next();
    let at = letters.as_str();
    match kind {
        Some('c') => cell(alloc, at),
        Some('m') => Ok(Place::Marker(bytes(alloc, at)?)),
        Some('r') => Ok(Place::RowGone(bytes(alloc, at)?)),
        Some('g') => range(alloc, at),
        _ => Ok(Place::PartGone),
    }
}

/// A place, the value behind `=`, if it has one, and behind `@` the timestamp, if it has one of its own.
impl Given for Draft {
    fn given(alloc: Global, word: &str) -> Result<Draft, AllocError> {
        let (word, timestamp) = word.split_once('@').unwrap_or((word, ""));
        let (at, set) = word.split_once('=').unwrap_or((word, "null"));
        Ok(Draft {
            place: place(alloc, at)?,
            value: value(alloc, set)?,
            timestamp: timestamp.parse::<i64>().ok(),
        })
    }
}

/// Whether the second drafts are kept of the first.
fn are_kept(alloc: Global, given: &str, expected: &str) -> Result<bool, AllocError> {
    let kept = kept(list(alloc, given)?);
    Ok(kept.as_slice() == list::<Draft>(alloc, expected)?.as_slice())
}

/// Whether a mutation of these changes is too long. It takes 19 bytes more: 2 for the table, 8 for the token, 5 for the key
/// "k" and 4 for the number of changes.
fn is_too_long(alloc: Global, changes: &str) -> Result<bool, AllocError> {
    let mutation = DraftMutation {
        partition: Partition {
            table: 3,
            token: -7,
            key: bytes(alloc, "6b")?,
        },
        changes: list(alloc, changes)?,
    };
    Ok(is_long(&mutation))
}

/// Places in their order.
const PLACES: &str =
    "p g-..7a+ g61-..6162+ g61-..61+ g6162-..61+ g61+..62- r61 m61 c61.0 c61.200 c6162.3 r62";

/// Drafts, and those of them that are kept.
const KEPT: [(&str, &str); 23] = [
    ("", ""),
    // one of two
    ("c72.1=62 c72.1=61", "c72.1=62"),
    ("c72.1=61 c72.1=62", "c72.1=62"),
    ("c72.1=6162 c72.1=61", "c72.1=6162"),
    ("c72.1=61 c72.1=6162", "c72.1=6162"),
    ("c72.1=61@3 c72.1=@3", "c72.1=61@3"),
    ("c72.1=@3 c72.1=61@3", "c72.1=61@3"),
    ("c72.1 c72.1=7a", "c72.1"),
    ("c72.1=7a c72.1", "c72.1"),
    ("c72.1@1 c72.1=7a@1", "c72.1@1"),
    ("c72.1=7a@1 c72.1@1", "c72.1@1"),
    ("c72.1=61@2 c72.1=62@1", "c72.1=61@2"),
    ("c72.1=62@1 c72.1=61@2", "c72.1=61@2"),
    ("c72.1=61@-1 c72.1@-2", "c72.1=61@-1"),
    ("c72.1@-2 c72.1=61@-1", "c72.1=61@-1"),
    ("c72.1@4 c72.1@4", "c72.1@4"),
    ("c72.1@4 c72.1@4", "c72.1@4"),
    // one of each clock
    ("c72.1=61@-9 c72.1", "c72.1=61@-9 c72.1"),
    ("c72.1 c72.1=61@-9", "c72.1=61@-9 c72.1"),
    // in the order of places, and of one place one
    (PLACES, PLACES),
    (
        "r62 c6162.3 c61.200 c61.0 m61 r61 g61+..62- g6162-..61+ g61-..61+ g61-..6162+ g-..7a+ p",
        PLACES,
    ),
    (
        "g61+..62- r62 p c6162.3 g6162-..61+ c61.0 g61-..61+ c61.200 g-..7a+ m61 g61-..6162+ r61 p",
        PLACES,
    ),
    (
        "g61-..61+ c6162.3 c61.200 g-..7a+ r62 m61 p g61+..62- c61.0 g61-..6162+ r61 g6162-..61+ g6162-..61+ p",
        PLACES,
    ),
];

/// Changes, and whether they are too long together.
///
/// The cell in column 1 of the row "r" takes 37 bytes beside its value: 1 for the kind, 5 for the row, 1 for the column, 5
/// before the value, and 25 for the times and the request. So a cell alone may have 4,194,304 - 19 - 37 bytes. Another change
/// leaves so many less: 26 and those of its place, which are 6, 5, 5, (1 + 5) + (1 + 6) and none, and 1 for a cell's missing
/// value. A marker's empty value has no bytes as it is stored.
const SIZES: [(&str, bool); 18] = [
    ("", false),
    ("c72.1=#4194248", false),
    ("c72.1=#4194249", true),
    // of one place the longer counts
    ("c72.1=#4194248@1 c72.1=#9", false),
    ("c72.1=#9@1 c72.1=#4194248", false),
    ("c72.1=#4194248@1 c72.1=#4194248", false),
    ("c72.1=#4194249@1 c72.1=#9", true),
    ("c72.1=#9@1 c72.1=#4194249", true),
    // beside each kind of change
    ("c72.7@1 c72.1=#4194215", false),
    ("c72.7@1 c72.1=#4194216", true),
    ("m72=@1 c72.1=#4194217", false),
    ("m72=@1 c72.1=#4194218", true),
    ("r72@1 c72.1=#4194217", false),
    ("r72@1 c72.1=#4194218", true),
    ("g61-..6263+@1 c72.1=#4194209", false),
    ("g61-..6263+@1 c72.1=#4194210", true),
    ("p@1 c72.1=#4194222", false),
    ("p@1 c72.1=#4194223", true),
];

#[test]
fn one_of_each_place_is_kept_and_counts(rt: HostRuntime) -> Result<(), Fail> {
    let alloc = rt.alloc();
    for (given, expected) in &KEPT {
        assert!(rt; are_kept(alloc, given, expected)?, "{given}");
    }
    for (changes, expected) in &SIZES {
        assert!(rt; is_too_long(alloc, changes)? == *expected, "{changes}");
    }
    Ok(())
}
