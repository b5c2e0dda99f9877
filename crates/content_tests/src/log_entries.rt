//! Words and refusals worked out by hand from the format, and what is near to a word.

use row_change::{
    CodecError, Held, LogItem, decode_changes, decode_entry, decode_mutation, encode_changes,
    encode_entry, encode_mutation,
};
use std::alloc::{AllocError, Global};
use std::test::Fail;

/// A change or an item in pieces.
type Pieces = &'static [&'static [u8]];

/// What stands behind place and value: timestamp -2, submitted at 5, by node 6's request of time 9.
const STAMP: &[u8] = b"\xff\xff\xff\xff\xff\xff\xff\xfe\0\0\0\0\0\0\0\x05\x06\0\0\0\0\0\0\0\x09";

/// A change of each kind: its tag, place and value, and the stamp.
const PART_GONE: Pieces = &[b"\x05", STAMP];

const ROWS_GONE: Pieces = &[b"\x04\0\0\0\0\0\x01\0\0\0\x01b", STAMP];

const ONE_ROW_GONE: Pieces = &[b"\x04\0\0\0\0\x01a\x01\0\0\0\x02a\0", STAMP];

const ROW_GONE: Pieces = &[b"\x03\0\0\0\x01r", STAMP];

const MARKER: Pieces = &[b"\x02\0\0\0\x01r", STAMP];

const CELL: Pieces = &[b"\x01\0\0\0\x01r\0\x01\0\0\0\x02vw", STAMP];

const CELL_GONE: Pieces = &[b"\x01\0\0\0\x01r\xff\0", STAMP];

const EMPTY_CELL: Pieces = &[b"\x01\0\0\0\x02r\0\0\x01\0\0\0\0", STAMP];

/// They are in the order of places.
const CHANGES: [Pieces; 8] = [
    PART_GONE,
    ROWS_GONE,
    ONE_ROW_GONE,
    ROW_GONE,
    MARKER,
    CELL,
    CELL_GONE,
    EMPTY_CELL,
];

/// Table 3, token -7, key k.
const PARTITION: &[u8] = b"\0\x03\xff\xff\xff\xff\xff\xff\xff\xf9\0\0\0\x01k";

/// Promise 16, then a ballot of each proposer.
const BALLOTS: &[u8] =
    b"\0\0\0\0\0\0\0\x10\0\0\0\0\0\0\0\x08\0\0\0\0\0\0\0\x09\0\0\0\0\0\0\0\0\0\0\0\0\0\0\0\x0b\0\0\0\0\0\0\0\0\0\0\0\0\0\0\0\0\0\0\0\0\0\0\x01\x06";

/// Ballot 9 with an update without changes, of node 1's request of time 4, upon ballot 3.
const STAMPED: &[u8] = b"\x01\0\0\0\0\0\0\0\x09\x01\0\0\0\0\0\0\0\x04\0\0\0\0\0\0\0\x03\0\0\0\0";

/// An item of each kind.
const DATA: Pieces = &[b"\x01\0\0\0\0\0\0\0\x07", PARTITION, b"\0\0\0\0"];

const PAXOS: Pieces = &[b"\x02", PARTITION, BALLOTS, STAMPED, b"\0"];

const HINT_ADD: Pieces = &[
    b"\x03\x02\0\0\0\0\0\0\0\x03\0\0\0\0\0\0\0\x04",
    PARTITION,
    b"\0\0\0\0",
];

const HINT_GONE: Pieces = &[b"\x04\x06\0\0\0\0\0\0\x01\0"];

const CEILING: Pieces = &[b"\x05\0\0\0\0\0\0\0\x09"];

const MARK: Pieces = &[
    b"\x06\xff\xff\xff\xff\xff\xff\xff\xff\0\0\0\0\0\0\0\x01\0\0\0\0\0\0\0\x02\0\0\0\0\0\0\0\x03",
];

const PURGE: Pieces = &[b"\x07", PARTITION, b"\x03\0\0\0\x01r", STAMP];

const ITEMS: [Pieces; 7] = [DATA, PAXOS, HINT_ADD, HINT_GONE, CEILING, MARK, PURGE];

/// Others: two of the first kind, changes in two of them, and a commit in place of an accepted update.
const OTHERS: [Pieces; 8] = [
    &[
        b"\x01\0\0\0\0\0\0\0\x07",
        PARTITION,
        b"\0\0\0\x02\x05",
        STAMP,
        b"\x03\0\0\0\x01r",
        STAMP,
    ],
    DATA,
    &[b"\x02", PARTITION, BALLOTS, b"\0", STAMPED],
    &[
        b"\x03\x02\0\0\0\0\0\0\0\x03\0\0\0\0\0\0\0\x04",
        PARTITION,
        b"\0\0\0\x01\x01\0\0\0\x01r\0\x01\0\0\0\x02vw",
        STAMP,
    ],
    &[b"\x04\0\0\0\0\0\0\0\x01\0"],
    CEILING,
    MARK,
    &[b"\x07", PARTITION, b"\x04\0\0\0\0\0\x01\0\0\0\x01b", STAMP],
];

/// What bytes are the word of, or are asked to be.
enum Kind {
    Changes,
    Mutation,
    Entry,
    /// An entry of which everything near is asked.
    Near,
}

/// Changes or items, and bytes behind them.
const WORDS: [(Kind, &[Pieces], &[u8]); 22] = [
    (Kind::Changes, &[PART_GONE], b""),
    (Kind::Changes, &[ROWS_GONE], b""),
    (Kind::Changes, &[ONE_ROW_GONE], b""),
    (Kind::Changes, &[ROW_GONE], b""),
    (Kind::Changes, &[MARKER], b""),
    (Kind::Changes, &[CELL], b""),
    (Kind::Changes, &[CELL_GONE], b""),
    (Kind::Changes, &[EMPTY_CELL], b""),
    (Kind::Changes, &CHANGES, b""),
    (Kind::Mutation, &CHANGES, b""),
    (Kind::Mutation, &CHANGES, b"\0"),
    (Kind::Entry, &[DATA], b""),
    (Kind::Entry, &[PAXOS], b""),
    (Kind::Entry, &[HINT_ADD], b""),
    (Kind::Entry, &[HINT_GONE], b""),
    (Kind::Entry, &[CEILING], b""),
    (Kind::Entry, &[MARK], b""),
    (Kind::Entry, &[PURGE], b""),
    (Kind::Entry, &ITEMS, b""),
    (Kind::Entry, &OTHERS, b""),
    (Kind::Near, &ITEMS, b""),
    (Kind::Near, &OTHERS, b""),
];

/// What they are.
const MEANINGS: [&str; 22] = [
    "PartGone None",
    "RangeGone(Bound { at: [], after: false }, Bound { at: [98], after: true }) None",
    "RangeGone(Bound { at: [97], after: false }, Bound { at: [97, 0], after: true }) None",
    "RowGone([114]) None",
    "Marker([114]) Some([])",
    "Cell([114], 0) Some([118, 119])",
    "Cell([114], 255) None",
    "Cell([114, 0], 0) Some([])",
    "8 changes",
    "Partition { token: -7, table: 3, key: [107] } 8 changes",
    "Trailing(293)",
    "Data(Micros { micros: 7 }, Mutation { partition: Partition { token: -7, table: 3, key: [107] }, changes: Items { items: [] } })",
    "Paxos(Partition { token: -7, table: 3, key: [107] }, PaxosRow { promised: Ballot { number: 16 }, took: [Ballot { number: 8 }, Ballot { number: 9 }, Ballot { number: 0 }, Ballot { number: 11 }, Ballot { number: 0 }, Ballot { number: 0 }, Ballot { number: 262 }], accepted: Some(Stamped { ballot: Ballot { number: 9 }, update: Update { request: ReqId { node: NodeId { number: 1 }, time: Micros { micros: 4 } }, base: Ballot { number: 3 }, changes: Items { items: [] } } }), commit: None })",
    "HintAdd(Hint { peer: NodeId { number: 2 }, number: 3, born: Micros { micros: 4 }, mutation: Mutation { partition: Partition { token: -7, table: 3, key: [107] }, changes: Items { items: [] } } })",
    "HintGone(NodeId { number: 6 }, 256)",
    "Ceiling(Micros { micros: 9 })",
    "Mark(Mark { range: Range { after: -1, upto: 1 }, snapshot: Micros { micros: 2 }, sent: Micros { micros: 3 } })",
    "Purge(Change { partition: Partition { token: -7, table: 3, key: [107] }, held: Held { place: RowGone([114]), value: None, timestamp: -2, submitted: Micros { micros: 5 }, request: ReqId { node: NodeId { number: 6 }, time: Micros { micros: 9 } } } })",
    "7 items",
    "8 items",
    "sound",
    "sound",
];

/// Bytes that are no changes or no entry, and the field that breaks them.
const REFUSED: [(Kind, &[u8], &str); 27] = [
    (Kind::Changes, b"", "Short(0)"),
    (Kind::Changes, b"\0\0\0", "Short(0)"),
    (Kind::Changes, b"\0\0\0\0\0", "Trailing(4)"),
    (Kind::Changes, b"\0\0\0\x01", "Short(4)"),
    (Kind::Changes, b"\0\0\0\x01\0", "Tag(4)"),
    (Kind::Changes, b"\0\0\0\x01\x06", "Tag(4)"),
    (Kind::Changes, b"\0\0\0\x01\x03\0\0\0", "Short(5)"),
    (Kind::Changes, b"\0\0\0\x01\x03\0\0\0\x02r", "Short(5)"),
    (Kind::Changes, b"\0\0\0\x01\x03\0\0\0\x01r", "Short(10)"),
    (Kind::Changes, b"\0\0\0\x01\x01\0\0\0\x01r\0", "Short(11)"),
    (Kind::Changes, b"\0\0\0\x01\x01\0\0\0\x01r\0\x02", "Tag(11)"),
    (
        Kind::Changes,
        b"\0\0\0\x01\x01\0\0\0\x01r\0\x01\0\0\0\x01",
        "Short(12)",
    ),
    (Kind::Changes, b"\0\0\0\x01\x04\x02", "Tag(5)"),
    (Kind::Changes, b"\0\0\0\x01\x04\x01\0\0\0\0\x02", "Tag(10)"),
    (Kind::Changes, b"\0\0\0\x01\x05\0\0\0\0\0\0\0", "Short(5)"),
    (
        Kind::Changes,
        b"\0\0\0\x01\x05\0\0\0\0\0\0\0\0\0\0\0\0\0\0\0\0\x07",
        "Tag(21)",
    ),
    (
        Kind::Changes,
        b"\0\0\0\x01\x05\0\0\0\0\0\0\0\0\0\0\0\0\0\0\0\0\x06",
        "Short(22)",
    ),
    (Kind::Changes, b"\xff\xff\xff\xff\x05", "Short(5)"),
    (Kind::Entry, b"\0\0\0\x01", "Short(4)"),
    (Kind::Entry, b"\0\0\0\x01\0", "Tag(4)"),
    (Kind::Entry, b"\0\0\0\x01\x08", "Tag(4)"),
    (Kind::Entry, b"\0\0\0\x01\x04\x07", "Tag(5)"),
    (Kind::Entry, b"\0\0\0\x01\x04\x06\0\0", "Short(6)"),
    (
        Kind::Entry,
        b"\0\0\0\x02\x05\0\0\0\0\0\0\0\x09\x04",
        "Order(13)",
    ),
    (
        Kind::Entry,
        b"\0\0\0\x02\x05\0\0\0\0\0\0\0\x09\0",
        "Tag(13)",
    ),
    (
        Kind::Entry,
        b"\0\0\0\x02\x05\0\0\0\0\0\0\0\x09\x05",
        "Short(14)",
    ),
    (
        Kind::Entry,
        b"\0\0\0\x01\x05\0\0\0\0\0\0\0\x09\x05",
        "Trailing(13)",
    ),
];

fn append(bytes: &mut Vec<u8>, pieces: &[&[u8]]) -> Result<(), AllocError> {
    for piece in pieces {
        bytes.extend_from_slice(piece)?;
    }
    Ok(())
}

/// The partition of a mutation, a count of so many, these changes or items, and what stands behind them.
fn word(alloc: Global, kind: &Kind, items: &[Pieces], end: &[u8]) -> Result<Vec<u8>, AllocError> {
    let mut bytes = Vec::new(alloc);
    if matches!(kind, Kind::Mutation) {
        bytes.extend_from_slice(PARTITION)?;
    }
    bytes.extend_from_slice(&[0, 0, 0, (items.len() % 256) as u8])?;
    for item in items {
        append(&mut bytes, item)?;
    }
    bytes.extend_from_slice(end)?;
    Ok(bytes)
}

/// The place and value of a change alone, or the number of changes.
fn changes_told(alloc: Global, changes: &[Held]) -> Result<String, AllocError> {
    match changes {
        [change] => format!(in alloc; "{:?} {:?}", change.place, change.value),
        several => format!(in alloc; "{} changes", several.len()),
    }
}

/// An item alone, or the number of items.
fn items_told(alloc: Global, items: &[LogItem]) -> Result<String, AllocError> {
    match items {
        [item] => format!(in alloc; "{item:?}"),
        several => format!(in alloc; "{} items", several.len()),
    }
}

/// Why bytes are no word, or that they are another one than is written for what they are read as.
fn refusal(alloc: Global, error: Option<CodecError>) -> Result<String, AllocError> {
    match error {
        Some(error) => format!(in alloc; "{error:?}"),
        None => String::from_str(alloc, "another word"),
    }
}

fn told_changes(alloc: Global, bytes: &[u8]) -> Result<String, AllocError> {
    match decode_changes(alloc, bytes) {
        Ok(changes) => if encode_changes(alloc, &changes)?.as_slice() == bytes {
            changes_told(alloc, changes.as_slice())
        } else {
            refusal(alloc, None)
        },
        Err(error) => refusal(alloc, Some(error)),
    }
}

fn told_mutation(alloc: Global, bytes: &[u8]) -> Result<String, AllocError> {
    match decode_mutation(alloc, bytes) {
        Ok(mutation) => if encode_mutation(alloc, &mutation)?.as_slice() == bytes {
            let count = mutation.changes.as_slice().len();
            format!(in alloc; "{:?} {count} changes", mutation.partition)
        } else {
            refusal(alloc, None)
        },
        Err(error) => refusal(alloc, Some(error)),
    }
}

fn told_entry(alloc: Global, bytes: &[u8]) -> Result<String, AllocError> {
    match decode_entry(alloc, bytes) {
        Ok(entry) => if encode_entry(alloc, &entry)?.as_slice() == bytes {
            items_told(alloc, entry.items.as_slice())
        } else {
            refusal(alloc, None)
        },
        Err(error) => refusal(alloc, Some(error)),
    }
}

/// Whether the bytes are refused, or are an entry's word and written again as they are.
fn is_sound(alloc: Global, bytes: &[u8]) -> Result<bool, AllocError> {
    match decode_entry(alloc, bytes) {
        Ok(entry) => Ok(encode_entry(alloc, &entry)?.as_slice() == bytes),
        Err(CodecError::NoMemory) => Err(AllocError),
        Err(_) => Ok(true),
    }
}

/// Whether each front is refused as too short.
fn fronts_are_short(alloc: Global, bytes: &[u8]) -> bool {
    for end in 0..bytes.len() {
        match decode_entry(alloc, &bytes[..end]) {
            Err(CodecError::Short(_)) => {}
            _ => return false,
        }
    }
    true
}

/// What bytes are changed by: each change of the low four bits, so that each tag and small count becomes each other one, each
/// of the high bits, and all bits.
const MASKS: [u8; 20] = [
    1, 2, 3, 4, 5, 6, 7, 8, 9, 10, 11, 12, 13, 14, 15, 0x10, 0x20, 0x40, 0x80, 0xff,
];

/// Whether each of these changes of one byte is refused, or gives another word.
fn changed_bytes_are_sound(alloc: Global, bytes: &mut [u8]) -> Result<bool, AllocError> {
    for at in 0..bytes.len() {
        let kept = bytes[at];
        for mask in MASKS {
            bytes[at] = kept ^ mask;
            if !is_sound(alloc, bytes)? {
                return Ok(false);
            }
        }
        bytes[at] = kept;
    }
    Ok(true)
}

fn told_near(alloc: Global, bytes: &[u8]) -> Result<String, AllocError> {
    let mut changed = Vec::from_slice(alloc, bytes)?;
    let is_sound = fronts_are_short(alloc, bytes)
        && changed_bytes_are_sound(alloc, changed.as_mut_slice())?;
    String::from_str(alloc, if is_sound { "sound" } else { "unsound" })
}

/// What the bytes are the word of, or why they are none.
fn told(alloc: Global, kind: &Kind, bytes: &[u8]) -> Result<String, AllocError> {
    match kind {
        Kind::Changes => told_changes(alloc, bytes),
        Kind::Mutation => told_mutation(alloc, bytes),
        Kind::Entry => told_entry(alloc, bytes),
        Kind::Near => told_near(alloc, bytes),
    }
}

#[test]
fn words_are_of_these_and_others_are_refused(rt: HostRuntime) -> Result<(), Fail> {
    for ((kind, items, end), meaning) in WORDS.iter().zip(MEANINGS) {
        let bytes = word(rt.alloc(), kind, items, end)?;
        assert_eq!(rt; told(rt.alloc(), kind, &bytes)?.as_str(), meaning);
    }
    for (kind, bytes, error) in &REFUSED {
        assert_eq!(rt; told(rt.alloc(), kind, bytes)?.as_str(), *error);
    }
    Ok(())
}

/// Whether the bytes are refused since the change whose tag stands here is out of order.
fn is_out_of_order(alloc: Global, bytes: &[u8], at: usize) -> bool {
    match decode_changes(alloc, bytes) {
        Err(CodecError::Order(place)) => place == at,
        _ => false,
    }
}

/// Whether a change is refused behind another one, as soon as its place and value are there.
fn is_refused_behind(alloc: Global, before: Pieces, change: Pieces) -> Result<bool, AllocError> {
    let at = word(alloc, &Kind::Changes, &[before], b"")?.len();
    let mut bytes = word(alloc, &Kind::Changes, &[before, change], b"")?;
    let is_refused = is_out_of_order(alloc, &bytes, at);
    bytes.truncate(bytes.len().saturating_sub(STAMP.len()));
    Ok(is_refused && is_out_of_order(alloc, &bytes, at))
}

#[test]
fn changes_are_in_order(rt: HostRuntime) -> Result<(), Fail> {
    for (i, change) in CHANGES.iter().enumerate() {
        for before in CHANGES.iter().skip(i) {
            assert!(rt; is_refused_behind(rt.alloc(), before, change)?);
        }
    }
    Ok(())
}
