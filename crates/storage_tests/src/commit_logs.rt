//! Files worked out by hand from the format, and appends that are stopped.

ghost use Rattle.std.specs.Prelude.{◌≡◌, ◌≤◌, IfOk, OnOk};
ghost use Rattle.cs_store.specs.Disk.{IsSettled};
ghost use Rattle.cs_store.specs.Mem.{disk_of, IsSameDisk};
ghost use Rattle.gate_log.specs.Place.{IsAtRest};

use commit_log::{CommitLog, LogError, LogReading, ReserveError};
use cs_store::{FileNo, MemStore, Outcome, Store};
use row_change::{LogEntry, decode_entry};
use std::alloc::{AllocError, Global};
use std::test::Fail;

/// An entry of items of all seven kinds: table 3, token -7 and key k; a promise with seven ballots and an accepted update; a
/// peer's hint; a hint that is gone; a ceiling; a mark; a purged row deletion.
const ALL_KINDS: &[u8] = b"\0\0\0\x07\
\x01\0\0\0\0\0\0\0\x07\0\x03\xff\xff\xff\xff\xff\xff\xff\xf9\0\0\0\x01k\0\0\0\0\
\x02\0\x03\xff\xff\xff\xff\xff\xff\xff\xf9\0\0\0\x01k\
\0\0\0\0\0\0\0\x10\0\0\0\0\0\0\0\x08\0\0\0\0\0\0\0\x09\0\0\0\0\0\0\0\0\0\0\0\0\0\0\0\x0b\0\0\0\0\0\0\0\0\0\0\0\0\0\0\0\0\0\0\0\0\0\0\x01\x06\
\x01\0\0\0\0\0\0\0\x09\x01\0\0\0\0\0\0\0\x04\0\0\0\0\0\0\0\x03\0\0\0\0\0\
\x03\x02\0\0\0\0\0\0\0\x03\0\0\0\0\0\0\0\x04\0\x03\xff\xff\xff\xff\xff\xff\xff\xf9\0\0\0\x01k\0\0\0\0\
\x04\x06\0\0\0\0\0\0\x01\0\
\x05\0\0\0\0\0\0\0\x09\
\x06\xff\xff\xff\xff\xff\xff\xff\xff\0\0\0\0\0\0\0\x01\0\0\0\0\0\0\0\x02\0\0\0\0\0\0\0\x03\
\x07\0\x03\xff\xff\xff\xff\xff\xff\xff\xf9\0\0\0\x01k\x03\0\0\0\x01r\xff\xff\xff\xff\xff\xff\xff\xfe\0\0\0\0\0\0\0\x05\x06\0\0\0\0\0\0\0\x09";

/// An entry of a ceiling, and one of a hint that is gone.
const CEILING: &[u8] = b"\0\0\0\x01\x05\0\0\0\0\0\0\0\x09";

const GONE: &[u8] = b"\0\0\0\x01\x04\x06\0\0\0\0\0\0\x01\0";

/// A log of the second entry.
const LOG: [u8; 20] = [
    0xc5, 0, 0, 0, 14, 0, 0, 0, 1, 4, 6, 0, 0, 0, 0, 0, 0, 1, 0, 0,
];

/// How many entries there are, or the place where the file breaks the format; nothing where there is another answer.
type Found = Option<Result<usize, u64>>;

/// What is found in the front of the log that has so many bytes.
fn front_gives(n: usize) -> Result<usize, u64> {
    match n {
        0 => Err(0),
        1..=18 => Err(1),
        19 => Err(19),
        _ => Ok(1),
    }
}

/// What is found where the last byte of the length is this: the word is cut off, or it has a byte more and breaks before the
/// gate is missed, or it passes the end.
fn length_gives(byte: u8) -> Result<usize, u64> {
    match byte {
        0..=3 => Err(5),
        4 => Err(9),
        5 => Err(10),
        6..=13 => Err(11),
        14 => Ok(1),
        15 => Err(19),
        _ => Err(1),
    }
}

/// What is found where the kind of the item is this.
fn kind_gives(byte: u8) -> Result<usize, u64> {
    match byte {
        4 => Ok(1),
        1 | 5 | 6 => Err(18),
        2 | 7 => Err(12),
        3 => Err(19),
        _ => Err(9),
    }
}

/// What is found where byte n of the log is changed to this.
fn change_gives(n: usize, byte: u8) -> Result<usize, u64> {
    match n {
        0 => Ok(usize::from(byte == 0xc5)),
        1..=3 if byte != 0 => Err(1),
        4 => length_gives(byte),
        5..=7 if byte != 0 => Err(19),
        8 if byte == 0 => Err(9),
        8 if byte != 1 => Err(19),
        9 => kind_gives(byte),
        10 if byte > 6 => Err(10),
        19 if byte == 0xc5 => Err(20),
        _ => Ok(1),
    }
}

/// Files with damage in an entry or in the log, and where it comes first.
const DAMAGED: [(&[u8], u64); 5] = [
    (b"\xc5\0\0\0\x01\x09\xc5\0\0\0\x02\x08", 5),
    (b"\xc5\0\0\0\x04\0\0\0\0\xc5\0\0\0\x02\x08", 10),
    (
        b"\xc5\0\0\0\x04\0\0\0\0\xc5\0\0\0\0\xc5\0\0\0\x01\x09\0",
        14,
    ),
    (
        b"\xc5\0\0\0\x05\0\0\0\x01\x08\xc5\0\0\0\x05\0\0\0\x01\x09\0",
        9,
    ),
    (b"\xc5\0\0\0\x0e\0\0\0\x02\x05\0\0\0\0\0\0\0\x09\x04\0", 18),
];

/// Makes these bytes the file.
pub(crate) fn put(store: &mut MemStore, f: FileNo, bytes: &[u8]) -> Result<(), Fail>
    ensures { OnOk result (IsSettled f (disk_of store.new)) }
{
    store.reserve(f, bytes.len() as u64)?;
    store.cut(f, 0)?;
    store.write_at(f, 0, bytes)?;
    store.sync(f)?;
    Ok(())
}

/// All the entries that were read, up to the first damage of one.
fn decode_all(alloc: Global, reading: &LogReading) -> Result<Vec<LogEntry>, LogError> {
    let mut entries = Vec::with_capacity(alloc, reading.len())?;
    for i in 0..reading.len() {
        let entry = reading.entry(alloc, i)?;
        entries.push(entry)?;
    }
    Ok(entries)
}

/// Reads a log and cuts its file behind the entries.
fn load(
    alloc: Global,
    store: &mut MemStore,
    f: FileNo,
) -> Result<(CommitLog, Vec<LogEntry>), LogError>
    requires { IsSettled f (disk_of store.old) }
    ensures file { IfOk result (λ r. r.0.place.file ≡ f) }
    ensures settled { OnOk result (IsSettled f (disk_of store.new)) }
    ensures at_rest { IfOk result (λ r. IsAtRest r.0.place.gate ((disk_of store.new).seen f)) }
{
    let reading = CommitLog::read(alloc, store, f)?;
    let entries = decode_all(alloc, &reading)?;
    reading.check_end()?;
    let log = CommitLog::cut(alloc, store, &reading)?;
    Ok((log, entries))
}

fn meaning(answer: &Result<(CommitLog, Vec<LogEntry>), LogError>) -> Found {
    match answer {
        Ok((_, entries)) => Some(Ok(entries.as_slice().len())),
        Err(LogError::Damaged(place)) => Some(Err(*place)),
        Err(_) => None,
    }
}

/// What a load finds in a file of these bytes.
fn found(alloc: Global, store: &mut MemStore, f: FileNo, bytes: &[u8]) -> Result<Found, Fail> {
    put(store, f, bytes)?;
    let answer = load(alloc, store, f);
    Ok(meaning(&answer))
}

/// Whether each change of byte n of the log gives what it is to give.
fn changes_are_found(
    alloc: Global,
    store: &mut MemStore,
    f: FileNo,
    n: usize,
) -> Result<bool, Fail> {
    for byte in 0..=255u8 {
        let mut bytes = LOG;
        if let Some(slot) = bytes.get_mut(n) {
            *slot = byte;
        }
        if found(alloc, store, f, &bytes)? != Some(change_gives(n, byte)) {
            return Ok(false);
        }
    }
    Ok(true)
}

#[test]
fn each_front_gives_its_entries_or_place(rt: HostRuntime) -> Result<(), Fail> {
    let f = FileNo::new(0).ok_or("a file")?;
    let mut store = MemStore::formatted(rt.alloc())?;
    for n in 0..=LOG.len() {
        let answer = found(rt.alloc(), &mut store, f, &LOG[..n])?;
        assert_eq!(rt; answer, Some(front_gives(n)), "{n}");
    }
    Ok(())
}

#[test]
fn each_change_gives_its_entries_or_place(rt: HostRuntime) -> Result<(), Fail> {
    let f = FileNo::new(0).ok_or("a file")?;
    let mut store = MemStore::formatted(rt.alloc())?;
    for n in 0..LOG.len() {
        let right = changes_are_found(rt.alloc(), &mut store, f, n)?;
        assert!(rt; right, "{n}");
    }
    Ok(())
}

#[test]
fn damage_is_told_where_it_comes_first(rt: HostRuntime) -> Result<(), Fail> {
    let f = FileNo::new(0).ok_or("a file")?;
    let mut store = MemStore::formatted(rt.alloc())?;
    for (bytes, place) in DAMAGED {
        let answer = found(rt.alloc(), &mut store, f, bytes)?;
        assert_eq!(rt; answer, Some(Err(place)));
    }
    Ok(())
}

/// What a crash leaves.
fn left(
    alloc: Global,
    store: &mut MemStore,
    f: FileNo,
    outcome: Outcome,
) -> Result<(CommitLog, Vec<LogEntry>), Fail>
    ensures settled { IfOk result (λ r. IsSettled r.0.place.file (disk_of store.new)) }
    ensures at_rest { IfOk result (λ r. IsAtRest r.0.place.gate ((disk_of store.new).seen r.0.place.file)) }
{
    store.crash(outcome);
    Ok(load(alloc, store, f)?)
}

/// What happens at a call of the store.
#[derive(Clone, Copy, Debug)]
enum Event {
    Nothing,
    Fails,
    Stops,
}

/// Lets the event come at the call of this number.
fn let_come(store: &mut MemStore, event: Event, call: u32, outcome: Outcome)
    requires { 1 ≤ call }
    ensures { IsSameDisk store.old store.new }
{
    match event {
        Event::Nothing => {}
        Event::Fails => store.fail_at(call),
        Event::Stops => store.stop_at(call, outcome),
    }
}

/// Appends an entry to what is there, and tells whether it was acknowledged.
fn append(
    alloc: Global,
    store: &mut MemStore,
    f: FileNo,
    word: &[u8],
    event: Event,
    call: u32,
    outcome: Outcome,
) -> Result<bool, Fail>
    requires { 1 ≤ call }
{
    let entry = decode_entry(alloc, word)?;
    let (mut log, _) = left(alloc, store, f, Outcome::Lost)?;
    log.reserve(store, &entry)?;
    let_come(store, event, call, outcome);
    Ok(log.append(store, &entry).is_ok())
}

/// Appends an entry, and nothing happens.
fn append_quietly(
    alloc: Global,
    store: &mut MemStore,
    f: FileNo,
    word: &[u8],
) -> Result<bool, Fail> {
    append(alloc, store, f, word, Event::Nothing, 1, Outcome::Kept)
}

#[test]
fn an_empty_log_is_loaded(rt: HostRuntime) -> Result<(), Fail> {
    let f = FileNo::new(1).ok_or("a file")?;
    let mut store = MemStore::formatted(rt.alloc())?;
    let (log, entries) = left(rt.alloc(), &mut store, f, Outcome::Kept)?;
    assert_eq!(rt; entries.as_slice().len(), 0);
    assert!(rt; log.is_empty());
    assert_eq!(rt; log.len(), 1);
    assert_eq!(rt; log.file(), f);
    Ok(())
}

/// Whether the entry is the one of which this is the word.
fn is_entry(alloc: Global, entry: &LogEntry, word: &[u8]) -> Result<bool, Fail> {
    let want = decode_entry(alloc, word)?;
    let want = format!(in alloc; "{want:?}")?;
    let text = format!(in alloc; "{entry:?}")?;
    Ok(text.as_str() == want.as_str())
}

/// Whether these are the words of the entries.
fn are_entries(alloc: Global, entries: &[LogEntry], words: &[&[u8]]) -> Result<bool, Fail> {
    for (entry, word) in entries.iter().zip(words) {
        if !is_entry(alloc, entry, word)? {
            return Ok(false);
        }
    }
    Ok(entries.len() == words.len())
}

/// Whether a crash leaves the entries with these words.
fn leaves(
    alloc: Global,
    store: &mut MemStore,
    f: FileNo,
    outcome: Outcome,
    words: &[&[u8]],
) -> Result<bool, Fail> {
    let (_, entries) = left(alloc, store, f, outcome)?;
    are_entries(alloc, entries.as_slice(), words)
}

#[test]
fn appended_entries_are_loaded(rt: HostRuntime) -> Result<(), Fail> {
    let alloc = rt.alloc();
    let f = FileNo::new(1).ok_or("a file")?;
    let mut store = MemStore::formatted(alloc)?;
    assert!(rt; append_quietly(alloc, &mut store, f, CEILING)?);
    assert!(rt; append_quietly(alloc, &mut store, f, ALL_KINDS)?);
    assert!(rt; append_quietly(alloc, &mut store, f, GONE)?);
    let words = [CEILING, ALL_KINDS, GONE];
    assert!(rt; leaves(alloc, &mut store, f, Outcome::Torn, &words)?);
    assert_eq!(rt; store.len(f)?, 13 + 279 + 14 + 16);
    Ok(())
}

/// Whether the event in an append leaves the entry before it, and the new one where it is `kept`.
fn event_leaves(
    alloc: Global,
    event: Event,
    call: u32,
    outcome: Outcome,
    kept: bool,
) -> Result<bool, Fail>
    requires { 1 ≤ call }
{
    let f = FileNo::new(0).ok_or("a file")?;
    let mut store = MemStore::formatted(alloc)?;
    append_quietly(alloc, &mut store, f, GONE)?;
    if append(alloc, &mut store, f, CEILING, event, call, outcome)? {
        return Ok(false);
    }
    if kept {
        leaves(alloc, &mut store, f, outcome, &[GONE, CEILING])
    } else {
        leaves(alloc, &mut store, f, outcome, &[GONE])
    }
}

/// Whether each outcome of the event leaves what it is to leave.
fn outcomes_are_right(alloc: Global, event: Event, call: u32, kept: bool) -> Result<bool, Fail>
    requires { 1 ≤ call }
{
    Ok(
        event_leaves(alloc, event, call, Outcome::Kept, kept)?
            && event_leaves(alloc, event, call, Outcome::Lost, false)?
            && event_leaves(alloc, event, call, Outcome::Torn, false)?,
    )
}

#[test]
fn an_append_that_fails_is_there_whole_or_not(rt: HostRuntime) -> Result<(), Fail> {
    let table = [
        (Event::Fails, 1, false),
        (Event::Fails, 2, false),
        (Event::Fails, 3, false),
        (Event::Fails, 4, true),
        (Event::Stops, 1, false),
        (Event::Stops, 2, false),
        (Event::Stops, 3, true),
        (Event::Stops, 4, true),
    ];
    for (event, call, kept) in table {
        assert!(rt; call >= 1);
        let right = outcomes_are_right(rt.alloc(), event, call, kept)?;
        assert!(rt; right, "{event:?} at {call}");
    }
    Ok(())
}

/// An entry of so many bytes, 50 at least: it purges a change of a partition with a long key.
fn long_word(alloc: Global, len: usize) -> Result<Vec<u8>, AllocError> {
    let key = len.saturating_sub(50);
    let mut word = Vec::from_slice(
        alloc,
        b"\0\0\0\x01\x07\0\x03\xff\xff\xff\xff\xff\xff\xff\xf9",
    )?;
    word.extend_from_slice(&((key % (1 << 32)) as u32).to_be_bytes())?;
    word.extend_from_slice(&vec![in alloc; 0x6b; key]?)?;
    word.extend_from_slice(b"\x03\0\0\0\x01r\xff\xff\xff\xff\xff\xff\xff\xfe")?;
    word.extend_from_slice(b"\0\0\0\0\0\0\0\x05\x06\0\0\0\0\0\0\0\x09")?;
    Ok(word)
}

/// Whether an empty log can have an entry of so many bytes.
fn reserving_gives(alloc: Global, len: usize) -> Result<Result<(), ReserveError>, Fail> {
    let f = FileNo::new(0).ok_or("a file")?;
    let mut store = MemStore::formatted(alloc)?;
    let (mut log, _) = left(alloc, &mut store, f, Outcome::Kept)?;
    let entry = decode_entry(alloc, &long_word(alloc, len)?)?;
    Ok(log.reserve(&mut store, &entry))
}

#[test]
fn a_log_past_64_mib_is_full(rt: HostRuntime) -> Result<(), Fail> {
    assert_eq!(rt; reserving_gives(rt.alloc(), 67_108_858)?, Ok(()));
    assert_eq!(rt;
        reserving_gives(rt.alloc(), 67_108_859)?,
        Err(ReserveError::Full)
    );
    Ok(())
}
