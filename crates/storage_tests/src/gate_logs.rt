//! Files of a log worked out by hand, appends that are stopped, and logs that are cleared or full.

ghost use Rattle.std.specs.Prelude.{◌<◌, ◌≤◌, ◌^◌, length, IfOk};
ghost use Rattle.cs_store.specs.Disk.{IsSettled};
ghost use Rattle.cs_store.specs.Mem.{disk_of};
ghost use Rattle.gate_log.specs.Place.{IsAtRest};

use crate::commit_logs::put;
use cs_store::{FileNo, MemStore, Outcome, Store};
use gate_log::{Entries, GateError, GateLog, Reading};
use std::alloc::Global;
use std::test::Fail;

// An entry of one byte, a closed gate, and bytes behind it.
const LOG: [u8; 10] = [0xc5, 0, 0, 0, 1, 9, 7, 1, 2, 3];

// Where the one entry of the log ends, and which field breaks the format.
type Found = (Option<usize>, Option<u64>);

fn found_in(alloc: Global, store: &mut MemStore, f: FileNo, bytes: &[u8]) -> Result<Found, Fail> {
    put(store, f, bytes)?;
    let reading = Reading::of(alloc, store, f)?;
    let entries = &reading.entries;
    match entries.len() {
        0 => Ok((None, reading.damage)),
        1 => Ok((Some(entries.place(1)), reading.damage)),
        _ => Err("more than one entry".into()),
    }
}

// What is found where byte n of the log is changed to this.
fn change_gives(n: usize, byte: u8) -> Found {
    match (n, byte) {
        (0, 0xc5) | (1..=3, 0) => (Some(6), None),
        (0, _) => (None, None),
        (1..=3, _) => (None, Some(1)),
        (4, 0..=4) => (Some(5 + byte as usize), None),
        (4, 5) => (Some(10), Some(10)),
        (4, _) => (None, Some(1)),
        (6, 0xc5) => (Some(6), Some(7)),
        _ => (Some(6), None),
    }
}

#[test]
fn each_prefix_and_each_change_gives_its_entries_or_place(rt: HostRuntime) -> Result<(), Fail> {
    let alloc = rt.alloc();
    let f = FileNo::new(0).ok_or("a file")?;
    let mut store = MemStore::formatted(alloc)?;
    for n in 0..=LOG.len() {
        let want = match n {
            0 => (None, Some(0)),
            1..=5 => (None, Some(1)),
            6 => (Some(6), Some(6)),
            _ => (Some(6), None),
        };
        assert_eq!(rt; found_in(alloc, &mut store, f, &LOG[..n])?, want, "{n}");
    }
    for n in 0..LOG.len() {
        for byte in 0..=255u8 {
            let mut bytes = LOG;
            bytes[n] = byte;
            assert_eq!(rt;
                found_in(alloc, &mut store, f, &bytes)?,
                change_gives(n, byte),
                "{n} {byte}"
            );
        }
    }
    Ok(())
}

#[test]
fn a_damaged_file_is_left_as_it_is(rt: HostRuntime) -> Result<(), Fail> {
    let alloc = rt.alloc();
    let f = FileNo::new(0).ok_or("a file")?;
    let bytes = [0xc5, 0, 0, 0, 1, 9, 0xc5, 0, 0, 0, 2, 8];
    let mut store = MemStore::formatted(alloc)?;
    put(&mut store, f, &bytes)?;
    let answer = GateLog::load(alloc, &mut store, f);
    assert!(rt; matches!(answer, Err(GateError::Damaged(7))));
    assert_eq!(rt; store.len(f)?, 12);
    Ok(())
}

#[test]
fn a_file_is_cut_behind_its_gate(rt: HostRuntime) -> Result<(), Fail> {
    let alloc = rt.alloc();
    let f = FileNo::new(0).ok_or("a file")?;
    let mut store = MemStore::formatted(alloc)?;
    put(&mut store, f, &LOG)?;
    let (log, entries) = GateLog::load(alloc, &mut store, f)?;
    assert_eq!(rt; entries.len(), 1);
    assert_eq!(rt; entries.entry(0), [9].as_slice());
    assert_eq!(rt; entries.place(1), 6);
    assert_eq!(rt; log.len(), 7);
    assert_eq!(rt; store.len(f)?, 7);
    Ok(())
}

// The entries that a crash leaves.
fn left(alloc: Global, store: &mut MemStore, f: FileNo) -> Result<(GateLog, Entries), Fail>
    ensures settled { IfOk result (λ r. IsSettled r.0.file (disk_of store.new)) }
    ensures at_rest { IfOk result (λ r. IsAtRest r.0.gate ((disk_of store.new).seen r.0.file)) }
{
    store.crash(Outcome::Lost);
    Ok(GateLog::load(alloc, store, f)?)
}

// Appends an entry to what a crash leaves, and tells whether it was acknowledged. The call of this number stops the
// node: an append makes four.
fn append(
    alloc: Global,
    store: &mut MemStore,
    f: FileNo,
    bytes: &[u8],
    call: u32,
    outcome: Outcome,
) -> Result<bool, Fail>
    requires short { length bytes.now < 2 ^ 32 }
    requires call { 1 ≤ call }
{
    let (mut log, _) = left(alloc, store, f)?;
    log.reserve(store, bytes.len() as u32)?;
    store.stop_at(call, outcome);
    Ok(log.append(store, bytes).is_ok())
}

// Empties the log.
fn clear(alloc: Global, store: &mut MemStore, f: FileNo) -> Result<(), Fail> {
    let (mut log, _) = left(alloc, store, f)?;
    log.reserve(store, 0)?;
    Ok(log.clear(store)?)
}

// How many entries are there after an append whose n-th call stopped the node with this outcome.
fn after_stop(alloc: Global, call: u32, outcome: Outcome) -> Result<usize, Fail>
    requires { 1 ≤ call }
{
    let f = FileNo::new(0).ok_or("a file")?;
    let mut store = MemStore::formatted(alloc)?;
    if append(alloc, &mut store, f, b"one", call, outcome)? {
        return Err("the call did not stop".into());
    }
    let (_, entries) = left(alloc, &mut store, f)?;
    Ok(entries.len())
}

#[test]
fn a_stopped_append_is_there_whole_or_not(rt: HostRuntime) -> Result<(), Fail> {
    let table = [
        (1, Outcome::Kept, 0),
        (1, Outcome::Lost, 0),
        (1, Outcome::Torn, 0),
        (2, Outcome::Kept, 0),
        (2, Outcome::Lost, 0),
        (2, Outcome::Torn, 0),
        (3, Outcome::Kept, 1),
        (3, Outcome::Lost, 0),
        (3, Outcome::Torn, 0),
        (4, Outcome::Kept, 1),
        (4, Outcome::Lost, 0),
        (4, Outcome::Torn, 0),
    ];
    for (call, outcome, count) in table {
        assert!(rt; call >= 1);
        assert_eq!(rt;
            after_stop(rt.alloc(), call, outcome)?,
            count,
            "at {call} {outcome:?}"
        );
    }
    Ok(())
}

// Whether a crash leaves these entries.
fn holds(alloc: Global, store: &mut MemStore, f: FileNo, wanted: &[&[u8]]) -> Result<bool, Fail> {
    let (_, entries) = left(alloc, store, f)?;
    let mut number = 0;
    for entry in wanted {
        if number >= entries.len() || entries.entry(number) != *entry {
            return Ok(false);
        }
        number += 1;
    }
    Ok(entries.len() == number)
}

fn holds_large_entries(alloc: Global, store: &mut MemStore, f: FileNo) -> Result<bool, Fail> {
    let large = vec![in alloc; 0x5a; 1_500_000]?;
    let first = append(alloc, store, f, &large, 5, Outcome::Torn)?;
    let second = append(alloc, store, f, b"ab", 5, Outcome::Torn)?;
    Ok(first && second && holds(alloc, store, f, &[large.as_slice(), b"ab"])?)
}

#[test]
fn entries_of_megabytes_are_kept_and_cleared(rt: HostRuntime) -> Result<(), Fail> {
    let alloc = rt.alloc();
    let f = FileNo::new(1).ok_or("a file")?;
    let mut store = MemStore::formatted(alloc)?;
    assert!(rt; holds_large_entries(alloc, &mut store, f)?);
    clear(alloc, &mut store, f)?;
    assert!(rt; append(alloc, &mut store, f, b"c", 5, Outcome::Torn)?);
    assert!(rt; holds(alloc, &mut store, f, &[b"c"])?);
    Ok(())
}

#[test]
fn a_file_past_64_mib_is_full(rt: HostRuntime) -> Result<(), Fail> {
    let alloc = rt.alloc();
    let f = FileNo::new(1).ok_or("a file")?;
    let mut store = MemStore::formatted(alloc)?;
    let (mut log, _) = left(alloc, &mut store, f)?;
    assert_eq!(rt; log.reserve(&mut store, 67_108_859), Err(GateError::Full));
    assert_eq!(rt; log.reserve(&mut store, 1_000), Ok(()));
    Ok(())
}
