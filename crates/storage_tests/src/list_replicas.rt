//! Commits to a list replica whose store fails or stops at each call, and logs that are cut or changed.

ghost use Rattle.std.specs.Prelude.{◌≤◌, IfOk, IsTrue};
ghost use Rattle.cs_store.specs.Mem.{IsAllSettled, IsSameDisk};
ghost use Rattle.row_change.specs.Spelling.{EntryFits};

use cell_merge::Content;
use changes::{Bound, Partition};
use cs_base::{Bytes, Micros};
use cs_store::{FileNo, MemStore, Outcome, Store};
use list_replica::ListReplica;
use replica::{Kept, LoadError, Replica, arrive_at, purges_nothing};
use row_change::{LogEntry, decode_entry};
use std::alloc::Global;
use std::test::Fail;

/// Of table 3, token -7 and key k at time 5: the cell a of column 2 with the value x, at timestamp 1; and a ceiling.
const FIRST: &[u8] = b"\0\0\0\x02\
\x01\0\0\0\0\0\0\0\x05\0\x03\xff\xff\xff\xff\xff\xff\xff\xf9\0\0\0\x01k\0\0\0\x01\
\x01\0\0\0\x01a\x02\x01\0\0\0\x01x\0\0\0\0\0\0\0\x01\0\0\0\0\0\0\0\x04\x01\0\0\0\0\0\0\0\x04\
\x05\0\0\0\0\0\0\0\x05";

/// At time 6 the cell b with y, at timestamp 2; a hint of peer 2 with the number 3; and a ceiling.
const SECOND: &[u8] = b"\0\0\0\x03\
\x01\0\0\0\0\0\0\0\x06\0\x03\xff\xff\xff\xff\xff\xff\xff\xf9\0\0\0\x01k\0\0\0\x01\
\x01\0\0\0\x01b\x02\x01\0\0\0\x01y\0\0\0\0\0\0\0\x02\0\0\0\0\0\0\0\x05\x01\0\0\0\0\0\0\0\x05\
\x03\x02\0\0\0\0\0\0\0\x03\0\0\0\0\0\0\0\x04\0\x03\xff\xff\xff\xff\xff\xff\xff\xf9\0\0\0\x01k\0\0\0\0\
\x05\0\0\0\0\0\0\0\x06";

/// At time 7 the cells a and c with z and w, at timestamp 3, in two mutations; and the hint is gone.
const THIRD: &[u8] = b"\0\0\0\x03\
\x01\0\0\0\0\0\0\0\x07\0\x03\xff\xff\xff\xff\xff\xff\xff\xf9\0\0\0\x01k\0\0\0\x01\
\x01\0\0\0\x01a\x02\x01\0\0\0\x01z\0\0\0\0\0\0\0\x03\0\0\0\0\0\0\0\x06\x01\0\0\0\0\0\0\0\x06\
\x01\0\0\0\0\0\0\0\x07\0\x03\xff\xff\xff\xff\xff\xff\xff\xf9\0\0\0\x01k\0\0\0\x01\
\x01\0\0\0\x01c\x02\x01\0\0\0\x01w\0\0\0\0\0\0\0\x03\0\0\0\0\0\0\0\x06\x01\0\0\0\0\0\0\0\x06\
\x04\x02\0\0\0\0\0\0\0\x03";

/// An entry's word, and the time at which its changes come.
type Step<'a> = (&'a [u8], u64);

const STEPS: [Step; 3] = [(FIRST, 5), (SECOND, 6), (THIRD, 7)];

/// What is kept behind so many of them: the cells with their values, the ceiling, how many hints, and the last number.
const KEPT: [&str; 4] = ["| 0 0 0", "ax | 5 0 0", "ax by | 6 1 3", "az by cw | 6 0 3"];

/// Commits an entry, and tells whether it is acknowledged.
fn commit_one<R: Replica>(
    replica: &mut R,
    alloc: Global,
    entry: &LogEntry,
    at: Micros,
) -> Result<bool, Fail>
    requires whole { R.is_whole replica.old }
    requires fits { EntryFits entry.now }
    ensures { IfOk result (λ acknowledged. IsTrue acknowledged → R.is_whole replica.new) }
{
    if !arrive_at(entry, at) || !purges_nothing(entry) {
        return Err("not an entry of this time".into());
    }
    match replica.room(alloc, entry) {
        Ok(()) => Ok(replica.commit(entry, at).is_ok()),
        Err(_) => Err("no room".into()),
    }
}

/// Commits entries until one is not acknowledged, and tells how many are.
fn commit_each<R: Replica>(replica: &mut R, alloc: Global, steps: &[Step]) -> Result<usize, Fail>
    requires { R.is_whole replica.old }
{
    let mut acknowledged = 0;
    for (word, at) in steps {
        let entry = decode_entry(alloc, word)?;
        if !commit_one(replica, alloc, &entry, Micros::new(*at))? {
            return Ok(acknowledged);
        }
        acknowledged += 1;
    }
    Ok(acknowledged)
}

/// What is kept, as it stands in `KEPT`.
fn shown<R: Replica>(replica: &mut R, alloc: Global, kept: &Kept) -> Result<String, Fail>
    requires { R.is_whole replica.old }
{
    let mut text = String::new(alloc);
    for held in cells(replica, alloc)?.as_slice() {
        let row = held
            .place
            .row()
            .map_or(b"".as_slice(), |row| row.as_slice());
        let value = held
            .value
            .as_ref()
            .map_or(b"".as_slice(), |value| value.as_slice());
        text.push_str(std::str::from_utf8(row)?)?;
        text.push_str(std::str::from_utf8(value)?)?;
        text.push(' ')?;
    }
    let hints = kept.hints.as_slice().len();
    let last = kept
        .numbers
        .as_slice()
        .first()
        .map_or(0, |number| number.last);
    let beside = format!(in alloc; "| {} {hints} {last}", kept.ceiling.count())?;
    text.push_str(beside.as_str())?;
    Ok(text)
}

/// All that is held of the partition.
fn cells<R: Replica>(replica: &mut R, alloc: Global) -> Result<Content, Fail>
    requires { R.is_whole replica.old }
{
    let partition = Partition {
        token: -7,
        table: 3,
        key: Bytes::from_slice(alloc, b"k")?,
    };
    let from = Bound {
        at: Bytes::new(alloc),
        after: false,
    };
    let upto = Bound {
        at: Bytes::new(alloc),
        after: true,
    };
    match replica.content(alloc, &partition, &from, &upto) {
        Ok(content) => Ok(content),
        Err(_) => Err("no content".into()),
    }
}

/// Lets a fault come at the call of this number.
fn let_come(store: &mut MemStore, call: u32, fails: bool, outcome: Outcome)
    requires { 1 ≤ call }
    ensures { IsSameDisk store.old store.new }
{
    if fails {
        store.fail_at(call);
    } else {
        store.stop_at(call, outcome);
    }
}

/// A store at whose call of this number a fault comes.
fn faulty(alloc: Global, call: u32, fails: bool, outcome: Outcome) -> Result<MemStore, Fail>
    requires { 1 ≤ call }
    ensures { IfOk result IsAllSettled }
{
    let mut store = MemStore::formatted(alloc)?;
    let_come(&mut store, call, fails, outcome);
    Ok(store)
}

/// Loads a store and commits the entries to it, until a call fails: how many are acknowledged, and the store.
fn commit_all(alloc: Global, store: MemStore) -> Result<(usize, MemStore), Fail>
    requires { IsAllSettled store }
{
    match ListReplica::load(alloc, store) {
        Ok((mut replica, _)) => {
            let acknowledged = commit_each(&mut replica, alloc, &STEPS)?;
            Ok((acknowledged, replica.release()))
        }
        Err(LoadError::Failed(store)) => Ok((0, store)),
        Err(_) => Err("not loaded".into()),
    }
}

/// What is kept after a crash.
fn left(alloc: Global, store: MemStore, outcome: Outcome) -> Result<String, Fail> {
    let mut store = store;
    store.crash(outcome);
    match ListReplica::load(alloc, store) {
        Ok((mut replica, kept)) => shown(&mut replica, alloc, &kept),
        Err(_) => Err("not loaded again".into()),
    }
}

/// Commits the entries to a store at whose call of this number, those of the load counted too, a fault comes: how many are
/// acknowledged, and what a crash leaves.
fn try_fault(
    alloc: Global,
    call: u32,
    fails: bool,
    outcome: Outcome,
) -> Result<(usize, String), Fail>
    requires { 1 ≤ call }
{
    let store = faulty(alloc, call, fails, outcome)?;
    let (acknowledged, store) = commit_all(alloc, store)?;
    Ok((acknowledged, left(alloc, store, outcome)?))
}

/// How many entries are acknowledged before this call: the load takes four calls, and each commit four.
fn acknowledged_before(call: u32) -> usize {
    (call.saturating_sub(5) / 4) as usize
}

/// Whether what is kept is that of the acknowledged entries, or of these and the next one.
fn is_front(acknowledged: usize, text: &str) -> bool {
    KEPT.get(acknowledged) == Some(&text) || KEPT.get(acknowledged.saturating_add(1)) == Some(&text)
}

#[test]
fn a_commit_that_fails_is_there_whole_or_not(rt: HostRuntime) -> Result<(), Fail> {
    // At the last of these calls all is done.
    for call in 1..=17 {
        for outcome in [Outcome::Kept, Outcome::Lost, Outcome::Torn] {
            for fails in [true, false] {
                let (acknowledged, text) = try_fault(rt.alloc(), call, fails, outcome)?;
                assert_eq!(rt;
                    acknowledged,
                    acknowledged_before(call),
                    "{call} {outcome:?}"
                );
                assert!(rt;
                    is_front(acknowledged, text.as_str()),
                    "{call} {outcome:?}: {text}"
                );
            }
        }
    }
    Ok(())
}

/// Whether a store with these bytes as its log is loaded. It isn't where the log is damaged; another answer gives nothing.
fn is_loaded(
    alloc: Global,
    store: MemStore,
    bytes: &[u8],
) -> Result<(Option<bool>, MemStore), Fail> {
    let mut store = store;
    let f = FileNo::new(0).ok_or("a file")?;
    store.reserve(f, bytes.len() as u64)?;
    store.cut(f, 0)?;
    store.write_at(f, 0, bytes)?;
    store.crash(Outcome::Kept);
    match ListReplica::load(alloc, store) {
        Ok((replica, _)) => Ok((Some(true), replica.release())),
        Err(LoadError::Damaged(store, _, _)) => Ok((Some(false), store)),
        Err(LoadError::Failed(store)) => Ok((None, store)),
        Err(LoadError::NoMemory(store)) => Ok((None, store)),
    }
}

/// A log of the second entry.
fn small_log(alloc: Global) -> Result<Vec<u8>, Fail> {
    let mut log = Vec::from_slice(alloc, b"\xc5\0\0\0")?;
    log.push((SECOND.len() % 256) as u8)?;
    log.extend_from_slice(SECOND)?;
    log.push(0)?;
    Ok(log)
}

#[test]
fn a_log_that_is_cut_is_damaged(rt: HostRuntime) -> Result<(), Fail> {
    let alloc = rt.alloc();
    let log = small_log(alloc)?;
    let mut store = MemStore::formatted(alloc)?;
    for n in 0..=log.len() {
        let (answer, left) = is_loaded(alloc, store, &log.as_slice()[..n])?;
        assert_eq!(rt; answer, Some(n == log.len()), "{n}");
        store = left;
    }
    Ok(())
}

/// The bytes with byte n changed.
fn changed(alloc: Global, bytes: &[u8], n: usize, change: u8) -> Result<Vec<u8>, Fail> {
    let mut bytes = Vec::from_slice(alloc, bytes)?;
    if let Some(slot) = bytes.as_mut_slice().get_mut(n) {
        *slot ^= change;
    }
    Ok(bytes)
}

/// Whether with each change of byte n the log is loaded or damaged.
fn changes_are_right(
    alloc: Global,
    store: MemStore,
    log: &[u8],
    n: usize,
) -> Result<(bool, MemStore), Fail> {
    let mut store = store;
    for change in 1..=255u8 {
        let bytes = changed(alloc, log, n, change)?;
        let (answer, left) = is_loaded(alloc, store, bytes.as_slice())?;
        if answer.is_none() {
            return Ok((false, left));
        }
        store = left;
    }
    Ok((true, store))
}

#[test]
fn a_log_with_a_changed_byte_is_loaded_or_damaged(rt: HostRuntime) -> Result<(), Fail> {
    let alloc = rt.alloc();
    let log = small_log(alloc)?;
    let mut store = MemStore::formatted(alloc)?;
    for n in 0..log.len() {
        let (right, left) = changes_are_right(alloc, store, log.as_slice(), n)?;
        assert!(rt; right, "{n}");
        store = left;
    }
    Ok(())
}
