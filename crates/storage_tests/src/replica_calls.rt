//! Each call of a list replica once, with memory and a store that keeps all: what it answers, what is held then, and what a load
//! finds behind it.

ghost use Rattle.std.specs.Prelude.{◌↔◌, IfOk, OnOk, IsTrue};
ghost use Rattle.replica.specs.Kept.{ArriveAllAt, IsKeptAfter, IsKeptOf};
ghost use Rattle.row_change.specs.Spelling.{EntryFits};
ghost use Rattle.storage_tests.specs.Entries.{AreData, IsData};

use changes::{Bound, Partition};
use cs_base::{Bytes, Items, Micros, Range};
use cs_store::{FileNo, MemStore, Outcome};
use list_replica::ListReplica;
use replica::{Graces, Kept, MergeDone, MergeJob, Purges, Replica, arrive_at, purges_nothing};
use row_change::{LogEntry, LogItem, decode_entry};
use std::alloc::Global;
use std::test::Fail;

/// At time 5, of table 3, token -7 and key k the cell a of column 2 with x, and of table 1, token 9 and key m the cell b with y.
const COMMITTED: &[u8] = b"\0\0\0\x02\
\x01\0\0\0\0\0\0\0\x05\0\x03\xff\xff\xff\xff\xff\xff\xff\xf9\0\0\0\x01k\0\0\0\x01\
\x01\0\0\0\x01a\x02\x01\0\0\0\x01x\0\0\0\0\0\0\0\x01\0\0\0\0\0\0\0\x04\x01\0\0\0\0\0\0\0\x04\
\x01\0\0\0\0\0\0\0\x05\0\x01\0\0\0\0\0\0\0\x09\0\0\0\x01m\0\0\0\x01\
\x01\0\0\0\x01b\x02\x01\0\0\0\x01y\0\0\0\0\0\0\0\x01\0\0\0\0\0\0\0\x04\x01\0\0\0\0\0\0\0\x04";

/// At time 6, of table 2, token -7 and key j the cell c with z.
const FLUSHED: &[u8] = b"\0\0\0\x01\
\x01\0\0\0\0\0\0\0\x06\0\x02\xff\xff\xff\xff\xff\xff\xff\xf9\0\0\0\x01j\0\0\0\x01\
\x01\0\0\0\x01c\x02\x01\0\0\0\x01z\0\0\0\0\0\0\0\x02\0\0\0\0\0\0\0\x05\x01\0\0\0\0\0\0\0\x05";

/// At time 7, of the first partition the cell a with w, and the deletion of the row b.
const MERGED: &[u8] = b"\0\0\0\x01\
\x01\0\0\0\0\0\0\0\x07\0\x03\xff\xff\xff\xff\xff\xff\xff\xf9\0\0\0\x01k\0\0\0\x02\
\x01\0\0\0\x01a\x02\x01\0\0\0\x01w\0\0\0\0\0\0\0\x03\0\0\0\0\0\0\0\x06\x01\0\0\0\0\0\0\0\x06\
\x03\0\0\0\x01b\0\0\0\0\0\0\0\x03\0\0\0\0\0\0\0\x06\x01\0\0\0\0\0\0\0\x06";

/// All tokens, those above 0 up to 9, and those above 9 and up to -7.
const RANGES: [Range; 3] = [
    Range { after: 3, upto: 3 },
    Range { after: 0, upto: 9 },
    Range { after: 9, upto: -7 },
];

/// What is held behind each entry: of each of the ranges the partitions, each with its table, token and key, and its cells with
/// their values.
const HELD: [&str; 4] = [
    "| | | ",
    "3 -7 k ax, 1 9 m by, | 1 9 m by, | 3 -7 k ax, | ",
    "2 -7 j cz, 3 -7 k ax, 1 9 m by, | 1 9 m by, | 2 -7 j cz, 3 -7 k ax, | ",
    "2 -7 j cz, 3 -7 k aw b-, 1 9 m by, | 1 9 m by, | 2 -7 j cz, 3 -7 k aw b-, | ",
];

/// What is called between two loads: nothing, or what keeps the next of the entries.
#[derive(Clone, Copy, Debug, PartialEq, Eq)]
enum Step {
    Look,
    Commit,
    Flush,
    Merge,
}

fn is_data(item: &LogItem) -> bool
    ensures { IsTrue result ↔ IsData item.now }
{
    match item {
        LogItem::Data(_, _) => true,
        LogItem::Paxos(_, _)
        | LogItem::HintAdd(_)
        | LogItem::HintGone(_, _)
        | LogItem::Ceiling(_)
        | LogItem::Mark(_)
        | LogItem::Purge(_) => false,
    }
}

/// Whether an entry changes nothing beside contents, so that what is kept beside them stays.
fn are_data(entry: &LogEntry) -> bool
    ensures { IsTrue result ↔ AreData entry.now.items }
{
    for item in entry.items.as_slice() {
        if !is_data(item) {
            return false;
        }
    }
    true
}

/// Has room granted for an entry that came at this time and changes nothing beside contents, so that `kept` is kept behind it too.
fn grant<R: Replica>(
    replica: &mut R,
    alloc: Global,
    entry: &LogEntry,
    at: Micros,
    kept: &Kept,
) -> Result<(), Fail>
    requires whole { R.is_whole replica.old }
    requires fits { EntryFits entry.now }
    requires kept { R.Disk.is_honest → IsKeptOf (R.durable replica.old) kept.now }
    ensures granted { OnOk result (R.is_granted replica.new entry.now) }
    ensures whole { OnOk result (R.is_whole replica.new) }
    ensures arrival { OnOk result (ArriveAllAt at entry.now.items) }
    ensures after { OnOk result (R.Disk.is_honest → IsKeptAfter entry.now.items (R.durable replica.new) kept.now) }
{
    if !arrive_at(entry, at) || !purges_nothing(entry) || !are_data(entry) {
        return Err("not changes of this time".into());
    }
    match replica.room(alloc, entry) {
        Ok(()) => Ok(()),
        Err(_) => Err("no room".into()),
    }
}

/// A merge of no tables, of which all is written.
fn empty_merge(alloc: Global) -> Result<MergeDone, Fail> {
    let job = MergeJob {
        inputs: Items::new(alloc),
        output: FileNo::new(1).ok_or("a file")?,
        began: Micros::new(0),
        purges: Purges::new(alloc),
        written: true,
    };
    match job.finish() {
        Ok(done) => Ok(done),
        Err(_) => Err("not written".into()),
    }
}

/// Whether a merge is begun.
fn begins_merge<R: Replica>(replica: &mut R, alloc: Global, kept: &Kept) -> Result<bool, Fail>
    requires whole { R.is_whole replica.old }
    requires kept { R.Disk.is_honest → IsKeptOf (R.durable replica.old) kept.now }
    ensures whole { IfOk result (λ _. R.is_whole replica.new) }
    ensures same { IfOk result (λ _. R.Disk.is_honest → IsKeptOf (R.durable replica.new) kept.now) }
{
    let graces = Graces {
        by_table: Items::new(alloc),
    };
    match replica.begin_merge(alloc, kept, &graces, Micros::new(1), Micros::new(7)) {
        Ok(job) => Ok(job.is_some()),
        Err(_) => Err("no merge".into()),
    }
}

/// Commits the first entry.
fn commit<R: Replica>(replica: &mut R, alloc: Global, kept: &Kept) -> Result<String, Fail>
    requires whole { R.is_whole replica.old }
    requires kept { R.Disk.is_honest → IsKeptOf (R.durable replica.old) kept.now }
    ensures { IfOk result (λ _. R.is_whole replica.new) }
{
    let entry = decode_entry(alloc, COMMITTED)?;
    grant(replica, alloc, &entry, Micros::new(5), kept)?;
    match replica.commit(&entry, Micros::new(5)) {
        Ok(()) => Ok(format!(in alloc; "committed")?),
        Err(_) => Err("not committed".into()),
    }
}

/// Keeps the second entry by a flush, and tells how many tables there are.
fn flush<R: Replica>(replica: &mut R, alloc: Global, kept: &Kept) -> Result<String, Fail>
    requires whole { R.is_whole replica.old }
    requires kept { R.Disk.is_honest → IsKeptOf (R.durable replica.old) kept.now }
    ensures { IfOk result (λ _. R.is_whole replica.new) }
{
    let entry = decode_entry(alloc, FLUSHED)?;
    grant(replica, alloc, &entry, Micros::new(6), kept)?;
    match replica.flush(alloc, &entry, kept) {
        Ok(tables) => Ok(format!(in alloc; "flushed, {tables} tables")?),
        Err(_) => Err("not flushed".into()),
    }
}

/// Asks for a merge, and keeps the third entry by the end of one.
fn merge<R: Replica>(replica: &mut R, alloc: Global, kept: &Kept) -> Result<String, Fail>
    requires whole { R.is_whole replica.old }
    requires kept { R.Disk.is_honest → IsKeptOf (R.durable replica.old) kept.now }
    ensures { IfOk result (λ _. R.is_whole replica.new) }
{
    let begun = begins_merge(replica, alloc, kept)?;
    let entry = decode_entry(alloc, MERGED)?;
    grant(replica, alloc, &entry, Micros::new(7), kept)?;
    let done = empty_merge(alloc)?;
    match replica.finish_merge(alloc, &entry, kept, done) {
        Ok(purges) => {
            let count = purges.as_slice().len();
            Ok(format!(in alloc; "merge begun: {begun}, {count} purges")?)
        }
        Err(_) => Err("not merged".into()),
    }
}

/// What the calls of an entry answer.
fn keep<R: Replica>(replica: &mut R, alloc: Global, step: Step, kept: &Kept) -> Result<String, Fail>
    requires whole { R.is_whole replica.old }
    requires kept { R.Disk.is_honest → IsKeptOf (R.durable replica.old) kept.now }
    ensures { IfOk result (λ _. R.is_whole replica.new) }
{
    match step {
        Step::Look => Ok(String::new(alloc)),
        Step::Commit => commit(replica, alloc, kept),
        Step::Flush => flush(replica, alloc, kept),
        Step::Merge => merge(replica, alloc, kept),
    }
}

fn push_bytes(text: &mut String, bytes: &Bytes) -> Result<(), Fail> {
    text.push_str(std::str::from_utf8(bytes.as_slice())?)?;
    Ok(())
}

/// Puts what is held of a partition behind a text: its table, token and key, and its cells with their values.
fn push_held<R: Replica>(
    replica: &mut R,
    alloc: Global,
    partition: &Partition,
    text: &mut String,
) -> Result<(), Fail>
    requires { R.is_whole replica.old }
    ensures { OnOk result (R.is_whole replica.new) }
{
    let from = Bound {
        at: Bytes::new(alloc),
        after: false,
    };
    let upto = Bound {
        at: Bytes::new(alloc),
        after: true,
    };
    let content = match replica.content(alloc, partition, &from, &upto) {
        Ok(content) => content,
        Err(_) => return Err("no content".into()),
    };
    text.push_str(format!(in alloc; "{} {} ", partition.table, partition.token)?.as_str())?;
    push_bytes(text, &partition.key)?;
    for held in content.as_slice() {
        text.push(' ')?;
        if let Some(row) = held.place.row() {
            push_bytes(text, row)?;
        }
        match &held.value {
            Some(value) => push_bytes(text, value)?,
            None => text.push('-')?,
        }
    }
    text.push_str(", ")?;
    Ok(())
}

/// Puts what is held in a range of tokens behind a text.
fn push_range<R: Replica>(
    replica: &mut R,
    alloc: Global,
    range: &Range,
    text: &mut String,
) -> Result<(), Fail>
    requires { R.is_whole replica.old }
    ensures { OnOk result (R.is_whole replica.new) }
{
    let partitions = match replica.partitions(alloc, range) {
        Ok(partitions) => partitions,
        Err(_) => return Err("no partitions".into()),
    };
    for partition in partitions.as_slice() {
        push_held(replica, alloc, partition, text)?;
    }
    text.push_str("| ")?;
    Ok(())
}

/// What is held, as it stands in `HELD`.
fn held<R: Replica>(replica: &mut R, alloc: Global) -> Result<String, Fail>
    requires { R.is_whole replica.old }
{
    let mut text = String::new(alloc);
    for range in &RANGES {
        push_range(replica, alloc, range, &mut text)?;
    }
    Ok(text)
}

/// Loads what a crash leaves of a store, and takes a step: what its calls answer, what is held then, and the store.
fn go(alloc: Global, store: MemStore, step: Step) -> Result<(String, String, MemStore), Fail> {
    let mut store = store;
    store.crash(Outcome::Lost);
    match ListReplica::load(alloc, store) {
        Ok((mut replica, kept)) => {
            let answer = keep(&mut replica, alloc, step, &kept)?;
            let text = held(&mut replica, alloc)?;
            Ok((answer, text, replica.release()))
        }
        Err(_) => Err("not loaded".into()),
    }
}

#[test]
fn each_call_keeps_its_entry(rt: HostRuntime) -> Result<(), Fail> {
    let alloc = rt.alloc();
    let mut store = MemStore::formatted(alloc)?;
    let steps = [
        (Step::Look, "", HELD[0]),
        (Step::Commit, "committed", HELD[1]),
        (Step::Look, "", HELD[1]),
        (Step::Flush, "flushed, 0 tables", HELD[2]),
        (Step::Look, "", HELD[2]),
        (Step::Merge, "merge begun: false, 0 purges", HELD[3]),
        (Step::Look, "", HELD[3]),
    ];
    for (step, answer, kept) in steps {
        let (answered, text, left) = go(alloc, store, step)?;
        assert_eq!(rt; answered.as_str(), answer, "{step:?}");
        assert_eq!(rt; text.as_str(), kept, "{step:?}");
        store = left;
    }
    Ok(())
}
