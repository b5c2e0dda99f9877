//! Commits to a list replica: `replicas` alone commits rows over a folder, loads them again, compares them with what was
//! committed, and removes the folder. `append FOLDER ROWS EACH WIDTH` commits so many rows, so many by an entry, each with a
//! value of so many times eight bytes, and writes how many nanoseconds its commits took; `read FOLDER ROWS WIDTH` compares what
//! another process finds with these rows; `load FOLDER` writes how many nanoseconds a load took; `memory ROWS COUNT STEP` commits
//! so many rows to a store in memory, renews so many of them by entries of one change, each so many rows behind the one before
//! it, and writes how many nanoseconds the middle one of these took.

ghost use Rattle.std.specs.Prelude.{OnOk};
ghost use Rattle.row_change.specs.Spelling.{EntryFits};
ghost use Rattle.replica.specs.Kept.{ArriveAllAt};

use anyhow::{Result, bail};
use changes::{Bound, Partition};
use cs_base::{Bytes, Micros, Range};
use cs_store::MemStore;
use folder_store::FileStore;
use list_replica::ListReplica;
use replica::{Replica, arrive_at, purges_nothing};
use row_change::{LogEntry, LogItem, decode_entry};
use std::alloc::{AllocError, Global};
use std::fs;
use std::time::Instant;

/// The folder of the run with no words.
const SAMPLE: &str = "list_replica_sample";

/// How many rows a partition has, and at most an entry.
const PART: u32 = 1000;

/// How many times eight bytes a value has, if nothing is said.
const WIDTH: u32 = 2;

/// The timestamp of a row as it comes first.
const FIRST: i64 = 1;

/// And as it is renewed.
const RENEWED: i64 = 2;

/// Rows that stand so far from each other, round the ring of all of them, are scattered: it is the golden section of 2^32.
const SCATTERED: u32 = 2_654_435_761;

pub(crate) fn run(rt: &HostRuntime, words: &[String]) -> Result<()> {
    let command = words.first().map_or("sample", |word| word.as_str());
    let place = words.get(1).map_or(SAMPLE, |word| word.as_str());
    let count = number(words, 2, 0)?;
    match command {
        "sample" => sample(rt)?,
        "append" => {
            let nanos = append(
                rt,
                place,
                count,
                number(words, 3, 1)?,
                number(words, 4, WIDTH)?,
            )?;
            println!(rt; "{nanos}")?;
        }
        "read" => read(rt, place, count, number(words, 3, WIDTH)?)?,
        "load" => load(rt, place)?,
        "memory" => memory(rt, place.parse()?, count, number(words, 3, SCATTERED)?)?,
        _ => bail!(
            "append FOLDER ROWS EACH WIDTH, read FOLDER ROWS WIDTH, load FOLDER, memory ROWS COUNT STEP, or no words"
        ),
    }
    Ok(())
}

fn number(words: &[String], at: usize, default: u32) -> Result<u32> {
    match words.get(at) {
        Some(word) => Ok(word.parse()?),
        None => Ok(default),
    }
}

/// Commits rows one by one, and then by entries of many, the first of which come again; each time they are read again.
fn sample(rt: &HostRuntime) -> Result<()> {
    let _ = fs::remove_dir_all(rt, SAMPLE);
    for (rows, each) in [(210, 1), (2100, PART)] {
        let _nanos = append(rt, SAMPLE, rows, each, WIDTH)?;
        read(rt, SAMPLE, rows, WIDTH)?;
    }
    fs::remove_dir_all(rt, SAMPLE)?;
    Ok(())
}

/// The word of an entry that writes so many rows of one partition, one cell each.
fn word_of(
    alloc: Global,
    first: u32,
    rows: u32,
    width: u32,
    timestamp: i64,
) -> Result<Vec<u8>, AllocError> {
    let partition = first / PART;
    let mut word = Vec::from_slice(alloc, b"\0\0\0\x01\x01\0\0\0\0\0\0\0\x01\0\x03\0\0\0\0")?;
    word.extend_from_slice(&partition.to_be_bytes())?;
    word.extend_from_slice(b"\0\0\0\x0dpartition")?;
    word.extend_from_slice(&partition.to_be_bytes())?;
    word.extend_from_slice(&rows.to_be_bytes())?;
    for row in first..first.saturating_add(rows) {
        write_row(&mut word, row, width, timestamp)?;
    }
    Ok(word)
}

fn write_row(word: &mut Vec<u8>, row: u32, width: u32, timestamp: i64) -> Result<(), AllocError> {
    word.extend_from_slice(b"\x01\0\0\0\x04")?;
    word.extend_from_slice(&row.to_be_bytes())?;
    word.extend_from_slice(b"\x02\x01")?;
    word.extend_from_slice(&width.wrapping_mul(8).to_be_bytes())?;
    for at in 0..width {
        let part = (u64::from(row) << 32 | u64::from(at)).wrapping_mul(0x9e3779b97f4a7c15);
        word.extend_from_slice(&part.to_be_bytes())?;
    }
    word.extend_from_slice(&timestamp.to_be_bytes())?;
    word.extend_from_slice(b"\0\0\0\0\0\0\0\x01\x01\0\0\0\0\0\0\0\x01")
}

/// Commits an entry.
fn commit<R: Replica>(replica: &mut R, alloc: Global, entry: &LogEntry) -> Result<()>
    requires whole { R.is_whole replica.old }
    requires fits { EntryFits entry.now }
    ensures { OnOk result (R.is_whole replica.new) }
{
    let at = Micros::new(1);
    if !arrive_at(entry, at) || !purges_nothing(entry) {
        bail!("another entry");
    }
    match replica.room(alloc, entry) {
        Ok(()) => commit_granted(replica, entry, at),
        Err(_) => bail!("no room"),
    }
}

fn commit_granted<R: Replica>(replica: &mut R, entry: &LogEntry, at: Micros) -> Result<()>
    requires granted { R.is_granted replica.old entry.now }
    requires whole { R.is_whole replica.old }
    requires arrival { ArriveAllAt at entry.now.items }
    ensures { OnOk result (R.is_whole replica.new) }
{
    match replica.commit(entry, at) {
        Ok(()) => Ok(()),
        Err(_) => bail!("a call of the store failed"),
    }
}

/// Commits an entry that has this word, and gives how many nanoseconds the commit took.
fn commit_word<R: Replica>(rt: &HostRuntime, replica: &mut R, word: &[u8]) -> Result<u64>
    requires { R.is_whole replica.old }
    ensures { OnOk result (R.is_whole replica.new) }
{
    let entry = decode_entry(rt.alloc(), word)?;
    let start = Instant::now(rt)?;
    commit(replica, rt.alloc(), &entry)?;
    Ok(u64::try_from(start.elapsed(rt)?.as_nanos())?)
}

/// Commits so many rows, so many by an entry, which divides how many a partition has, and gives how many nanoseconds that took.
fn commit_all<R: Replica>(
    rt: &HostRuntime,
    replica: &mut R,
    rows: u32,
    each: u32,
    width: u32,
) -> Result<u64>
    requires { R.is_whole replica.old }
    ensures { OnOk result (R.is_whole replica.new) }
{
    let each = each.min(PART).max(1);
    let mut nanos = 0u64;
    for at in 0..rows.saturating_add(each - 1) / each {
        let first = at.saturating_mul(each);
        let many = each.min(rows.saturating_sub(first));
        let word = word_of(rt.alloc(), first, many, width, FIRST)?;
        nanos = nanos.saturating_add(commit_word(rt, replica, word.as_slice())?);
    }
    Ok(nanos)
}

/// Renews rows by entries of one change, each so many rows behind the one before it, and gives how many nanoseconds each
/// commit took.
fn renew<R: Replica>(
    rt: &HostRuntime,
    replica: &mut R,
    rows: u32,
    count: u32,
    step: u32,
) -> Result<Vec<u64>>
    requires { R.is_whole replica.old }
{
    let mut nanos = Vec::new(rt.alloc());
    for at in 0..count {
        let row = at.wrapping_mul(step) % rows.max(1);
        let word = word_of(rt.alloc(), row, 1, WIDTH, RENEWED)?;
        nanos.push(commit_word(rt, replica, word.as_slice())?)?;
    }
    Ok(nanos)
}

/// Commits rows to the replica in a folder, which is made if it is missing, and gives how many nanoseconds the commits took.
fn append(rt: &HostRuntime, folder: &str, rows: u32, each: u32, width: u32) -> Result<u64> {
    let store = FileStore::open(rt.clone()?, folder)?;
    let Ok((mut replica, _)) = ListReplica::load(rt.alloc(), store) else {
        bail!("not loaded");
    };
    commit_all(rt, &mut replica, rows, each, width)
}

/// Loads the replica in a folder, and compares what is held with the first so many rows.
fn read(rt: &HostRuntime, folder: &str, rows: u32, width: u32) -> Result<()> {
    let store = FileStore::open(rt.clone()?, folder)?;
    let Ok((mut replica, _)) = ListReplica::load(rt.alloc(), store) else {
        bail!("not loaded");
    };
    let partitions = compare_all(&mut replica, rt.alloc(), rows, width)?;
    println!(rt; "{rows} rows in {partitions} partitions, as they were committed")?;
    Ok(())
}

/// Compares what is held with the first so many rows, and gives how many partitions they make.
fn compare_all<R: Replica>(replica: &mut R, alloc: Global, rows: u32, width: u32) -> Result<u32>
    requires { R.is_whole replica.old }
{
    let all = Range {
        after: i64::MIN,
        upto: i64::MIN,
    };
    let Ok(partitions) = replica.partitions(alloc, &all) else {
        bail!("no partitions");
    };
    let mut first = 0;
    let mut count = 0u32;
    for partition in partitions.as_slice() {
        let many = PART.min(rows.saturating_sub(first));
        let word = word_of(alloc, first, many, width, FIRST)?;
        compare(replica, alloc, partition, word.as_slice())?;
        first = first.saturating_add(many);
        count = count.saturating_add(1);
    }
    if first != rows {
        bail!("{first} rows are held");
    }
    Ok(count)
}

/// Compares what is held of a partition with the mutation of an entry that has this word.
fn compare<R: Replica>(
    replica: &mut R,
    alloc: Global,
    partition: &Partition,
    word: &[u8],
) -> Result<()>
    requires { R.is_whole replica.old }
    ensures { OnOk result (R.is_whole replica.new) }
{
    let from = Bound {
        at: Bytes::new(alloc),
        after: false,
    };
    let upto = Bound {
        at: Bytes::new(alloc),
        after: true,
    };
    let Ok(content) = replica.content(alloc, partition, &from, &upto) else {
        bail!("no content");
    };
    let entry = decode_entry(alloc, word)?;
    match entry.items.as_slice() {
        [LogItem::Data(_, mutation)]
            if mutation.partition == *partition
                && mutation.changes.as_slice() == content.as_slice() => { Ok(()) }
        _ => bail!("other rows in the partition of token {}", partition.token),
    }
}

/// Writes how long a load took.
fn load(rt: &HostRuntime, folder: &str) -> Result<()> {
    let store = FileStore::open(rt.clone()?, folder)?;
    let start = Instant::now(rt)?;
    let Ok((_replica, _)) = ListReplica::load(rt.alloc(), store) else {
        bail!("not loaded");
    };
    let nanos = start.elapsed(rt)?.as_nanos();
    println!(rt; "{nanos}")?;
    Ok(())
}

/// Writes how long the middle one of many commits of one change took beside so many rows in memory.
fn memory(rt: &HostRuntime, rows: u32, count: u32, step: u32) -> Result<()> {
    let store = MemStore::formatted(rt.alloc())?;
    let Ok((mut replica, _)) = ListReplica::load(rt.alloc(), store) else {
        bail!("not loaded");
    };
    let _nanos = commit_all(rt, &mut replica, rows, PART, WIDTH)?;
    let mut nanos = renew(rt, &mut replica, rows, count, step)?;
    nanos.sort()?;
    println!(rt; "{}", nanos.get(nanos.len() / 2).copied().unwrap_or(0))?;
    Ok(())
}
