//! Appends to a log over a folder: `logs` alone appends a few entries, reads them again and removes the folder.
//! `append FOLDER COUNT` appends entries of 100 bytes and writes how many microseconds that took; `serve FOLDER COUNT`
//! writes the number of each entry behind its append; `fill FOLDER COUNT` appends entries of 1 MiB; `load FOLDER` writes
//! how many microseconds a load took, and `read FOLDER` what is there.

use anyhow::{Result, bail};
use cs_store::FileNo;
use folder_store::FileStore;
use gate_log::{Entries, GateLog};
use std::fs;
use std::time::Instant;

/// An entry as the bench appends it.
const ENTRY: [u8; 100] = [0x5a; 100];

/// The folder of the run with no words.
const SAMPLE: &str = "gate_log_sample";

pub(crate) fn run(rt: &HostRuntime, words: &[String]) -> Result<()> {
    let command = words.first().map_or("sample", |word| word.as_str());
    let folder = words.get(1).map_or(SAMPLE, |word| word.as_str());
    let count: u32 = words.get(2).map_or("3", |word| word.as_str()).parse()?;
    match command {
        "sample" => {
            let _ = fs::remove_dir_all(rt, SAMPLE);
            append(rt, SAMPLE, &ENTRY, count)?;
            read(rt, SAMPLE)?;
            fs::remove_dir_all(rt, SAMPLE)?;
        }
        "append" => {
            let start = Instant::now(rt)?;
            append(rt, folder, &ENTRY, count)?;
            let micros = start.elapsed(rt)?.as_micros();
            println!(rt; "{micros}")?;
        }
        "serve" => serve(rt, folder, count)?,
        "fill" => {
            let entry = vec![in rt.alloc(); 0x5a; 1 << 20]?;
            append(rt, folder, &entry, count)?;
        }
        "load" => load(rt, folder)?,
        "read" => read(rt, folder)?,
        _ => bail!("append, serve or fill FOLDER COUNT, load or read FOLDER, or no words"),
    }
    Ok(())
}

/// The log in a folder, which is made if it is missing.
fn open(rt: &HostRuntime, folder: &str) -> Result<(FileStore<HostRuntime>, GateLog, Entries)> {
    let mut store = FileStore::open(rt.clone()?, folder)?;
    let (log, entries) = GateLog::load(rt.alloc(), &mut store, log_file()?)?;
    Ok((store, log, entries))
}

/// Appends an entry so many times.
fn append(rt: &HostRuntime, folder: &str, entry: &[u8], count: u32) -> Result<()> {
    let len = u32::try_from(entry.len())?;
    let (mut store, mut log, _) = open(rt, folder)?;
    for _ in 0..count {
        append_one(&mut store, &mut log, entry, len)?;
    }
    Ok(())
}

fn append_one(
    store: &mut FileStore<HostRuntime>,
    log: &mut GateLog,
    entry: &[u8],
    len: u32,
) -> Result<()> {
    if entry.len() != len as usize {
        bail!("an entry too long");
    }
    log.reserve(store, len)?;
    log.append(store, entry)?;
    Ok(())
}

/// Appends entries of 100 bytes, whose first four are their number, and tells each one that is acknowledged.
fn serve(rt: &HostRuntime, folder: &str, count: u32) -> Result<()> {
    let (mut store, mut log, entries) = open(rt, folder)?;
    let there = u32::try_from(entries.len())?;
    for number in there..there.saturating_add(count) {
        let mut entry = ENTRY;
        entry[..4].copy_from_slice(&number.to_be_bytes());
        append_one(&mut store, &mut log, &entry, 100)?;
        println!(rt; "{number}")?;
    }
    Ok(())
}

/// Writes how long a load took, and how many bytes the entries are.
fn load(rt: &HostRuntime, folder: &str) -> Result<()> {
    let mut store = FileStore::open(rt.clone()?, folder)?;
    let start = Instant::now(rt)?;
    let (log, entries) = GateLog::load(rt.alloc(), &mut store, log_file()?)?;
    let micros = start.elapsed(rt)?.as_micros();
    println!(rt; "{micros} {} {}", entries.len(), log.len())?;
    Ok(())
}

/// Writes how many entries the log has, and how many of them are neither those of the bench nor in their order.
fn read(rt: &HostRuntime, folder: &str) -> Result<()> {
    let (_, _, entries) = open(rt, folder)?;
    let count = entries.len();
    let mut wrong = 0u32;
    for i in 0..count {
        if !is_right(&entries, i) {
            wrong = wrong.saturating_add(1);
        }
    }
    println!(rt; "{count} entries, {wrong} of them wrong")?;
    Ok(())
}

fn is_right(entries: &Entries, i: usize) -> bool {
    if i >= entries.len() {
        return false;
    }
    let entry = entries.entry(i);
    if entry == ENTRY.as_slice() {
        return true;
    }
    match (entry.split_first_chunk::<4>(), u32::try_from(i)) {
        (Some((number, rest)), Ok(i)) => { *number == i.to_be_bytes() && rest == &ENTRY[4..] }
        _ => false,
    }
}

fn log_file() -> Result<FileNo> {
    match FileNo::new(0) {
        Some(file) => Ok(file),
        None => bail!("no file 0"),
    }
}
