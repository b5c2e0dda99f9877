//! What nodes under test know of their cluster, and the stores that they are loaded from.

ghost use Rattle.std.specs.Prelude.{IfOk};
ghost use Rattle.cs_store.specs.Mem.{IsAllSettled};

use cs_base::{Items, Micros};
use cs_store::{FileNo, MemStore, Outcome, Store};
use peer_messages::{Setting, TableSetting};
use std::alloc::{AllocError, Global};
use std::mem;
use token_ring::Ring;

/// After so many microseconds a message is too old.
const EXPIRY: u64 = 1_000_000_000;

/// What each node of a ring knows: of one table, of which each of them is a replica.
fn setting_on(alloc: Global, tokens: &[i64]) -> Result<Setting, AllocError> {
    let Ok(ring) = Ring::new(tokens) else {
        return Err(AllocError);
    };
    let factor = ring.nodes();
    Ok(Setting {
        ring,
        tables: Items::from_vec(vec![in alloc; TableSetting { factor }]?),
        expiry: Micros::new(EXPIRY),
    })
}

/// The same for a ring of one node or three.
pub(crate) fn setting(alloc: Global, nodes: &str) -> Result<Setting, AllocError> {
    match nodes {
        "1" => setting_on(alloc, &[0]),
        _ => setting_on(alloc, &[-3, 0, 3]),
    }
}

/// Writes the log's file of a store.
fn write_log(store: &mut MemStore, log: &[u8]) -> Option<()> {
    let file = FileNo::new(0)?;
    store.reserve(file, log.len() as u64).ok()?;
    store.cut(file, 0).ok()?;
    store.write_at(file, 0, log).ok()
}

/// A store whose log's file has these bytes.
fn store_of(alloc: Global, log: &[u8]) -> Result<MemStore, AllocError>
    ensures { IfOk result IsAllSettled }
{
    let mut store = MemStore::formatted(alloc)?;
    let written = write_log(&mut store, log);
    store.crash(Outcome::Kept);
    match written {
        Some(()) => Ok(store),
        None => Err(AllocError),
    }
}

/// A store whose log's file has these bytes, and then zeros up to this length.
fn long_store(alloc: Global, head: &[u8], length: usize) -> Result<MemStore, AllocError>
    ensures { IfOk result IsAllSettled }
{
    let mut log = Vec::from_slice(alloc, head)?;
    log.resize(length, 0)?;
    let store = store_of(alloc, &log);
    // A long list is let go of item by item, which takes as long as the rest.
    mem::forget(log);
    store
}

/// A log of one entry, which has the ceiling 2^63 - 2^21 - 1.
const LATE: &[u8] = b"\xc5\0\0\0\x0d\0\0\0\x01\x05\x7f\xff\xff\xff\xff\xdf\xff\xff\0";

/// An entry of two bytes, of which one is there.
const DAMAGED: &[u8] = b"\xc5\0\0\0\x02\0";

/// The first 75 bytes of an entry that keeps a value of 2^24 - 78 zeros in row a of the partition, with the timestamp 0. A cell is
/// stored 37 bytes longer than its value, and a content 4 bytes longer than its cells: there is room for an empty cell more.
const FULL: &[u8] =
    b"\xc5\0\xff\xff\xf7\0\0\0\x01\x01\0\0\0\0\0\0\0\x01\0\0\0\0\0\0\0\0\0\x01\0\0\0\x01k\0\0\0\x01\x01\0\0\0\x01a\x02\x01\0\xff\xff\xb2";

/// The same of 2^26 - 159 zeros. The log of 64 MiB has room for one entry more, of a write of one byte and the first ceiling.
const LONG: &[u8] =
    b"\xc5\x03\xff\xff\xa6\0\0\0\x01\x01\0\0\0\0\0\0\0\x01\0\0\0\0\0\0\0\0\0\x01\0\0\0\x01k\0\0\0\x01\x01\0\0\0\x01a\x02\x01\x03\xff\xff\x61";

/// A store that is formatted, or of one of these kinds.
pub(crate) fn store(alloc: Global, kind: &str) -> Result<MemStore, AllocError>
    ensures { IfOk result IsAllSettled }
{
    match kind {
        "late" => store_of(alloc, LATE),
        "damaged" => store_of(alloc, DAMAGED),
        "full" => long_store(alloc, FULL, (1 << 24) - 3),
        "long" => long_store(alloc, LONG, (1 << 26) - 84),
        _ => MemStore::formatted(alloc),
    }
}
