//! The command is run.

use cluster_program::{Finished, Status, run_cluster};
use cs_doors::{DoorPlan, MemDoors};
use cs_io::{Gate, MemSink, Source};
use cs_runtime::{Clock, ListSpawner};
use cs_store::{Store, Stores};
use std::alloc::{AllocError, Global};
use std::collections::VecDeque;
use std::sync::Wait;
use std::thread::Threads;

/// Two nodes, each a replica of all rows.
pub(crate) const TWO_NODES: &str = "cassandra-script 1\nring -3 3\nrf 2\nrun\n";

/// What is written as they begin.
pub(crate) const OPENING: &str = "listening 0 9042\nlistening 1 9043\n";

/// What a run leaves.
#[derive(Drop)]
pub(crate) struct Left {
    pub status: Status,
    pub text: Vec<u8>,
    pub doors: MemDoors,
}

impl Left {
    /// Whether it ended so, and wrote these texts, one behind another.
    pub(crate) fn is(&self, status: Status, texts: &[&str]) -> bool {
        let mut rest = self.text.as_slice();
        for text in texts {
            match rest.strip_prefix(text.as_bytes()) {
                Some(behind) => rest = behind,
                None => return false,
            }
        }
        self.status == status && rest.is_empty()
    }

    /// What the client of a node was sent, where one went back to a door of it.
    pub(crate) fn sent_at(&self, node: u8) -> Option<&[u8]> {
        for (of, door) in self.doors.returned() {
            if of.number() == node
                && let Some(link) = door.returned().first()
            {
                return Some(link.written());
            }
        }
        None
    }
}

fn words(alloc: Global) -> Result<Vec<String>, AllocError> {
    let mut words = Vec::new(alloc);
    for word in ["serve", "nodes", "9042"] {
        words.push(String::from_str(alloc, word)?)?;
    }
    Ok(words)
}

/// What fails of the outside: these starts of threads, and these calls of the doors and of the sink.
#[derive(Clone, Copy)]
pub(crate) struct Failing<'a> {
    pub starts: &'a [u64],
    pub listens: &'a [u64],
    pub writes: &'a [u64],
}

pub(crate) const NOTHING: Failing<'static> = Failing {
    starts: &[],
    listens: &[],
    writes: &[],
};

/// Serves nodes from these stores, with these doors.
pub(crate) fn serve<R, D: Stores, S: Source + Drop, C: Clock + Sync, G: Gate + Sync>(
    rt: &R,
    alloc: Global,
    source: S,
    stores: &mut D,
    plans: VecDeque<DoorPlan>,
    clock: &C,
    gate: &G,
    failing: Failing<'_>,
) -> Result<Left, AllocError>
where
    R: Threads + Wait + Sync + Copy,
    D::Store: Drop + Send,
{
    let words = words(alloc)?;
    let listens = Vec::from_slice(alloc, failing.listens)?;
    let mut doors = MemDoors::new(alloc, plans, listens);
    let writes = Vec::from_slice(alloc, failing.writes)?;
    let sink = MemSink::new(alloc, 1_000_000, writes);
    let starts = Vec::from_slice(alloc, failing.starts)?;
    let mut spawner = ListSpawner::new(*rt, starts);
    let Finished {
        status,
        source: _,
        sink,
    } = run_cluster(
        rt,
        alloc,
        &words,
        source,
        sink,
        stores,
        &mut doors,
        clock,
        &mut spawner,
        gate,
    );
    Ok(Left {
        status,
        text: Vec::from_slice(alloc, sink.bytes())?,
        doors,
    })
}
