//! The run of two nodes, until their clients are answered.

ghost use Rattle.std.specs.Prelude.{◌↔◌, IsTrue, All};
ghost use Rattle.std.specs.List.{AllByRecursion};
ghost use Rattle.served_run.specs.Runs.{HasJobs};

use crate::outside::{UnevenClock, UntilAnswered, counting_gate};
use cs_base::{Items, NodeId};
use cs_doors::MemDoor;
use cs_io::MemSink;
use cs_runtime::ThreadSpawner;
use replica::{MemReplica, Replica};
use schema_book::Schema;
use served_nodes::{NodeLeft, NodeParts};
use served_run::{Desk, Host, Ran, run_nodes};
use source_lines::LineReader;
use std::alloc::{AllocError, Global};
use std::sync::Wait;
use std::sync::atomic::AtomicBool;
use std::thread::Threads;
use wired_node::Wired;

/// The lines of the console.
const LINES: &str = "flush 1\nmark 0 1 up\nmark 1 0 up\nflush 0\n";

/// How many jobs each node has: three workers, and one for its door.
const JOBS: u32 = 4;

fn has_jobs<R: Replica>(part: &NodeParts<Wired<R>, MemDoor>) -> bool
    ensures { IsTrue result ↔ HasJobs 4 part.now }
{
    part.duties.len() == JOBS as usize
}

fn each_has_jobs<R: Replica>(parts: &[NodeParts<Wired<R>, MemDoor>]) -> bool
    ensures { IsTrue result ↔ All (HasJobs 4) parts.now }
{
    parts.iter().all(|part| has_jobs(part))
}

/// Whether each node has its jobs.
fn have_jobs<R: Replica>(parts: &[NodeParts<Wired<R>, MemDoor>]) -> bool
    ensures { IsTrue result ↔ AllByRecursion (HasJobs 4) parts.now }
{
    each_has_jobs(parts)
}

/// The default schema, of two nodes that are replicas of all rows.
fn schema(alloc: Global) -> Result<Schema, AllocError> {
    match Schema::from_statements(alloc, &Items::new(alloc), 2, 2, 864_000) {
        Ok(schema) => Ok(schema),
        Err(_) => Err(AllocError),
    }
}

/// Runs two nodes, each with its jobs, until their clients are answered.
pub(crate) fn run<R, W>(
    rt: &W,
    alloc: Global,
    nodes: [NodeId; 2],
    parts: Vec<NodeParts<Wired<R>, MemDoor>>,
) -> Result<Vec<NodeLeft<Wired<R>, MemDoor>>, AllocError>
where
    R: MemReplica + Send,
    W: Threads + Wait + Sync + Copy,
{
    if parts.is_empty() || parts.len() > 7 || !have_jobs(&parts) {
        return Err(AllocError);
    }
    let schema = schema(alloc)?;
    let gate = counting_gate();
    let desk = Desk {
        source: UntilAnswered::new(LINES, &gate, nodes),
        sink: MemSink::new(alloc, 1_000_000, Vec::new(alloc)),
        lines: LineReader::new(alloc)?,
        opening: Vec::new(alloc),
    };
    let clock = UnevenClock::new();
    let stop = AtomicBool::new(false);
    let host = Host {
        rt,
        alloc,
        clock: &clock,
        stop: &stop,
        gate: &gate,
        schema: &schema,
    };
    let mut spawner = ThreadSpawner::new(*rt);
    let ran = run_nodes(&host, &mut spawner, parts, JOBS, desk);
    ran.nodes
}
