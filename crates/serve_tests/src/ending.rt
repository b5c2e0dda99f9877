//! How served runs end, and what they tell.

use crate::clients::{AT_ONE, READY, second_writer};
use crate::running::{Failing, NOTHING, OPENING, TWO_NODES, serve};
use cluster_program::Status;
use cs_base::{Failed, NodeId};
use cs_io::{MemSource, OpenGate, Source};
use cs_runtime::SysClock;
use cs_store::{FileNo, MemStores, Store, Stores};
use std::alloc::{AllocError, Global};
use std::collections::VecDeque;
use std::test::Fail;
use std::thread;

/// How many calls of a formatted store a load makes.
const CALLS_OF_A_LOAD: u32 = 4;

fn lines(alloc: Global, texts: &[&str], failing: &[u64]) -> Result<MemSource, AllocError> {
    let mut bytes = Vec::new(alloc);
    for text in texts {
        bytes.extend_from_slice(text.as_bytes())?;
    }
    Ok(MemSource::new(bytes, 64, Vec::from_slice(alloc, failing)?))
}

// The console's lines are answered one after another, and those behind `stop` are not read.
#[test]
fn lines_are_answered(rt: HostRuntime) -> Result<(), Fail> {
    let alloc = rt.alloc();
    let asked = "status\nmark 0 1 down\n\nmark 0 0 down\nflush 1\nmerge 0\nstop\nstatus\n";
    let source = lines(alloc, &[TWO_NODES, asked], &[])?;
    let mut stores = MemStores::formatted(alloc)?;
    let left = serve(
        &rt,
        alloc,
        source,
        &mut stores,
        VecDeque::new(alloc),
        &SysClock::new(rt),
        &OpenGate,
        NOTHING,
    )?;
    let answers = "ok\nok\n?\n?\ntables 0\ntables 0\n";
    assert!(rt; left.is(Status::Ok, &[OPENING, answers, "closed\n"]));
    assert_eq!(rt; left.doors.returned().len(), 32);
    Ok(())
}

// Each fault of the outside ends a run by its own status and line.
#[test]
fn faults_are_told(rt: HostRuntime) -> Result<(), Fail> {
    let alloc = rt.alloc();
    let cases: [(&[&str], &[u64], Failing, Status, &[&str]); 9] = [
        (
            &[],
            &[],
            NOTHING,
            Status::BadScript,
            &["1: head expected\n"],
        ),
        (
            &["cassandra-script 1\nring 0\nrf 2\nrun\n"],
            &[],
            NOTHING,
            Status::BadScript,
            &["3: number out of range\n"],
        ),
        (
            &[TWO_NODES],
            &[1],
            NOTHING,
            Status::ReadFault,
            &["read fault\n"],
        ),
        (
            &[TWO_NODES],
            &[2],
            NOTHING,
            Status::ReadFault,
            &[OPENING, "read fault\n"],
        ),
        (
            &[TWO_NODES],
            &[],
            Failing {
                writes: &[1],
                ..NOTHING
            },
            Status::WriteFault,
            &[],
        ),
        (
            &[TWO_NODES],
            &[],
            Failing {
                writes: &[2],
                ..NOTHING
            },
            Status::WriteFault,
            &[OPENING],
        ),
        (
            &[TWO_NODES],
            &[],
            Failing {
                listens: &[1],
                ..NOTHING
            },
            Status::DoorFault,
            &["door fault\n"],
        ),
        (
            &[TWO_NODES],
            &[],
            Failing {
                listens: &[32],
                ..NOTHING
            },
            Status::DoorFault,
            &["door fault\n"],
        ),
        (
            &[TWO_NODES],
            &[],
            Failing {
                starts: &[1],
                ..NOTHING
            },
            Status::NoThread,
            &["no thread\n"],
        ),
    ];
    for (texts, reads, failing, status, told) in cases {
        let source = lines(alloc, texts, reads)?;
        let mut stores = MemStores::formatted(alloc)?;
        let left = serve(
            &rt,
            alloc,
            source,
            &mut stores,
            VecDeque::new(alloc),
            &SysClock::new(rt),
            &OpenGate,
            failing,
        )?;
        assert!(rt; left.is(status, told), "{status:?} {:?}", left.status);
    }
    Ok(())
}

// The file of a log without its first byte is no log.
#[test]
fn a_damaged_log_is_told(rt: HostRuntime) -> Result<(), Fail> {
    let alloc = rt.alloc();
    let mut stores = MemStores::formatted(alloc)?;
    let mut store = stores.take("", NodeId::FIRST)?;
    store.cut(FileNo::new(0).ok_or("a file")?, 0)?;
    stores.back(NodeId::FIRST, store);
    let source = lines(alloc, &[TWO_NODES], &[])?;
    let left = serve(
        &rt,
        alloc,
        source,
        &mut stores,
        VecDeque::new(alloc),
        &SysClock::new(rt),
        &OpenGate,
        NOTHING,
    )?;
    assert!(rt; left.is(Status::Damaged, &["damaged 0 0 0\n"]));
    Ok(())
}

/// Gives a text, and then one empty line after another, so many.
#[derive(Drop)]
struct Endless<'a> {
    text: &'a [u8],
    lines: u64,
}

impl Source for Endless<'_> {
    ghost use Rattle.std.specs.Prelude.{None};

    ghost remaining = { λ _. None };

    ghost faults = { λ _. 0 };

    fn read(&mut self, buffer: &mut [u8]) -> Result<usize, Failed> {
        if self.text.is_empty() && self.lines > 0 {
            thread::yield_now();
            self.lines -= 1;
            self.text = b"\n";
        }
        let count = self.text.len().min(buffer.len());
        let (now, later) = self.text.split_at(count);
        buffer[..count].copy_from_slice(now);
        self.text = later;
        Ok(count)
    }
}

// A node whose store fails answers nobody any more, and ends the run, though the console has further lines. The run may end before the
// console has begun, and then nothing is written before.
#[test]
fn a_failed_store_is_told(rt: HostRuntime) -> Result<(), Fail> {
    let alloc = rt.alloc();
    let node = NodeId::new(1).ok_or("a node")?;
    let source = Endless {
        text: TWO_NODES.as_bytes(),
        lines: 10_000_000,
    };
    let mut stores = MemStores::formatted(alloc)?;
    let mut store = stores.take("", node)?;
    store.fail_at(CALLS_OF_A_LOAD + 1);
    stores.back(node, store);
    let plans = second_writer(alloc, AT_ONE)?;
    let left = serve(
        &rt,
        alloc,
        source,
        &mut stores,
        plans,
        &SysClock::new(rt),
        &OpenGate,
        NOTHING,
    )?;
    assert_eq!(rt; left.status, Status::StoreFault);
    assert!(rt; left.text.ends_with(b"store fault 1\n"));
    assert_eq!(rt; left.sent_at(1), Some(READY));
    Ok(())
}

// Each line that has a node write its tables is a step of its history.
#[test]
fn a_full_history_is_told(rt: HostRuntime) -> Result<(), Fail> {
    let alloc = rt.alloc();
    let mut text = Vec::from_slice(alloc, b"cassandra-script 1\nring 0\nrf 1\nrun\n")?;
    for _ in 0..400_001 {
        text.extend_from_slice(b"flush 0\n")?;
    }
    let source = MemSource::new(text, 65_536, Vec::new(alloc));
    let mut stores = MemStores::formatted(alloc)?;
    let left = serve(
        &rt,
        alloc,
        source,
        &mut stores,
        VecDeque::new(alloc),
        &SysClock::new(rt),
        &OpenGate,
        NOTHING,
    )?;
    assert_eq!(rt; left.status, Status::HistoryFull);
    assert!(rt; left.text.ends_with(b"\ntables 0\nfull\nhistory full 0\n"));
    Ok(())
}
