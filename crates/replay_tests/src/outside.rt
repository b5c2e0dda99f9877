//! The outside of a served run: its clock, and the lines of its console.

use crate::clients::REQUESTS;
use cs_base::{Failed, Micros, NodeId};
use cs_io::{HoldGate, Passage, Point, Source};
use cs_runtime::Clock;
use std::sync::atomic::{AtomicU64, Ordering};
use std::thread;

/// A clock that goes forth and back within a second, so that no request is told that its time is over.
#[derive(Drop)]
pub(crate) struct UnevenClock {
    readings: AtomicU64,
}

impl UnevenClock {
    pub(crate) fn new() -> UnevenClock {
        UnevenClock {
            readings: AtomicU64::new(0),
        }
    }
}

impl Clock for UnevenClock {
    ghost gives = { λ clock reading. Unit {0} };

    fn now(&self) -> Micros {
        let count = self.readings.fetch_add(1, Ordering::SeqCst);
        Micros::new(count.wrapping_mul(7_919) % 1_000_003)
    }

    fn rest(&self, _micros: u64) {
        thread::yield_now();
    }
}

/// A request that never comes.
fn never() -> Passage {
    Passage {
        node: NodeId::FIRST,
        point: Point::Taken,
        number: 1_000,
    }
}

/// A gate that counts the requests of each node and holds none.
pub(crate) fn counting_gate() -> HoldGate {
    HoldGate::new(never(), never(), 10_000_000)
}

/// Gives a text, and its end once each of the nodes has answered all requests, or behind so many turns of the gate.
#[derive(Drop)]
pub(crate) struct UntilAnswered<'a> {
    text: &'a [u8],
    gate: &'a HoldGate,
    nodes: [NodeId; 2],
}

impl<'a> UntilAnswered<'a> {
    pub(crate) fn new(text: &'a str, gate: &'a HoldGate, nodes: [NodeId; 2]) -> UntilAnswered<'a> {
        UntilAnswered {
            text: text.as_bytes(),
            gate,
            nodes,
        }
    }
}

fn are_answered(gate: &HoldGate, nodes: &[NodeId; 2]) -> bool {
    nodes
        .iter()
        .all(|node| gate.count(*node, Point::Answered) >= REQUESTS)
}

fn wait_for_answers(gate: &HoldGate, nodes: &[NodeId; 2]) {
    for _ in 0..gate.turns {
        if are_answered(gate, nodes) {
            return;
        }
        thread::yield_now();
    }
}

impl Source for UntilAnswered<'_> {
    ghost use Rattle.std.specs.Prelude.{None};

    ghost remaining = { λ _. None };

    ghost faults = { λ _. 0 };

    fn read(&mut self, buffer: &mut [u8]) -> Result<usize, Failed> {
        let count = self.text.len().min(buffer.len());
        let (now, later) = self.text.split_at(count);
        buffer[..count].copy_from_slice(now);
        self.text = later;
        if count == 0 {
            wait_for_answers(self.gate, &self.nodes);
        }
        Ok(count)
    }
}
