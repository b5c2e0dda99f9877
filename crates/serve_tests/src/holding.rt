//! A request is held while another one is answered.

use crate::clients::{AT_ALL, READY_AND_VOID, two_writers};
use crate::running::{NOTHING, OPENING, TWO_NODES, serve};
use cluster_program::Status;
use cs_base::{Failed, NodeId};
use cs_io::{HoldGate, Passage, Point, Source};
use cs_runtime::SysClock;
use cs_store::MemStores;
use std::test::Fail;
use std::thread;

/// A request of a node as the one that comes to the point so late.
fn passage(node: NodeId, point: Point, number: u64) -> Passage {
    Passage {
        node,
        point,
        number,
    }
}

/// A gate that counts requests and holds none that comes here.
pub(crate) fn counting_gate(node: NodeId, turns: u64) -> HoldGate {
    let never = passage(node, Point::Taken, 1_000);
    HoldGate::new(never, passage(node, Point::Answered, 1_000), turns)
}

/// Whether both nodes have answered their second request.
fn are_answered(gate: &HoldGate, nodes: &[NodeId; 2]) -> bool {
    nodes
        .iter()
        .all(|node| gate.count(*node, Point::Answered) >= 2)
}

/// Waits for that, no longer than so many turns.
fn wait_for_answers(gate: &HoldGate, nodes: &[NodeId; 2]) {
    for _ in 0..gate.turns {
        if are_answered(gate, nodes) {
            return;
        }
        thread::yield_now();
    }
}

/// Gives a text piece by piece, and its end once both nodes have answered their second request, or behind so many turns of the gate.
#[derive(Drop)]
pub(crate) struct UntilAnswered<'a> {
    text: &'a [u8],
    gate: &'a HoldGate,
    nodes: [NodeId; 2],
}

impl<'a> UntilAnswered<'a> {
    pub(crate) fn new(text: &'a str, gate: &'a HoldGate, nodes: [NodeId; 2]) -> UntilAnswered<'a> {
        UntilAnswered {
            text: text.as_bytes(),
            gate,
            nodes,
        }
    }
}

impl Source for UntilAnswered<'_> {
    ghost use Rattle.std.specs.Prelude.{None};

    ghost remaining = { λ _. None };

    ghost faults = { λ _. 0 };

    fn read(&mut self, buffer: &mut [u8]) -> Result<usize, Failed> {
        let count = self.text.len().min(buffer.len());
        let (now, later) = self.text.split_at(count);
        buffer[..count].copy_from_slice(now);
        self.text = later;
        if count == 0 {
            wait_for_answers(self.gate, &self.nodes);
        }
        Ok(count)
    }
}

// The first request of each client is answered by no node. The second one of node 0 is held until that of node 1 was answered, for which
// node 0 had to take it: so neither the connections nor the nodes wait for each other.
#[test]
fn a_held_request_holds_no_other_one(rt: HostRuntime) -> Result<(), Fail> {
    let alloc = rt.alloc();
    let nodes = [NodeId::FIRST, NodeId::new(1).ok_or("a node")?];
    let held = passage(nodes[0], Point::Taken, 2);
    let until = passage(nodes[1], Point::Answered, 2);
    let gate = HoldGate::new(held, until, 1_000_000);
    let source = UntilAnswered::new(TWO_NODES, &gate, nodes);
    let mut stores = MemStores::formatted(alloc)?;
    let plans = two_writers(alloc, AT_ALL)?;
    let left = serve(
        &rt,
        alloc,
        source,
        &mut stores,
        plans,
        &SysClock::new(rt),
        &gate,
        NOTHING,
    )?;
    assert!(rt; left.is(Status::Ok, &[OPENING, "closed\n"]));
    assert_eq!(rt; left.sent_at(0), Some(READY_AND_VOID));
    assert_eq!(rt; left.sent_at(1), Some(READY_AND_VOID));
    Ok(())
}
