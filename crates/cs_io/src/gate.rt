//! Gates that requests pass.

ghost use Rattle.std.specs.Prelude.{◌≡◌};

use cs_base::NodeId;
use std::sync::atomic::{AtomicU64, Ordering};
use std::thread;

/// How many nodes a cluster has at most.
const NODES: usize = 7;

/// Where a connection stands with a request.
#[derive(Clone, Copy, Debug, PartialEq, Eq)]
pub enum Point {
    /// The request was read.
    Taken,
    /// Its response was written.
    Answered,
}

/// A gate, which may keep a request for a while.
pub trait Gate {
    /// A request of this node's connections is at the point.
    fn pass(&self, node: NodeId, point: Point);
}

/// A gate that keeps no request.
#[derive(Clone, Copy, Debug, PartialEq, Eq)]
pub struct OpenGate;

impl Gate for OpenGate {
    fn pass(&self, _node: NodeId, _point: Point) {}
}

/// A request, as the one of its node that comes to the point as the `number`-th, from 1 on.
#[derive(Clone, Copy, Debug, PartialEq, Eq)]
pub struct Passage {
    pub node: NodeId,
    pub point: Point,
    pub number: u64,
}

/// A gate that holds one request until another one has come to its point, and no longer than so many turns. Other threads
/// run between these, and the call returns even where the other request never comes.
#[derive(Drop)]
pub struct HoldGate {
    pub held: Passage,
    pub until: Passage,
    pub turns: u64,
    taken: [AtomicU64; NODES],
    answered: [AtomicU64; NODES],
}

impl HoldGate {
    /// A gate to which no request has come.
    pub fn new(held: Passage, until: Passage, turns: u64) -> HoldGate
        ensures held { result.held ≡ held }
        ensures until { result.until ≡ until }
        ensures turns { result.turns ≡ turns }
    {
        HoldGate {
            held,
            until,
            turns,
            taken: no_counts(),
            answered: no_counts(),
        }
    }

    /// How many requests of the node have come to the point. Threads change it at any time, so no clause says more.
    pub fn count(&self, node: NodeId, point: Point) -> u64 {
        self.counter(node, point).load(Ordering::SeqCst)
    }

    fn counter(&self, node: NodeId, point: Point) -> &AtomicU64 {
        let counters = match point {
            Point::Taken => &self.taken,
            Point::Answered => &self.answered,
        };
        &counters[usize::from(node.number())]
    }
}

fn no_counts() -> [AtomicU64; NODES] {
    [
        AtomicU64::new(0),
        AtomicU64::new(0),
        AtomicU64::new(0),
        AtomicU64::new(0),
        AtomicU64::new(0),
        AtomicU64::new(0),
        AtomicU64::new(0),
    ]
}

impl Gate for HoldGate {
    fn pass(&self, node: NodeId, point: Point) {
        let before = self.counter(node, point).fetch_add(1, Ordering::SeqCst);
        let passage = Passage {
            node,
            point,
            number: before.wrapping_add(1),
        };
        if passage != self.held {
            return;
        }
        for _ in 0..self.turns {
            if self.count(self.until.node, self.until.point) >= self.until.number {
                return;
            }
            thread::yield_now();
        }
    }
}
