//! Nodes, times and request ids.

ghost use Rattle.std.specs.Prelude.{◌≡◌, ℕ, ◌≤◌, ◌<◌, ◌^◌, ◌↔◌, IsSome, IfSome};

use std::marker::Model;

/// The greatest number of a node: a cluster has at most seven nodes.
pub const LAST_NODE: u8 = 6;

/// A node, by its number from 0 on.
#[derive(Clone, Copy, Debug, PartialEq, Eq, PartialOrd, Ord)]
pub struct NodeId {
    number: u8,
}

impl Model for NodeId {
    ghost Value = { ℕ };

    ghost view = { λ a. a.number };

    ghost invariant = { λ a. a.number ≤ 6 };

    ghost inverse = { λ n. record { number = n } };
}

impl NodeId {
    /// Node 0, which every cluster has.
    pub const FIRST: NodeId = NodeId { number: 0 };

    /// The node of this number, if a cluster can have it.
    pub fn new(number: u8) -> Option<NodeId>
        ensures valid { IsSome result ↔ (number ≤ 6) }
        ensures value { IfSome result (λ node. node ≡ number) }
    {
        if number <= LAST_NODE {
            Some(NodeId { number })
        } else {
            None
        }
    }

    pub fn number(self) -> u8
        ensures value { result ≡ self }
        ensures within { result ≤ 6 }
    {
        self.number
    }
}

/// A node time, or a length of time, in microseconds.
#[derive(Clone, Copy, Debug, PartialEq, Eq, PartialOrd, Ord)]
pub struct Micros {
    micros: u64,
}

impl Model for Micros {
    ghost Value = { ℕ };

    ghost view = { λ a. a.micros };

    ghost inverse = { λ n. record { micros = n } };
}

impl Micros {
    pub const fn new(micros: u64) -> Micros
        ensures { result ≡ micros }
    {
        Micros { micros }
    }

    pub fn count(self) -> u64
        ensures { result ≡ self }
    {
        self.micros
    }
}

/// A ballot of a conditional update: the node time at which its proposer made it, congruent to that node's number.
#[derive(Clone, Copy, Debug, PartialEq, Eq, PartialOrd, Ord)]
pub struct Ballot {
    number: u64,
}

impl Model for Ballot {
    ghost Value = { ℕ };

    ghost view = { λ a. a.number };

    ghost inverse = { λ n. record { number = n } };
}

impl Ballot {
    pub const fn new(number: u64) -> Ballot
        ensures { result ≡ number }
    {
        Ballot { number }
    }

    pub fn number(self) -> u64
        ensures { result ≡ self }
    {
        self.number
    }
}

/// A request: the node that began it, and that node's time then. Requests are in order of node and then of time.
#[derive(Clone, Copy, Debug, PartialEq, Eq, PartialOrd, Ord)]
pub struct ReqId {
    pub node: NodeId,
    pub time: Micros,
}
