//! A partition's replicas.

ghost use Rattle.std.specs.Prelude.{◌≡◌, ◌≤◌, ◌<◌, ◌↔◌, [], ◌∷◌, ◌++◌, IsTrue, Contains, length};

use crate::ring::MOST_NODES;
use cs_base::NodeId;
use std::marker::Model;

/// A partition's replicas, in order: at most seven nodes.
#[derive(Debug, Drop)]
pub struct Replicas {
    nodes: [NodeId; MOST_NODES],
    count: usize,
}

impl Model for Replicas {
    ghost use Rattle.std.specs.Prelude.{◌≡◌, ◌≤◌, ℕ, List, length, take};

    ghost Value = { List ℕ };

    ghost view = { λ a. take a.count a.nodes };

    ghost invariant = { λ a. (length a.nodes ≡ 7) × (a.count ≤ 7) };
}

impl Replicas {
    /// No replica.
    pub fn new() -> Replicas
        ensures { result ≡ [] }
    {
        let unused = NodeId::new(0).unwrap();
        Replicas {
            nodes: [unused; MOST_NODES],
            count: 0,
        }
    }

    pub fn as_slice(&self) -> &[NodeId]
        ensures { result.now ≡ self.now }
    {
        &self.nodes[..self.count]
    }

    pub fn len(&self) -> usize
        ensures value { result ≡ length self.now }
        ensures few { result ≤ 7 }
    {
        self.count
    }

    pub fn is_empty(&self) -> bool
        ensures { IsTrue result ↔ (self.now ≡ []) }
    {
        self.count == 0
    }

    pub fn contains(&self, node: NodeId) -> bool
        ensures { IsTrue result ↔ Contains self.now node }
    {
        self.as_slice().contains(&node)
    }

    pub(crate) fn clear(&mut self)
        ensures { self.new ≡ [] }
    {
        self.count = 0;
    }

    pub(crate) fn push(&mut self, node: NodeId)
        requires { length self.old < 7 }
        ensures { self.new ≡ self.old ++ node ∷ [] }
    {
        self.nodes[self.count] = node;
        self.count += 1;
    }
}

impl Default for Replicas {
    ghost is_default = { λ replicas. replicas ≡ [] };

    fn default() -> Replicas {
        Replicas::new()
    }
}
