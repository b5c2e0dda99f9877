//! The replicas that were heard of.

ghost use Rattle.std.specs.Prelude.{◌≡◌, ◌∷◌, ◌++◌, [], false, IfOk};
ghost use Rattle.cs_base.specs.Quorums.{is_in as is_in_of};
ghost use Rattle.peer_messages.specs.Settings.{with_heard};

use cs_base::NodeId;
use peer_messages::{NodeIds, copy_nodes, is_in};
use std::alloc::{AllocError, Global};
use std::marker::Model;

/// How many nodes a cluster can have.
const MOST: usize = 7;

/// Nodes in the order in which they were heard of, each once. There are no more than seven, and none takes memory.
#[derive(Drop)]
pub(crate) struct Heard {
    nodes: [NodeId; MOST],
    count: usize,
}

impl Model for Heard {
    ghost use Rattle.std.specs.Prelude.{◌≡◌, ◌≤◌, ℕ, List, length, take};
    ghost use Rattle.write_coord.specs.Nodes.{AreNodes};

    ghost Value = { List ℕ };

    ghost view = { λ a. take a.count a.nodes };

    ghost invariant = { λ a. (length a.nodes ≡ 7) × (a.count ≤ 7) × AreNodes (take a.count a.nodes) };
}

impl Heard {
    /// No node.
    pub(crate) fn new() -> Heard
        ensures { result ≡ [] }
    {
        Heard {
            nodes: [NodeId::FIRST; MOST],
            count: 0,
        }
    }

    pub(crate) fn as_slice(&self) -> &[NodeId]
        ensures { result.now ≡ self.now }
    {
        &self.nodes[..self.count]
    }

    pub(crate) fn copy(&self) -> Heard
        ensures { result ≡ self.now }
    {
        Heard {
            nodes: self.nodes,
            count: self.count,
        }
    }

    /// These, with one more.
    fn and(&self, node: NodeId) -> Heard
        requires { is_in_of self.now node ≡ false }
        ensures { result ≡ self.now ++ node ∷ [] }
    {
        let mut nodes = self.nodes;
        nodes[self.count] = node;
        Heard {
            nodes,
            count: self.count + 1,
        }
    }

    /// These, with one more. A node that is no replica, and one that is heard of again, count for nothing.
    pub(crate) fn with(&self, replicas: &[NodeId], from: NodeId) -> Heard
        ensures { result ≡ with_heard replicas.now self.now from }
    {
        if !is_in(self.as_slice(), from) && is_in(replicas, from) {
            self.and(from)
        } else {
            self.copy()
        }
    }

    /// These, in a list of its own.
    pub(crate) fn to_nodes(&self, alloc: Global) -> Result<NodeIds, AllocError>
        ensures { IfOk result (λ nodes. nodes ≡ self.now) }
    {
        copy_nodes(alloc, self.as_slice())
    }
}
