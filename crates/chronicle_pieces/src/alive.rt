//! The nodes that are taken for alive.

ghost use Rattle.std.specs.Prelude.{◌≡◌, ◌≤◌, ◌<◌, ◌+◌, ◌++◌, ◌∷◌, [], length};
ghost use Rattle.std.specs.List.{range_with_len};
ghost use Rattle.peer_messages.specs.Settings.{up_of};

use cs_base::NodeId;
use peer_messages::is_in;
use std::marker::Model;

/// A cluster has at most seven nodes.
const MOST_NODES: usize = 7;

/// The nodes that a node takes for alive, by rising number. They take no memory of their own.
#[derive(Debug, Drop)]
pub struct Alive {
    nodes: [NodeId; MOST_NODES],
    count: u8,
}

impl Model for Alive {
    ghost use Rattle.std.specs.Prelude.{◌≡◌, ◌≤◌, ℕ, List, length, take};

    ghost Value = { List ℕ };

    ghost view = { λ a. take a.count a.nodes };

    ghost invariant = { λ a. (length a.nodes ≡ 7) × (a.count ≤ 7) };
}

impl Alive {
    /// No node.
    pub fn new() -> Alive
        ensures { result ≡ [] }
    {
        Alive {
            nodes: [NodeId::FIRST; MOST_NODES],
            count: 0,
        }
    }

    /// Those of so many nodes that are not among these.
    pub fn beside(count: u8, down: &[NodeId]) -> Alive
        requires { count ≤ 7 }
        ensures { result ≡ up_of down.now (range_with_len 0 count) }
    {
        let mut alive = Alive::new();
        for number in 0..count {
            alive.add(down, NodeId::new(number).unwrap());
        }
        alive
    }

    /// Adds a node, unless it is among these.
    fn add(&mut self, down: &[NodeId], node: NodeId)
        requires { length self.old < 7 }
        ensures nodes { self.new ≡ self.old ++ up_of down.now (node ∷ []) }
        ensures length { length self.new ≤ length self.old + 1 }
    {
        if !is_in(down, node) {
            self.push(node);
        }
    }

    pub fn as_slice(&self) -> &[NodeId]
        ensures { result.now ≡ self.now }
    {
        &self.nodes[..usize::from(self.count)]
    }

    /// Adds a node, for which there is room.
    pub fn push(&mut self, node: NodeId)
        requires { length self.old < 7 }
        ensures { self.new ≡ self.old ++ node ∷ [] }
    {
        self.nodes[usize::from(self.count)] = node;
        self.count += 1;
    }
}
