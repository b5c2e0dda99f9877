//! Doors are given back.

ghost use Rattle.std.specs.Prelude.{◌≡◌, ℕ, ◌+◌, ◌≤◌, length, vec_len};
ghost use Rattle.cs_doors.specs.Lending.{HasLent};
ghost use Rattle.served_doors.specs.Ledger.{TakesBack, by_node, ledger, with_node};

use cs_base::NodeId;
use cs_doors::Doors;

/// Gives back doors of a node, in order. It takes no memory.
pub fn return_doors_of<L: Doors>(doors: &mut L, node: NodeId, of_node: Vec<L::Door>)
where
    L::Door: Drop,
    requires { HasLent (vec_len of_node) (L.given doors.old) (L.returned doors.old) }
    ensures back { TakesBack L.Door.faults (with_node node of_node.items) (ledger L.given L.returned L.faults doors.old) (ledger L.given L.returned L.faults doors.new) }
    ensures lent { (k : ℕ) → HasLent (k + vec_len of_node) (L.given doors.old) (L.returned doors.old) → HasLent k (L.given doors.new) (L.returned doors.new) }
{
    for door in of_node {
        doors.back(node, door);
    }
}

/// Gives back the doors of all nodes: of node 0 in order, of node 1, and so on. It takes no memory.
pub fn return_doors<L: Doors>(doors: &mut L, of_nodes: Vec<Vec<L::Door>>)
where
    L::Door: Drop,
    requires few { vec_len of_nodes ≤ 7 }
    requires lent { HasLent (length (by_node 0 of_nodes.items)) (L.given doors.old) (L.returned doors.old) }
    ensures back { TakesBack L.Door.faults (by_node 0 of_nodes.items) (ledger L.given L.returned L.faults doors.old) (ledger L.given L.returned L.faults doors.new) }
    ensures lent { (k : ℕ) → HasLent (k + length (by_node 0 of_nodes.items)) (L.given doors.old) (L.returned doors.old) → HasLent k (L.given doors.new) (L.returned doors.new) }
{
    let mut number = 0;
    for of_node in of_nodes {
        let node = NodeId::new(number).unwrap();
        return_doors_of(doors, node, of_node);
        number += 1;
    }
}
