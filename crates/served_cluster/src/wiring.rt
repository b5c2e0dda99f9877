//! Nodes are linked with one another.

ghost use Rattle.std.specs.Prelude.{◌≡◌, ◌≤◌, vec_len, IfOk};
ghost use Rattle.std.specs.List.{AllByRecursion};
ghost use Rattle.served_assembly.specs.Assembling.{Runs};
ghost use Rattle.served_cluster.specs.Served.{AreWired};

use cs_store::Store;
use node_core::Node;
use replica::Replica;
use served_assembly::assemble;
use served_links::spread;
use served_nodes::NodeParts;
use std::alloc::{AllocError, Global};
use wired_node::Wired;

/// Links each node with each other one, and puts it together with its doors.
pub(crate) fn put_together<R: Replica, D: Drop>(
    alloc: Global,
    nodes: Vec<Node<R>>,
    doors: Vec<Vec<D>>,
) -> Result<Vec<NodeParts<Wired<R>, D>>, AllocError>
    requires few { vec_len nodes ≤ 7 }
    requires runs { AllByRecursion (Runs R.is_whole R.durable R.Disk.is_honest) nodes.items }
    requires doors { vec_len doors ≡ vec_len nodes }
    ensures { IfOk result (λ parts. AreWired nodes.items doors.items parts.items) }
{
    let links = spread(alloc, nodes.len() as u8)?;
    assemble(alloc, nodes, links, doors)
}
