//! Nodes are put together with their links and doors.

ghost use Rattle.std.specs.Prelude.{◌≡◌, vec_len, IfOk};
ghost use Rattle.std.specs.List.{AllByRecursion};
ghost use Rattle.wired_node.specs.Sending.{AreDistinct};
ghost use Rattle.served_assembly.specs.Assembling.{AreAssembled, IsAssembled, Runs, duties_of};

use cs_store::Store;
use node_core::Node;
use node_workers::Receivers;
use replica::Replica;
use served_jobs::Duty;
use served_links::NodeLinks;
use served_nodes::NodeParts;
use std::alloc::{AllocError, Global};
use wired_node::Wired;

/// How many jobs of a node serve no connection: one delivers its messages, one tells it the time, and one has it write its tables.
const WORKERS: usize = 3;

/// What the jobs of a node do, that of its links first.
pub(crate) fn duties_for<D: Drop>(
    alloc: Global,
    receivers: Receivers,
    doors: Vec<D>,
) -> Result<Vec<Duty<D>>, AllocError>
    ensures { IfOk result (λ duties. duties.items ≡ duties_of receivers doors.items) }
{
    let count = doors.len().checked_add(WORKERS).ok_or(AllocError)?;
    let mut duties = Vec::with_capacity(alloc, count)?;
    duties.push_reserved(Duty::Links(receivers));
    duties.push_reserved(Duty::Ticks);
    duties.push_reserved(Duty::Merges);
    for door in doors {
        duties.push_reserved(Duty::Connections(door));
    }
    Ok(duties)
}

/// A node with its links and its jobs.
fn assemble_one<R: Replica, D: Drop>(
    alloc: Global,
    node: Node<R>,
    links: NodeLinks,
    doors: Vec<D>,
) -> Result<NodeParts<Wired<R>, D>, AllocError>
    requires runs { Runs R.is_whole R.durable R.Disk.is_honest node }
    requires distinct { AreDistinct links.senders.items }
    ensures { IfOk result (λ part. IsAssembled node links doors part) }
{
    let NodeLinks { senders, receivers } = links;
    let duties = duties_for(alloc, receivers, doors)?;
    Ok(NodeParts {
        state: Wired::new(alloc, node, senders),
        duties,
    })
}

/// Each node with its links, and with its jobs: the three workers, and one for each of its doors.
pub fn assemble<R: Replica, D: Drop>(
    alloc: Global,
    nodes: Vec<Node<R>>,
    links: Vec<NodeLinks>,
    doors: Vec<Vec<D>>,
) -> Result<Vec<NodeParts<Wired<R>, D>>, AllocError>
    requires links { vec_len links ≡ vec_len nodes }
    requires doors { vec_len doors ≡ vec_len nodes }
    requires runs { AllByRecursion (Runs R.is_whole R.durable R.Disk.is_honest) nodes.items }
    requires distinct { AllByRecursion (λ (a : NodeLinks). AreDistinct a.senders.items) links.items }
    ensures { IfOk result (λ parts. AreAssembled nodes.items links.items doors.items parts.items) }
{
    let mut parts = Vec::with_capacity(alloc, nodes.len())?;
    let mut links = links.into_iter();
    let mut doors = doors.into_iter();
    for node in nodes {
        let Some(ends) = links.next() else {
            unreachable!()
        };
        let Some(of_node) = doors.next() else {
            unreachable!()
        };
        parts.push_reserved(assemble_one(alloc, node, ends, of_node)?);
    }
    Ok(parts)
}
