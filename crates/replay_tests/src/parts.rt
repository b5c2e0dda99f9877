//! Nodes that are put together with links and doors.

ghost use Rattle.std.specs.Prelude.{◌≡◌, ◌≤◌, IfOk, vec_len};
ghost use Rattle.std.specs.List.{AllByRecursion};
ghost use Rattle.served_assembly.specs.Assembling.{Runs};

use cs_base::{Items, Micros};
use cs_doors::MemDoor;
use cs_store::{MemStore, MemStores, Store};
use node_core::Node;
use peer_messages::{Setting, TableSetting};
use replica::Replica;
use served_assembly::assemble;
use served_links::spread;
use served_nodes::NodeParts;
use served_stores::load_nodes;
use std::alloc::{AllocError, Global};
use token_ring::Ring;
use wired_node::Wired;

/// What each of two nodes knows: of one table, of which both of them are replicas.
pub(crate) fn setting(alloc: Global) -> Result<Setting, AllocError> {
    let Ok(ring) = Ring::new(&[-3, 3]) else {
        return Err(AllocError);
    };
    Ok(Setting {
        ring,
        tables: Items::from_vec(vec![in alloc; TableSetting { factor: 2 }]?),
        expiry: Micros::new(1_000_000_000),
    })
}

/// The nodes, loaded from formatted stores.
fn loaded<R: Replica<Disk = MemStore>>(alloc: Global) -> Result<Vec<Node<R>>, AllocError>
    ensures few { IfOk result (λ nodes. vec_len nodes ≤ 7) }
    ensures runs { IfOk result (λ nodes. AllByRecursion (Runs R.is_whole R.durable (Unit {0})) nodes.items) }
{
    let setting = setting(alloc)?;
    let mut stores = MemStores::formatted(alloc)?;
    match load_nodes::<R, MemStores>(alloc, &mut stores, "", &setting) {
        Ok(nodes) => Ok(nodes),
        Err(_) => Err(AllocError),
    }
}

/// Links each node with each other one, and puts it together with its doors.
fn put_together<R: Replica>(
    alloc: Global,
    nodes: Vec<Node<R>>,
    doors: Vec<Vec<MemDoor>>,
) -> Result<Vec<NodeParts<Wired<R>, MemDoor>>, AllocError>
    requires few { vec_len nodes ≤ 7 }
    requires runs { AllByRecursion (Runs R.is_whole R.durable R.Disk.is_honest) nodes.items }
    requires doors { vec_len doors ≡ vec_len nodes }
{
    let links = spread(alloc, nodes.len() as u8)?;
    assemble(alloc, nodes, links, doors)
}

/// The two nodes on formatted stores, with links to each other, and these doors, a list for each.
pub(crate) fn parts<R: Replica<Disk = MemStore>>(
    alloc: Global,
    doors: Vec<Vec<MemDoor>>,
) -> Result<Vec<NodeParts<Wired<R>, MemDoor>>, AllocError> {
    let nodes = loaded::<R>(alloc)?;
    if doors.len() != nodes.len() {
        return Err(AllocError);
    }
    put_together(alloc, nodes, doors)
}
