//! All links between the nodes of a process.

ghost use Rattle.std.specs.Prelude.{◌≡◌, ◌==◌, ◌<◌, ◌≤◌, [], ◌∷◌, ◌++◌, if◌then◌else◌, map, All, IfOk, OnOk};
ghost use Rattle.node_links.specs.Links.{ends_of, IsFresh};
ghost use Rattle.node_links.specs.Pairs.{pairs_of};

use crate::ends::{Receiver, Sender};
use crate::link::{LINK_ROOM, Link};
use cs_base::{Items, NodeId};
use rtrb::RingBuffer;
use std::alloc::{AllocError, Global};

/// A link for each ordered pair of different nodes, by rising sending node and then by rising receiving node.
///
/// Each holds [`LINK_ROOM`] messages, for which it takes the memory: neither a put nor a take takes any.
pub fn links<M: Drop>(alloc: Global, nodes: u8) -> Result<Items<Link<M>>, AllocError>
    requires { nodes ≤ 7 }
    ensures pairs { IfOk result (λ all. map ends_of all ≡ pairs_of nodes) }
    ensures fresh { IfOk result (All IsFresh) }
{
    let mut all = Items::new(alloc);
    for from in 0..nodes {
        for to in 0..nodes {
            add(alloc, &mut all, from, to)?;
        }
    }
    Ok(all)
}

/// Adds the link between two nodes, if they are different.
fn add<M: Drop>(alloc: Global, all: &mut Items<Link<M>>, from: u8, to: u8) -> Result<(), AllocError>
    requires { (from < 7) × (to < 7) }
    ensures pairs { OnOk result (map ends_of all.new ≡ map ends_of all.old ++ (if to == from then [] else (from, to) ∷ [])) }
    ensures fresh { OnOk result (All IsFresh all.old → All IsFresh all.new) }
{
    if to != from {
        all.push(link_between(alloc, from, to)?)?;
    }
    Ok(())
}

/// A link between two nodes, with its memory.
pub fn link_between<M: Drop>(alloc: Global, from: u8, to: u8) -> Result<Link<M>, AllocError>
    requires { (from < 7) × (to < 7) }
    ensures pair { IfOk result (λ made. ends_of made ≡ (from, to)) }
    ensures fresh { IfOk result IsFresh }
{
    let from = NodeId::new(from).unwrap();
    let to = NodeId::new(to).unwrap();
    let (producer, consumer) = RingBuffer::new(alloc, LINK_ROOM)?;
    Ok(Link {
        from,
        to,
        sender: Sender { producer },
        receiver: Receiver { consumer },
    })
}
