//! How the links are made.

ghost use Rattle.std.specs.Prelude.{◌≡◌, ◌+◌, ◌<◌, ◌≤◌, [], ◌∷◌, ◌++◌, map, IfOk};
ghost use Rattle.std.specs.List.{AllByRecursion};
ghost use Rattle.served_links.specs.Ends.{EachLink, LeadToOthers};
ghost use Rattle.served_links.specs.Nodes.{ends_of, upto_of, AreFreshEnds};
ghost use Rattle.wired_node.specs.Sending.{AreDistinct};
ghost use Rattle.served_links.specs.Meetings.{IsMet, meeting};

use crate::ends::NodeLinks;
use node_links::{Receiver, link_between};
use node_workers::Receivers;
use peer_messages::Message;
use std::alloc::{AllocError, Global};
use wired_node::NodeSender;

/// The ends of a link from each of so many nodes to each other one, as the nodes have them, by rising number.
pub fn spread(alloc: Global, nodes: u8) -> Result<Vec<NodeLinks>, AllocError>
    requires { nodes ≤ 7 }
    ensures all { IfOk result (λ all. LeadToOthers upto_of nodes (map ends_of all.items)) }
    ensures distinct { IfOk result (λ all. AllByRecursion (λ a. AreDistinct a.senders) (map ends_of all.items)) }
    ensures fresh { IfOk result (λ all. EachLink AreFreshEnds (map ends_of all.items)) }
{
    let mut all = Vec::new(alloc);
    for node in 0..nodes {
        all = with_node(alloc, all, node)?;
    }
    Ok(all)
}

/// With one node more, and a link to each of those before it and from each.
fn with_node(alloc: Global, before: Vec<NodeLinks>, node: u8) -> Result<Vec<NodeLinks>, AllocError>
    requires few { node < 7 }
    requires all { LeadToOthers upto_of node (map ends_of before.items) }
    requires fresh { EachLink AreFreshEnds (map ends_of before.items) }
    ensures all { IfOk result (λ all. LeadToOthers upto_of (node + 1) (map ends_of all.items)) }
    ensures fresh { IfOk result (λ all. EachLink AreFreshEnds (map ends_of all.items)) }
{
    let mut all = Vec::new(alloc);
    let mut senders = Vec::new(alloc);
    let mut receivers = Vec::new(alloc);
    for other in before {
        let number = all.len() as u8;
        let met = meet(alloc, other, number, node)?;
        all.push(met.node)?;
        senders.push(met.sender)?;
        receivers.push(met.receiver)?;
    }
    all.push(NodeLinks {
        senders,
        receivers: Receivers::from_vec(receivers),
    })?;
    Ok(all)
}

/// A node that has met a new one.
#[derive(Drop)]
struct Meeting {
    /// The node, with a link more to the new one and one more from it.
    node: NodeLinks,
    /// Leads from the new node to this one.
    sender: NodeSender,
    /// Takes what this node puts for the new one.
    receiver: Receiver<Message>,
}

/// Links a node with a new one, both ways.
fn meet(alloc: Global, node: NodeLinks, number: u8, new: u8) -> Result<Meeting, AllocError>
    requires { (number < 7) × (new < 7) }
    ensures met { IfOk result (λ m. IsMet AreFreshEnds (meeting (ends_of node) (ends_of m.node) m.sender m.receiver)) }
    ensures upto { IfOk result (λ m. map upto_of m.node.senders.items ≡ map upto_of node.senders.items ++ new ∷ []) }
    ensures leads { IfOk result (λ m. m.sender.upto ≡ number) }
{
    let there = link_between(alloc, number, new)?;
    let back = link_between(alloc, new, number)?;
    let mut senders = node.senders;
    let mut receivers = node.receivers.into_vec();
    senders.push(NodeSender {
        upto: there.to,
        sender: there.sender,
    })?;
    receivers.push(back.receiver)?;
    Ok(Meeting {
        node: NodeLinks {
            senders,
            receivers: Receivers::from_vec(receivers),
        },
        sender: NodeSender {
            upto: back.to,
            sender: back.sender,
        },
        receiver: there.receiver,
    })
}
