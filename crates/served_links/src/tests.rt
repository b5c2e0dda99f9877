//! What one node puts for another is what that one takes from it.

ghost use Rattle.std.specs.Prelude.{◌≤◌};

use crate::{NodeLinks, settle, spread};
use cs_base::{Micros, NodeId, ReqId};
use peer_messages::{Body, Message};
use std::alloc::{AllocError, Global};
use std::test::Fail;

// A message from one node to another.
fn message_between(from: NodeId, upto: NodeId) -> Message {
    let time = Micros::new(1);
    Message {
        from,
        upto,
        time,
        born: time,
        request: ReqId { node: from, time },
        body: Body::WriteAck,
    }
}

// The node puts a message for each other one, and tells for which.
fn put_each(node: NodeId, links: &mut NodeLinks, reached: &mut Vec<(u8, u8)>) -> Result<(), Fail> {
    for sender in links.senders.iter_mut() {
        let message = message_between(node, sender.upto);
        if sender.sender.put(message).is_none() {
            reached.push((node.number(), sender.upto.number()))?;
        }
    }
    Ok(())
}

// The node takes a message from each other one, and tells from which to which it goes.
fn take_each(links: NodeLinks, taken: &mut Vec<(u8, u8)>) -> Result<(), Fail> {
    for receiver in links.receivers.into_vec() {
        let mut receiver = receiver;
        if let Some(message) = receiver.take() {
            taken.push((message.from.number(), message.upto.number()))?;
        }
    }
    Ok(())
}

#[test]
fn each_message_comes_to_its_node(rt: HostRuntime) -> Result<(), Fail> {
    let mut all = spread(rt.alloc(), 3)?;
    let mut reached = Vec::new(rt.alloc());
    let mut number = 0;
    for links in all.iter_mut() {
        put_each(NodeId::new(number).ok_or("a node")?, links, &mut reached)?;
        number = number.wrapping_add(1);
    }
    assert_eq!(rt;
        reached.as_slice(),
        [(0, 1), (0, 2), (1, 0), (1, 2), (2, 0), (2, 1)].as_slice()
    );
    let mut taken = Vec::new(rt.alloc());
    for links in all {
        take_each(links, &mut taken)?;
    }
    assert_eq!(rt;
        taken.as_slice(),
        [(1, 0), (2, 0), (0, 1), (2, 1), (0, 2), (1, 2)].as_slice()
    );
    Ok(())
}

// How many nodes there were, once their fresh links are settled.
fn settle_fresh(alloc: Global, nodes: u8) -> Result<usize, AllocError>
    requires { nodes ≤ 7 }
{
    let all = spread(alloc, nodes)?;
    let count = all.len();
    settle(all);
    Ok(count)
}

#[test]
fn fresh_links_are_settled(rt: HostRuntime) -> Result<(), Fail> {
    for nodes in 0u8..8 {
        assert_eq!(rt; settle_fresh(rt.alloc(), nodes)?, usize::from(nodes));
    }
    Ok(())
}
