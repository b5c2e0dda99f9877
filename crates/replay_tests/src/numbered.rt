//! Messages by their numbers: what nodes beside a run send to each other that take the same events.

use crate::parts::parts;
use changes::Mutation;
use cs_doors::MemDoor;
use cs_store::MemStore;
use event_copies::copy_event;
use merged_histories::PlacedEvent;
use node_calls::NodeCall;
use node_links::Receiver;
use node_lock::Stepper;
use peer_messages::{Body, Event, Message, What};
use replica::Replica;
use served_jobs::Duty;
use served_nodes::NodeParts;
use std::alloc::{AllocError, Global};
use std::test::Fail;
use wired_node::Wired;

/// An event of a run, and of a message that comes its number among all those that its node ever sent to this one.
#[derive(Drop)]
pub(crate) struct Numbered {
    pub placed: PlacedEvent,
    pub number: u64,
}

fn is_same_mutation(a: &Mutation, b: &Mutation) -> bool {
    a.partition == b.partition && a.changes.as_slice() == b.changes.as_slice()
}

fn is_same_body(a: &Body, b: &Body) -> bool {
    match (a, b) {
        (Body::Write(a), Body::Write(b)) | (Body::Mend(a), Body::Mend(b)) => {
            is_same_mutation(a, b)
        }
        (Body::Read(a), Body::Read(b)) => a == b,
        (Body::ReadReply(a), Body::ReadReply(b)) => a.is_same(b),
        (Body::WriteAck, Body::WriteAck) | (Body::MendAck, Body::MendAck) => true,
        _ => false,
    }
}

fn is_same(a: &Message, b: &Message) -> bool {
    let ends = a.from == b.from && a.upto == b.upto;
    let times = a.time == b.time && a.born == b.born;
    ends && times && a.request == b.request && is_same_body(&a.body, &b.body)
}

/// A node that takes the same events as one of the run, and what the other one has sent to it.
#[derive(Drop)]
struct Twin<R: Replica> {
    node: Wired<R>,
    receivers: Vec<Receiver<Message>>,
    heard: u64,
}

/// The node of these parts, whose first duty has its links.
fn twin_of<R: Replica>(part: NodeParts<Wired<R>, MemDoor>) -> Result<Twin<R>, AllocError> {
    let NodeParts { state, duties } = part;
    match duties.into_iter().next() {
        Some(Duty::Links(receivers)) => Ok(Twin {
            node: state,
            receivers: receivers.into_vec(),
            heard: 0,
        }),
        _ => Err(AllocError),
    }
}

fn twins<R: Replica<Disk = MemStore>>(alloc: Global) -> Result<Vec<Twin<R>>, AllocError> {
    let doors = vec![in alloc; Vec::new(alloc), Vec::new(alloc)]?;
    let mut twins = Vec::new(alloc);
    for part in parts::<R>(alloc, doors)? {
        twins.push(twin_of(part)?)?;
    }
    Ok(twins)
}

impl<R: Replica> Twin<R> {
    /// The message is the next one that was sent to the node.
    fn hear(&mut self, message: &Message) -> Result<(), Fail> {
        let receiver = self.receivers.first_mut().ok_or("a link")?;
        let sent = receiver.take().ok_or("a message that was sent")?;
        if !is_same(&sent, message) {
            return Err("the message that was sent".into());
        }
        self.heard = self.heard.wrapping_add(1);
        Ok(())
    }

    /// Takes an event, and tells how many messages were heard.
    fn take(&mut self, alloc: Global, event: &Event) -> Result<u64, Fail> {
        if let What::Deliver(message) = &event.what {
            self.hear(message)?;
        }
        match self.node.step(NodeCall::new(copy_event(alloc, event)?)) {
            Ok(_) => Ok(self.heard),
            Err(_) => Err("a step".into()),
        }
    }
}

/// The events of a run with the numbers of their messages. It fails where a message that came is not the next one that was sent.
pub(crate) fn with_numbers<R: Replica<Disk = MemStore>>(
    alloc: Global,
    events: Vec<PlacedEvent>,
) -> Result<Vec<Numbered>, Fail> {
    let mut twins = twins::<R>(alloc)?;
    let mut all = Vec::new(alloc);
    for placed in events {
        let place = usize::from(placed.node.number());
        let twin = twins.get_mut(place).ok_or("a node")?;
        let number = twin.take(alloc, &placed.event)?;
        all.push(Numbered { placed, number })?;
    }
    Ok(all)
}
