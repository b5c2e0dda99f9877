//! The events of one node, each with the node time to which its step rose.

ghost use Rattle.std.specs.Prelude.{◌≡◌, ◌<◌, ◌≤◌, ◌+◌, ◌^◌, max, map, IfOk};
ghost use Rattle.merged_histories.specs.Timed.{timed_event as timed_event_of, timed_from, event_in};

use crate::times::{risen, seen_event};
use cs_base::{Micros, NodeId};
use peer_messages::Event;
use std::alloc::{AllocError, Global};
use std::collections::VecDeque;
use wired_node::NodeEntry;

/// An event, and the node that takes it.
#[derive(Drop)]
pub struct PlacedEvent {
    pub node: NodeId,
    pub event: Event,
}

/// With the node time at the end of its step.
#[derive(Drop)]
pub(crate) struct Timed {
    pub time: u128,
    pub placed: PlacedEvent,
}

fn timed_event(alloc: Global, node: NodeId, time: u128, event: &Event) -> Result<Timed, AllocError>
    requires { time < 2 ^ 127 }
    ensures value { IfOk result (λ timed. timed ≡ timed_event_of node time event.now) }
    ensures within { IfOk result (λ timed. timed.time ≤ max (time + 1) (2 ^ 64)) }
{
    let event_seen = seen_event(alloc, time, event)?;
    Ok(Timed {
        time: risen(time, event),
        placed: PlacedEvent {
            node,
            event: event_seen,
        },
    })
}

/// The events of a node's history, which starts at a node time.
pub(crate) fn timed_events(
    alloc: Global,
    node: NodeId,
    start: Micros,
    entries: &[(u32, NodeEntry)],
) -> Result<VecDeque<Timed>, AllocError>
    ensures { IfOk result (λ queue. queue.items ≡ timed_from node start (map event_in entries.now)) }
{
    let mut queue = VecDeque::with_capacity(alloc, entries.len())?;
    let mut time = u128::from(start.count());
    for entry in entries {
        let timed = timed_event(alloc, node, time, &entry.1.call.event)?;
        time = timed.time;
        queue.push_back(timed)?;
    }
    Ok(queue)
}
