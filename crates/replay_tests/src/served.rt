//! A served run of two nodes with a client each.

use crate::clients::doors;
use crate::frames::push_rows;
use crate::numbered::{Numbered, with_numbers};
use crate::parts::parts;
use crate::running::run;
use client_desk::Answer;
use cs_base::{Level, Micros, NodeId};
use cs_doors::MemDoor;
use event_copies::copy_ask;
use merged_histories::{NodeHistory, PlacedEvent, merged};
use node_calls::NodeCall;
use node_lock::Stepper;
use peer_messages::{Ask, Event, Plan, What};
use replica::{MemReplica, Replica};
use served_jobs::Duty;
use served_nodes::{JobLeft, NodeLeft};
use std::alloc::{AllocError, Global};
use std::sync::Wait;
use std::test::Fail;
use std::thread::Threads;
use wired_node::Wired;

/// A served run that has ended: its events in order, what each node's client was sent, and what each node shows for a last read at
/// ONE, which asks for the same.
#[derive(Drop)]
pub(crate) struct Served {
    pub events: Vec<Numbered>,
    pub sent: Vec<Vec<u8>>,
    pub shown: Vec<Vec<u8>>,
}

fn history_of<R: Replica>(left: &NodeLeft<Wired<R>, MemDoor>) -> NodeHistory<'_> {
    NodeHistory {
        start: Micros::new(0),
        entries: left.history.as_slice(),
    }
}

/// The events of two nodes that were loaded from formatted stores, in one order.
fn events<R: Replica>(
    alloc: Global,
    left: &[NodeLeft<Wired<R>, MemDoor>],
) -> Result<Vec<PlacedEvent>, AllocError> {
    let [one, other] = left else {
        return Err(AllocError);
    };
    merged(alloc, &[history_of(one), history_of(other)])
}

/// What the client of a node was sent that came to one of these jobs.
fn sent(jobs: &[JobLeft<MemDoor>]) -> Option<&[u8]> {
    for job in jobs {
        if let Duty::Connections(door) = &job.duty
            && let Some(link) = door.returned().first()
        {
            return Some(link.written());
        }
    }
    None
}

fn is_read(ask: &Ask) -> bool {
    matches!(&ask.plan, Plan::Read(..))
}

fn read_of(numbered: &Numbered) -> Option<&Ask> {
    match &numbered.placed.event.what {
        What::Client(ask) if is_read(ask) => Some(ask),
        _ => None,
    }
}

/// The last read of a run, at ONE.
pub(crate) fn last_read(alloc: Global, events: &[Numbered]) -> Result<Ask, AllocError> {
    let mut last = Err(AllocError);
    for numbered in events {
        if let Some(ask) = read_of(numbered) {
            last = copy_ask(alloc, ask);
        }
    }
    let mut ask = last?;
    ask.level = Level::One;
    Ok(ask)
}

/// What a node shows for a read at ONE, of its own rows, as a result on no stream.
fn shown<R: Replica>(node: &mut Wired<R>, alloc: Global, ask: Ask) -> Result<Vec<u8>, AllocError> {
    let clock = Micros::new(0);
    let what = What::Client(ask);
    let Ok((_, reply)) = node.step(NodeCall::new(Event { clock, what })) else {
        return Err(AllocError);
    };
    let what = What::Collect(reply.started.ok_or(AllocError)?);
    let Ok((_, reply)) = node.step(NodeCall::new(Event { clock, what })) else {
        return Err(AllocError);
    };
    let mut out = Vec::new(alloc);
    if let Some(Answer::Rows(rows, _)) = reply.answer {
        push_rows(alloc, &mut out, 0, rows.as_slice())?;
    }
    Ok(out)
}

/// What the client of a node was sent, and what the node shows for this read.
fn told<R: Replica>(
    left: NodeLeft<Wired<R>, MemDoor>,
    alloc: Global,
    ask: Ask,
) -> Result<(Vec<u8>, Vec<u8>), Fail> {
    let NodeLeft { state, jobs, .. } = left;
    let mut state = state;
    let sent = Vec::from_slice(alloc, sent(&jobs).ok_or("a client")?)?;
    Ok((sent, shown(&mut state, alloc, ask)?))
}

/// What is left of a run of which these are the events.
fn served_by<R: Replica>(
    left: Vec<NodeLeft<Wired<R>, MemDoor>>,
    alloc: Global,
    events: Vec<Numbered>,
) -> Result<Served, Fail> {
    let mut all_sent = Vec::new(alloc);
    let mut all_shown = Vec::new(alloc);
    for node in left {
        let (sent, shown) = told(node, alloc, last_read(alloc, &events)?)?;
        all_sent.push(sent)?;
        all_shown.push(shown)?;
    }
    Ok(Served {
        events,
        sent: all_sent,
        shown: all_shown,
    })
}

/// Serves the clients of two nodes until they are answered.
pub(crate) fn serve<R, W>(rt: &W, alloc: Global) -> Result<Served, Fail>
where
    R: MemReplica + Send,
    W: Threads + Wait + Sync + Copy,
{
    let nodes = [NodeId::FIRST, NodeId::new(1).ok_or("a node")?];
    let parts = parts::<R>(alloc, doors(alloc)?)?;
    let left = run(rt, alloc, nodes, parts)?;
    let events = with_numbers::<R>(alloc, events(alloc, &left)?)?;
    served_by(left, alloc, events)
}
