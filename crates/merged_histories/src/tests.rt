//! Histories made by hand.

use crate::{NodeHistory, PlacedEvent, merged};
use cs_base::{Items, Micros, NodeId, ReqId};
use http_server::Log;
use node_calls::{NodeCall, NodeReply};
use node_core::StepError;
use peer_messages::{Body, Event, Message, Outputs, What};
use std::alloc::{AllocError, Global};
use std::snapshot::Snapshot;
use std::test::Fail;
use wired_node::NodeEntry;

fn entry(alloc: Global, clock: u64, what: What) -> (u32, NodeEntry) {
    let told: Result<Outputs, StepError> = Ok(Outputs {
        time: Micros::new(0),
        started: None,
        sends: Items::new(alloc),
        entries: Items::new(alloc),
        tables: None,
        refused: false,
    });
    let reply = NodeReply {
        started: None,
        answer: None,
        tables: None,
        failed: false,
    };
    let entry = NodeEntry {
        call: NodeCall::new(Event {
            clock: Micros::new(clock),
            what,
        }),
        told: Snapshot::of(&told),
        sent: Log::new(),
        reply: Snapshot::of(&reply),
    };
    (0, entry)
}

/// A message that the first node sent at a time.
fn sent_at(time: u64) -> What {
    What::Deliver(Message {
        from: NodeId::FIRST,
        upto: NodeId::FIRST,
        time: Micros::new(time),
        born: Micros::new(time),
        request: ReqId {
            node: NodeId::FIRST,
            time: Micros::new(time),
        },
        body: Body::WriteAck,
    })
}

/// The node of an event, its clock's reading, and whether a message comes.
fn show(placed: &PlacedEvent) -> (u8, u64, bool) {
    let comes = match &placed.event.what {
        What::Deliver(_) => true,
        _ => false,
    };
    (placed.node.number(), placed.event.clock.count(), comes)
}

/// The merged events of histories that start at these times.
fn shown(
    alloc: Global,
    starts: &[u64],
    histories: &[Vec<(u32, NodeEntry)>],
) -> Result<Vec<(u8, u64, bool)>, AllocError> {
    let all = starts
        .iter()
        .zip(histories)
        .map(|(start, entries)| NodeHistory {
            start: Micros::new(*start),
            entries: entries.as_slice(),
        })
        .collect::<Vec<NodeHistory>>(alloc)?;
    if all.len() > 7 {
        return Err(AllocError);
    }
    let events = merged(alloc, all.as_slice())?;
    events.iter().map(show).collect(alloc)
}

/// The second node's clock is behind, and its step with the message stands behind the one that sent it.
#[test]
fn messages_stand_behind_their_steps(rt: HostRuntime) -> Result<(), Fail> {
    let alloc = rt.alloc();
    let first = vec![in alloc;
        entry(alloc, 100, What::Tick),
        entry(alloc, 103, What::Tick),
    ]?;
    let second = vec![in alloc;
        entry(alloc, 5, What::Tick),
        entry(alloc, 10, sent_at(100)),
        entry(alloc, 20, What::Tick),
    ]?;
    let histories = vec![in alloc; first, second]?;
    let wanted = [
        (1, 5, false),
        (0, 100, false),
        (1, 10, true),
        (1, 20, false),
        (0, 103, false),
    ];
    assert_eq!(rt;
        shown(alloc, &[0, 0], histories.as_slice())?.as_slice(),
        wanted.as_slice()
    );
    Ok(())
}

#[test]
fn equal_times_stand_by_node(rt: HostRuntime) -> Result<(), Fail> {
    let alloc = rt.alloc();
    let first = vec![in alloc; entry(alloc, 7, What::Tick), entry(alloc, 9, What::Tick)]?;
    let second = vec![in alloc; entry(alloc, 7, What::Tick)]?;
    let third = vec![in alloc; entry(alloc, 1, What::Tick)]?;
    let histories = vec![in alloc; first, second, third]?;
    let wanted = [(0, 7, false), (1, 7, false), (2, 1, false), (0, 9, false)];
    assert_eq!(rt;
        shown(alloc, &[0, 0, 6], histories.as_slice())?.as_slice(),
        wanted.as_slice()
    );
    Ok(())
}

/// A message comes a microsecond too early, and then again.
#[test]
fn message_from_ahead_counts_as_a_tick(rt: HostRuntime) -> Result<(), Fail> {
    let alloc = rt.alloc();
    let first = vec![in alloc;
        entry(alloc, 500, sent_at(60_001_001)),
        entry(alloc, 501, sent_at(60_001_001)),
    ]?;
    let second = vec![in alloc; entry(alloc, 1002, What::Tick)]?;
    let histories = vec![in alloc; first, second]?;
    let wanted = [(0, 500, false), (1, 1002, false), (0, 501, true)];
    assert_eq!(rt;
        shown(alloc, &[1000, 0], histories.as_slice())?.as_slice(),
        wanted.as_slice()
    );
    Ok(())
}
