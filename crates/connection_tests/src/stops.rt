//! Signs that are raised, gates that hold, and nodes that stop.

ghost use Rattle.std.specs.Prelude.{◌≡◌, false};

use crate::node::Node;
use crate::rows::{Talk, frames};
use crate::talks::{Went, cut, serve, talk_once};
use crate::usual::USUAL;
use cluster_model::ClusterEvent;
use cs_base::NodeId;
use cs_io::{HoldGate, MemLink, NeverStop, OpenGate, Passage, Point, StopSign};
use cs_store::Outcome;
use serve_loop::Served;
use std::alloc::{AllocError, Global};
use std::sync::Wait;
use std::test::Fail;

/// Raised at the look of this number, and ever after.
#[derive(Drop)]
struct StopAt {
    look: u32,
    looks: u32,
}

impl StopSign for StopAt {
    ghost use Rattle.std.specs.Prelude.{nat_le};

    ghost has_answered = { λ s. nat_le s.look s.looks };

    fn raised(&mut self) -> bool {
        self.looks = self.looks.saturating_add(1);
        self.look <= self.looks
    }
}

/// The first rows of a table.
fn front(alloc: Global, rows: &str, count: u32) -> Result<Talk, AllocError> {
    let mut talk = Talk::new(alloc);
    for row in rows.lines().take(count as usize) {
        talk.add_frames(row)?;
    }
    Ok(talk)
}

/// A conversation whose sign is raised at a look, in pieces of this length with an idle behind each.
fn stopped_at<R: Wait>(
    rt: &R,
    alloc: Global,
    talk: &Talk,
    len: usize,
    look: u32,
) -> Result<Went, Fail> {
    let pieces = cut(alloc, &talk.input, len)?;
    let mut link = MemLink::new(alloc, pieces, 1000, Vec::new(alloc));
    let mut sign = StopAt {
        look: look.max(1),
        looks: 0,
    };
    talk_once(rt, alloc, &mut link, &mut sign)
}

/// A sign is looked at before each frame. What comes is no frame at last, which is told without a look.
#[test]
fn a_sign_is_looked_at_before_each_frame(rt: HostRuntime) -> Result<(), Fail> {
    let talk = frames(rt.alloc(), USUAL)?;
    for count in 0..7 {
        let answered = front(rt.alloc(), USUAL, count)?;
        let went = stopped_at(&rt, rt.alloc(), &talk, 286, count.saturating_add(1))?;
        assert_eq!(rt; went.served, Served::Ended);
        assert_eq!(rt; went.written.as_slice(), answered.output.as_slice());
    }
    let went = stopped_at(&rt, rt.alloc(), &talk, 286, 8)?;
    assert_eq!(rt; went.served, Served::Closed);
    assert_eq!(rt; went.written.as_slice(), talk.output.as_slice());
    Ok(())
}

/// A frame is whole behind so many bytes.
const WHOLE: [u32; 7] = [31, 53, 100, 166, 213, 262, 277];

/// How many frames are answered before the look of this number, where bytes come one after another with an idle behind each: behind
/// each byte there is a look, and another one between a frame's last byte and its answer.
fn answered_before(look: u32) -> u32 {
    let mut count: u32 = 0;
    for end in &WHOLE {
        if u32::saturating_add(*end, count) < look {
            count = count.saturating_add(1);
        }
    }
    count
}

#[test]
fn a_sign_is_looked_at_while_the_peer_is_idle(rt: HostRuntime) -> Result<(), Fail> {
    let talk = frames(rt.alloc(), USUAL)?;
    for look in 1..=292 {
        let answered = front(rt.alloc(), USUAL, answered_before(look))?;
        let went = stopped_at(&rt, rt.alloc(), &talk, 1, look)?;
        assert_eq!(rt; went.served, Served::Ended, "look {look}");
        assert_eq!(rt;
            went.written.as_slice(),
            answered.output.as_slice(),
            "look {look}"
        );
    }
    let went = stopped_at(&rt, rt.alloc(), &talk, 1, 293)?;
    assert_eq!(rt; went.served, Served::Closed);
    Ok(())
}

fn passage(node: NodeId, point: Point, number: u64) -> Passage {
    Passage {
        node,
        point,
        number,
    }
}

/// The usual conversation with this node, whose requests pass the gate.
fn through<R: Wait>(
    rt: &R,
    alloc: Global,
    node: &mut Node,
    talk: &Talk,
    gate: &HoldGate,
) -> Result<Went, Fail> {
    let pieces = cut(alloc, &talk.input, 100)?;
    let mut link = MemLink::new(alloc, pieces, 1000, Vec::new(alloc));
    Ok(serve(rt, alloc, node, &mut link, gate, &mut NeverStop)?)
}

/// Whether the usual conversation with a node that has just begun is whole, and each of its seven requests passed the gate.
fn passes<R: Wait>(rt: &R, alloc: Global, talk: &Talk, gate: &HoldGate) -> Result<bool, Fail> {
    let mut node = Node::new(alloc)?;
    let went = through(rt, alloc, &mut node, talk, gate)?;
    Ok(
        went.served == Served::Closed
            && went.written.as_slice() == talk.output.as_slice()
            && gate.count(NodeId::FIRST, Point::Taken) == 7
            && gate.count(NodeId::FIRST, Point::Answered) == 7,
    )
}

/// Each request passes the gate before it is answered and behind that. One that is held until the one before it is answered goes on
/// at once, and one that is held until it is answered itself goes on behind its turns.
#[test]
fn requests_pass_the_gate(rt: HostRuntime) -> Result<(), Fail> {
    let talk = frames(rt.alloc(), USUAL)?;
    let first = NodeId::FIRST;
    for (answer, turns) in &[(3, u64::MAX), (4, 1000)] {
        let held = passage(first, Point::Taken, 4);
        let gate = HoldGate::new(held, passage(first, Point::Answered, *answer), *turns);
        assert!(rt; passes(&rt, rt.alloc(), &talk, &gate)?);
    }
    Ok(())
}

/// At which call of its store the node stops, or 0 for before the conversation, what a crash leaves, and whether the row is there once
/// it is loaded again.
const STOPS: [(u32, Outcome, bool); 8] = [
    (0, Outcome::Kept, false),
    (1, Outcome::Kept, false),
    (1, Outcome::Torn, false),
    (2, Outcome::Lost, false),
    (3, Outcome::Kept, true),
    (3, Outcome::Lost, false),
    (3, Outcome::Torn, false),
    (4, Outcome::Kept, true),
];

fn stopping(alloc: Global, call: u32, outcome: Outcome) -> Result<Node, Fail> {
    let event = if call == 0 {
        ClusterEvent::Crash(NodeId::FIRST, outcome)
    } else {
        ClusterEvent::StopAt(NodeId::FIRST, call, outcome)
    };
    Node::new(alloc)?.behind(alloc, event)
}

/// Another connection to the node, once it is loaded again.
fn once_again<R: Wait>(rt: &R, alloc: Global, node: Node, talk: &Talk) -> Result<Went, Fail> {
    let mut node = node.behind(alloc, ClusterEvent::Restart(NodeId::FIRST))?;
    let pieces = cut(alloc, &talk.input, 100)?;
    let mut link = MemLink::new(alloc, pieces, 1000, Vec::new(alloc));
    Ok(serve(rt, alloc, &mut node, &mut link, &OpenGate, &mut NeverStop)?)
}

/// The one row, and none.
const THERE: &str =
    "04 00 0000 01 00000016 0001 000B 43514C5F56455253494F4E 0005 332E302E30 => 84 00 0000 02 00000000
04 00 0001 07 00000025 l`SELECT v FROM ks.t WHERE k = 1` 0001 00 => 84 00 0001 08 00000021 00000002 00000001 00000001 s`ks` s`t` s`v` 000D 00000001 l`x`";

const NOT_THERE: &str =
    "04 00 0000 01 00000016 0001 000B 43514C5F56455253494F4E 0005 332E302E30 => 84 00 0000 02 00000000
04 00 0001 07 00000025 l`SELECT v FROM ks.t WHERE k = 1` 0001 00 => 84 00 0001 08 0000001C 00000002 00000001 00000001 s`ks` s`t` s`v` 000D 00000000";

/// Whether a node that stops at this call of its store ends the conversation behind these answers without a fault of the link, and
/// answers a later one as it should once it is loaded again.
fn stops_at<R: Wait>(
    rt: &R,
    alloc: Global,
    talk: &Talk,
    answered: &Talk,
    stop: (u32, Outcome),
    later: &Talk,
) -> Result<bool, Fail> {
    let held = passage(NodeId::FIRST, Point::Taken, 0);
    let gate = HoldGate::new(held, held, 0);
    let mut node = stopping(alloc, stop.0, stop.1)?;
    let went = through(rt, alloc, &mut node, talk, &gate)?;
    let is_ended = went.served == Served::Ended
        && went.faults == 0
        && went.written.as_slice() == answered.output.as_slice()
        && gate.count(NodeId::FIRST, Point::Taken) == 4
        && gate.count(NodeId::FIRST, Point::Answered) == 3;
    let went = once_again(rt, alloc, node, later)?;
    Ok(
        is_ended
            && went.served == Served::Ended
            && went.written.as_slice() == later.output.as_slice(),
    )
}

/// The EXECUTE is not answered, and the connection ends behind the three responses before it.
#[test]
fn a_node_that_stops_ends_the_connection(rt: HostRuntime) -> Result<(), Fail> {
    let talk = frames(rt.alloc(), USUAL)?;
    let answered = front(rt.alloc(), USUAL, 3)?;
    for (call, outcome, is_there) in &STOPS {
        let later = frames(rt.alloc(), if *is_there { THERE } else { NOT_THERE })?;
        let held = stops_at(&rt, rt.alloc(), &talk, &answered, (*call, *outcome), &later)?;
        assert!(rt; held, "{call} {outcome:?}");
    }
    Ok(())
}
