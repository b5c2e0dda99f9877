//! One frame, and what goes out for it.

ghost use Rattle.std.specs.Prelude.{◌≡◌, ◌≤◌, ◌⊎◌, false, Ok, None};
ghost use Rattle.cs_base.specs.Faults.{HasRisen};
ghost use Rattle.session_v4.specs.Sessions.{state_in};
ghost use Rattle.serve_loop.specs.Steps.{Finds, SendsFound, ServesFrame, Steps};

use crate::asking::ask_for;
use crate::sending::send;
use crate::served::{Served, Unsent};
use client_desk::Desk;
use cs_base::NodeId;
use cs_io::{Gate, Link, Point, StopSign};
use frame_v4::Frame;
use response_bodies::Response;
use session_v4::{Act, Session};
use std::alloc::{AllocError, Global};
use std::sync::Wait;

/// Where a connection's requests are served: its runtime, its gate and its node.
#[derive(Drop)]
pub(crate) struct Site<'a, R, G: Gate> {
    pub rt: &'a R,
    pub alloc: Global,
    pub gate: &'a G,
    pub node: NodeId,
}

/// What is due for a frame, or None where the node that was asked for it does not run, or the stop sign is raised before it
/// has answered.
fn response_to<R: Wait, D: Desk, Q: StopSign>(
    rt: &R,
    desk: &mut D,
    session: &mut Session,
    stop: &mut Q,
    frame: &Frame,
) -> Result<Option<Response>, AllocError>
    requires { Q.has_answered stop.old ≡ false }
    ensures finds { Finds (D.asks desk.old) (D.asks desk.new) (state_in session.old) frame.now (Q.has_answered stop.new) result (state_in session.new) }
    ensures stop { (Q.has_answered stop.new ≡ false) ⊎ (result ≡ Ok None) }
    ensures home { D.home desk.new ≡ D.home desk.old }
{
    match session.step(frame)? {
        Act::Reply(response) => Ok(Some(response)),
        Act::Submit(ask) => ask_for(rt, desk, session, stop, frame.stream, ask),
        // No frame closes its connection, but only what is no frame.
        Act::Close(_) => unreachable!(),
    }
}

/// Tells a client what was found for a frame. Otherwise it is how the connection ends.
fn tell<R, L: Link, G: Gate>(
    site: &Site<R, G>,
    link: &mut L,
    frame: &Frame,
    found: &Option<Response>,
) -> Option<Served>
    ensures told { SendsFound found.now result (L.written link.old) (L.written link.new) frame.now.stream }
    ensures unread { L.remaining link.new ≡ L.remaining link.old }
    ensures counted { L.faults link.old ≤ L.faults link.new }
    ensures failed { result ≡ Some Served.LinkFault → HasRisen (L.faults link.old) (L.faults link.new) }
{
    let Some(response) = found else {
        return Some(Served::Ended);
    };
    match send(site.alloc, link, frame.stream, response) {
        Ok(()) => {
            site.gate.pass(site.node, Point::Answered);
            None
        }
        Err(Unsent::Link) => Some(Served::LinkFault),
        Err(Unsent::Memory) => Some(Served::NoMemory),
    }
}

/// Answers a frame, unless the stop sign is raised before there is an answer. Otherwise it is how the connection ends.
pub(crate) fn serve_frame<R: Wait, L: Link, D: Desk, G: Gate, Q: StopSign>(
    site: &Site<R, G>,
    link: &mut L,
    desk: &mut D,
    session: &mut Session,
    stop: &mut Q,
    frame: &Frame,
) -> Option<Served>
    ensures served { Steps (λ asked bytes. ServesFrame result (Q.has_answered stop.new) (state_in session.old) frame.now asked bytes (state_in session.new)) (D.asks desk.old) (D.asks desk.new) (L.written link.old) (L.written link.new) }
    ensures stop { (Q.has_answered stop.new ≡ false) ⊎ (result ≡ Some Served.Ended) }
    ensures home { D.home desk.new ≡ D.home desk.old }
    ensures unread { L.remaining link.new ≡ L.remaining link.old }
    ensures counted { L.faults link.old ≤ L.faults link.new }
    ensures failed { result ≡ Some Served.LinkFault → HasRisen (L.faults link.old) (L.faults link.new) }
{
    if stop.raised() {
        return Some(Served::Ended);
    }
    site.gate.pass(site.node, Point::Taken);
    match response_to(site.rt, desk, session, stop, frame) {
        Ok(found) => tell(site, link, frame, &found),
        Err(AllocError) => Some(Served::NoMemory),
    }
}
