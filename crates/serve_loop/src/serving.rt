//! A connection from its first byte on.

ghost use Rattle.std.specs.Prelude.{◌≡◌, ◌≢◌, ◌≤◌, ◌⊎◌, false, IsTrue};
ghost use Rattle.cs_base.specs.Faults.{HasRisen};
ghost use Rattle.frame_v4.specs.declared.error.FrameError.TheVariants as framing;
ghost use Rattle.session_v4.specs.Sessions.{state_in, IsClosed};
ghost use Rattle.serve_loop.specs.Conversations.{IsConversation};
ghost use Rattle.serve_loop.specs.Steps.{ServesFrames, ServesRead, ServesInput, IsSound, Steps, TellsFault};

use crate::exchange::{Site, serve_frame};
use crate::hearing::{Input, hear};
use crate::sending::send;
use crate::served::{Served, Unsent};
use client_desk::Desk;
use cs_base::NodeId;
use cs_io::{Gate, Link, StopSign};
use frame_v4::{Decoded, Frame, FrameError, Framer};
use schema_book::Schema;
use session_v4::{Act, Session, stream_of};
use std::alloc::{AllocError, Global};
use std::sync::Wait;

/// How many bytes are read at a time.
const PIECE: usize = 65_536;

/// Answers frames, one after another. Otherwise it is how the connection ends.
fn serve_frames<R: Wait, L: Link, D: Desk, G: Gate, Q: StopSign>(
    site: &Site<R, G>,
    link: &mut L,
    desk: &mut D,
    session: &mut Session,
    stop: &mut Q,
    frames: &[Frame],
) -> Option<Served>
    requires { Q.has_answered stop.old ≡ false }
    ensures served { Steps (λ asked bytes. ServesFrames result (Q.has_answered stop.new) (state_in session.old) frames.now asked bytes (state_in session.new)) (D.asks desk.old) (D.asks desk.new) (L.written link.old) (L.written link.new) }
    ensures stop { (Q.has_answered stop.new ≡ false) ⊎ (result ≡ Some Served.Ended) }
    ensures home { D.home desk.new ≡ D.home desk.old }
    ensures unread { L.remaining link.new ≡ L.remaining link.old }
    ensures counted { L.faults link.old ≤ L.faults link.new }
    ensures failed { result ≡ Some Served.LinkFault → HasRisen (L.faults link.old) (L.faults link.new) }
{
    for frame in frames {
        if let Some(end) = serve_frame(site, link, desk, session, stop, frame) {
            return Some(end);
        }
    }
    None
}

/// Tells a peer by this act that what came is no frame.
fn close_by<L: Link>(alloc: Global, link: &mut L, fault: &FrameError, act: &Act) -> Served
    requires { IsClosed fault.now act.now }
    ensures closes { TellsFault result fault.now (L.written link.old) (L.written link.new) }
    ensures unread { L.remaining link.new ≡ L.remaining link.old }
    ensures counted { L.faults link.old ≤ L.faults link.new }
    ensures failed { result ≡ Served.LinkFault → HasRisen (L.faults link.old) (L.faults link.new) }
{
    let Act::Close(response) = act else {
        unreachable!()
    };
    match send(alloc, link, stream_of(fault), response) {
        Ok(()) => Served::Closed,
        Err(Unsent::Link) => Served::LinkFault,
        Err(Unsent::Memory) => Served::NoMemory,
    }
}

/// Tells a peer that what came is no frame.
fn close<L: Link>(alloc: Global, link: &mut L, session: &mut Session, fault: &FrameError) -> Served
    requires { fault.now ≢ framing.NoMemory }
    ensures closes { TellsFault result fault.now (L.written link.old) (L.written link.new) }
    ensures session { state_in session.new ≡ state_in session.old }
    ensures unread { L.remaining link.new ≡ L.remaining link.old }
    ensures counted { L.faults link.old ≤ L.faults link.new }
    ensures failed { result ≡ Served.LinkFault → HasRisen (L.faults link.old) (L.faults link.new) }
{
    match session.refuse(fault) {
        Ok(act) => close_by(alloc, link, fault, &act),
        Err(AllocError) => Served::NoMemory,
    }
}

/// Answers the frames that came, and closes the connection at the fault behind them if there is one.
fn serve_decoded<R: Wait, L: Link, D: Desk, G: Gate, Q: StopSign>(
    site: &Site<R, G>,
    link: &mut L,
    desk: &mut D,
    session: &mut Session,
    stop: &mut Q,
    decoded: &Decoded,
) -> Option<Served>
    requires stop { Q.has_answered stop.old ≡ false }
    requires fault { decoded.now.refusal ≢ Some framing.NoMemory }
    ensures served { Steps (λ asked bytes. ServesRead result (Q.has_answered stop.new) (state_in session.old) decoded.now.frames decoded.now.refusal asked bytes (state_in session.new)) (D.asks desk.old) (D.asks desk.new) (L.written link.old) (L.written link.new) }
    ensures stop { (Q.has_answered stop.new ≡ false) ⊎ (result ≡ Some Served.Ended) }
    ensures home { D.home desk.new ≡ D.home desk.old }
    ensures unread { L.remaining link.new ≡ L.remaining link.old }
    ensures counted { L.faults link.old ≤ L.faults link.new }
    ensures failed { result ≡ Some Served.LinkFault → HasRisen (L.faults link.old) (L.faults link.new) }
{
    let frames = decoded.frames.as_slice();
    if let Some(end) = serve_frames(site, link, desk, session, stop, frames) {
        return Some(end);
    }
    match &decoded.refusal {
        Some(fault) => Some(close(site.alloc, link, session, fault)),
        None => None,
    }
}

/// Answers what came of a peer. Otherwise it is how the connection ends.
fn serve_input<R: Wait, L: Link, D: Desk, G: Gate, Q: StopSign>(
    site: &Site<R, G>,
    link: &mut L,
    desk: &mut D,
    session: &mut Session,
    stop: &mut Q,
    input: &Input,
) -> Option<Served>
    requires stop { Q.has_answered stop.old ≡ false }
    requires sound { IsSound input.now }
    ensures served { Steps (λ asked bytes. ServesInput result (Q.has_answered stop.new) input.now (state_in session.old) asked bytes (state_in session.new)) (D.asks desk.old) (D.asks desk.new) (L.written link.old) (L.written link.new) }
    ensures stop { (Q.has_answered stop.new ≡ false) ⊎ (result ≡ Some Served.Ended) }
    ensures home { D.home desk.new ≡ D.home desk.old }
    ensures unread { L.remaining link.new ≡ L.remaining link.old }
    ensures counted { L.faults link.old ≤ L.faults link.new }
    ensures failed { result ≡ Some Served.LinkFault → HasRisen (L.faults link.old) (L.faults link.new) }
{
    match input {
        Input::Frames(decoded) => serve_decoded(site, link, desk, session, stop, decoded),
        Input::Idle => stop.raised().then_some(Served::Ended),
        Input::End => Some(Served::Ended),
    }
}

/// Serves the client of a link, until it sends nothing more, is told a fault of its stream, or the stop sign is raised; its
/// requests go to the desk, one after another, and pass the gate as the node's.
///
/// The sign is looked at before each frame, where the peer sends nothing, and where a request has no answer yet: the last
/// request of a connection that ends so may stay without an answer. One that was answered has its response written before the
/// connection ends, unless the link fails or memory runs out.
pub fn serve_connection<R: Wait, L: Link, D: Desk, G: Gate, Q: StopSign>(
    rt: &R,
    alloc: Global,
    link: &mut L,
    desk: &mut D,
    gate: &G,
    schema: &Schema,
    node: NodeId,
    stop: &mut Q,
) -> Served
    requires { Q.has_answered stop.old ≡ false }
    // What was written is the responses to the frames that came, in order, up to the end that is told.
    ensures conversation { IsConversation schema.now (L.remaining link.old) (L.remaining link.new) (D.asks desk.old) (D.asks desk.new)
        (L.written link.old) (L.written link.new) (Q.has_answered stop.new) result }

    // Nothing follows a sign that is raised, and a fault of the link has its cause.
    ensures stopped { IsTrue (Q.has_answered stop.new) → result ≡ Served.Ended }
    ensures counted { L.faults link.old ≤ L.faults link.new }
    ensures failed { result ≡ Served.LinkFault → HasRisen (L.faults link.old) (L.faults link.new) }

    // It is the same desk.
    ensures home { D.home desk.new ≡ D.home desk.old }
{
    let Ok(mut buffer) = vec![in alloc; 0; PIECE] else {
        return Served::NoMemory;
    };
    let site = Site {
        rt,
        alloc,
        gate,
        node,
    };
    let mut session = Session::new(alloc, schema);
    let mut framer = Framer::new(alloc);
    for _ in 0..u64::MAX {
        match hear(link, &mut framer, buffer.as_mut_slice()) {
            Ok(input) => {
                if let Some(end) = serve_input(&site, link, desk, &mut session, stop, &input) {
                    return end;
                }
            }
            Err(end) => return end,
        }
    }
    Served::NoMemory
}
