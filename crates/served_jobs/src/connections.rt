//! The connections of a node: the clients of a door, one after another.

ghost use Rattle.std.specs.Prelude.{◌≡◌, [], ◌∷◌, ◌++◌};
ghost use Rattle.std.specs.Option.{option_map};
ghost use Rattle.node_lock.specs.Passes.{IsPassOf, view_of, start_of};
ghost use Rattle.node_lock.specs.Stepped.{IsSamePass};
ghost use Rattle.cs_doors.specs.Lending.{HasLent};
ghost use Rattle.served_jobs.specs.Visits.{Visits, IsVisit};
ghost use Rattle.served_jobs.specs.Doorways.{ServesUntil};

use crate::site::NodeSite;
use cs_base::Failed;
use cs_doors::Door;
use cs_io::{Gate, Link};
use cs_runtime::{Clock, FlagStop};
use node_calls::{NodeCall, NodeReply};
use node_lock::{Pass, Stepper};
use node_workers::LockDesk;
use serve_loop::serve_connection;
use std::sync::Wait;

/// How long one rests at whose door nobody waits, in microseconds.
const PAUSE: u64 = 10_000;

/// Serves the client of a link at a desk of its own, which makes its calls with the pass.
fn serve_client<
    W: Wait,
    N: Stepper<Event = NodeCall, Reply = NodeReply>,
    C: Clock,
    G: Gate,
    L: Link,
>(site: &NodeSite<W, N, C, G>, pass: Pass<N>, link: &mut L) -> Pass<N>
    requires { IsPassOf site.now.lock.now pass }
    ensures lock { IsPassOf site.now.lock.now result }
    ensures pass { IsSamePass (view_of pass) (view_of result) }
    ensures visits { Visits N.steps N.event_of N.reply_of N.refuses (start_of site.now.lock.now) (C.gives site.now.clock.now) site.now.schema.now L.remaining L.written L.faults (view_of pass) link.old link.new (view_of result) }
{
    let mut desk = LockDesk::new(site.rt, site.lock, pass, site.clock, site.stop);
    let mut stop = FlagStop::new(site.stop);
    let _ended = serve_connection(
        site.rt,
        site.alloc,
        link,
        &mut desk,
        site.gate,
        site.schema,
        site.node,
        &mut stop,
    );
    desk.finish()
}

/// Serves the client of a link, which then goes back to its door.
fn serve_link<W: Wait, N: Stepper<Event = NodeCall, Reply = NodeReply>, C: Clock, G: Gate, D: Door>(
    site: &NodeSite<W, N, C, G>,
    pass: Pass<N>,
    door: &mut D,
    link: D::Link,
) -> Pass<N>
    requires lock { IsPassOf site.now.lock.now pass }
    requires lent { HasLent 1 (D.given door.old) (D.returned door.old) }
    ensures lock { IsPassOf site.now.lock.now result }
    ensures pass { IsSamePass (view_of pass) (view_of result) }
    ensures visits { (went : D.Link) × Visits N.steps N.event_of N.reply_of N.refuses (start_of site.now.lock.now) (C.gives site.now.clock.now) site.now.schema.now D.Link.remaining D.Link.written D.Link.faults (view_of pass) link went (view_of result)
        × (D.returned door.new ≡ option_map (λ links. links ++ went ∷ []) (D.returned door.old)) }
    ensures given { D.given door.new ≡ D.given door.old }
    ensures faults { D.faults door.new ≡ D.faults door.old }
{
    let mut link = link;
    let pass = serve_client(site, pass, &mut link);
    door.back(link);
    pass
}

/// Serves the client that waits at the door, or rests where there is none. The stop flag is raised where the door fails, and
/// this is told.
fn take_turn<W: Wait, N: Stepper<Event = NodeCall, Reply = NodeReply>, C: Clock, G: Gate, D: Door>(
    site: &NodeSite<W, N, C, G>,
    pass: Pass<N>,
    door: &mut D,
) -> (Pass<N>, bool)
    requires { IsPassOf site.now.lock.now pass }
    ensures lock { IsPassOf site.now.lock.now result.0 }
    ensures pass { IsSamePass (view_of pass) (view_of result.0) }
    ensures serves { ServesUntil (IsVisit N.steps N.event_of N.reply_of N.refuses (start_of site.now.lock.now) (C.gives site.now.clock.now) site.now.schema.now D.Link.remaining D.Link.written D.Link.faults) D.given D.returned D.faults door.old (view_of pass) door.new (view_of result.0) result.1 }
{
    match door.next() {
        Ok(Some(link)) => (serve_link(site, pass, door, link), false),
        Ok(None) => {
            site.clock.rest(PAUSE);
            (pass, false)
        }
        Err(Failed) => {
            site.raise_stop();
            (pass, true)
        }
    }
}

/// Serves the clients of the door until the stop flag is raised or the door fails, which is told.
pub(crate) fn serve_door<
    W: Wait,
    N: Stepper<Event = NodeCall, Reply = NodeReply>,
    C: Clock,
    G: Gate,
    D: Door,
>(site: &NodeSite<W, N, C, G>, pass: Pass<N>, door: &mut D) -> (Pass<N>, bool)
    requires { IsPassOf site.now.lock.now pass }
    ensures lock { IsPassOf site.now.lock.now result.0 }
    ensures pass { IsSamePass (view_of pass) (view_of result.0) }
    ensures serves { ServesUntil (IsVisit N.steps N.event_of N.reply_of N.refuses (start_of site.now.lock.now) (C.gives site.now.clock.now) site.now.schema.now D.Link.remaining D.Link.written D.Link.faults) D.given D.returned D.faults door.old (view_of pass) door.new (view_of result.0) result.1 }
{
    let mut pass = pass;
    for _ in site.rt.forever() {
        if site.is_stopping() {
            return (pass, false);
        }
        let (later, failed) = take_turn(site, pass, door);
        if failed {
            return (later, true);
        }
        pass = later;
    }
    unreachable!()
}
