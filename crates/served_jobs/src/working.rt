//! The work of jobs, by kind.

ghost use Rattle.std.specs.Prelude.{◌≡◌, false};
ghost use Rattle.node_lock.specs.Passes.{IsPassOf, view_of};
ghost use Rattle.node_lock.specs.Stepped.{IsSamePass};
ghost use Rattle.served_jobs.specs.Works.{Works};

use crate::connections::serve_door;
use crate::done::JobDone;
use crate::duty::Duty;
use crate::site::NodeSite;
use cs_doors::Door;
use cs_io::Gate;
use cs_runtime::Clock;
use node_calls::{NodeCall, NodeReply};
use node_lock::{Pass, Stepper};
use node_workers::{Ended, Receivers, link_worker, merge_worker, timer_worker};
use std::sync::Wait;

fn deliver<W: Wait, N: Stepper<Event = NodeCall, Reply = NodeReply>, C: Clock, G: Gate, D: Door>(
    site: &NodeSite<W, N, C, G>,
    pass: Pass<N>,
    receivers: Receivers,
) -> JobDone<N, D>
    requires { IsPassOf site.now.lock.now pass }
    ensures lock { IsPassOf site.now.lock.now result.pass }
    ensures pass { IsSamePass (view_of pass) (view_of result.pass) }
    ensures started { result.unstarted ≡ false }
    ensures works { Works N.steps N.event_of N.reply_of N.refuses C.gives D.Link.remaining D.Link.written D.Link.faults D.given D.returned D.faults site.now (Duty.Links receivers) pass result }
{
    let mut pass = pass;
    let mut receivers = receivers;
    let ended = link_worker(
        site.rt,
        site.lock,
        &mut pass,
        &mut receivers,
        site.clock,
        site.stop,
    );
    JobDone {
        pass,
        duty: Duty::Links(receivers),
        ended,
        door_failed: false,
        unstarted: false,
    }
}

fn tick<W: Wait, N: Stepper<Event = NodeCall, Reply = NodeReply>, C: Clock, G: Gate, D: Door>(
    site: &NodeSite<W, N, C, G>,
    pass: Pass<N>,
) -> JobDone<N, D>
    requires { IsPassOf site.now.lock.now pass }
    ensures lock { IsPassOf site.now.lock.now result.pass }
    ensures pass { IsSamePass (view_of pass) (view_of result.pass) }
    ensures started { result.unstarted ≡ false }
    ensures works { Works N.steps N.event_of N.reply_of N.refuses C.gives D.Link.remaining D.Link.written D.Link.faults D.given D.returned D.faults site.now Duty.Ticks pass result }
{
    let mut pass = pass;
    let ended = timer_worker(site.rt, site.lock, &mut pass, site.clock, site.stop);
    JobDone {
        pass,
        duty: Duty::Ticks,
        ended,
        door_failed: false,
        unstarted: false,
    }
}

fn merge<W: Wait, N: Stepper<Event = NodeCall, Reply = NodeReply>, C: Clock, G: Gate, D: Door>(
    site: &NodeSite<W, N, C, G>,
    pass: Pass<N>,
) -> JobDone<N, D>
    requires { IsPassOf site.now.lock.now pass }
    ensures lock { IsPassOf site.now.lock.now result.pass }
    ensures pass { IsSamePass (view_of pass) (view_of result.pass) }
    ensures started { result.unstarted ≡ false }
    ensures works { Works N.steps N.event_of N.reply_of N.refuses C.gives D.Link.remaining D.Link.written D.Link.faults D.given D.returned D.faults site.now Duty.Merges pass result }
{
    let mut pass = pass;
    let ended = merge_worker(site.rt, site.lock, &mut pass, site.clock, site.stop);
    JobDone {
        pass,
        duty: Duty::Merges,
        ended,
        door_failed: false,
        unstarted: false,
    }
}

fn connect<W: Wait, N: Stepper<Event = NodeCall, Reply = NodeReply>, C: Clock, G: Gate, D: Door>(
    site: &NodeSite<W, N, C, G>,
    pass: Pass<N>,
    door: D,
) -> JobDone<N, D>
    requires { IsPassOf site.now.lock.now pass }
    ensures lock { IsPassOf site.now.lock.now result.pass }
    ensures pass { IsSamePass (view_of pass) (view_of result.pass) }
    ensures started { result.unstarted ≡ false }
    ensures works { Works N.steps N.event_of N.reply_of N.refuses C.gives D.Link.remaining D.Link.written D.Link.faults D.given D.returned D.faults site.now (Duty.Connections door) pass result }
{
    let mut door = door;
    let (pass, door_failed) = serve_door(site, pass, &mut door);
    JobDone {
        pass,
        duty: Duty::Connections(door),
        ended: Ended {
            failed: false,
            held: None,
        },
        door_failed,
        unstarted: false,
    }
}

/// Does the work of a job.
pub(crate) fn work_at<
    W: Wait,
    N: Stepper<Event = NodeCall, Reply = NodeReply>,
    C: Clock,
    G: Gate,
    D: Door,
>(site: &NodeSite<W, N, C, G>, pass: Pass<N>, duty: Duty<D>) -> JobDone<N, D>
    requires { IsPassOf site.now.lock.now pass }
    ensures lock { IsPassOf site.now.lock.now result.pass }
    ensures pass { IsSamePass (view_of pass) (view_of result.pass) }
    ensures started { result.unstarted ≡ false }
    ensures works { Works N.steps N.event_of N.reply_of N.refuses C.gives D.Link.remaining D.Link.written D.Link.faults D.given D.returned D.faults site.now duty pass result }
{
    match duty {
        Duty::Links(receivers) => deliver(site, pass, receivers),
        Duty::Ticks => tick(site, pass),
        Duty::Merges => merge(site, pass),
        Duty::Connections(door) => connect(site, pass, door),
    }
}
