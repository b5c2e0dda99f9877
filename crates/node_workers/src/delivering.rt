//! The worker that delivers the messages of a node's links.

ghost use Rattle.std.specs.Prelude.{◌<◌, length};
ghost use Rattle.node_lock.specs.Passes.{IsPassOf, view_of, start_of};
ghost use Rattle.node_lock.specs.Stepped.{IsSamePass};
ghost use Rattle.node_workers.specs.Endings.{ended_as};
ghost use Rattle.node_workers.specs.Deliveries.{DeliversOne, Delivers};

use crate::ended::{Ended, go_on, into_ended};
use crate::receivers::Receivers;
use crate::site::{SHORTEST, Site, longer};
use cs_runtime::Clock;
use node_calls::{NodeCall, NodeReply};
use node_lock::{NodeLock, Pass, Stepper};
use peer_messages::{Event, Message, What};
use std::sync::Wait;
use std::sync::atomic::AtomicBool;

/// Delivers a message. The stop flag is raised where the history has no room for it.
fn deliver<W: Wait, N: Stepper<Event = NodeCall, Reply = NodeReply>, C: Clock>(
    site: &Site<W, N, C>,
    pass: &mut Pass<N>,
    message: Message,
) -> Ended
    requires { IsPassOf site.now.lock.now pass.old }
    ensures lock { IsPassOf site.now.lock.now pass.new }
    ensures delivers { DeliversOne N.steps N.event_of N.reply_of N.refuses (start_of site.now.lock.now) (C.gives site.now.clock.now) message (view_of pass.old) (view_of pass.new) result }
{
    let clock = site.clock.now();
    let what = What::Deliver(message);
    let ended = into_ended(site.call(pass, NodeCall::new(Event { clock, what })));
    if ended.held.is_some() {
        site.raise_stop();
    }
    ended
}

/// Takes a message from the link at this place, and delivers it. An `Ok` says whether there was one, and an `Err` is how
/// the worker ends.
fn take_in<W: Wait, N: Stepper<Event = NodeCall, Reply = NodeReply>, C: Clock>(
    site: &Site<W, N, C>,
    pass: &mut Pass<N>,
    receivers: &mut Receivers,
    place: usize,
) -> Result<bool, Ended>
    requires pass { IsPassOf site.now.lock.now pass.old }
    requires place { place < length receivers.old }
    ensures lock { IsPassOf site.now.lock.now pass.new }
    ensures delivers { Delivers N.steps N.event_of N.reply_of N.refuses (start_of site.now.lock.now) (C.gives site.now.clock.now) receivers.old (view_of pass.old) receivers.new (view_of pass.new) (ended_as result) }
{
    match receivers.take(place) {
        Some(message) => go_on(deliver(site, pass, message)),
        None => Ok(false),
    }
}

/// Takes in a message of each link, and says whether there was one.
fn take_round<W: Wait, N: Stepper<Event = NodeCall, Reply = NodeReply>, C: Clock>(
    site: &Site<W, N, C>,
    pass: &mut Pass<N>,
    receivers: &mut Receivers,
) -> Result<bool, Ended>
    requires pass { IsPassOf site.now.lock.now pass.old }
    ensures lock { IsPassOf site.now.lock.now pass.new }
    ensures delivers { Delivers N.steps N.event_of N.reply_of N.refuses (start_of site.now.lock.now) (C.gives site.now.clock.now) receivers.old (view_of pass.old) receivers.new (view_of pass.new) (ended_as result) }
{
    let mut found = false;
    for place in 0..receivers.len() {
        if take_in(site, pass, receivers, place)? {
            found = true;
        }
    }
    Ok(found)
}

/// Delivers messages until the stop flag is raised and no link has one, or the worker ends.
fn deliver_all<W: Wait, N: Stepper<Event = NodeCall, Reply = NodeReply>, C: Clock>(
    site: &Site<W, N, C>,
    pass: &mut Pass<N>,
    receivers: &mut Receivers,
) -> Ended
    requires { IsPassOf site.now.lock.now pass.old }
    ensures lock { IsPassOf site.now.lock.now pass.new }
    ensures delivers { Delivers N.steps N.event_of N.reply_of N.refuses (start_of site.now.lock.now) (C.gives site.now.clock.now) receivers.old (view_of pass.old) receivers.new (view_of pass.new) result }
{
    let mut rest = SHORTEST;
    for _ in site.rt.forever() {
        match take_round(site, pass, receivers) {
            Err(ended) => return ended,
            Ok(true) => rest = SHORTEST,
            Ok(false) => {
                if site.is_stopping() {
                    return Ended::well();
                }
                site.clock.rest(rest);
                rest = longer(rest);
            }
        }
    }
    unreachable!()
}

/// Delivers the messages of a node's links, each link's in order, until the stop flag is raised and no link has a message.
///
/// A message that the node refuses is dropped. The worker ends at once, and raises the stop flag, where the node has failed,
/// and where its history is full: then it holds the message that it took last.
pub fn link_worker<W: Wait, N: Stepper<Event = NodeCall, Reply = NodeReply>, C: Clock>(
    rt: &W,
    lock: &NodeLock<N>,
    pass: &mut Pass<N>,
    receivers: &mut Receivers,
    clock: &C,
    stop: &AtomicBool,
) -> Ended
    requires { IsPassOf lock.now pass.old }
    ensures lock { IsPassOf lock.now pass.new }
    ensures pass { IsSamePass (view_of pass.old) (view_of pass.new) }
    ensures delivers { Delivers N.steps N.event_of N.reply_of N.refuses (start_of lock.now) (C.gives clock.now) receivers.old (view_of pass.old) receivers.new (view_of pass.new) result }
{
    let site = Site {
        rt,
        lock,
        clock,
        stop,
    };
    deliver_all(&site, pass, receivers)
}
