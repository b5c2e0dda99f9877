//! The workers that make one call again and again.

ghost use Rattle.std.specs.Prelude.{◌↔◌, IsTrue};
ghost use Rattle.node_lock.specs.Passes.{IsPassOf, view_of, start_of};
ghost use Rattle.node_lock.specs.Stepped.{IsSamePass};
ghost use Rattle.node_workers.specs.Repeating.{what_of, IsDue, CallsFor, failed_as, RepeatsFrom, Repeats};
ghost use Rattle.peer_messages.specs.declared.event.What.TheVariants.{Flush, Tick};

use crate::chore::Chore;
use crate::ended::Ended;
use crate::outcome::{has_failed, is_full};
use crate::site::{Site, TURN};
use cs_base::Micros;
use cs_runtime::Clock;
use node_calls::{NodeCall, NodeReply};
use node_lock::{NodeLock, Pass, Stepper};
use peer_messages::Event;
use std::sync::Wait;
use std::sync::atomic::AtomicBool;

/// How far the clock goes between two calls, in microseconds.
const PERIOD: u64 = 10_000;

fn is_due(last: Option<Micros>, clock: Micros) -> bool
    ensures { IsTrue result ↔ IsDue last clock }
{
    match last {
        None => true,
        Some(last) => clock.count().saturating_sub(last.count()) >= PERIOD,
    }
}

/// Calls for a chore, and says whether the node has failed. The stop flag is raised where the history has no room for it.
fn call_for<W: Wait, N: Stepper<Event = NodeCall, Reply = NodeReply>, C: Clock>(
    site: &Site<W, N, C>,
    pass: &mut Pass<N>,
    chore: Chore,
    clock: Micros,
) -> bool
    requires { IsPassOf site.now.lock.now pass.old }
    ensures lock { IsPassOf site.now.lock.now pass.new }
    ensures calls { CallsFor N.steps N.event_of N.reply_of N.refuses (start_of site.now.lock.now) (what_of chore) clock (view_of pass.old) (view_of pass.new) result }
{
    let what = chore.what();
    let outcome = site.call(pass, NodeCall::optional(Event { clock, what }));
    if is_full(&outcome) {
        site.raise_stop();
    }
    has_failed(&outcome)
}

/// Calls for a chore where it is due, and rests else. Says whether the node has failed.
fn take_turn<W: Wait, N: Stepper<Event = NodeCall, Reply = NodeReply>, C: Clock>(
    site: &Site<W, N, C>,
    pass: &mut Pass<N>,
    chore: Chore,
    last: &mut Option<Micros>,
) -> bool
    requires { IsPassOf site.now.lock.now pass.old }
    ensures lock { IsPassOf site.now.lock.now pass.new }
    ensures repeats { RepeatsFrom N.steps N.event_of N.reply_of N.refuses (start_of site.now.lock.now) (C.gives site.now.clock.now) (what_of chore) last.old (view_of pass.old) last.new (view_of pass.new) (failed_as result) }
{
    let clock = site.clock.now();
    if !is_due(*last, clock) {
        site.clock.rest(TURN);
        return false;
    }
    *last = Some(clock);
    call_for(site, pass, chore, clock)
}

/// Calls for a chore again and again, until the stop flag is raised or the node has failed.
fn repeat<W: Wait, N: Stepper<Event = NodeCall, Reply = NodeReply>, C: Clock>(
    site: &Site<W, N, C>,
    pass: &mut Pass<N>,
    chore: Chore,
) -> Ended
    requires { IsPassOf site.now.lock.now pass.old }
    ensures lock { IsPassOf site.now.lock.now pass.new }
    ensures repeats { Repeats N.steps N.event_of N.reply_of N.refuses (start_of site.now.lock.now) (C.gives site.now.clock.now) (what_of chore) (view_of pass.old) (view_of pass.new) result }
{
    let mut last = None;
    for _ in site.rt.forever() {
        if site.is_stopping() {
            return Ended::well();
        }
        if take_turn(site, pass, chore, &mut last) {
            return Ended::failed();
        }
    }
    unreachable!()
}

/// Tells a node the time, each time that the clock has gone on by 10,000 microseconds, where the node has something to do.
///
/// It ends where the stop flag is raised, and where the node has failed: then it raises the flag. It raises the flag too where
/// the node's history is full.
pub fn timer_worker<W: Wait, N: Stepper<Event = NodeCall, Reply = NodeReply>, C: Clock>(
    rt: &W,
    lock: &NodeLock<N>,
    pass: &mut Pass<N>,
    clock: &C,
    stop: &AtomicBool,
) -> Ended
    requires { IsPassOf lock.now pass.old }
    ensures lock { IsPassOf lock.now pass.new }
    ensures pass { IsSamePass (view_of pass.old) (view_of pass.new) }
    ensures ticks { Repeats N.steps N.event_of N.reply_of N.refuses (start_of lock.now) (C.gives clock.now) Tick (view_of pass.old) (view_of pass.new) result }
{
    let site = Site {
        rt,
        lock,
        clock,
        stop,
    };
    repeat(&site, pass, Chore::Tick)
}

/// Has a node write its tables where its log has grown. When it does so and how it ends is as for the
/// [timer](crate::timer_worker).
pub fn merge_worker<W: Wait, N: Stepper<Event = NodeCall, Reply = NodeReply>, C: Clock>(
    rt: &W,
    lock: &NodeLock<N>,
    pass: &mut Pass<N>,
    clock: &C,
    stop: &AtomicBool,
) -> Ended
    requires { IsPassOf lock.now pass.old }
    ensures lock { IsPassOf lock.now pass.new }
    ensures pass { IsSamePass (view_of pass.old) (view_of pass.new) }
    ensures flushes { Repeats N.steps N.event_of N.reply_of N.refuses (start_of lock.now) (C.gives clock.now) Flush (view_of pass.old) (view_of pass.new) result }
{
    let site = Site {
        rt,
        lock,
        clock,
        stop,
    };
    repeat(&site, pass, Chore::Flush)
}
