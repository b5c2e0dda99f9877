//! The desk of a connection.

use crate::outcome::{into_answer, into_name};
use crate::parts::DeskParts;
use crate::site::{Site, next_look};
use client_desk::{Answer, Desk};
use cs_base::ReqId;
use cs_runtime::Clock;
use http_server::Log;
use node_calls::{NodeCall, NodeReply};
use node_lock::{NodeLock, Pass, Stepper};
use peer_messages::{Ask, Event, What};
use std::marker::Model;
use std::snapshot::Snapshot;
use std::sync::Wait;
use std::sync::atomic::AtomicBool;

/// Rests where there is no answer yet after so many microseconds.
fn rest_without<C: Clock>(clock: &C, answer: &Option<Answer>, waited: u64) {
    if answer.is_none() {
        clock.rest(next_look(waited));
    }
}

/// A desk at a node that stands under a lock. Each call of the desk is one call of the node, made with the desk's own pass.
///
/// The stop flag is raised where a call tells that the node has failed. A request that the node takes without a name for it is
/// answered as if there was no memory.
#[derive(Drop)]
pub struct LockDesk<'a, W, N: Stepper<Event = NodeCall, Reply = NodeReply>, C: Clock> {
    parts: DeskParts<'a, W, N, C>,
}

impl<'a, W, N: Stepper<Event = NodeCall, Reply = NodeReply>, C: Clock> Model
    for LockDesk<'a, W, N, C> {
    ghost use Rattle.node_workers.specs.declared.parts.DeskParts.{DeskParts};

    ghost Value = { DeskParts W N C N.Entry };

    ghost use Rattle.node_workers.specs.Desks.{IsAtLock};

    ghost view = { λ a. a.parts };

    ghost invariant = { λ a. IsAtLock N.steps N.event_of N.reply_of N.refuses C.gives a.parts };
}

impl<'a, W: Wait, N: Stepper<Event = NodeCall, Reply = NodeReply>, C: Clock> LockDesk<'a, W, N, C> {
    ghost use Rattle.std.specs.Prelude.{◌≡◌, []};
    ghost use Rattle.node_lock.specs.Passes.{IsPassOf, view_of, start_of};
    ghost use Rattle.node_lock.specs.Stepped.{IsSamePass};
    ghost use Rattle.node_workers.specs.Asking.{AreOfDesk};
    ghost use Rattle.node_workers.specs.Chains.{Makes};
    ghost use Rattle.node_workers.specs.Desks.{lock_of, clock_of, since_of, calls_of};

    /// A desk that makes its calls with this pass.
    pub fn new(
        rt: &'a W,
        lock: &'a NodeLock<N>,
        pass: Pass<N>,
        clock: &'a C,
        stop: &'a AtomicBool,
    ) -> LockDesk<'a, W, N, C>
        requires { IsPassOf lock.now pass }
        ensures lock { lock_of result ≡ lock.entry.now }
        ensures clock { clock_of result ≡ clock.entry.now }
        ensures since { since_of result ≡ view_of pass }
        ensures calls { calls_of result ≡ [] }
    {
        let since = Snapshot::of(&pass);
        LockDesk {
            parts: DeskParts {
                site: Site {
                    rt,
                    lock,
                    clock,
                    stop,
                },
                pass,
                since,
                calls: Log::new(),
            },
        }
    }

    /// Gives the pass back, which has made the calls of the desk and no other.
    pub fn finish(self) -> Pass<N>
        ensures lock { IsPassOf (lock_of self.entry) result }
        ensures pass { IsSamePass (since_of self.entry) (view_of result) }
        ensures made { Makes N.steps N.event_of N.reply_of N.refuses (start_of (lock_of self.entry)) (since_of self.entry) (calls_of self.entry) (view_of result) }
        ensures calls { AreOfDesk (C.gives (clock_of self.entry)) (calls_of self.entry) }
    {
        self.parts.pass
    }
}

impl<'a, W: Wait, N: Stepper<Event = NodeCall, Reply = NodeReply>, C: Clock> Desk
    for LockDesk<'a, W, N, C> {
    ghost use Rattle.std.specs.Prelude.{◌≡◌};
    ghost use Rattle.client_desk.specs.Asks.{Submits, IsAwaited, Collects};
    ghost use Rattle.node_calls.specs.Calls.{call_of, optional_call_of};
    ghost use Rattle.node_workers.specs.Calls.{event_at, name_by as named_by, answer_by as answered_by};
    ghost use Rattle.node_workers.specs.Desks.{asks_at, CallsOnce};
    ghost use Rattle.node_workers.specs.declared.parts.DeskParts.{DeskParts};
    ghost use Rattle.peer_messages.specs.declared.event.What.TheVariants.{Client, Collect};

    type Home = (Site<'a, W, N, C>, Snapshot<Pass<N>>);

    ghost home = { λ (d : DeskParts W N C N.Entry). record { 0 = d.site; 1 = d.since } };

    ghost asks = { λ (d : DeskParts W N C N.Entry). asks_at d };

    fn submit(&mut self, ask: Ask) -> Result<ReqId, Answer>
        ensures submits { Submits (asks_at self.old) ask result (asks_at self.new) }
        ensures calls { CallsOnce N.steps N.event_of N.reply_of N.refuses C.gives self.old (λ clock. call_of (event_at clock (Client ask))) named_by result self.new }
    {
        let clock = self.parts.site.clock.now();
        let what = What::Client(ask);
        into_name(self.parts.call(NodeCall::new(Event { clock, what })))
    }

    fn collect(&mut self, request: ReqId) -> Option<Answer>
        requires { IsAwaited (asks_at self.old) request }
        ensures collects { Collects (asks_at self.old) request result (asks_at self.new) }
        ensures calls { CallsOnce N.steps N.event_of N.reply_of N.refuses C.gives self.old (λ clock. optional_call_of (event_at clock (Collect request))) answered_by result self.new }
    {
        let clock = self.parts.site.clock.now();
        let waited = clock.count().saturating_sub(request.time.count());
        let what = What::Collect(request);
        let answer = into_answer(self.parts.call(NodeCall::optional(Event { clock, what })));
        rest_without(self.parts.site.clock, &answer, waited);
        answer
    }
}
