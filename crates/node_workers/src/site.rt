//! Where calls are made.

use crate::outcome::{Outcome, has_failed};
use node_calls::{NodeCall, NodeReply};
use node_lock::{NodeLock, Pass, Stepper};
use std::sync::Wait;
use std::sync::atomic::{AtomicBool, Ordering};

/// How long one rests at first that waits for a message or an answer, in microseconds.
pub(crate) const SHORTEST: u64 = 20;

/// And at last.
const LONGEST: u64 = 200;

/// How long one rests between two looks at the clock, in microseconds.
pub(crate) const TURN: u64 = 1_000;

/// How long one rests who waits for a message, rested so long and found none again: a message that follows others soon is not
/// kept waiting, and links on which nothing comes take little of the processor's time.
pub(crate) fn longer(rest: u64) -> u64 {
    rest.saturating_mul(2).min(LONGEST)
}

/// How long one rests who has waited so long for an answer: looks at the node grow rarer, and none comes later than it must by
/// more than a quarter of what the answer took.
pub(crate) fn next_look(waited: u64) -> u64 {
    (waited / 4).max(SHORTEST).min(LONGEST)
}

/// A locked node, with the runtime and the clock of whoever steps it, and the program's stop flag.
#[derive(Drop)]
pub struct Site<'a, W, N: Stepper<Event = NodeCall, Reply = NodeReply>, C> {
    pub rt: &'a W,
    pub lock: &'a NodeLock<N>,
    pub clock: &'a C,
    pub stop: &'a AtomicBool,
}

impl<'a, W: Wait, N: Stepper<Event = NodeCall, Reply = NodeReply>, C> Site<'a, W, N, C> {
    ghost use Rattle.node_lock.specs.Passes.{IsPassOf, view_of, start_of};
    ghost use Rattle.node_lock.specs.Stepped.{IsSamePass};
    ghost use Rattle.node_workers.specs.Chains.{Comes};

    /// Makes a call. The stop flag is raised where the node failed.
    pub fn call(&self, pass: &mut Pass<N>, call: NodeCall) -> Outcome
        requires { IsPassOf self.now.lock.now pass.old }
        ensures lock { IsPassOf self.now.lock.now pass.new }
        ensures pass { IsSamePass (view_of pass.old) (view_of pass.new) }
        ensures comes { Comes N.steps N.event_of N.reply_of N.refuses (start_of self.now.lock.now) (view_of pass.old) call result (view_of pass.new) }
    {
        let outcome = self.lock.step(self.rt, pass, call);
        if has_failed(&outcome) {
            self.raise_stop();
        }
        outcome
    }

    pub fn raise_stop(&self) {
        self.stop.store(true, Ordering::SeqCst);
    }

    pub fn is_stopping(&self) -> bool {
        self.stop.load(Ordering::SeqCst)
    }
}
