//! A node of which an operator asks.

ghost use Rattle.std.specs.Prelude.{◌≡◌};
ghost use Rattle.node_lock.specs.Passes.{IsPassOf};

use crate::told::Outcome;
use cs_runtime::Clock;
use node_calls::{NodeCall, NodeReply};
use node_lock::{Pass, Stepper};
use node_workers::Site;
use peer_messages::{Event, What};
use std::sync::Wait;

/// A node of which an operator asks, under its lock, and the pass with which it is asked.
#[derive(Drop)]
pub struct OperatedNode<'a, W, N: Stepper<Event = NodeCall, Reply = NodeReply>, C> {
    pub site: Site<'a, W, N, C>,
    pub pass: Pass<N>,
    ghost of_lock: { IsPassOf site.lock.now pass },
}

impl<'a, W, N: Stepper<Event = NodeCall, Reply = NodeReply>, C> OperatedNode<'a, W, N, C> {
    /// The pass is one of the site's lock.
    pub fn new(site: Site<'a, W, N, C>, pass: Pass<N>) -> OperatedNode<'a, W, N, C>
        requires { IsPassOf site.lock.now pass }
        ensures site { result.site ≡ site.entry }
        ensures pass { result.pass ≡ pass }
    {
        OperatedNode { site, pass }
    }
}

impl<'a, W: Wait, N: Stepper<Event = NodeCall, Reply = NodeReply>, C: Clock> OperatedNode<
    'a,
    W,
    N,
    C,
> {
    ghost use Rattle.served_console.specs.Nodes.{Asks};

    /// Asks this of the node now.
    pub(crate) fn ask(&mut self, what: What) -> Outcome
        ensures { Asks N.steps N.event_of N.reply_of N.refuses C.gives self.old what result self.new }
    {
        let clock = self.site.clock.now();
        self.site
            .call(&mut self.pass, NodeCall::new(Event { clock, what }))
    }
}
