//! What a desk is made of.

use crate::outcome::Outcome;
use crate::site::Site;
use http_server::Log;
use node_calls::{NodeCall, NodeReply};
use node_lock::{Pass, Stepper};
use std::snapshot::Snapshot;
use std::sync::Wait;

/// A desk, as its contracts see it.
///
/// Its last two fields are for proofs alone and take no memory: the pass as it was at first, and the calls that the desk has
/// made with it.
#[derive(Drop)]
pub struct DeskParts<'a, W, N: Stepper<Event = NodeCall, Reply = NodeReply>, C> {
    pub site: Site<'a, W, N, C>,
    pub pass: Pass<N>,
    pub since: Snapshot<Pass<N>>,
    pub calls: Log<Snapshot<NodeCall>, Outcome>,
}

impl<'a, W: Wait, N: Stepper<Event = NodeCall, Reply = NodeReply>, C> DeskParts<'a, W, N, C> {
    ghost use Rattle.std.specs.Prelude.{◌≡◌, [], ◌∷◌, ◌++◌};
    ghost use Rattle.node_lock.specs.Passes.{IsPassOf, view_of, start_of};
    ghost use Rattle.node_lock.specs.Stepped.{IsSamePass};
    ghost use Rattle.node_workers.specs.Calls.{called};
    ghost use Rattle.node_workers.specs.Chains.{Comes};
    ghost use Rattle.node_workers.specs.Desks.{lock_of, calls_of};

    /// Makes a call with the pass.
    pub fn call(&mut self, call: NodeCall) -> Outcome
        requires { IsPassOf (lock_of self.old) self.old.pass }
        ensures lock { IsPassOf (lock_of self.new) self.new.pass }
        ensures pass { IsSamePass (view_of self.old.pass) (view_of self.new.pass) }
        ensures comes { Comes N.steps N.event_of N.reply_of N.refuses (start_of (lock_of self.old)) (view_of self.old.pass) call result (view_of self.new.pass) }
        ensures calls { calls_of self.new ≡ calls_of self.old ++ called call result ∷ [] }
        ensures site { self.new.site ≡ self.old.site }
        ensures since { self.new.since ≡ self.old.since }
    {
        let kept = Snapshot::of(&call);
        let outcome = self.site.call(&mut self.pass, call);
        self.calls = self.calls.and(&kept, &outcome);
        outcome
    }
}
