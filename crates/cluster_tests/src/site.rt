//! A node on a store in memory, as its tests step it.

ghost use Rattle.std.specs.Prelude.{◌≡◌, true};
ghost use Rattle.cs_store.specs.Mem.{IsAllSettled};
ghost use Rattle.replica.specs.Kept.{IsKeptOf};

use crate::words::{outcome, word};
use cs_base::{Micros, NodeId};
use cs_store::{MemStore, Outcome};
use node_core::{Node, StepError};
use peer_messages::{Event, Outputs, Setting, What};
use replica::MemReplica;
use std::alloc::{AllocError, Global};
use std::marker::Model;

/// A node over a replica, of which nothing is known but that it can be stepped.
#[derive(Drop)]
pub(crate) struct Site<R: MemReplica> {
    node: Node<R>,
}

impl<R: MemReplica> Model for Site<R> {
    ghost Value = { Unit {0} };

    ghost view = { λ _. tt };

    ghost invariant = { λ a. a.node.core.runs ≡ true → R.is_whole a.node.replica × IsKeptOf (R.durable a.node.replica) a.node.core.kept };
}

impl<R: MemReplica> Site<R> {
    /// Loads the node from a store, which is neither damaged nor fails.
    pub(crate) fn load(
        alloc: Global,
        me: NodeId,
        setting: Setting,
        store: MemStore,
    ) -> Result<Site<R>, AllocError>
        requires { IsAllSettled store }
    {
        match Node::load(alloc, me, setting, store) {
            Ok(node) => Ok(Site { node }),
            Err(_) => Err(AllocError),
        }
    }

    /// Takes what comes, at this reading of the clock.
    pub(crate) fn step(
        &mut self,
        alloc: Global,
        clock: u64,
        what: What,
    ) -> Result<Outputs, StepError> {
        let clock = Micros::new(clock);
        self.node.step(alloc, Event { clock, what })
    }

    /// The nodes that it takes for dead.
    pub(crate) fn down(&self) -> &[NodeId] {
        self.node.core.down()
    }

    /// `fault NODE CALL HOW OUTCOME`: a call of its store fails, or stops the node, counted from now. At 0 nothing happens.
    pub(crate) fn plan_fault(&mut self, line: &str) {
        let call = word(line, 2).parse().unwrap_or(0);
        if call == 0 {
            return;
        }
        match word(line, 3) {
            "fails" => self.node.replica.fail_at(call),
            _ => self.node.replica.stop_at(call, outcome(word(line, 4))),
        }
    }

    /// Its store, once the node has crashed.
    pub(crate) fn crashed(self, outcome: Outcome) -> MemStore
        ensures { IsAllSettled result }
    {
        let mut store = self.node.release();
        store.crash(outcome);
        store
    }
}
