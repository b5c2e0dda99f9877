//! The state under a node's lock.

ghost use Rattle.std.specs.Prelude.{◌≡◌, true, false, []};

use crate::entry::NodeEntry;
use crate::linked::LinkedNode;
use crate::senders::NodeSender;
use cs_store::Store;
use node_calls::{NodeCall, NodeReply};
use node_core::Node;
use node_lock::Stepper;
use replica::Replica;
use std::alloc::Global;
use std::marker::Model;
use std::snapshot::Snapshot;

/// A node, the links that lead from it to the others, and the answers that it has told and that were not collected yet.
///
/// A node that has stopped takes no call. The answers that it kept are lost with it.
#[derive(Drop)]
pub struct Wired<R: Replica> {
    linked: LinkedNode<R>,
    // The replica as the last step left it, for proofs alone.
    left: Snapshot<R>,
}

impl<R: Replica> Model for Wired<R> {
    ghost use Rattle.wired_node.specs.States.{Wiring, IsSince};
    ghost use Rattle.wired_node.specs.Answers.{joined};
    ghost use Rattle.wired_node.specs.Sending.{AreDistinct};

    ghost Value = { Wiring R };

    ghost view = { λ a. record { core = a.linked.node.core; replica = a.left.value; senders = a.linked.senders.items; answers = joined a.linked.answers.items } };

    ghost invariant = { λ a. IsSince R.is_whole R.durable R.log_end R.since_flush (λ r. R.Disk.faults (R.disk r)) R.Disk.is_honest a.linked.node.core a.left.value a.linked.node.replica × AreDistinct a.linked.senders.items };
}

/// Notes how the replica is, where a step was made.
fn note<R>(left: &mut Snapshot<R>, replica: &R, is_made: bool)
    ensures made { is_made ≡ true → left.new.value ≡ replica.now }
    ensures refused { is_made ≡ false → left.new.value ≡ left.old.value }
{
    if is_made {
        *left = Snapshot::of(replica);
    }
}

impl<R: Replica> Wired<R> {
    ghost use Rattle.replica.specs.Kept.{IsKeptOf};
    ghost use Rattle.wired_node.specs.Sending.{AreDistinct};
    ghost use Rattle.wired_node.specs.States.{Wiring, IsSince};

    /// A node that runs, with the links that lead from it, one to each other node at most.
    pub fn new(alloc: Global, node: Node<R>, senders: Vec<NodeSender>) -> Wired<R>
        requires runs { node.core.runs ≡ true }
        requires whole { R.is_whole node.replica }
        requires tied { R.Disk.is_honest → IsKeptOf (R.durable node.replica) node.core.kept }
        requires distinct { AreDistinct senders.items }
        ensures { result ≡ record { core = node.core; replica = node.replica; senders = senders.items; answers = [] } }
    {
        let left = Snapshot::of(&node.replica);
        Wired {
            linked: LinkedNode {
                alloc,
                node,
                senders,
                answers: Vec::new(alloc),
            },
            left,
        }
    }

    /// Whether no call of the node's store has failed.
    pub fn runs(&self) -> bool
        ensures { result ≡ self.now.core.runs }
    {
        self.linked.node.core.runs()
    }

    /// The node and its links. Answers that were not collected are lost.
    pub fn into_parts(self) -> (Node<R>, Vec<NodeSender>)
        ensures core { result.0.core ≡ self.core }
        ensures senders { result.1.items ≡ self.senders }
        ensures replica { IsSince R.is_whole R.durable R.log_end R.since_flush (λ r. R.Disk.faults (R.disk r)) R.Disk.is_honest self.core self.replica result.0.replica }
    {
        let Wired {
            linked: LinkedNode {
                alloc: _,
                node,
                senders,
                answers: _,
            },
            left: _,
        } = self;
        (node, senders)
    }
}

impl<R: Replica> Stepper for Wired<R> {
    ghost use Rattle.wired_node.specs.Making.{MakesIn, RefusesIn, call_in, reply_in};

    type Event = NodeCall;

    type Reply = NodeReply;

    type Entry = NodeEntry;

    ghost event_of = { call_in };

    ghost reply_of = { reply_in };

    ghost steps = { MakesIn R.Disk.is_honest R.stands_for R.durable R.log_end R.since_flush (λ r. R.Disk.disk (R.disk r)) (λ r. R.Disk.faults (R.disk r)) };

    ghost refuses = { RefusesIn R.Disk.is_honest R.stands_for R.durable R.log_end R.since_flush (λ r. R.Disk.disk (R.disk r)) (λ r. R.Disk.faults (R.disk r)) };

    fn step(&mut self, call: NodeCall) -> Result<(NodeEntry, NodeReply), NodeCall> {
        let told = self.linked.step(call);
        note(&mut self.left, &self.linked.node.replica, told.is_ok());
        told
    }
}
