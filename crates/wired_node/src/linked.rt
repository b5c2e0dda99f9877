//! A node with its links, and how it takes a call.

ghost use Rattle.std.specs.Prelude.{◌≡◌, ◌↔◌, ◌≤◌, ◌<◌, true, false, map, vec_len, vec_capacity, IsTrue, OnOk, OnErr, IfOk, IfErr};
ghost use Rattle.replica.specs.Kept.{IsKeptOf};
ghost use Rattle.node_core.specs.Nodes.{IsSameLog};
ghost use Rattle.wired_node.specs.Answers.{joined, collected_by, answer_for, left_behind};
ghost use Rattle.wired_node.specs.Making.{told_with, reply_of, HasNothing, Makes, Refuses, IsTaken, IsUnlessRefused, IsFailure, AfterError, cause_of as cause_of_error};
ghost use Rattle.wired_node.specs.Sending.{message_in, ArePut, AreLostUnlinked, AreDistinct};
ghost use Rattle.wired_node.specs.States.{parts_with};

use crate::answers::{collect, is_kept, keep};
use crate::entry::NodeEntry;
use crate::senders::{NodeSender, put_all};
use cs_store::Store;
use event_copies::copy_event;
use http_server::Log;
use node_calls::{Cause, NodeCall, NodeReply};
use node_core::{Node, StepError};
use peer_messages::{Entries, Event, Outputs, What};
use replica::Replica;
use std::alloc::{AllocError, Global};
use std::snapshot::Snapshot;

/// A node, the links that lead from it, and the answers that were not collected, each step's in a piece.
#[derive(Drop)]
pub(crate) struct LinkedNode<R: Replica> {
    pub alloc: Global,
    pub node: Node<R>,
    pub senders: Vec<NodeSender>,
    pub answers: Vec<Entries>,
}

/// The cause for which a call comes back, unless the node has stopped in it.
fn cause_of(error: &StepError) -> Option<Cause>
    ensures { result ≡ cause_of_error error.now }
{
    match error {
        StepError::Failed(_) => None,
        StepError::NoRoom => Some(Cause::NoRoom),
        StepError::TooLarge(_) => Some(Cause::TooLarge),
        StepError::NoMemory => Some(Cause::NoMemory),
    }
}

/// The entry of a step in which the node stopped, and its reply.
fn failure(call: NodeCall, told: Snapshot<Result<Outputs, StepError>>) -> (NodeEntry, NodeReply)
    ensures { IsFailure call told.value result }
{
    let reply = NodeReply {
        started: None,
        answer: None,
        tables: None,
        failed: true,
    };
    let entry = NodeEntry {
        call,
        told,
        sent: Log::new(),
        reply: Snapshot::of(&reply),
    };
    (entry, reply)
}

/// What comes of a call whose step was not made.
fn after_error(
    call: NodeCall,
    told: Snapshot<Result<Outputs, StepError>>,
    error: StepError,
) -> Result<(NodeEntry, NodeReply), NodeCall>
    ensures { AfterError call told.value (cause_of_error error) result }
{
    let cause = cause_of(&error);
    drop(error);
    match cause {
        Some(cause) => Err(call.because(cause)),
        None => Ok(failure(call, told)),
    }
}

/// Takes the memory that a step needs beside the node's own: for a copy of its event, and for one piece of answers.
fn prepare(alloc: Global, answers: &mut Vec<Entries>, event: &Event) -> Result<Event, AllocError>
    ensures copy { IfOk result (λ copy. copy ≡ event.now) }
    ensures room { OnOk result (vec_len answers.new < vec_capacity answers.new) }
    ensures answers { answers.new.items ≡ answers.old.items }
{
    answers.reserve(1)?;
    copy_event(alloc, event)
}

impl<R: Replica> LinkedNode<R> {
    /// Whether an event that a call may leave out has nothing to do.
    fn has_nothing(&self, event: &Event) -> bool
        ensures { IsTrue result ↔ HasNothing self.now.node.core (R.log_end self.now.node.replica) (R.since_flush self.now.node.replica) (joined self.now.answers.items) event.now.clock event.now.what }
    {
        match &event.what {
            What::Tick => self.node.core.is_idle(event.clock),
            What::Collect(request) => !is_kept(&self.answers, request),
            What::Flush => !self.node.replica.flush_due(),
            What::Client(_) | What::Deliver(_) | What::Alive(..) => false,
        }
    }

    /// Why a call is refused at once.
    fn refusal(&self, call: &NodeCall) -> Option<Cause>
        ensures { IsUnlessRefused R.Disk.is_honest (parts_with R.durable R.log_end R.since_flush (λ r. R.Disk.disk (R.disk r)) (λ r. R.Disk.faults (R.disk r)) self.now.node.core self.now.node.replica self.now.senders.items (joined self.now.answers.items)) call.now result }
    {
        if !self.node.core.runs() {
            return Some(Cause::Stopped);
        }
        if call.optional && self.has_nothing(&call.event) {
            return Some(Cause::Nothing);
        }
        None
    }

    /// Puts the messages of a step into their links, keeps its answers, and gives the one that is collected. It takes no memory.
    fn enter(
        &mut self,
        call: NodeCall,
        told: Snapshot<Result<Outputs, StepError>>,
        outputs: Outputs,
    ) -> (NodeEntry, NodeReply)
        requires room { vec_len self.old.answers < vec_capacity self.old.answers }
        requires distinct { AreDistinct self.old.senders.items }

        ensures call { result.0.call ≡ call }
        ensures told { result.0.told.value ≡ told.value }
        ensures told_reply { result.0.reply.value ≡ result.1 }
        ensures sent { map message_in result.0.sent.items ≡ outputs.sends }
        ensures put { ArePut result.0.sent.items self.old.senders.items self.new.senders.items }
        ensures unlinked { AreLostUnlinked result.0.sent.items self.old.senders.items }
        ensures answers { joined self.new.answers.items ≡ left_behind (collected_by call.event.what) (told_with (joined self.old.answers.items) outputs) }
        ensures reply { result.1 ≡ reply_of outputs (answer_for (collected_by call.event.what) (told_with (joined self.old.answers.items) outputs)) }
        ensures same { self.new.node ≡ self.old.node }
    {
        let Outputs {
            time: _,
            started,
            sends,
            entries,
            tables,
            refused: _,
        } = outputs;
        let sent = put_all(&mut self.senders, sends);
        keep(&mut self.answers, entries);
        let answer = collect(&mut self.answers, self.alloc, &call.event.what);
        let reply = NodeReply {
            started,
            answer,
            tables,
            failed: false,
        };
        let entry = NodeEntry {
            call,
            told,
            sent,
            reply: Snapshot::of(&reply),
        };
        (entry, reply)
    }

    /// Takes a call that is not refused at once. The node steps with the copy of its event.
    fn take(&mut self, call: NodeCall, copy: Event) -> Result<(NodeEntry, NodeReply), NodeCall>
        requires taken { IsTaken (parts_with R.durable R.log_end R.since_flush (λ r. R.Disk.disk (R.disk r)) (λ r. R.Disk.faults (R.disk r)) self.old.node.core self.old.node.replica self.old.senders.items (joined self.old.answers.items)) call }
        requires copy { copy ≡ call.event }
        requires room { vec_len self.old.answers < vec_capacity self.old.answers }
        requires whole { R.is_whole self.old.node.replica }
        requires tied { R.Disk.is_honest → IsKeptOf (R.durable self.old.node.replica) self.old.node.core.kept }
        requires distinct { AreDistinct self.old.senders.items }

        ensures ok { IfOk result (λ r. Makes R.Disk.is_honest R.stands_for (parts_with R.durable R.log_end R.since_flush (λ r. R.Disk.disk (R.disk r)) (λ r. R.Disk.faults (R.disk r)) self.old.node.core self.old.node.replica self.old.senders.items (joined self.old.answers.items)) r.0 (parts_with R.durable R.log_end R.since_flush (λ r. R.Disk.disk (R.disk r)) (λ r. R.Disk.faults (R.disk r)) self.new.node.core self.new.node.replica self.new.senders.items (joined self.new.answers.items))) }
        ensures entry { IfOk result (λ r. (r.0.call ≡ call) × (r.0.reply.value ≡ r.1)) }
        ensures err { IfErr result (λ back. Refuses R.Disk.is_honest (parts_with R.durable R.log_end R.since_flush (λ r. R.Disk.disk (R.disk r)) (λ r. R.Disk.faults (R.disk r)) self.old.node.core self.old.node.replica self.old.senders.items (joined self.old.answers.items)) call back) }
        ensures core { OnErr result (self.new.node.core ≡ self.old.node.core) }
        ensures senders { OnErr result (self.new.senders.items ≡ self.old.senders.items) }
        ensures answers { OnErr result (joined self.new.answers.items ≡ joined self.old.answers.items) }
        ensures kept { OnErr result (R.Disk.is_honest → R.durable self.new.node.replica ≡ R.durable self.old.node.replica) }
        ensures log { OnErr result (IsSameLog R.log_end R.since_flush self.old.node.replica self.new.node.replica) }
        ensures faults { R.Disk.faults (R.disk self.old.node.replica) ≤ R.Disk.faults (R.disk self.new.node.replica) }
        ensures whole { self.new.node.core.runs ≡ true → R.is_whole self.new.node.replica }
        ensures tied { self.new.node.core.runs ≡ true → R.Disk.is_honest → IsKeptOf (R.durable self.new.node.replica) self.new.node.core.kept }
        ensures distinct { AreDistinct self.new.senders.items }
    {
        let told = self.node.step(self.alloc, copy);
        let seen = Snapshot::of(&told);
        match told {
            Ok(outputs) => Ok(self.enter(call, seen, outputs)),
            Err(error) => after_error(call, seen, error),
        }
    }

    /// Takes a call, or hands it back with its cause.
    pub fn step(&mut self, call: NodeCall) -> Result<(NodeEntry, NodeReply), NodeCall>
        requires whole { self.old.node.core.runs ≡ true → R.is_whole self.old.node.replica }
        requires tied { self.old.node.core.runs ≡ true → R.Disk.is_honest → IsKeptOf (R.durable self.old.node.replica) self.old.node.core.kept }
        requires distinct { AreDistinct self.old.senders.items }

        ensures ok { IfOk result (λ r. Makes R.Disk.is_honest R.stands_for (parts_with R.durable R.log_end R.since_flush (λ r. R.Disk.disk (R.disk r)) (λ r. R.Disk.faults (R.disk r)) self.old.node.core self.old.node.replica self.old.senders.items (joined self.old.answers.items)) r.0 (parts_with R.durable R.log_end R.since_flush (λ r. R.Disk.disk (R.disk r)) (λ r. R.Disk.faults (R.disk r)) self.new.node.core self.new.node.replica self.new.senders.items (joined self.new.answers.items))) }
        ensures entry { IfOk result (λ r. (r.0.call ≡ call) × (r.0.reply.value ≡ r.1)) }
        ensures err { IfErr result (λ back. Refuses R.Disk.is_honest (parts_with R.durable R.log_end R.since_flush (λ r. R.Disk.disk (R.disk r)) (λ r. R.Disk.faults (R.disk r)) self.old.node.core self.old.node.replica self.old.senders.items (joined self.old.answers.items)) call back) }
        ensures core { OnErr result (self.new.node.core ≡ self.old.node.core) }
        ensures senders { OnErr result (self.new.senders.items ≡ self.old.senders.items) }
        ensures answers { OnErr result (joined self.new.answers.items ≡ joined self.old.answers.items) }
        ensures kept { OnErr result (R.Disk.is_honest → R.durable self.new.node.replica ≡ R.durable self.old.node.replica) }
        ensures log { OnErr result (IsSameLog R.log_end R.since_flush self.old.node.replica self.new.node.replica) }
        ensures faults { R.Disk.faults (R.disk self.old.node.replica) ≤ R.Disk.faults (R.disk self.new.node.replica) }
        ensures whole { self.new.node.core.runs ≡ true → R.is_whole self.new.node.replica }
        ensures tied { self.new.node.core.runs ≡ true → R.Disk.is_honest → IsKeptOf (R.durable self.new.node.replica) self.new.node.core.kept }
        ensures dead { self.old.node.core.runs ≡ false → self.new.node.replica ≡ self.old.node.replica }
        ensures distinct { AreDistinct self.new.senders.items }
    {
        if let Some(cause) = self.refusal(&call) {
            return Err(call.because(cause));
        }
        match prepare(self.alloc, &mut self.answers, &call.event) {
            Ok(copy) => self.take(call, copy),
            Err(AllocError) => Err(call.because(Cause::NoMemory)),
        }
    }
}
