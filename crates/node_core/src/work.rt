//! What a step has made so far.

ghost use Rattle.std.specs.Prelude.{◌≡◌, ◌==◌, ◌∷◌, ◌++◌, [], OnOk, IfOk};
ghost use Rattle.node_steps.specs.Steps.{message_of, messages_of};
ghost use Rattle.node_core.specs.Working.{own_sent};

use crate::base::Base;
use crate::batches::{Batches, Waiting};
use crate::slot::Slot;
use cs_base::{Items, Micros, NodeId, ReqId};
use peer_messages::{Entries, Message, Messages, Move, NodeIds, Outbound, Sends};
use read_coord::ReadCoord;
use row_change::LogItem;
use std::alloc::{AllocError, Global};
use std::collections::VecDeque;
use std::mem;
use write_coord::WriteCoord;

/// What a step has made so far, at the time to which it rose. Beside what was due, it is of one request.
#[derive(Drop)]
pub(crate) struct Work {
    pub time: Micros,
    pub ceiling: Micros,
    pub request: ReqId,
    /// The nodes that it takes for dead, where the step marked one.
    pub marked: Option<NodeIds>,
    /// The hints that are waited for, where the step sent some or one was acknowledged.
    pub batches: Option<Batches>,
    /// The requests whose deadline came, in order.
    pub ended_writes: Items<ReqId>,
    pub ended_reads: Items<ReqId>,
    /// Of the requests that are left open: how many writes have no answer, and how many reads there are.
    pub unanswered: usize,
    pub open_reads: usize,
    /// Of the request that the step is about.
    pub write: Slot<WriteCoord>,
    pub read: Slot<ReadCoord>,
    /// The changes that it takes in, the hints that come, and those that go: each in its order.
    pub taken: Items<LogItem>,
    pub made: Items<LogItem>,
    pub gone: Items<LogItem>,
    pub messages: Messages,
    pub entries: Entries,
    /// What the node has yet to hear of its own.
    pub queue: VecDeque<Outbound>,
}

/// What a move gives, in order.
#[derive(Drop)]
pub(crate) struct Given {
    pub sends: Sends,
    pub entries: Entries,
}

fn message(me: NodeId, sent: Outbound, time: Micros) -> Message
    ensures { result ≡ message_of me time sent }
{
    Message {
        from: me,
        upto: sent.upto,
        time,
        born: sent.born,
        request: sent.request,
        body: sent.body,
    }
}

/// Whether what is sent goes to the node itself.
fn is_for(sent: &Outbound, me: NodeId) -> bool
    ensures { result ≡ (sent.now.upto == me) }
{
    sent.upto == me
}

fn add_each(all: &mut Entries, more: Entries) -> Result<(), AllocError>
    ensures { OnOk result (all.new ≡ all.old ++ more) }
{
    for entry in more.into_vec() {
        all.push(entry)?;
    }
    Ok(())
}

impl Given {
    pub(crate) fn nothing(alloc: Global) -> Given
        ensures sends { result.sends ≡ [] }
        ensures entries { result.entries ≡ [] }
    {
        Given {
            sends: Items::new(alloc),
            entries: Items::new(alloc),
        }
    }

    /// What a coordinator's move gives.
    pub(crate) fn of(turn: Move) -> Given
        ensures sends { result.sends ≡ turn.sends }
        ensures entries { result.entries ≡ turn.entries }
    {
        Given {
            sends: turn.sends,
            entries: turn.entries,
        }
    }
}

impl Work {
    ghost use Rattle.node_core.specs.Working.{IsSent, batches_with, down_with};

    /// The batches, as the step leaves them so far.
    pub(crate) fn batches<'a>(&'a self, base: &'a Base) -> &'a [Waiting]
        ensures { result.now ≡ batches_with self.now.batches base.now.batches }
    {
        match &self.batches {
            Some(batches) => batches.as_slice(),
            None => base.batches.as_slice(),
        }
    }

    /// The nodes that are taken for dead, as the step leaves them so far.
    pub(crate) fn down<'a>(&'a self, base: &'a Base) -> &'a [NodeId]
        ensures { result.now ≡ down_with self.now.marked base.now.down }
    {
        match &self.marked {
            Some(down) => down.as_slice(),
            None => base.down.as_slice(),
        }
    }

    fn hear_later(&mut self, sent: Outbound) -> Result<(), AllocError>
        ensures queue { OnOk result (self.new.queue.items ≡ self.old.queue.items ++ sent ∷ []) }
        ensures rest { self.new ≡ record self.old { queue = self.new.queue } }
    {
        self.queue.push_back(sent)?;
        Ok(())
    }

    fn send_away(&mut self, me: NodeId, sent: Outbound) -> Result<(), AllocError>
        ensures { OnOk result (self.new ≡ record self.old { messages = self.old.messages ++ message_of me self.old.time sent ∷ [] }) }
    {
        self.messages.push(message(me, sent, self.time))?;
        Ok(())
    }

    /// Sends a body, or has the node hear it.
    fn send(&mut self, me: NodeId, sent: Outbound) -> Result<(), AllocError>
        ensures { OnOk result (IsSent me (sent ∷ []) self.old self.new) }
    {
        if is_for(&sent, me) {
            return self.hear_later(sent);
        }
        self.send_away(me, sent)
    }

    fn send_all(&mut self, me: NodeId, sends: Sends) -> Result<(), AllocError>
        ensures { OnOk result (IsSent me sends self.old self.new) }
    {
        if sends.as_slice().is_empty() {
            return Ok(());
        }
        for sent in sends.into_vec() {
            self.send(me, sent)?;
        }
        Ok(())
    }

    fn enter_all(&mut self, entries: Entries) -> Result<(), AllocError>
        ensures { OnOk result (self.new ≡ record self.old { entries = self.old.entries ++ entries }) }
    {
        if self.entries.as_slice().is_empty() {
            drop(mem::replace(&mut self.entries, entries));
            return Ok(());
        }
        add_each(&mut self.entries, entries)
    }

    /// Sends and enters what a move gave.
    pub(crate) fn give(&mut self, me: NodeId, given: Given) -> Result<(), AllocError>
        ensures { OnOk result (IsSent me given.sends (record self.old { entries = self.old.entries ++ given.entries }) self.new) }
    {
        self.send_all(me, given.sends)?;
        self.enter_all(given.entries)
    }
}
