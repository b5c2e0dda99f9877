//! Hints in a step: some are kept for peers that missed a write, some go, and some are sent.

ghost use Rattle.std.specs.Prelude.{◌≡◌, Some, ◌∷◌, ◌++◌, ◌&&◌, [], IfOk, OnOk, map};
ghost use Rattle.cs_base.specs.Quorums.{is_in};
ghost use Rattle.row_change.specs.declared.entry.LogItem.TheVariants.{HintAdd};
ghost use Rattle.node_steps.specs.Hints.{is_no_number, number_of, send_hint as send_hint_of, with_batch as with_batch_of};
ghost use Rattle.node_core.specs.Working.{batches_with};
ghost use Rattle.node_core.specs.Hinting.{at, LeavesHints, DropsHint, SendsFirst, HearsHintAck};

use crate::base::Base;
use crate::batches::{Numbers, has, waiting_of, with_batch, without};
use crate::work::{Given, Work};
use changes::Mutation;
use cs_base::{Items, Micros, NodeId, ReqId};
use hint_store::HintStore;
use peer_messages::{Body, Outbound, Sends};
use row_change::{Hint, LogItem};
use std::alloc::{AllocError, Global};

fn numbers_of(alloc: Global, hints: &[Hint]) -> Result<Numbers, AllocError>
    ensures { IfOk result (λ numbers. numbers ≡ map number_of hints.now) }
{
    let mut numbers = Vec::with_capacity(alloc, hints.len())?;
    for hint in hints {
        numbers.push(hint.number)?;
    }
    Ok(Items::from_vec(numbers))
}

/// A hint on its way to its peer, as the write's request.
fn send_hint(me: NodeId, hint: Hint) -> Outbound
    ensures { result ≡ send_hint_of me hint }
{
    Outbound {
        upto: hint.peer,
        born: hint.born,
        request: ReqId {
            node: me,
            time: hint.born,
        },
        body: Body::Hint(hint.number, hint.mutation),
    }
}

fn send_hints(alloc: Global, me: NodeId, hints: Items<Hint>) -> Result<Sends, AllocError>
    ensures { IfOk result (λ sends. sends ≡ map (send_hint_of me) hints) }
{
    let mut sends = Items::new(alloc);
    for hint in hints.into_vec() {
        sends.push(send_hint(me, hint))?;
    }
    Ok(sends)
}

impl Given {
    /// Hints on their way to their peers, and nothing is entered.
    fn hints(alloc: Global, me: NodeId, hints: Items<Hint>) -> Result<Given, AllocError>
        ensures sends { IfOk result (λ given. given.sends ≡ map (send_hint_of me) hints) }
        ensures entries { IfOk result (λ given. given.entries ≡ []) }
    {
        Ok(Given {
            sends: send_hints(alloc, me, hints)?,
            entries: Items::new(alloc),
        })
    }
}

/// Whether an acknowledgement is the last that was waited for: of what was waited for, this is left.
fn is_last(waiting: &[u64], left: &[u64], number: u64) -> bool
    ensures { result ≡ (is_in waiting.now number && is_no_number left.now) }
{
    has(waiting, number) && left.is_empty()
}

impl Work {
    /// A hint comes in the step's entry.
    fn enter_hint(
        &mut self,
        alloc: Global,
        peer: NodeId,
        number: u64,
        born: Micros,
        mutation: &Mutation,
    ) -> Result<(), AllocError>
        ensures { OnOk result (self.new ≡ record self.old { made = self.old.made ++ HintAdd (record { peer = peer; number = number; born = born; mutation = mutation.now }) ∷ [] }) }
    {
        let hint = Hint {
            peer,
            number,
            born,
            mutation: mutation.copy(alloc)?,
        };
        self.made.push(LogItem::HintAdd(hint))?;
        Ok(())
    }

    /// Keeps a hint for a peer, if there is room.
    fn leave_hint(
        &mut self,
        hints: &mut HintStore,
        alloc: Global,
        peer: NodeId,
        born: Micros,
        mutation: &Mutation,
    ) -> Result<(), AllocError>
        ensures ok { OnOk result (LeavesHints (peer ∷ []) born mutation.now (at self.old hints.old.now) (at self.new hints.new.now)) }
        ensures before { hints.new.before ≡ hints.old.before }
    {
        match hints.add(peer, born, mutation.copy(alloc)?)? {
            Some(number) => self.enter_hint(alloc, peer, number, born, mutation),
            None => Ok(()),
        }
    }

    /// Keeps a hint for each of these peers for which there is room.
    pub(crate) fn leave_hints(
        &mut self,
        hints: &mut HintStore,
        alloc: Global,
        peers: &[NodeId],
        born: Micros,
        mutation: &Mutation,
    ) -> Result<(), AllocError>
        ensures ok { OnOk result (LeavesHints peers.now born mutation.now (at self.old hints.old.now) (at self.new hints.new.now)) }
        ensures before { hints.new.before ≡ hints.old.before }
    {
        for peer in peers {
            self.leave_hint(hints, alloc, *peer, born, mutation)?;
        }
        Ok(())
    }

    /// Lets a hint go, if it is kept.
    pub(crate) fn drop_hint(
        &mut self,
        hints: &mut HintStore,
        peer: NodeId,
        number: u64,
    ) -> Result<(), AllocError>
        ensures ok { OnOk result (DropsHint peer number (at self.old hints.old.now) (at self.new hints.new.now)) }
        ensures before { hints.new.before ≡ hints.old.before }
    {
        if hints.done(peer, number)? {
            self.gone.push(LogItem::HintGone(peer, number))?;
        }
        Ok(())
    }

    /// Waits for the acknowledgements of these hints, which are the peer's batch then.
    fn wait_for(
        &mut self,
        base: &Base,
        alloc: Global,
        peer: NodeId,
        hints: &[Hint],
    ) -> Result<(), AllocError>
        ensures { OnOk result (self.new ≡ record self.old { batches = Some (with_batch_of (batches_with self.old.batches base.now.batches) peer (map number_of hints.now)) }) }
    {
        let numbers = numbers_of(alloc, hints)?;
        let batches = with_batch(alloc, self.batches(base), peer, numbers)?;
        self.batches = Some(batches);
        Ok(())
    }

    /// Sends a peer's first hints, which are its batch then.
    pub(crate) fn send_first(
        &mut self,
        base: &Base,
        hints: &HintStore,
        alloc: Global,
        peer: NodeId,
    ) -> Result<Given, AllocError>
        ensures { IfOk result (λ given. SendsFirst base.now peer hints.now.now self.old given self.new) }
    {
        let first = hints.first(alloc, &base.setting, peer)?;
        self.wait_for(base, alloc, peer, first.as_slice())?;
        Given::hints(alloc, base.me, first)
    }

    /// Takes a peer's acknowledgement of a hint, which goes. Behind the last one that was waited for the next ones are sent.
    pub(crate) fn hear_hint_ack(
        &mut self,
        base: &Base,
        hints: &mut HintStore,
        alloc: Global,
        peer: NodeId,
        number: u64,
    ) -> Result<Given, AllocError>
        ensures ok { IfOk result (λ given. HearsHintAck base.now peer number (at self.old hints.old.now) given (at self.new hints.new.now)) }
        ensures before { hints.new.before ≡ hints.old.before }
    {
        let waiting = waiting_of(self.batches(base), peer);
        let left = without(alloc, waiting, number)?;
        let ends = is_last(waiting, left.as_slice(), number);
        let batches = with_batch(alloc, self.batches(base), peer, left)?;
        self.batches = Some(batches);
        self.drop_hint(hints, peer, number)?;
        if ends {
            return self.send_first(base, hints, alloc, peer);
        }
        Ok(Given::nothing(alloc))
    }
}
