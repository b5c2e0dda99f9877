//! What a step makes of its event, in memory: the event's own matter, and all that comes of it at the node itself.

ghost use Rattle.std.specs.Prelude.{◌≡◌, ◌<◌, ◌≤◌, ◌^◌, ℕ, [], IfOk, OnOk, IsErrOf};
ghost use Rattle.cs_base.specs.Faults.{HasRisen};
ghost use Rattle.node_steps.specs.Fitting.{mark_fits as mark_fits_of};
ghost use Rattle.node_steps.specs.Steps.{heard_matter, matter_of};
ghost use Rattle.node_core.specs.Working.{IsSound};
ghost use Rattle.node_core.specs.Asking.{IsFresh, IsUnmoved};
ghost use Rattle.node_core.specs.Hinting.{at};
ghost use Rattle.node_core.specs.Moving.{IsHolding, TakesMatters, MarksAs, MarksIf, AskNothing, IsSettled, CutsOn, IsWorkedOut, CutsIn, IsAbout, IsNewTo, Peeks};
ghost use Rattle.replica.specs.declared.error.CallError.TheVariants as call_error;

use crate::base::Base;
use crate::fits::{mark_fits, message_fits};
use crate::hearing::{Asker, hear, hear_own};
use crate::slot::Slot;
use crate::work::{Given, Work};
use cs_base::{Items, Level, Micros, NodeId, ReqId};
use hint_store::HintStore;
use peer_messages::{Ask, Message, Plan, What, marked};
use replica::{CallError, Replica};
use statement_plan::Fault;
use std::alloc::{AllocError, Global};
use std::collections::VecDeque;
use std::mem;

/// The request that a step is about.
pub(crate) fn request_of(me: NodeId, time: Micros, what: &What) -> ReqId
    ensures { IsAbout me time what.now result }
{
    match what {
        What::Deliver(message) => message.request,
        What::Client(_) | What::Alive(..) | What::Collect(_) | What::Flush | What::Tick => ReqId {
            node: me,
            time,
        },
    }
}

fn empty<T: Drop>(items: &mut Items<T>, alloc: Global)
    ensures { items.new ≡ [] }
{
    drop(mem::replace(items, Items::new(alloc)));
}

impl Work {
    /// Before the first step.
    pub(crate) fn nothing(alloc: Global) -> Work {
        let time = Micros::new(0);
        Work {
            time,
            ceiling: time,
            request: ReqId {
                node: NodeId::FIRST,
                time,
            },
            marked: None,
            batches: None,
            ended_writes: Items::new(alloc),
            ended_reads: Items::new(alloc),
            unanswered: 0,
            open_reads: 0,
            write: Slot::Untouched,
            read: Slot::Untouched,
            taken: Items::new(alloc),
            made: Items::new(alloc),
            gone: Items::new(alloc),
            messages: Items::new(alloc),
            entries: Items::new(alloc),
            queue: VecDeque::new(alloc),
        }
    }

    /// Begins a step that has made nothing yet. What another left, which was not kept, goes.
    pub(crate) fn begin(
        &mut self,
        base: &Base,
        alloc: Global,
        time: Micros,
        ceiling: Micros,
        request: ReqId,
    )
        ensures fresh { IsFresh base.now self.new }
        ensures times { (self.new.time ≡ time) × (self.new.ceiling ≡ ceiling) × (self.new.request ≡ request) }
    {
        self.time = time;
        self.ceiling = ceiling;
        self.request = request;
        self.marked = None;
        drop(self.batches.take());
        self.ended_writes = Items::new(alloc);
        self.ended_reads = Items::new(alloc);
        self.unanswered = base.unanswered;
        self.open_reads = base.reads.len();
        drop(mem::replace(&mut self.write, Slot::Untouched));
        drop(mem::replace(&mut self.read, Slot::Untouched));
        empty(&mut self.taken, alloc);
        empty(&mut self.made, alloc);
        empty(&mut self.gone, alloc);
        empty(&mut self.messages, alloc);
        empty(&mut self.entries, alloc);
        self.queue.clear();
    }

    /// Marks a node, which is of the ring. Where it is marked alive its first hints are sent.
    fn mark(
        &mut self,
        base: &Base,
        hints: &HintStore,
        alloc: Global,
        peer: NodeId,
        up: bool,
    ) -> Result<Given, AllocError>
        ensures { IfOk result (λ given. MarksAs base.now peer up hints.now.now self.old given self.new) }
    {
        self.marked = Some(marked(alloc, base.down.as_slice(), peer, up)?);
        if up {
            return self.send_first(base, hints, alloc, peer);
        }
        Ok(Given::nothing(alloc))
    }

    /// Marks a node, unless it is none of the ring, or the node itself.
    fn mark_other(
        &mut self,
        base: &Base,
        hints: &HintStore,
        alloc: Global,
        peer: NodeId,
        up: bool,
    ) -> Result<Given, AllocError>
        ensures { IfOk result (λ given. MarksIf (mark_fits_of base.now.setting base.now.me peer) base.now peer up hints.now.now self.old given self.new) }
    {
        if mark_fits(&base.setting, base.me, peer) {
            return self.mark(base, hints, alloc, peer, up);
        }
        Ok(Given::nothing(alloc))
    }
}

/// Takes a message of another node, unless it does not fit, and moves what it has.
fn take_message<R: Replica>(
    base: &Base,
    hints: &mut HintStore,
    replica: &mut R,
    alloc: Global,
    work: &mut Work,
    message: &mut Message,
) -> Result<Given, CallError>
    requires whole { R.is_whole replica.old }
    requires holding { IsHolding base.now }
    requires unmoved { IsUnmoved work.old }
    requires sound { IsSound base.now work.old }
    requires request { message.old.request ≡ work.old.request }
    ensures ok { IfOk result (λ given. TakesMatters base.now R.Disk.is_honest (R.durable replica.old) (at work.old hints.old.now) (heard_matter base.now.setting base.now.me message.old) given (at work.new hints.new.now)) }
    ensures before { hints.new.before ≡ hints.old.before }
    ensures same { IsErrOf result call_error.Failed → work.new ≡ work.old }
    ensures peeks { Peeks R.stands_for (λ r. R.Disk.disk (R.disk r)) R.durable R.log_end R.since_flush (λ r. R.Disk.faults (R.disk r)) (λ r n. R.Disk.spares (R.disk r) n) R.Disk.is_honest replica.old replica.new }
    ensures whole { (IsErrOf result call_error.Failed → ⊥) → R.is_whole replica.new }
    ensures failed { IsErrOf result call_error.Failed → HasRisen (R.Disk.faults (R.disk replica.old)) (R.Disk.faults (R.disk replica.new)) }
    ensures surely { IsErrOf result call_error.Failed → ((n : ℕ) → R.Disk.spares (R.disk replica.old) n) → ⊥ }
{
    if !message_fits(&base.setting, base.me, message) {
        return Ok(Given::nothing(alloc));
    }
    let asker = Asker {
        from: message.from,
        request: message.request,
    };
    hear(
        base,
        hints,
        replica,
        alloc,
        work,
        asker,
        message.born,
        &mut message.body,
    )
}

/// The client's request, which is moved.
fn moved(ask: &mut Ask) -> Ask
    ensures { result ≡ ask.old }
{
    let nothing = Ask {
        plan: Plan::Invalid(Fault::UnknownTable),
        level: Level::One,
    };
    mem::replace(ask, nothing)
}

/// Takes the event's own matter, if it has one, and moves what it has.
fn take<R: Replica>(
    base: &Base,
    hints: &mut HintStore,
    replica: &mut R,
    alloc: Global,
    work: &mut Work,
    what: &mut What,
) -> Result<Given, CallError>
    requires whole { R.is_whole replica.old }
    requires holding { IsHolding base.now }
    requires unmoved { IsUnmoved work.old }
    requires sound { IsSound base.now work.old }
    requires about { IsAbout base.now.me work.old.time what.old work.old.request }
    requires new { IsNewTo base.now work.old.time }
    requires time { work.old.time < 2 ^ 63 }
    ensures ok { IfOk result (λ given. TakesMatters base.now R.Disk.is_honest (R.durable replica.old) (at work.old hints.old.now) (matter_of base.now.setting base.now.me what.old) given (at work.new hints.new.now)) }
    ensures before { hints.new.before ≡ hints.old.before }
    ensures same { IsErrOf result call_error.Failed → work.new ≡ work.old }
    ensures asks { IsErrOf result call_error.Failed → AskNothing (matter_of base.now.setting base.now.me what.old) }
    ensures peeks { Peeks R.stands_for (λ r. R.Disk.disk (R.disk r)) R.durable R.log_end R.since_flush (λ r. R.Disk.faults (R.disk r)) (λ r n. R.Disk.spares (R.disk r) n) R.Disk.is_honest replica.old replica.new }
    ensures whole { (IsErrOf result call_error.Failed → ⊥) → R.is_whole replica.new }
    ensures failed { IsErrOf result call_error.Failed → HasRisen (R.Disk.faults (R.disk replica.old)) (R.Disk.faults (R.disk replica.new)) }
    ensures surely { IsErrOf result call_error.Failed → ((n : ℕ) → R.Disk.spares (R.disk replica.old) n) → ⊥ }
{
    match what {
        What::Client(ask) => Ok(work.ask(base, hints, alloc, moved(ask))?),
        What::Deliver(message) => take_message(base, hints, replica, alloc, work, message),
        What::Alive(peer, up) => Ok(work.mark_other(base, hints, alloc, *peer, *up)?),
        What::Collect(_) | What::Flush | What::Tick => Ok(Given::nothing(alloc)),
    }
}

/// Hears all that the node sends to itself, in order.
fn settle<R: Replica>(
    base: &Base,
    hints: &mut HintStore,
    replica: &mut R,
    alloc: Global,
    work: &mut Work,
) -> Result<(), CallError>
    requires whole { R.is_whole replica.old }
    requires holding { IsHolding base.now }
    requires sound { IsSound base.now work.old }
    ensures ok { OnOk result (IsSettled base.now R.Disk.is_honest (R.durable replica.old) (at work.old hints.old.now) (at work.new hints.new.now)) }
    ensures before { hints.new.before ≡ hints.old.before }
    ensures cut { IsErrOf result call_error.Failed → CutsOn base.now work.old work.new }
    ensures peeks { Peeks R.stands_for (λ r. R.Disk.disk (R.disk r)) R.durable R.log_end R.since_flush (λ r. R.Disk.faults (R.disk r)) (λ r n. R.Disk.spares (R.disk r) n) R.Disk.is_honest replica.old replica.new }
    ensures whole { (IsErrOf result call_error.Failed → ⊥) → R.is_whole replica.new }
    ensures failed { IsErrOf result call_error.Failed → HasRisen (R.Disk.faults (R.disk replica.old)) (R.Disk.faults (R.disk replica.new)) }
    ensures surely { IsErrOf result call_error.Failed → ((n : ℕ) → R.Disk.spares (R.disk replica.old) n) → ⊥ }
{
    while let Some(mut sent) = work.queue.pop_front() {
        let heard = hear_own(base, hints, replica, alloc, work, &mut sent);
        drop(sent);
        heard?;
    }
    Ok(())
}

/// Takes the event's own matter, which it moves, and all that comes of it at the node itself.
pub(crate) fn work_out<R: Replica>(
    base: &Base,
    hints: &mut HintStore,
    replica: &mut R,
    alloc: Global,
    work: &mut Work,
    what: &mut What,
) -> Result<(), CallError>
    requires whole { R.is_whole replica.old }
    requires holding { IsHolding base.now }
    requires unmoved { IsUnmoved work.old }
    requires sound { IsSound base.now work.old }
    requires about { IsAbout base.now.me work.old.time what.old work.old.request }
    requires new { IsNewTo base.now work.old.time }
    requires time { work.old.time < 2 ^ 63 }
    ensures ok { OnOk result (IsWorkedOut base.now R.Disk.is_honest (R.durable replica.old) (matter_of base.now.setting base.now.me what.old) (at work.old hints.old.now) (at work.new hints.new.now)) }
    ensures before { hints.new.before ≡ hints.old.before }
    ensures cut { IsErrOf result call_error.Failed → R.Disk.is_honest → CutsIn base.now (R.durable replica.old) (matter_of base.now.setting base.now.me what.old) (at work.old hints.old.now) work.new }
    ensures peeks { Peeks R.stands_for (λ r. R.Disk.disk (R.disk r)) R.durable R.log_end R.since_flush (λ r. R.Disk.faults (R.disk r)) (λ r n. R.Disk.spares (R.disk r) n) R.Disk.is_honest replica.old replica.new }
    ensures whole { (IsErrOf result call_error.Failed → ⊥) → R.is_whole replica.new }
    ensures failed { IsErrOf result call_error.Failed → HasRisen (R.Disk.faults (R.disk replica.old)) (R.Disk.faults (R.disk replica.new)) }
    ensures surely { IsErrOf result call_error.Failed → ((n : ℕ) → R.Disk.spares (R.disk replica.old) n) → ⊥ }
{
    let given = take(base, hints, replica, alloc, work, what)?;
    work.give(base.me, given)?;
    settle(base, hints, replica, alloc, work)
}
