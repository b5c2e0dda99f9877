//! What a node has in memory, and how it takes an event: all that the event makes is made first, then kept, and only then taken
//! into memory.

ghost use Rattle.std.specs.Prelude.{◌≡◌, ◌≤◌, ◌<◌, ◌^◌, ◌++◌, ℕ, length, IfOk, OnOk, OnErr, IsErrOf};
ghost use Rattle.cs_base.specs.Faults.{HasRisen};
ghost use Rattle.peer_messages.specs.declared.event.Event.{Event as event_value};
ghost use Rattle.durable_state.specs.Keeping.{Commits, IsWithOrWithout};
ghost use Rattle.node_steps.specs.Steps.{risen_time, end_of_time};
ghost use Rattle.node_steps.specs.Keeping.{ceiling_in};
ghost use Rattle.node_steps.specs.Stops.{remains};
ghost use Rattle.replica.specs.Finding.{AlwaysLeaves};
ghost use Rattle.replica.specs.Kept.{IsKeptOf, IsKeptAfter};
ghost use Rattle.replica.specs.Lengths.{IsFirstTooLarge};
ghost use Rattle.node_core.specs.Nodes.{Steps, HasRoom, HasNoRoom, IsSameLog, IsTooLarge, Halts, IsBeforeOrBehind, OverflowsLog, WouldKeep};
ghost use Rattle.node_core.specs.Working.{IsSound};
ghost use Rattle.node_core.specs.Asking.{IsFresh};
ghost use Rattle.node_core.specs.Hinting.{at};
ghost use Rattle.node_core.specs.Moving.{IsAbout, IsHolding, IsNewTo, Peeks};
ghost use Rattle.node_core.specs.Opening.{AreOrdered};
ghost use Rattle.node_core.specs.Memory.{core_of, core_behind, kept_with, entry_made, is_flush, AreOutputsOf, HoldsCore, IsBare, IsBegun, WorksOut, CutsOff, IsLost, IsRefusal};
ghost use Rattle.replica.specs.declared.error.CallError.TheVariants as call_error;
ghost use Rattle.node_core.specs.declared.outcome.StepError.TheVariants as step_error;

use crate::base::Base;
use crate::deadlines::take_due;
use crate::keep::commit;
use crate::matter::{request_of, work_out};
use crate::outcome::{Lost, StepError};
use crate::times::{is_refused, look, raised, request_began, risen};
use crate::work::Work;
use cs_base::{Items, Micros, ReqId};
use hint_store::HintStore;
use peer_messages::{Event, Outputs, What};
use replica::{CallError, Kept, Replica, RoomError};
use row_change::{LogEntry, LogItem};
use std::alloc::{AllocError, Global};
use std::mem;

/// What a node has in memory.
#[derive(Drop)]
pub(crate) struct Memory {
    pub base: Base,
    /// The time to which its last step rose, or at which it was loaded.
    pub time: Micros,
    /// What it keeps beside the contents of partitions, but for hints.
    pub kept: Kept,
    /// The hints that it keeps.
    pub hints: HintStore,
    /// What its step has made. It stays in its place between steps, since it is large.
    pub made: Made,
}

/// What a step has made, and what its outputs have beside.
#[derive(Drop)]
pub(crate) struct Made {
    pub work: Work,
    pub started: Option<ReqId>,
    pub refused: bool,
    pub flushes: bool,
}

fn is_flush(what: &What) -> bool
    ensures { result ≡ is_flush what.now }
{
    matches!(what, What::Flush)
}

/// An entry has fewer items.
const MOST_ITEMS: usize = 1 << 32;

fn joined(mut items: Vec<LogItem>, mut more: Vec<LogItem>) -> Result<Items<LogItem>, AllocError>
    ensures { IfOk result (λ all. all ≡ items.items ++ more.items) }
{
    items.append(&mut more)?;
    Ok(Items::from_vec(items))
}

/// Moves items behind others. Where there is none, as of hints in most steps, nothing is moved.
fn move_behind(
    items: &mut Items<LogItem>,
    more: &mut Items<LogItem>,
    alloc: Global,
) -> Result<(), AllocError>
    ensures { OnOk result (items.new ≡ items.old ++ more.old) }
{
    if more.as_slice().is_empty() {
        return Ok(());
    }
    let all = mem::replace(items, Items::new(alloc)).into_vec();
    let moved = mem::replace(more, Items::new(alloc)).into_vec();
    drop(mem::replace(items, joined(all, moved)?));
    Ok(())
}

/// Adds a ceiling at the end, where it is raised.
fn add_ceiling(items: &mut Vec<LogItem>, before: Micros, ceiling: Micros) -> Result<(), AllocError>
    ensures { OnOk result (items.new.items ≡ items.old.items ++ ceiling_in before ceiling) }
{
    if before != ceiling {
        items.push(LogItem::Ceiling(ceiling))?;
    }
    Ok(())
}

/// An entry of these items, unless they are too many.
fn entry_with(items: Vec<LogItem>) -> Result<LogEntry, AllocError>
    ensures items { IfOk result (λ entry. entry.items ≡ items.items) }
    ensures few { IfOk result (λ entry. length entry.items < 2 ^ 32) }
{
    if items.len() >= MOST_ITEMS {
        return Err(AllocError);
    }
    Ok(LogEntry {
        items: Items::from_vec(items),
    })
}

/// What a step keeps, kind by kind: the changes that it takes in, the hints that come and those that go, which are moved, and its
/// ceiling where that is raised.
fn entry_of(work: &mut Work, alloc: Global, before: Micros) -> Result<LogEntry, AllocError>
    ensures items { IfOk result (λ entry. entry.items ≡ entry_made before work.old) }
    ensures few { IfOk result (λ entry. length entry.items < 2 ^ 32) }
    ensures work { work.new ≡ record work.old { taken = work.new.taken; made = work.new.made; gone = work.new.gone } }
{
    move_behind(&mut work.made, &mut work.gone, alloc)?;
    move_behind(&mut work.taken, &mut work.made, alloc)?;
    let mut items = mem::replace(&mut work.taken, Items::new(alloc)).into_vec();
    add_ceiling(&mut items, before, work.ceiling)?;
    entry_with(items)
}

impl Made {
    /// Before the first step.
    pub(crate) fn nothing(alloc: Global) -> Made {
        Made {
            work: Work::nothing(alloc),
            started: None,
            refused: false,
            flushes: false,
        }
    }

    /// Begins a step at this time, which has made nothing yet. Of the event is left what the node looks at.
    fn begin(
        &mut self,
        base: &Base,
        before: Micros,
        ceiling: Micros,
        alloc: Global,
        time: Micros,
        event: &mut Event,
    )
        requires time { time ≤ end_of_time }
        ensures { IsBegun base.now before ceiling time event.old (record { what = event.new.what; made = self.new }) }
    {
        self.refused = is_refused(&base.setting, before, time, event);
        self.started = request_began(base.me, time, &event.what);
        self.flushes = is_flush(&event.what);
        look(before, event);
        let request = request_of(base.me, time, &event.what);
        self.work
            .begin(base, alloc, time, raised(ceiling, time), request);
    }

    /// What the node tells that stops in the step, which is moved.
    fn lost(&mut self, alloc: Global) -> Lost
        ensures { IsLost self.old.started self.old.work.entries result }
    {
        Lost {
            started: self.started,
            entries: mem::replace(&mut self.work.entries, Items::new(alloc)),
        }
    }

    /// Takes what is due, and then the event's own matter.
    fn work_out<R: Replica>(
        &mut self,
        base: &Base,
        hints: &mut HintStore,
        replica: &mut R,
        alloc: Global,
        what: &mut What,
    ) -> Result<(), CallError>
        requires whole { R.is_whole replica.old }
        requires holding { IsHolding base.now }
        requires fresh { IsFresh base.now self.old.work }
        requires about { IsAbout base.now.me self.old.work.time what.old self.old.work.request }
        requires new { IsNewTo base.now self.old.work.time }
        requires time { self.old.work.time < 2 ^ 63 }
        ensures ok { OnOk result (WorksOut base.now R.Disk.is_honest (R.durable replica.old) what.old (at self.old.work hints.old.now) (at self.new.work hints.new.now)) }
        ensures cut { IsErrOf result call_error.Failed → R.Disk.is_honest → CutsOff base.now (R.durable replica.old) what.old (at self.old.work hints.old.now) self.new.work }
        ensures before { hints.new.before ≡ hints.old.before }
        ensures made { self.new ≡ record self.old { work = self.new.work } }
        ensures peeks { Peeks R.stands_for (λ r. R.Disk.disk (R.disk r)) R.durable R.log_end R.since_flush (λ r. R.Disk.faults (R.disk r)) (λ r n. R.Disk.spares (R.disk r) n) R.Disk.is_honest replica.old replica.new }
        ensures whole { (IsErrOf result call_error.Failed → ⊥) → R.is_whole replica.new }
        ensures failed { IsErrOf result call_error.Failed → HasRisen (R.Disk.faults (R.disk replica.old)) (R.Disk.faults (R.disk replica.new)) }
        ensures surely { IsErrOf result call_error.Failed → ((n : ℕ) → R.Disk.spares (R.disk replica.old) n) → ⊥ }
    {
        take_due(base, hints, alloc, &mut self.work)?;
        work_out(base, hints, replica, alloc, &mut self.work, what)
    }

    /// What the node tells where its replica refuses the entry of the step.
    fn refusal(&mut self, alloc: Global, error: RoomError) -> StepError
        ensures { IsRefusal error self.old.started self.old.work.entries result }
    {
        match error {
            RoomError::Failed => StepError::Failed(self.lost(alloc)),
            RoomError::TooLarge(partition) => StepError::TooLarge(partition),
            RoomError::NoRoom => StepError::NoRoom,
            RoomError::NoMemory => StepError::NoMemory,
        }
    }
}

/// Keeps what a step has made, and only then changes what is in memory.
fn keep_made<R: Replica>(
    memory: &mut Memory,
    replica: &mut R,
    alloc: Global,
) -> Result<Outputs, StepError>
    requires whole { R.is_whole replica.old }
    requires holding { IsHolding memory.old.base }
    requires sound { IsSound memory.old.base memory.old.made.work }
    requires later { IsNewTo memory.old.base memory.old.made.work.time }
    requires bare { IsBare memory.old.kept }
    requires kept { R.Disk.is_honest → IsKeptAfter (entry_made memory.old.kept.ceiling memory.old.made.work) (R.durable replica.old) (record (kept_with memory.old.hints.now memory.old.kept) { ceiling = memory.old.made.work.ceiling }) }

    ensures outputs { IfOk result (λ outputs. AreOutputsOf memory.old.made outputs) }
    ensures ok { OnOk result (R.Disk.is_honest → Commits (entry_made memory.old.kept.ceiling memory.old.made.work) (R.durable replica.old) (R.durable replica.new)) }
    ensures behind { OnOk result (core_of memory.new ≡ core_behind memory.old memory.old.made.work memory.old.hints.now) }
    ensures back { OnErr result (core_of memory.new ≡ core_of memory.old) }
    ensures ordered { AreOrdered memory.new.base }
    ensures bare { IsBare memory.new.kept }
    ensures whole { ((l : _) → IsErrOf result (step_error.Failed l) → ⊥) → R.is_whole replica.new }
    ensures same { OnErr result (((l : _) → IsErrOf result (step_error.Failed l) → ⊥) → R.Disk.is_honest → R.durable replica.new ≡ R.durable replica.old) }
    ensures log { OnErr result (((l : _) → IsErrOf result (step_error.Failed l) → ⊥) → IsSameLog R.log_end R.since_flush replica.old replica.new) }
    ensures too_large { (p : _) → IsErrOf result (step_error.TooLarge p) → R.Disk.is_honest → IsFirstTooLarge (entry_made memory.old.kept.ceiling memory.old.made.work) (R.durable replica.old) p }
    ensures room { OnOk result (R.Disk.is_honest → HasRoom (R.log_end replica.old) (R.durable replica.old) (entry_made memory.old.kept.ceiling memory.old.made.work)) }
    ensures no_room { IsErrOf result step_error.NoRoom → R.Disk.is_honest → OverflowsLog (R.log_end replica.old) (R.durable replica.old) (entry_made memory.old.kept.ceiling memory.old.made.work) }
    ensures lost { (l : _) → IsErrOf result (step_error.Failed l) → IsLost memory.old.made.started memory.old.made.work.entries l }
    ensures failed { (l : _) → IsErrOf result (step_error.Failed l) → HasRisen (R.Disk.faults (R.disk replica.old)) (R.Disk.faults (R.disk replica.new)) }
    ensures faults { R.Disk.faults (R.disk replica.old) ≤ R.Disk.faults (R.disk replica.new) }
    ensures surely { (l : _) → IsErrOf result (step_error.Failed l) → ((n : ℕ) → R.Disk.spares (R.disk replica.old) n) → ⊥ }
    ensures spared { ((n : ℕ) → R.Disk.spares (R.disk replica.old) n) → (n : ℕ) → R.Disk.spares (R.disk replica.new) n }

    // A crash at any moment leaves what was kept before the call, with the entry or without.
    ensures any_moment { R.Disk.is_honest → AlwaysLeaves R.stands_for (IsWithOrWithout (entry_made memory.old.kept.ceiling memory.old.made.work) (R.durable replica.old)) (R.Disk.disk (R.disk replica.old)) (R.Disk.disk (R.disk replica.new)) }
{
    let made = &mut memory.made;
    let work = &mut made.work;
    let entry = entry_of(work, alloc, memory.kept.ceiling)?;
    let request = work.request;
    let began = memory
        .base
        .put_begun(request, &mut work.write, &mut work.read)?;
    match commit(
        &mut memory.kept,
        &memory.hints,
        replica,
        alloc,
        &entry,
        work.time,
        work.ceiling,
        made.flushes,
    ) {
        Ok(tables) => {
            memory.base.put_rest(work);
            memory.hints.settle();
            memory.time = work.time;
            Ok(Outputs {
                time: work.time,
                started: made.started,
                sends: mem::replace(&mut work.messages, Items::new(alloc)),
                entries: mem::replace(&mut work.entries, Items::new(alloc)),
                tables,
                refused: made.refused,
            })
        }
        Err(error) => {
            memory.base.take_begun(&request, began);
            Err(made.refusal(alloc, error))
        }
    }
}

/// Takes an event at this time, and moves what it has.
fn step_at<R: Replica>(
    memory: &mut Memory,
    replica: &mut R,
    alloc: Global,
    time: Micros,
    event: &mut Event,
) -> Result<Outputs, StepError>
    requires whole { R.is_whole replica.old }
    requires held { HoldsCore memory.old }
    requires settled { memory.old.hints.now ≡ memory.old.hints.before }
    requires tied { R.Disk.is_honest → IsKeptOf (R.durable replica.old) (core_of memory.old).kept }
    requires time { time ≡ risen_time memory.old.time event.old }
    requires within { time ≤ end_of_time }

    ensures ok { IfOk result (λ outputs. R.Disk.is_honest → Steps (core_of memory.old) (R.durable replica.old) event.old outputs (core_of memory.new) (R.durable replica.new)) }
    ensures held { HoldsCore memory.new }
    ensures tied { ((l : _) → IsErrOf result (step_error.Failed l) → ⊥) → R.Disk.is_honest → IsKeptOf (R.durable replica.new) (core_of memory.new).kept }
    ensures whole { ((l : _) → IsErrOf result (step_error.Failed l) → ⊥) → R.is_whole replica.new }
    ensures back { OnErr result (core_of memory.new ≡ core_of memory.old) }
    ensures same { OnErr result (((l : _) → IsErrOf result (step_error.Failed l) → ⊥) → R.Disk.is_honest → R.durable replica.new ≡ R.durable replica.old) }
    ensures log { OnErr result (((l : _) → IsErrOf result (step_error.Failed l) → ⊥) → IsSameLog R.log_end R.since_flush replica.old replica.new) }
    ensures room { OnOk result (R.Disk.is_honest → WouldKeep (core_of memory.old) (R.durable replica.old) event.old (HasRoom (R.log_end replica.old) (R.durable replica.old))) }
    ensures no_room { IsErrOf result step_error.NoRoom → R.Disk.is_honest → HasNoRoom (core_of memory.old) (R.durable replica.old) (R.log_end replica.old) event.old }
    ensures too_large { (p : _) → IsErrOf result (step_error.TooLarge p) → R.Disk.is_honest → IsTooLarge (core_of memory.old) (R.durable replica.old) event.old p }
    ensures cause { (l : _) → IsErrOf result (step_error.Failed l) → HasRisen (R.Disk.faults (R.disk replica.old)) (R.Disk.faults (R.disk replica.new)) }
    ensures faults { R.Disk.faults (R.disk replica.old) ≤ R.Disk.faults (R.disk replica.new) }
    ensures surely { (l : _) → IsErrOf result (step_error.Failed l) → ((n : ℕ) → R.Disk.spares (R.disk replica.old) n) → ⊥ }
    ensures spared { ((n : ℕ) → R.Disk.spares (R.disk replica.old) n) → (n : ℕ) → R.Disk.spares (R.disk replica.new) n }
    ensures halts { (l : _) → IsErrOf result (step_error.Failed l) → R.Disk.is_honest → Halts (core_of memory.old) (R.durable replica.old) event.old (remains l.started l.entries) R.stands_for (R.Disk.disk (R.disk replica.new)) }

    // A crash at any moment of the step leaves what was kept before it or behind it.
    ensures any_moment { R.Disk.is_honest → AlwaysLeaves R.stands_for (IsBeforeOrBehind (core_of memory.old) (R.durable replica.old) event.old) (R.Disk.disk (R.disk replica.old)) (R.Disk.disk (R.disk replica.new)) }
{
    memory.made.begin(
        &memory.base,
        memory.time,
        memory.kept.ceiling,
        alloc,
        time,
        event,
    );
    match memory.made.work_out(
        &memory.base,
        &mut memory.hints,
        replica,
        alloc,
        &mut event.what,
    ) {
        Ok(()) => keep_made(memory, replica, alloc),
        Err(CallError::Failed) => Err(StepError::Failed(memory.made.lost(alloc))),
        Err(CallError::NoMemory) => Err(StepError::NoMemory),
    }
}

/// Takes an event, and moves what it has. After `Failed` the store is to be loaded again; after another error all is as it was.
pub(crate) fn advance<R: Replica>(
    memory: &mut Memory,
    replica: &mut R,
    alloc: Global,
    event: &mut Event,
) -> Result<Outputs, StepError>
    requires whole { R.is_whole replica.old }
    requires held { HoldsCore memory.old }
    requires settled { memory.old.hints.now ≡ memory.old.hints.before }
    requires tied { R.Disk.is_honest → IsKeptOf (R.durable replica.old) (core_of memory.old).kept }

    ensures ok { IfOk result (λ outputs. R.Disk.is_honest → Steps (core_of memory.old) (R.durable replica.old) event.old outputs (core_of memory.new) (R.durable replica.new)) }
    ensures late { OnOk result (risen_time memory.old.time event.old ≤ end_of_time) }
    ensures held { HoldsCore memory.new }
    ensures tied { ((l : _) → IsErrOf result (step_error.Failed l) → ⊥) → R.Disk.is_honest → IsKeptOf (R.durable replica.new) (core_of memory.new).kept }
    ensures whole { ((l : _) → IsErrOf result (step_error.Failed l) → ⊥) → R.is_whole replica.new }
    ensures back { OnErr result (core_of memory.new ≡ core_of memory.old) }
    ensures same { OnErr result (((l : _) → IsErrOf result (step_error.Failed l) → ⊥) → R.Disk.is_honest → R.durable replica.new ≡ R.durable replica.old) }
    ensures log { OnErr result (((l : _) → IsErrOf result (step_error.Failed l) → ⊥) → IsSameLog R.log_end R.since_flush replica.old replica.new) }
    ensures room { OnOk result (R.Disk.is_honest → WouldKeep (core_of memory.old) (R.durable replica.old) event.old (HasRoom (R.log_end replica.old) (R.durable replica.old))) }
    ensures no_room { IsErrOf result step_error.NoRoom → R.Disk.is_honest → HasNoRoom (core_of memory.old) (R.durable replica.old) (R.log_end replica.old) event.old }
    ensures too_large { (p : _) → IsErrOf result (step_error.TooLarge p) → R.Disk.is_honest → IsTooLarge (core_of memory.old) (R.durable replica.old) event.old p }
    ensures cause { (l : _) → IsErrOf result (step_error.Failed l) → HasRisen (R.Disk.faults (R.disk replica.old)) (R.Disk.faults (R.disk replica.new)) }
    ensures faults { R.Disk.faults (R.disk replica.old) ≤ R.Disk.faults (R.disk replica.new) }
    ensures surely { (l : _) → IsErrOf result (step_error.Failed l) → ((n : ℕ) → R.Disk.spares (R.disk replica.old) n) → ⊥ }
    ensures spared { ((n : ℕ) → R.Disk.spares (R.disk replica.old) n) → (n : ℕ) → R.Disk.spares (R.disk replica.new) n }
    ensures halts { (l : _) → IsErrOf result (step_error.Failed l) → R.Disk.is_honest → Halts (core_of memory.old) (R.durable replica.old) event.old (remains l.started l.entries) R.stands_for (R.Disk.disk (R.disk replica.new)) }

    // A crash at any moment of the step leaves what was kept before it or behind it.
    ensures any_moment { R.Disk.is_honest → AlwaysLeaves R.stands_for (IsBeforeOrBehind (core_of memory.old) (R.durable replica.old) event.old) (R.Disk.disk (R.disk replica.old)) (R.Disk.disk (R.disk replica.new)) }
{
    let Some(time) = risen(memory.time, event) else {
        return Err(StepError::NoRoom);
    };
    step_at(memory, replica, alloc, time, event)
}
