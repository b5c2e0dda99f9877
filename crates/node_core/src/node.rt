//! A node: an event is taken in memory, kept by one commit, and told.

ghost use Rattle.std.specs.Prelude.{◌≡◌, ◌≤◌, ◌<◌, ◌↔◌, IsTrue, ℕ, [], true, false, IfOk, OnOk, OnErr, IsErrOf};
ghost use Rattle.cs_base.specs.Faults.{HasRisen};
ghost use Rattle.cs_store.specs.Disk.{IsSettled};
ghost use Rattle.durable_state.specs.State.{Durable, IsSameKept};
ghost use Rattle.node_steps.specs.Holding.{HoldsFit};
ghost use Rattle.node_steps.specs.State.{loaded};
ghost use Rattle.node_steps.specs.Steps.{risen_time, end_of_time};
ghost use Rattle.node_steps.specs.Stops.{remains};
ghost use Rattle.replica.specs.Finding.{AlwaysLeaves};
ghost use Rattle.replica.specs.Kept.{IsKeptOf};
ghost use Rattle.replica.specs.declared.error.LoadError.TheVariants as load_error;
ghost use Rattle.node_core.specs.Nodes.{state_with, Steps, WouldKeep, HasRoom, HasNoRoom, IsSameLog, IsIdle, IsTooLarge, Halts, IsBeforeOrBehind};
ghost use Rattle.node_core.specs.Memory.{has_stopped as has_stopped_of, IsLoaded};
ghost use Rattle.node_core.specs.declared.outcome.StepError.TheVariants as step_error;

use crate::base::Base;
use crate::due::has_due;
use crate::memory::{Made, Memory, advance};
use crate::outcome::{Lost, StepError};
use crate::times::risen_at;
use cs_base::{Items, Micros, NodeId};
use hint_store::HintStore;
use node_steps::what_fits_is_tested;
use peer_messages::{Event, Outputs, Setting};
use replica::{Kept, LoadError, Replica};
use std::alloc::{AllocError, Global};
use std::collections::BTreeMap;
use std::marker::Model;

/// What a node has in memory.
#[derive(Drop)]
pub struct NodeCore {
    memory: Memory,
    runs: bool,
}

impl Model for NodeCore {
    ghost use Rattle.std.specs.Prelude.{◌≡◌};
    ghost use Rattle.node_core.specs.Nodes.{Core};
    ghost use Rattle.node_core.specs.Memory.{core_of, HoldsCore};

    ghost Value = { Core };

    ghost view = { λ a. record (core_of a.memory) { runs = a.runs } };

    ghost invariant = { λ a. HoldsCore a.memory × (a.memory.hints.now ≡ a.memory.hints.before) };
}

/// A node: what it has in memory, and what keeps its durable state.
#[derive(Drop)]
pub struct Node<R: Replica> {
    pub core: NodeCore,
    pub replica: R,
}

fn has_stopped(told: &Result<Outputs, StepError>) -> bool
    ensures { result ≡ has_stopped_of told.now }
{
    matches!(told, Err(StepError::Failed(_)))
}

impl NodeCore {
    /// The nodes that it takes for dead.
    pub fn down(&self) -> &[NodeId]
        ensures { result.now ≡ self.now.down }
    {
        self.memory.base.down.as_slice()
    }

    /// Whether no call of its store has failed. After one it takes no step.
    pub fn runs(&self) -> bool
        ensures { result ≡ self.now.runs }
    {
        self.runs
    }

    /// Whether a step at this reading of the clock, to which no message comes, would find nothing due. Where the node's time
    /// would pass its end it is not.
    pub fn is_idle(&self, clock: Micros) -> bool
        ensures { IsTrue result ↔ IsIdle self.now clock }
    {
        let memory = &self.memory;
        match risen_at(memory.time, clock) {
            Some(time) => !has_due(&memory.base, &memory.hints, time),
            None => false,
        }
    }

    fn loaded(
        alloc: Global,
        me: NodeId,
        setting: Setting,
        kept: Kept,
    ) -> Result<NodeCore, AllocError>
        ensures { IfOk result (λ core. IsLoaded me setting kept core) }
    {
        let Kept {
            ceiling,
            rows,
            hints,
            numbers,
            marks,
        } = kept;
        let hints = HintStore::restore(alloc, hints, numbers.as_slice())?;
        let kept = Kept {
            ceiling,
            rows,
            hints: Items::new(alloc),
            numbers: Items::new(alloc),
            marks,
        };
        let base = Base {
            setting,
            me,
            down: Items::new(alloc),
            batches: Items::new(alloc),
            writes: BTreeMap::new(alloc),
            reads: BTreeMap::new(alloc),
            unanswered: 0,
        };
        Ok(NodeCore {
            memory: Memory {
                base,
                time: ceiling,
                kept,
                hints,
                made: Made::nothing(alloc),
            },
            runs: true,
        })
    }

    fn step<R: Replica>(
        &mut self,
        replica: &mut R,
        alloc: Global,
        event: &mut Event,
    ) -> Result<Outputs, StepError>
        requires whole { self.old.runs ≡ true → R.is_whole replica.old }
        requires tied { self.old.runs ≡ true → R.Disk.is_honest → IsKeptOf (R.durable replica.old) self.old.kept }

        ensures runs { OnOk result (self.old.runs ≡ true) }
        ensures goes_on { OnOk result (self.new.runs ≡ true) }
        ensures ok { IfOk result (λ outputs. R.Disk.is_honest → Steps self.old (R.durable replica.old) event.old outputs self.new (R.durable replica.new)) }
        ensures whole { self.new.runs ≡ true → R.is_whole replica.new }
        ensures tied { self.new.runs ≡ true → R.Disk.is_honest → IsKeptOf (R.durable replica.new) self.new.kept }
        ensures late { OnOk result (risen_time self.old.time event.old ≤ end_of_time) }
        ensures room { OnOk result (R.Disk.is_honest → WouldKeep self.old (R.durable replica.old) event.old (HasRoom (R.log_end replica.old) (R.durable replica.old))) }
        ensures no_room { IsErrOf result step_error.NoRoom → R.Disk.is_honest → HasNoRoom self.old (R.durable replica.old) (R.log_end replica.old) event.old }
        ensures too_large { (p : _) → IsErrOf result (step_error.TooLarge p) → R.Disk.is_honest → IsTooLarge self.old (R.durable replica.old) event.old p }
        ensures same { OnErr result (self.new.runs ≡ true → (self.new ≡ self.old) × (R.Disk.is_honest → R.durable replica.new ≡ R.durable replica.old)) }
        ensures log { OnErr result (self.new.runs ≡ true → IsSameLog R.log_end R.since_flush replica.old replica.new) }
        ensures failed { (l : _) → IsErrOf result (step_error.Failed l) → self.new ≡ record self.old { runs = false } }
        ensures others { OnErr result (((l : _) → IsErrOf result (step_error.Failed l) → ⊥) → self.new.runs ≡ true) }
        ensures cause { (l : _) → IsErrOf result (step_error.Failed l) → self.old.runs ≡ true → HasRisen (R.Disk.faults (R.disk replica.old)) (R.Disk.faults (R.disk replica.new)) }
        ensures faults { R.Disk.faults (R.disk replica.old) ≤ R.Disk.faults (R.disk replica.new) }
        ensures halts { (l : _) → IsErrOf result (step_error.Failed l) → self.old.runs ≡ true → R.Disk.is_honest → Halts self.old (R.durable replica.old) event.old (remains l.started l.entries) R.stands_for (R.Disk.disk (R.disk replica.new)) }
        ensures dead { self.old.runs ≡ false → (self.new ≡ self.old) × (replica.new ≡ replica.old) }
        ensures told { (l : _) → IsErrOf result (step_error.Failed l) → self.old.runs ≡ false → remains l.started l.entries ≡ [] }
        ensures surely { self.old.runs ≡ true → ((n : ℕ) → R.Disk.spares (R.disk replica.old) n) → ((l : _) → IsErrOf result (step_error.Failed l) → ⊥) × ((n : ℕ) → R.Disk.spares (R.disk replica.new) n) }

        // A crash at any moment of the step leaves what was kept before it or behind it.
        ensures any_moment { self.old.runs ≡ true → R.Disk.is_honest → AlwaysLeaves R.stands_for (IsBeforeOrBehind self.old (R.durable replica.old) event.old) (R.Disk.disk (R.disk replica.old)) (R.Disk.disk (R.disk replica.new)) }
    {
        if !self.runs {
            return Err(StepError::Failed(Lost::nothing(alloc)));
        }
        let result = advance(&mut self.memory, replica, alloc, event);
        // Of a step that is not kept no hint stays.
        self.memory.hints.back();
        self.runs = !has_stopped(&result);
        result
    }
}

impl<R: Replica> Node<R> {
    /// A node with what its disk has. It takes all others for alive, and its time is the kept ceiling.
    pub fn load(
        alloc: Global,
        me: NodeId,
        setting: Setting,
        store: R::Disk,
    ) -> Result<Node<R>, LoadError<R::Disk>>
        // After a restart, what is read is what is on the disk.
        requires settled { R.Disk.is_honest → (k : ℕ) → IsSettled k (R.Disk.disk store) }

        ensures found { IfOk result (λ n. R.Disk.is_honest → R.stands_for (R.Disk.disk store).seen (R.durable n.replica)) }
        ensures state { IfOk result (λ n. R.Disk.is_honest → state_with n.core (R.durable n.replica) ≡ loaded (R.durable n.replica)) }
        ensures core { IfOk result (λ n. (n.core.me ≡ me) × (n.core.setting ≡ setting) × (n.core.runs ≡ true)) }
        ensures tied { IfOk result (λ n. R.Disk.is_honest → IsKeptOf (R.durable n.replica) n.core.kept) }
        ensures whole { IfOk result (λ n. R.is_whole n.replica) }
        ensures fits { IfOk result (λ n. R.Disk.is_honest → HoldsFit (state_with n.core (R.durable n.replica))) }

        // A crash at any moment leaves what was there.
        ensures any_moment { IfOk result (λ n. R.Disk.is_honest → (d : Durable) → R.stands_for (R.Disk.disk store).seen d → AlwaysLeaves R.stands_for (IsSameKept d) (R.Disk.disk store) (R.Disk.disk (R.disk n.replica))) }
        ensures any_moment_failed { (s : _) → IsErrOf result (load_error.Failed s) → R.Disk.is_honest → (d : Durable) → R.stands_for (R.Disk.disk store).seen d → AlwaysLeaves R.stands_for (IsSameKept d) (R.Disk.disk store) (R.Disk.disk s) }
        ensures any_moment_no_memory { (s : _) → IsErrOf result (load_error.NoMemory s) → R.Disk.is_honest → (d : Durable) → R.stands_for (R.Disk.disk store).seen d → AlwaysLeaves R.stands_for (IsSameKept d) (R.Disk.disk store) (R.Disk.disk s) }

        ensures failed { (s : _) → IsErrOf result (load_error.Failed s) → HasRisen (R.Disk.faults store) (R.Disk.faults s) }
        ensures damaged { (s : _) (f p : ℕ) → IsErrOf result (load_error.Damaged s f p) → R.Disk.is_honest → R.is_damaged (R.Disk.disk store).seen f p }
        ensures faults { IfOk result (λ n. R.Disk.faults store ≤ R.Disk.faults (R.disk n.replica)) }
        ensures surely { ((n : ℕ) → R.Disk.spares store n) → ((s : _) → IsErrOf result (load_error.Failed s) → ⊥) × IfOk result (λ l. (n : ℕ) → R.Disk.spares (R.disk l.replica) n) }
    {
        what_fits_is_tested();
        let (replica, kept) = R::load(alloc, store)?;
        match NodeCore::loaded(alloc, me, setting, kept) {
            Ok(core) => Ok(Node { core, replica }),
            Err(_) => Err(LoadError::NoMemory(replica.release())),
        }
    }

    /// Takes an event.
    ///
    /// After `NoRoom`, `TooLarge` and `NoMemory` the node and what it keeps are as they were, and the event has not happened.
    /// After `Failed` it has stopped: the step is made, with its outputs lost, or it is not, and each later one answers `Failed`
    /// too.
    pub fn step(&mut self, alloc: Global, mut event: Event) -> Result<Outputs, StepError>
        requires whole { self.old.core.runs ≡ true → R.is_whole self.old.replica }
        requires tied { self.old.core.runs ≡ true → R.Disk.is_honest → IsKeptOf (R.durable self.old.replica) self.old.core.kept }

        ensures runs { OnOk result (self.old.core.runs ≡ true) }
        ensures goes_on { OnOk result (self.new.core.runs ≡ true) }
        ensures ok { IfOk result (λ outputs. R.Disk.is_honest → Steps self.old.core (R.durable self.old.replica) event outputs self.new.core (R.durable self.new.replica)) }
        ensures whole { self.new.core.runs ≡ true → R.is_whole self.new.replica }
        ensures tied { self.new.core.runs ≡ true → R.Disk.is_honest → IsKeptOf (R.durable self.new.replica) self.new.core.kept }
        ensures late { OnOk result (risen_time self.old.core.time event ≤ end_of_time) }
        ensures room { OnOk result (R.Disk.is_honest → WouldKeep self.old.core (R.durable self.old.replica) event (HasRoom (R.log_end self.old.replica) (R.durable self.old.replica))) }
        ensures no_room { IsErrOf result step_error.NoRoom → R.Disk.is_honest → HasNoRoom self.old.core (R.durable self.old.replica) (R.log_end self.old.replica) event }
        ensures too_large { (p : _) → IsErrOf result (step_error.TooLarge p) → R.Disk.is_honest → IsTooLarge self.old.core (R.durable self.old.replica) event p }
        ensures same { OnErr result (self.new.core.runs ≡ true → (self.new.core ≡ self.old.core) × (R.Disk.is_honest → R.durable self.new.replica ≡ R.durable self.old.replica)) }
        ensures log { OnErr result (self.new.core.runs ≡ true → IsSameLog R.log_end R.since_flush self.old.replica self.new.replica) }
        ensures failed { (l : _) → IsErrOf result (step_error.Failed l) → self.new.core ≡ record self.old.core { runs = false } }
        ensures others { OnErr result (((l : _) → IsErrOf result (step_error.Failed l) → ⊥) → self.new.core.runs ≡ true) }
        ensures cause { (l : _) → IsErrOf result (step_error.Failed l) → self.old.core.runs ≡ true → HasRisen (R.Disk.faults (R.disk self.old.replica)) (R.Disk.faults (R.disk self.new.replica)) }
        ensures faults { R.Disk.faults (R.disk self.old.replica) ≤ R.Disk.faults (R.disk self.new.replica) }
        ensures halts { (l : _) → IsErrOf result (step_error.Failed l) → self.old.core.runs ≡ true → R.Disk.is_honest → Halts self.old.core (R.durable self.old.replica) event (remains l.started l.entries) R.stands_for (R.Disk.disk (R.disk self.new.replica)) }
        ensures dead { self.old.core.runs ≡ false → (self.new.core ≡ self.old.core) × (self.new.replica ≡ self.old.replica) }
        ensures told { (l : _) → IsErrOf result (step_error.Failed l) → self.old.core.runs ≡ false → remains l.started l.entries ≡ [] }
        ensures surely { self.old.core.runs ≡ true → ((n : ℕ) → R.Disk.spares (R.disk self.old.replica) n) → ((l : _) → IsErrOf result (step_error.Failed l) → ⊥) × ((n : ℕ) → R.Disk.spares (R.disk self.new.replica) n) }

        // A crash at any moment of the step leaves what was kept before it or behind it.
        ensures any_moment { self.old.core.runs ≡ true → R.Disk.is_honest → AlwaysLeaves R.stands_for (IsBeforeOrBehind self.old.core (R.durable self.old.replica) event) (R.Disk.disk (R.disk self.old.replica)) (R.Disk.disk (R.disk self.new.replica)) }
    {
        let told = self.core.step(&mut self.replica, alloc, &mut event);
        drop(event);
        told
    }

    /// The node's disk, to be loaded again.
    pub fn release(self) -> R::Disk
        ensures { result ≡ R.disk self.replica }
    {
        let Node { core, replica } = self;
        drop(core);
        replica.release()
    }
}
