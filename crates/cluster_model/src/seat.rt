//! One node of a cluster.

ghost use Rattle.std.specs.Prelude.{◌≡◌, ◌++◌, ◌≤◌, [], ◌∷◌, Bool, IfOk, OnOk, OnErr};
ghost use Rattle.std.specs.List.{range_with_len};
ghost use Rattle.durable_state.specs.State.{Durable};
ghost use Rattle.cluster_model.specs.Takes.{event_at};
ghost use Rattle.cluster_model.specs.Faults.{is_failure, planned};
ghost use Rattle.cs_store.specs.Disk.{Passes, Stays};
ghost use Rattle.cs_store.specs.Mem.{disk_of, plan_of};
ghost use Rattle.cluster_model.specs.Sites.{keeper, Crashed, HasLeft, MayTake, MayWake, StopsBy, StaysAt, TellsBy, Turns, Loads, Puts, WakesBy, SleepsBy};
ghost use Rattle.cluster_model.specs.State.{is_up};
ghost use Rattle.cluster_model.specs.Holding.{showing_of};

use crate::told::{Told, has_failure, has_halt, tell_all};
use crate::turn::Turn;
use chronicle_pieces::Alive;
use cs_base::{Micros, NodeId};
use cs_store::{FileNo, MemStore, Outcome, Store};
use node_core::{Node, StepError};
use peer_messages::{Event, Invalid, Refusal, Setting, What};
use replica::{LoadError, MemReplica};
use std::alloc::{AllocError, Global};
use std::mem;

/// A node while it runs, and its store while it is down.
#[derive(Drop)]
pub(crate) enum Part<R: MemReplica> {
    Runs(Node<R>),
    Rests(MemStore),
    /// Taken out by the call that works on it.
    Lent,
}

/// A node, its clock, and the faults that its store was told since it last stopped.
#[derive(Drop)]
pub(crate) struct Seat<R: MemReplica> {
    pub part: Part<R>,
    pub clock: Micros,
    pub told: Vec<Told>,
}

/// What comes of a load: the node, or its store.
#[derive(Drop)]
pub(crate) enum Woken<R: MemReplica> {
    Up(Node<R>),
    Failed(MemStore),
    NoMemory(MemStore),
}

/// The store of a node that crashes.
fn crashed<R: MemReplica>(node: Node<R>, outcome: Outcome) -> MemStore
    ensures { Crashed (R.disk node.replica) result }
{
    let mut store = node.release();
    store.crash(outcome);
    store
}

/// A store that is let go of, as a crash leaves it. What was written stays.
fn reopened(mut store: MemStore) -> MemStore
    ensures { Crashed store result }
{
    store.crash(Outcome::Kept);
    store
}

/// Whether the store has stopped its node. Then it answers nothing until it crashes.
fn is_halted(store: &mut MemStore) -> bool
    ensures { Passes 0 Stays (disk_of store.old) (disk_of store.new) }
{
    store.len(FileNo::new(0).unwrap()).is_err()
}

/// The store of a node whose step failed, and whether it was the store that stopped the node. What the node had written stays.
fn fallen<R: MemReplica>(node: Node<R>) -> (MemStore, bool)
    ensures { Crashed (R.disk node.replica) result.0 }
{
    let mut store = node.release();
    let is_stopped = is_halted(&mut store);
    (reopened(store), is_stopped)
}

/// What a crash leaves in the place of a node.
fn crashed_part<R: MemReplica>(part: Part<R>, outcome: Outcome) -> Part<R>
    ensures { StopsBy (keeper R.stands_for R.durable R.disk R.is_whole) part result }
{
    match part {
        Part::Runs(node) => Part::Rests(crashed(node, outcome)),
        part => part,
    }
}

/// The node whose step failed leaves its store in its place. It tells whether it was the store that stopped the node.
fn fall_in<R: MemReplica>(part: &mut Part<R>) -> bool
    ensures { StopsBy (keeper R.stands_for R.durable R.disk R.is_whole) part.old part.new }
{
    match mem::replace(part, Part::Lent) {
        Part::Runs(node) => {
            let (store, is_stopped) = fallen(node);
            drop(mem::replace(part, Part::Rests(store)));
            is_stopped
        }
        rest => {
            drop(mem::replace(part, rest));
            false
        }
    }
}

/// The store of a replica is told a fault.
fn tell<R: MemReplica>(replica: &mut R, fault: Told)
    ensures plan { plan_of (R.disk replica.new) ≡ planned fault (plan_of (R.disk replica.old)) }
    ensures durable { R.durable replica.new ≡ R.durable replica.old }
    ensures whole { R.is_whole replica.old → R.is_whole replica.new }
{
    match fault {
        Told::Fail(call) if call > 0 => replica.fail_at(call),
        Told::Stop(call, outcome) if call > 0 => replica.stop_at(call, outcome),
        _ => {}
    }
}

/// Loads a node from a store that is told these faults first.
fn load<R: MemReplica>(
    alloc: Global,
    me: NodeId,
    setting: Setting,
    mut store: MemStore,
    told: &[Told],
) -> Woken<R>
    requires { (left : Durable) × HasLeft (keeper R.stands_for R.durable R.disk R.is_whole) left store }
    ensures { Loads (keeper R.stands_for R.durable R.disk R.is_whole) setting me told.now store result }
{
    tell_all(&mut store, told);
    match Node::load(alloc, me, setting, store) {
        Ok(node) => Woken::Up(node),
        Err(LoadError::Failed(store)) => Woken::Failed(reopened(store)),
        Err(LoadError::NoMemory(store)) => Woken::NoMemory(reopened(store)),
        Err(LoadError::Damaged(..)) => unreachable!(),
    }
}

impl<R: MemReplica> Seat<R> {
    /// Whether the node runs.
    pub fn runs(&self) -> bool
        ensures { result ≡ is_up (showing_of (keeper R.stands_for R.durable R.disk R.is_whole) self.now.part) }
    {
        matches!(self.part, Part::Runs(_))
    }

    /// The node crashes. One that is down stays so.
    pub fn stop(&mut self, outcome: Outcome)
        ensures part { StopsBy (keeper R.stands_for R.durable R.disk R.is_whole) self.old.part self.new.part }
        ensures clock { self.new.clock ≡ self.old.clock }
        ensures told { self.new.told.items ≡ [] }
    {
        let part = mem::replace(&mut self.part, Part::Lent);
        self.set_part(crashed_part(part, outcome));
        self.told.clear();
    }

    /// The node whose step failed is down. It tells whether it was its store that stopped it.
    fn fall(&mut self) -> bool
        ensures part { StopsBy (keeper R.stands_for R.durable R.disk R.is_whole) self.old.part self.new.part }
        ensures clock { self.new.clock ≡ self.old.clock }
        ensures told { self.new.told ≡ self.old.told }
    {
        fall_in(&mut self.part)
    }

    /// The node whose step failed is down. It tells whether a call failed, and none stopped it.
    fn halt(&mut self) -> bool
        ensures part { StopsBy (keeper R.stands_for R.durable R.disk R.is_whole) self.old.part self.new.part }
        ensures clock { self.new.clock ≡ self.old.clock }
        ensures told { self.new.told.items ≡ [] }
        ensures failed { (stopped : Bool) × (result ≡ is_failure self.old.told.items stopped) }
    {
        let is_stopped = self.fall();
        let has_failed = has_failure(&self.told) && !(has_halt(&self.told) && is_stopped);
        self.told.clear();
        has_failed
    }

    /// The node takes an event, in a cluster of so many nodes. At an error nothing has happened.
    pub fn take(&mut self, alloc: Global, nodes: u8, what: What) -> Result<Turn, AllocError>
        requires few { nodes ≤ 7 }
        requires part { MayTake (keeper R.stands_for R.durable R.disk R.is_whole) self.old.part }
        ensures ok { IfOk result (λ turn. Turns (keeper R.stands_for R.durable R.disk R.is_whole) (range_with_len 0 nodes) self.old (event_at self.old.clock what) turn self.new) }
        ensures err { OnErr result (StaysAt (keeper R.stands_for R.durable R.disk R.is_whole) self.old self.new) }
    {
        let Part::Runs(node) = &mut self.part else {
            drop(what);
            return Ok(Turn::Refused(Refusal::Down));
        };
        let event = Event {
            clock: self.clock,
            what,
        };
        match node.step(alloc, event) {
            Ok(outputs) => Ok(Turn::Stepped(outputs, Alive::beside(nodes, node.core.down()))),
            Err(StepError::Failed(lost)) => Ok(Turn::Stopped(lost, self.halt())),
            Err(StepError::NoRoom) => Ok(Turn::Refused(Refusal::Overloaded)),
            Err(StepError::TooLarge(_)) => Ok(Turn::Refused(Refusal::Invalid(
                Invalid::PartitionTooLarge,
            ))),
            Err(StepError::NoMemory) => Err(AllocError),
        }
    }

    /// The node's store is told a fault. An error changes nothing.
    pub fn tell(&mut self, fault: Told) -> Result<(), AllocError>
        ensures part { OnOk result (TellsBy (keeper R.stands_for R.durable R.disk R.is_whole) fault self.old.part self.new.part) }
        ensures told { OnOk result (self.new.told.items ≡ self.old.told.items ++ fault ∷ []) }
        ensures clock { self.new.clock ≡ self.old.clock }
        ensures err { OnErr result ((self.new.part ≡ self.old.part) × (self.new.told.items ≡ self.old.told.items)) }
    {
        self.told.push(fault)?;
        if let Part::Runs(node) = &mut self.part {
            tell(&mut node.replica, fault);
        }
        Ok(())
    }

    /// This is in the place of the node from here on.
    fn set_part(&mut self, part: Part<R>)
        ensures { self.new ≡ record self.old { part = part } }
    {
        drop(mem::replace(&mut self.part, part));
    }

    /// What came of a load is put in its place.
    fn put(&mut self, woken: Woken<R>) -> Result<bool, AllocError>
        ensures { Puts self.old woken result self.new }
    {
        match woken {
            Woken::Up(node) => {
                self.set_part(Part::Runs(node));
                Ok(true)
            }
            Woken::Failed(store) => {
                self.set_part(Part::Rests(store));
                self.told.clear();
                Ok(false)
            }
            Woken::NoMemory(store) => {
                self.set_part(Part::Rests(store));
                Err(AllocError)
            }
        }
    }

    /// Loads the node, unless it runs, and tells whether the load did not fail. At an error nothing has happened.
    pub fn wake(&mut self, alloc: Global, me: NodeId, setting: Setting) -> Result<bool, AllocError>
        requires { MayWake (keeper R.stands_for R.durable R.disk R.is_whole) self.old.part }
        ensures ok { IfOk result (λ ok. WakesBy (keeper R.stands_for R.durable R.disk R.is_whole) setting me self.old self.old.part ok self.new) }
        ensures err { OnErr result (SleepsBy (keeper R.stands_for R.durable R.disk R.is_whole) self.old self.old.part self.new) }
    {
        match mem::replace(&mut self.part, Part::Lent) {
            Part::Rests(store) => {
                let woken = load(alloc, me, setting, store, &self.told);
                self.put(woken)
            }
            part => {
                self.set_part(part);
                Ok(true)
            }
        }
    }
}
