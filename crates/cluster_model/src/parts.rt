//! The parts of a cluster, and what an event does to them.

ghost use Rattle.std.specs.Prelude.{◌≡◌, ◌+◌, ◌++◌, ◌≤◌, [], ◌∷◌, ℕ, IfOk, OnOk, OnErr, Ok, Some, None, vec_len, vec_capacity, length, slice_get, slice_set, true, false};
ghost use Rattle.std.specs.List.{range_with_len};
ghost use Rattle.cluster_runs.specs.Run.{WasSent};
ghost use Rattle.peer_messages.specs.declared.event.What.TheVariants as what_is;
ghost use Rattle.cluster_model.specs.State.{place_of, oldest_from, runs_at};
ghost use Rattle.cluster_model.specs.Takes.{Comes, Delivers, Settles, SettlesInPart, Takes, Stands, lost, changed, stopped, set_clock, told_of, Restarts};
ghost use Rattle.cluster_model.specs.Mails.{post_of};
ghost use Rattle.cluster_model.specs.Turns.{asks};
ghost use Rattle.cluster_model.specs.Sites.{keeper, MayTake, MayWake, IsSeat, AtSeat, StaysAt, TurnsAt, StopsBy, TellsBy, WakesBy, SleepsBy, ClockWas};
ghost use Rattle.cluster_model.specs.Holding.{Holds, state_of};

use crate::annals::Annals;
use crate::event::ClusterEvent;
use crate::seat::Seat;
use crate::told::Told;
use crate::turn::Turn;
use cs_base::{Micros, NodeId};
use cs_store::Outcome;
use event_copies::copy_setting;
use http_server::Log;
use peer_messages::{Setting, What};
use replica::MemReplica;
use std::alloc::{AllocError, Global};
use std::mem;

/// The nodes by number, the messages, and the entries of the chronicle.
#[derive(Drop)]
pub(crate) struct Parts<R: MemReplica> {
    pub setting: Setting,
    pub seats: Vec<Seat<R>>,
    /// The nodes as they began, for proofs alone.
    pub begun: Log<Vec<Seat<R>>, ()>,
    pub annals: Annals,
}

/// Whether a client asks.
fn is_ask(what: &What) -> bool
    ensures { result ≡ asks what.now }
{
    match what {
        What::Client(_) => true,
        What::Deliver(_) | What::Alive(..) | What::Collect(_) | What::Flush | What::Tick => false,
    }
}

/// A node of these takes an event, in a cluster of so many nodes. At an error nothing has happened.
fn turn_at<R: MemReplica>(
    seats: &mut Vec<Seat<R>>,
    alloc: Global,
    nodes: u8,
    node: NodeId,
    what: What,
) -> Result<Turn, AllocError>
    requires few { nodes ≤ 7 }
    requires seats { (k : ℕ) (seat : _) → slice_get seats.old.items k ≡ Some seat → MayTake (keeper R.stands_for R.durable R.disk R.is_whole) seat.part }
    ensures ok { IfOk result (λ turn. TurnsAt (keeper R.stands_for R.durable R.disk R.is_whole) (range_with_len 0 nodes) seats.old.items node what turn seats.new.items) }
    ensures err { OnErr result (AtSeat (StaysAt (keeper R.stands_for R.durable R.disk R.is_whole)) (Unit {0}) seats.old.items node (slice_get seats.old.items node) seats.new.items) }
{
    let Some(seat) = seats.get_mut(usize::from(node.number())) else {
        drop(what);
        return Ok(Turn::NoNode);
    };
    seat.take(alloc, nodes, what)
}

/// Loads a node of these, and tells whether its load did not fail. At an error nothing has happened.
fn wake_at<R: MemReplica>(
    seats: &mut Vec<Seat<R>>,
    alloc: Global,
    node: NodeId,
    setting: Setting,
) -> Result<bool, AllocError>
    requires { (k : ℕ) (seat : _) → slice_get seats.old.items k ≡ Some seat → MayWake (keeper R.stands_for R.durable R.disk R.is_whole) seat.part }
    ensures ok { IfOk result (λ ok. AtSeat (λ seat seat'. WakesBy (keeper R.stands_for R.durable R.disk R.is_whole) setting node seat seat.part ok seat') (ok ≡ true) seats.old.items node (slice_get seats.old.items node) seats.new.items) }
    ensures err { OnErr result (AtSeat (λ seat seat'. SleepsBy (keeper R.stands_for R.durable R.disk R.is_whole) seat seat.part seat') (Unit {0}) seats.old.items node (slice_get seats.old.items node) seats.new.items) }
{
    let Some(seat) = seats.get_mut(usize::from(node.number())) else {
        return Ok(true);
    };
    seat.wake(alloc, node, setting)
}

/// Sets the clock of a node of these, and tells what it was.
fn clock_at<R: MemReplica>(seats: &mut Vec<Seat<R>>, node: NodeId, micros: Micros) -> Option<Micros>
    ensures seats { AtSeat (λ seat seat'. IsSeat seat.part micros seat.told.items seat') (Unit {0}) seats.old.items node (slice_get seats.old.items node) seats.new.items }
    ensures before { ClockWas seats.old.items node result }
{
    let seat = seats.get_mut(usize::from(node.number()))?;
    Some(mem::replace(&mut seat.clock, micros))
}

/// A node of these crashes.
fn crash_at<R: MemReplica>(seats: &mut Vec<Seat<R>>, node: NodeId, outcome: Outcome)
    ensures { AtSeat (λ seat seat'. StopsBy (keeper R.stands_for R.durable R.disk R.is_whole) seat.part seat'.part × (seat'.clock ≡ seat.clock) × (seat'.told.items ≡ [])) (Unit {0}) seats.old.items node (slice_get seats.old.items node) seats.new.items }
{
    if let Some(seat) = seats.get_mut(usize::from(node.number())) {
        seat.stop(outcome);
    }
}

/// The store of a node of these is told a fault. At an error nothing has happened.
fn tell_at<R: MemReplica>(
    seats: &mut Vec<Seat<R>>,
    node: NodeId,
    fault: Told,
) -> Result<(), AllocError>
    ensures ok { OnOk result (AtSeat (λ seat seat'. TellsBy (keeper R.stands_for R.durable R.disk R.is_whole) fault seat.part seat'.part × (seat'.clock ≡ seat.clock) × (seat'.told.items ≡ seat.told.items ++ fault ∷ [])) (Unit {0}) seats.old.items node (slice_get seats.old.items node) seats.new.items) }
    ensures err { OnErr result (AtSeat (λ seat seat'. IsSeat seat.part seat.clock seat.told.items seat') (Unit {0}) seats.old.items node (slice_get seats.old.items node) seats.new.items) }
{
    match seats.get_mut(usize::from(node.number())) {
        Some(seat) => seat.tell(fault),
        None => Ok(()),
    }
}

impl<R: MemReplica> Parts<R> {
    /// Whether the node runs.
    pub fn runs(&self, node: NodeId) -> bool
        ensures { result ≡ runs_at (state_of (keeper R.stands_for R.durable R.disk R.is_whole) self.now) node }
    {
        match self.seats.get(usize::from(node.number())) {
            Some(seat) => seat.runs(),
            None => false,
        }
    }

    /// The event comes to the node. An error leaves all as it was.
    #[inline(always)]
    pub fn take(&mut self, alloc: Global, node: NodeId, what: What) -> Result<(), AllocError>
        requires holds { Holds (keeper R.stands_for R.durable R.disk R.is_whole) self.old }
        requires sent { WasSent (post_of self.old.annals.mail).sent node what }
        ensures ok { OnOk result (Comes (state_of (keeper R.stands_for R.durable R.disk R.is_whole) self.old) node what (state_of (keeper R.stands_for R.durable R.disk R.is_whole) self.new)) }
        ensures holds { Holds (keeper R.stands_for R.durable R.disk R.is_whole) self.new }
        ensures err { OnErr result (state_of (keeper R.stands_for R.durable R.disk R.is_whole) self.new ≡ state_of (keeper R.stands_for R.durable R.disk R.is_whole) self.old) }
        ensures passed { vec_len self.old.annals.mail.passed ≤ vec_len self.new.annals.mail.passed }
    {
        if let Err(error) = self.annals.make_room() {
            drop(what);
            return Err(error);
        }
        let nodes = self.setting.ring.nodes();
        let is_ask = is_ask(&what);
        let turn = turn_at(&mut self.seats, alloc, nodes, node, what)?;
        self.annals.enter(node, is_ask, turn);
        Ok(())
    }

    /// Delivers the message at this place. An error leaves all as it was.
    fn deliver_at(&mut self, alloc: Global, place: usize) -> Result<(), AllocError>
        requires holds { Holds (keeper R.stands_for R.durable R.disk R.is_whole) self.old }
        requires none { self.old.annals.mail.news ≡ None }
        ensures ok { OnOk result (Delivers (state_of (keeper R.stands_for R.durable R.disk R.is_whole) self.old) (Some place) (state_of (keeper R.stands_for R.durable R.disk R.is_whole) self.new)) }
        ensures holds { Holds (keeper R.stands_for R.durable R.disk R.is_whole) self.new }
        ensures err { OnErr result (state_of (keeper R.stands_for R.durable R.disk R.is_whole) self.new ≡ state_of (keeper R.stands_for R.durable R.disk R.is_whole) self.old) }
    {
        let Some(message) = self.annals.mail.copy_at(alloc, place)? else {
            return Ok(());
        };
        self.take(alloc, message.upto, What::Deliver(message))?;
        self.annals.mail.pass(place);
        Ok(())
    }

    /// Delivers a message again or for the first time. An error leaves all as it was.
    fn deliver(
        &mut self,
        alloc: Global,
        from: NodeId,
        upto: NodeId,
        number: u64,
    ) -> Result<(), AllocError>
        requires { Holds (keeper R.stands_for R.durable R.disk R.is_whole) self.old }
        ensures ok { OnOk result (Delivers (state_of (keeper R.stands_for R.durable R.disk R.is_whole) self.old) (place_of from upto number (post_of self.old.annals.mail).sent) (state_of (keeper R.stands_for R.durable R.disk R.is_whole) self.new)) }
        ensures holds { Holds (keeper R.stands_for R.durable R.disk R.is_whole) self.new }
        ensures err { OnErr result (state_of (keeper R.stands_for R.durable R.disk R.is_whole) self.new ≡ state_of (keeper R.stands_for R.durable R.disk R.is_whole) self.old) }
    {
        self.annals.mail.sort_in()?;
        match self.annals.mail.place(from, upto, number)? {
            Some(place) => self.deliver_at(alloc, place),
            None => Ok(()),
        }
    }

    /// The network loses a message, unless it is asked to deliver it. An error leaves all as it was.
    fn lose(&mut self, from: NodeId, upto: NodeId, number: u64) -> Result<(), AllocError>
        requires { Holds (keeper R.stands_for R.durable R.disk R.is_whole) self.old }
        ensures ok { OnOk result (state_of (keeper R.stands_for R.durable R.disk R.is_whole) self.new ≡ lost (state_of (keeper R.stands_for R.durable R.disk R.is_whole) self.old) (place_of from upto number (post_of self.old.annals.mail).sent)) }
        ensures holds { Holds (keeper R.stands_for R.durable R.disk R.is_whole) self.new }
        ensures err { OnErr result (state_of (keeper R.stands_for R.durable R.disk R.is_whole) self.new ≡ state_of (keeper R.stands_for R.durable R.disk R.is_whole) self.old) }
    {
        self.annals.mail.sort_in()?;
        if let Some(place) = self.annals.mail.place(from, upto, number)? {
            self.annals.mail.pass(place);
        }
        Ok(())
    }

    /// Delivers the oldest message that was not passed, unless there is none. An error leaves all as it was.
    fn deliver_oldest(&mut self, alloc: Global) -> Result<bool, AllocError>
        requires { Holds (keeper R.stands_for R.durable R.disk R.is_whole) self.old }
        ensures ok { OnOk result (Delivers (state_of (keeper R.stands_for R.durable R.disk R.is_whole) self.old) (oldest_from 0 (post_of self.old.annals.mail).passed) (state_of (keeper R.stands_for R.durable R.disk R.is_whole) self.new)) }
        ensures none { result ≡ Ok false → (oldest_from 0 (post_of self.old.annals.mail).passed ≡ None) × (state_of (keeper R.stands_for R.durable R.disk R.is_whole) self.new ≡ state_of (keeper R.stands_for R.durable R.disk R.is_whole) self.old) }
        ensures holds { Holds (keeper R.stands_for R.durable R.disk R.is_whole) self.new }
        ensures err { OnErr result (state_of (keeper R.stands_for R.durable R.disk R.is_whole) self.new ≡ state_of (keeper R.stands_for R.durable R.disk R.is_whole) self.old) }
    {
        self.annals.mail.sort_in()?;
        let Some(place) = self.annals.mail.oldest() else {
            return Ok(false);
        };
        self.deliver_at(alloc, place)?;
        Ok(true)
    }

    /// Delivers the oldest messages that were not passed, at most so many. After an error the deliveries before it stand.
    fn settle(&mut self, alloc: Global, count: u32) -> Result<(), AllocError>
        requires { Holds (keeper R.stands_for R.durable R.disk R.is_whole) self.old }
        ensures ok { OnOk result (Settles count (state_of (keeper R.stands_for R.durable R.disk R.is_whole) self.old) (state_of (keeper R.stands_for R.durable R.disk R.is_whole) self.new)) }
        ensures holds { Holds (keeper R.stands_for R.durable R.disk R.is_whole) self.new }
        ensures err { OnErr result (SettlesInPart count (state_of (keeper R.stands_for R.durable R.disk R.is_whole) self.old) (state_of (keeper R.stands_for R.durable R.disk R.is_whole) self.new)) }
    {
        for _ in 0..count {
            if !self.deliver_oldest(alloc)? {
                return Ok(());
            }
        }
        Ok(())
    }

    /// Sets the clock of a node, and tells what it was.
    fn put_clock(&mut self, node: NodeId, micros: Micros) -> Option<Micros>
        requires { Holds (keeper R.stands_for R.durable R.disk R.is_whole) self.old }
        ensures state { state_of (keeper R.stands_for R.durable R.disk R.is_whole) self.new ≡ changed (set_clock micros) (state_of (keeper R.stands_for R.durable R.disk R.is_whole) self.old) node }
        ensures before { ClockWas self.old.seats.items node result }
        ensures holds { Holds (keeper R.stands_for R.durable R.disk R.is_whole) self.new }
    {
        clock_at(&mut self.seats, node, micros)
    }

    /// Sets the clock of a node, which takes the time. An error leaves all as it was.
    fn tick(&mut self, alloc: Global, node: NodeId, micros: Micros) -> Result<(), AllocError>
        requires { Holds (keeper R.stands_for R.durable R.disk R.is_whole) self.old }
        ensures ok { OnOk result (Comes (changed (set_clock micros) (state_of (keeper R.stands_for R.durable R.disk R.is_whole) self.old) node) node what_is.Tick (state_of (keeper R.stands_for R.durable R.disk R.is_whole) self.new)) }
        ensures holds { Holds (keeper R.stands_for R.durable R.disk R.is_whole) self.new }
        ensures err { OnErr result (state_of (keeper R.stands_for R.durable R.disk R.is_whole) self.new ≡ state_of (keeper R.stands_for R.durable R.disk R.is_whole) self.old) }
    {
        let before = self.put_clock(node, micros);
        if let Err(error) = self.take(alloc, node, What::Tick) {
            if let Some(before) = before {
                self.put_clock(node, before);
            }
            return Err(error);
        }
        Ok(())
    }

    /// A node crashes.
    fn crash(&mut self, node: NodeId, outcome: Outcome)
        requires { Holds (keeper R.stands_for R.durable R.disk R.is_whole) self.old }
        ensures state { state_of (keeper R.stands_for R.durable R.disk R.is_whole) self.new ≡ changed stopped (state_of (keeper R.stands_for R.durable R.disk R.is_whole) self.old) node }
        ensures holds { Holds (keeper R.stands_for R.durable R.disk R.is_whole) self.new }
    {
        crash_at(&mut self.seats, node, outcome);
    }

    /// The store of a node is told a fault at this call, unless that is 0. An error leaves all as it was.
    fn tell(&mut self, node: NodeId, call: u32, fault: Told) -> Result<(), AllocError>
        requires { Holds (keeper R.stands_for R.durable R.disk R.is_whole) self.old }
        ensures ok { OnOk result (state_of (keeper R.stands_for R.durable R.disk R.is_whole) self.new ≡ changed (told_of call fault) (state_of (keeper R.stands_for R.durable R.disk R.is_whole) self.old) node) }
        ensures holds { Holds (keeper R.stands_for R.durable R.disk R.is_whole) self.new }
        ensures err { OnErr result (state_of (keeper R.stands_for R.durable R.disk R.is_whole) self.new ≡ state_of (keeper R.stands_for R.durable R.disk R.is_whole) self.old) }
    {
        if call == 0 {
            return Ok(());
        }
        tell_at(&mut self.seats, node, fault)
    }

    /// Loads a node that is down. An error leaves all as it was.
    fn restart(&mut self, alloc: Global, node: NodeId) -> Result<(), AllocError>
        requires { Holds (keeper R.stands_for R.durable R.disk R.is_whole) self.old }
        ensures ok { OnOk result (Restarts (state_of (keeper R.stands_for R.durable R.disk R.is_whole) self.old) node (state_of (keeper R.stands_for R.durable R.disk R.is_whole) self.new)) }
        ensures holds { Holds (keeper R.stands_for R.durable R.disk R.is_whole) self.new }
        ensures err { OnErr result (state_of (keeper R.stands_for R.durable R.disk R.is_whole) self.new ≡ state_of (keeper R.stands_for R.durable R.disk R.is_whole) self.old) }
    {
        self.annals.make_room()?;
        let setting = copy_setting(alloc, &self.setting)?;
        if !wake_at(&mut self.seats, alloc, node, setting)? {
            self.annals.enter_failure(node);
        }
        Ok(())
    }

    /// Takes one event. After an error only a settling's deliveries before it stand.
    pub fn take_event(&mut self, alloc: Global, event: ClusterEvent) -> Result<(), AllocError>
        requires { Holds (keeper R.stands_for R.durable R.disk R.is_whole) self.old }
        ensures ok { OnOk result (Takes (state_of (keeper R.stands_for R.durable R.disk R.is_whole) self.old) event (state_of (keeper R.stands_for R.durable R.disk R.is_whole) self.new)) }
        ensures holds { Holds (keeper R.stands_for R.durable R.disk R.is_whole) self.new }
        ensures err { OnErr result (Stands (state_of (keeper R.stands_for R.durable R.disk R.is_whole) self.old) event (state_of (keeper R.stands_for R.durable R.disk R.is_whole) self.new)) }
    {
        match event {
            ClusterEvent::Ask(node, ask) => self.take(alloc, node, What::Client(ask)),
            ClusterEvent::Deliver(from, upto, number) => self.deliver(alloc, from, upto, number),
            ClusterEvent::Lose(from, upto, number) => self.lose(from, upto, number),
            ClusterEvent::Settle(count) => self.settle(alloc, count),
            ClusterEvent::Clock(node, micros) => self.tick(alloc, node, micros),
            ClusterEvent::Reading(node, micros) => {
                self.put_clock(node, micros);
                Ok(())
            }
            ClusterEvent::Alive(node, peer, up) => self.take(alloc, node, What::Alive(peer, up)),
            ClusterEvent::Collect(node, request) => self.take(alloc, node, What::Collect(request)),
            ClusterEvent::Crash(node, outcome) => {
                self.crash(node, outcome);
                Ok(())
            }
            ClusterEvent::StopAt(node, call, outcome) => {
                self.tell(node, call, Told::Stop(call, outcome))
            }
            ClusterEvent::FailAt(node, call) => self.tell(node, call, Told::Fail(call)),
            ClusterEvent::Restart(node) => self.restart(alloc, node),
            ClusterEvent::Flush(node) | ClusterEvent::Merge(node) => {
                self.take(alloc, node, What::Flush)
            }
        }
    }
}
