//! The lock.

ghost use Rattle.std.specs.Prelude.{◌≡◌, ℕ, ◌<◌, ◌≤◌, ◌⊎◌, ◌↔◌, length, IfOk, IfErr, IfSome, IsNone, MatchOption};
ghost use Rattle.node_lock.specs.Histories.{StartsWith, Replays, entries_by};
ghost use Rattle.node_lock.specs.Views.{opening_view, kept_view, given_view, joined_view};

use crate::answers::{LockRefused, Receipt};
use crate::held::Held;
use crate::history::History;
use crate::pass::{Pass, SeatAtRest};
use crate::plays::Law;
use crate::stepper::Stepper;
use crate::turns::{hand_over, take_in, take_turn};
use crate::view::{Opening, SeatView};
use atomic_table::{Refused, Table};
use std::alloc::{AllocError, Global};
use std::snapshot::Snapshot;
use std::sync::Wait;

/// A state that threads step in the order of their tickets, with the history of its steps.
///
/// A thread steps with a [`Pass`]. The passes of a lock come from the one that `new` gives, by `split`.
#[derive(Drop)]
pub struct NodeLock<N: Stepper> {
    table: Table<Option<Held<N, N::Entry>>, SeatView<N, N::Entry>, Opening<N>, Law<N>, Global>,
    ghost sized: { (table.shared.table_id.words ≡ 3) × (table.shared.table_id.slots ≡ 1) },
}

impl<N: Stepper> NodeLock<N> {
    ghost use Rattle.node_lock.specs.Passes.{IsPassOf, view_of, start_of, seats_of};
    ghost use Rattle.node_lock.specs.Stepped.{IsSamePass, Finds, Steps, Declines};

    /// The lock, and its first pass, which has the number 0, all numbers and all seats.
    ///
    /// It takes the memory for the whole history, so that no step takes any of its own.
    pub fn new(alloc: Global, state: N, seats: u32) -> Result<(NodeLock<N>, Pass<N>), AllocError>
        requires { 0 < seats }
        ensures lock { IfOk result (λ r. (start_of r.0 ≡ state) × (seats_of r.0 ≡ seats)) }
        ensures pass { IfOk result (λ r. IsPassOf r.0 r.1 × (view_of r.1 ≡ opening_view seats)) }
    {
        let about = Opening {
            state: Snapshot::of(&state),
            seats,
        };
        let history = History::new(alloc)?;
        let mut slots = Vec::with_capacity(alloc, 1)?;
        slots.push_reserved(Some(Held { state, history }));
        match Table::new(alloc, &[0, 0, 0], slots, &about) {
            Ok((table, seat)) => Ok((
                NodeLock { table },
                Pass {
                    rest: SeatAtRest {
                        seat,
                        number: 0,
                        owned: seats,
                    },
                },
            )),
            Err(Refused { slots: _ }) => Err(AllocError),
        }
    }

    /// Waits for its turn, and steps the state. The pass has then seen the history that its turn found, with the entry of
    /// this step where it was made.
    ///
    /// `Full` comes where that history has [`MOST_ENTRIES`](crate::MOST_ENTRIES) entries, and `Refused` where the state
    /// refused the event.
    pub fn step<R: Wait>(
        &self,
        rt: &R,
        pass: &mut Pass<N>,
        event: N::Event,
    ) -> Result<Receipt<N::Reply>, LockRefused<N::Event>>
        requires { IsPassOf self.now pass.old }

        ensures lock { IsPassOf self.now pass.new }
        ensures pass { IsSamePass (view_of pass.old) (view_of pass.new) }
        ensures ok { IfOk result (λ r. Steps N.steps N.event_of N.reply_of (start_of self.now) (view_of pass.old) event r (view_of pass.new)) }
        ensures found { IfErr result (λ _. Finds (view_of pass.old) (view_of pass.new)) }
        ensures err { IfErr result (λ refused. Declines N.steps N.refuses (start_of self.now) event refused (view_of pass.new).seen) }
    {
        let number = pass.rest.number;
        take_turn(rt, &self.table.shared, &mut pass.rest.seat, number, event)
    }

    /// Hands over the last numbers of the pass and as many seats. The new pass has the first of these numbers.
    ///
    /// `None` comes where no number is asked for, or not fewer than the pass owns.
    pub fn split(&self, pass: &mut Pass<N>, seats: u32) -> Option<Pass<N>>
        requires { IsPassOf self.now pass.old }

        ensures lock { IsPassOf self.now pass.new }
        ensures none { IsNone result ↔ ((seats ≡ 0) ⊎ ((view_of pass.old).owned ≤ seats)) }
        ensures given { IfSome result (λ p. IsPassOf self.now p × (view_of p ≡ given_view (view_of pass.old) seats)) }
        ensures kept { MatchOption result (view_of pass.new ≡ view_of pass.old) (λ _. view_of pass.new ≡ kept_view (view_of pass.old) seats) }
    {
        let rest = &mut pass.rest;
        if seats == 0 || rest.owned <= seats {
            return None;
        }
        let seat = hand_over(&self.table.shared, &mut rest.seat, u64::from(seats));
        rest.owned -= seats;
        let number = rest.number + rest.owned;
        Some(Pass {
            rest: SeatAtRest {
                seat,
                number,
                owned: seats,
            },
        })
    }

    /// Takes the other's seats, and not its numbers, which no pass has again. The pass has then seen the longer of what
    /// the two had seen, which both begin.
    pub fn join(&self, pass: &mut Pass<N>, other: Pass<N>)
        requires { IsPassOf self.now pass.old × IsPassOf self.now other }

        ensures lock { IsPassOf self.now pass.new }
        ensures both { view_of pass.new ≡ joined_view (view_of pass.old) (view_of other) }
        ensures seen { StartsWith (view_of pass.new).seen (view_of pass.old).seen }
        ensures told { StartsWith (view_of pass.new).seen (view_of other).seen }
    {
        let SeatAtRest {
            seat,
            number: _,
            owned: _,
        } = other.rest;
        take_in(&self.table.shared, &mut pass.rest.seat, seat);
    }

    /// The state and its history. The pass has to have all seats again.
    pub fn close(self, pass: Pass<N>) -> (N, History<N::Entry>)
        requires { IsPassOf self pass × ((view_of pass).seats ≡ seats_of self) }

        ensures replays { Replays N.steps (start_of self) result.1 result.0 }
        ensures most { length result.1 ≤ 400000 }
        ensures seen { StartsWith result.1 (view_of pass).seen }

        // Under each number are the entries that the pass of this number made, each once, in its order.
        ensures calls { (number : ℕ) → entries_by number result.1 ≡ entries_by number (view_of pass).mine }
    {
        let NodeLock { table } = self;
        let SeatAtRest {
            seat,
            number: _,
            owned: _,
        } = pass.rest;
        let mut closed = table.close_with(seat);
        let held = closed.take(0).unwrap();
        closed.free();
        let Held { state, history } = held;
        (state, history)
    }
}
