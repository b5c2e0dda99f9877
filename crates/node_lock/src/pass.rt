//! The right to step.

ghost use Rattle.std.specs.Prelude.{◌≡◌, ◌+◌, ◌^◌, ◌<◌, ◌≤◌, []};

use crate::stepper::Stepper;
use crate::words::LockSeat;

/// A seat of the lock's table between two turns, with the number of its pass and how many numbers it owns.
#[derive(Drop)]
pub(crate) struct SeatAtRest<S, E> {
    pub(crate) seat: LockSeat<S, E>,
    pub(crate) number: u32,
    pub(crate) owned: u32,
    ghost at_rest: { (seat.me.1 ≡ []) × (seat.me.0.tickets ≡ 0) },
    ghost numbered: { (seat.me.0.number ≡ number) × (seat.me.0.owned ≡ owned) },
    ghost able: { (0 < owned) × (owned ≤ seat.me.0.seats) × (number + owned < 2 ^ 32) },
}

/// The right to step, for one thread at a time.
///
/// A pass has a number, owns the numbers from its own on that it may hand over, and has as many seats at least. It knows
/// the beginning of the history that it has seen.
#[derive(Drop)]
pub struct Pass<N: Stepper> {
    pub(crate) rest: SeatAtRest<N, N::Entry>,
}

impl<N: Stepper> Pass<N> {
    ghost use Rattle.node_lock.specs.Passes.{view_of};

    /// The number under which the history names the entries of this pass.
    pub fn number(&self) -> u32
        ensures { result ≡ (view_of self.now).number }
    {
        self.rest.number
    }
}
