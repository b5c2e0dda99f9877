//! Laws of passes.

ghost use Rattle.served_seats.specs.Seats.{SamePassesHaveAllSeats};

use node_lock::Stepper;

/// Passes that have kept their numbers and seats since their lock was opened can close it.
pub fn same_passes_have_all_seats<N: Stepper>()
    ensures { SamePassesHaveAllSeats N.Entry }
{}
