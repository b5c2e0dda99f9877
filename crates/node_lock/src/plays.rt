//! The rule of the lock's table, and what each kind of step on it tells.

ghost use Rattle.node_lock.specs.Rules.{Kept, opener, drawn, looked, gave, published, advanced, asked_for, left_of, right_of, both_of, spent, learned};

use crate::held::Held;
use crate::stepper::Stepper;
use crate::view::{Opening, SeatView};
use atomic_table::{Join, Play, Split, TableRule};
use std::marker::PhantomData;

/// The rule.
pub struct Law<N> {
    of: PhantomData<N>,
}

impl<N: Stepper> TableRule<Option<Held<N, N::Entry>>, SeatView<N, N::Entry>, Opening<N>>
    for Law<N> {
    ghost holds = { λ key. Kept N.steps key.state.value key.seats };

    ghost first = { λ key. opener key.state.value key.seats };
}

/// Takes a ticket.
pub struct Draws;

impl<S, E> Play<Option<Held<S, E>>, SeatView<S, E>> for Draws {
    ghost then = { drawn };
}

/// Reads which ticket is served, and takes the slot where it is the own one.
pub struct Looks<N> {
    of: PhantomData<N>,
}

impl<N: Stepper> Play<Option<Held<N, N::Entry>>, SeatView<N, N::Entry>> for Looks<N> {
    ghost then = { looked N.steps };
}

/// Gives the slot back.
pub struct Gives;

impl<S, E> Play<Option<Held<S, E>>, SeatView<S, E>> for Gives {
    ghost then = { gave };
}

/// Publishes the entry.
pub struct Publishes;

impl<S, E> Play<Option<Held<S, E>>, SeatView<S, E>> for Publishes {
    ghost then = { published };
}

/// Lets the next ticket be served.
pub struct Advances;

impl<S, E> Play<Option<Held<S, E>>, SeatView<S, E>> for Advances {
    ghost then = { advanced };
}

/// Says how many numbers are to be handed over, since a `Split` sees the view alone.
pub struct Asks;

impl<S, E> Play<Option<Held<S, E>>, SeatView<S, E>> for Asks {
    ghost then = { asked_for };
}

/// Cuts a pass in two.
pub struct Halves;

impl<S, E> Split<SeatView<S, E>> for Halves {
    ghost left = { left_of };

    ghost right = { right_of };
}

/// Joins two passes.
pub struct Both;

impl<S, E> Join<SeatView<S, E>> for Both {
    ghost both = { both_of };

    ghost spent = { spent };
}

/// Tells a pass what one that was joined into it had seen, since a `Join` tells nothing of the rule.
pub struct Learns;

impl<S, E> Play<Option<Held<S, E>>, SeatView<S, E>> for Learns {
    ghost then = { learned };
}
