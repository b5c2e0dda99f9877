//! What a seat of the lock's table knows, and what the lock was made with.

use std::collections::LinkedList;
use std::snapshot::Snapshot;

/// How far a seat is in its turn. No value of it is made.
pub enum Stage {
    /// It has no ticket.
    Resting,
    /// It has a ticket that may not be served yet.
    Waiting,
    /// It has the slot.
    Holding,
    /// It gave the slot back, and its ticket is still served.
    Giving,
}

/// What a seat knows. No value of it is made.
pub struct SeatView<S, E> {
    // The state that the lock was made with. `None` once the pass was joined into another.
    pub start: Option<S>,
    pub number: u64,
    // How many numbers it owns, from its own on.
    pub owned: u64,
    pub seats: u64,
    // 1 while it has a ticket, and else 0.
    pub tickets: u64,
    // How far it is in its turn.
    pub stage: Stage,
    // The ticket, as if the word never wrapped.
    pub ticket: u64,
    // The history so far.
    pub seen: LinkedList<(u64, E)>,
    // The entries of this pass and of those that were joined into it.
    pub mine: LinkedList<(u64, E)>,
    // What it has given back and not yet published.
    pub pending: LinkedList<(u64, E)>,
    // How many numbers it is about to hand over.
    pub asked: u64,
    // What a pass that was joined into it had seen.
    pub told: LinkedList<(u64, E)>,
}

#[derive(Drop)]
pub struct Opening<S> {
    pub state: Snapshot<S>,
    pub seats: u32,
}
