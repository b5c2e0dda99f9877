//! What a step answers.

/// The place of an entry in the history, counted from 0, and the reply that it tells.
#[derive(Debug, PartialEq, Eq, Drop)]
pub struct Receipt<P> {
    pub place: u64,
    pub reply: P,
}

/// Why a step was not made. The event comes back.
#[derive(Debug, PartialEq, Eq, Drop)]
pub enum LockRefused<E> {
    /// The history has as many entries as it takes.
    Full(E),
    /// The state refused the event. What comes back may tell why.
    Refused(E),
}
