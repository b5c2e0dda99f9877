//! What an operator is told.

/// Why a node made no step.
#[derive(Clone, Copy, Debug, PartialEq, Eq)]
pub(crate) enum Refusal {
    Full,
    NoRoom,
    TooLarge,
    NoMemory,
}

/// The answer to a line.
#[derive(Clone, Copy, Debug, PartialEq, Eq)]
pub(crate) enum Answer {
    /// Nothing is written.
    Nothing,
    Done,
    /// The node has so many tables.
    Tables(u32),
    /// The line is no command.
    Unknown,
    Refused(Refusal),
}
