//! The words of a line.

use cs_base::{Level, NodeId};
use cs_store::Outcome;

/// The word of a line that comes behind so many, or nothing.
pub(crate) fn word(line: &str, place: usize) -> &str {
    line.split(' ').nth(place).unwrap_or("")
}

/// A number, 0 where the word is none.
pub(crate) fn number(word: &str) -> u64 {
    word.parse().unwrap_or(0)
}

/// The node of this number, or else node 0.
pub(crate) fn node(word: &str) -> NodeId {
    NodeId::new(word.parse().unwrap_or(0)).unwrap_or(NodeId::FIRST)
}

pub(crate) fn level(word: &str) -> Level {
    match word {
        "ONE" => Level::One,
        "TWO" => Level::Two,
        "QUORUM" => Level::Quorum,
        "ALL" => Level::All,
        "SERIAL" => Level::Serial,
        "LOCAL_SERIAL" => Level::LocalSerial,
        _ => Level::LocalOne,
    }
}

pub(crate) fn outcome(word: &str) -> Outcome {
    match word {
        "kept" => Outcome::Kept,
        "lost" => Outcome::Lost,
        _ => Outcome::Torn,
    }
}
