//! The histories of locked nodes in one order of events, which can be run again: by node time, and then by node.
#![tactic(auto)]

mod histories;
mod merging;
#[cfg(test)]
mod tests;
mod timed;
mod times;

pub use histories::{NodeHistory, merged};
pub use timed::PlacedEvent;
