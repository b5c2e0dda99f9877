//! Nodes with their links and doors: put together before a served run, and taken apart behind it.
#![tactic(auto)]

mod assembling;
mod laws;
mod parting;
#[cfg(test)]
mod tests;

pub use assembling::assemble;
pub use laws::{links_stay_whole, runs_move_links};
pub use parting::{Apart, Parted, part, take_apart};
