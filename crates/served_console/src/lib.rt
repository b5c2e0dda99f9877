//! The console of a served run: an operator's lines, what they ask of the nodes, and what is written for them.
//!
//! It is a job that is worked on the caller's thread. Its nodes stand under their locks, and each has a pass for it.
#![tactic(auto)]

mod answer;
mod asking;
mod console;
mod end;
mod job;
mod node;
mod obeying;
mod told;
mod writing;

pub use console::Console;
pub use end::ConsoleEnd;
pub use job::{ConsoleDone, ConsoleJob};
pub use node::OperatedNode;

#[cfg(test)]
mod tests;
