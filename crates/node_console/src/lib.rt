//! The lines by which an operator speaks to the nodes of a served run: `mark <node> <peer> up` or `down`, `flush <node>`,
//! `merge <node>`, `status` and `stop`. Words are separated by one or more spaces, and nodes are numbers from 0 on.
#![tactic(auto)]

mod command;
mod reading;
#[cfg(test)]
mod tests;

pub use command::{Command, ConsoleError};
pub use reading::{LONGEST_LINE, read_line};
