//! One node: it takes an event, keeps what the event changes, and tells what comes of it. What it keeps stands in a replica, whatever
//! that is made of; in memory it has its time, what it takes for dead, the hints that it keeps and waits for, and the open requests of
//! clients. A step takes what is due first, and changes nothing in memory before its entry is kept.
#![tactic(auto)]

mod asks;
mod base;
mod batches;
mod deadlines;
mod due;
mod fits;
mod hearing;
mod hears;
mod hints;
mod keep;
mod matter;
mod memory;
mod node;
mod opening;
mod outcome;
mod slot;
mod times;
mod work;

pub use node::{Node, NodeCore};
pub use outcome::{Lost, StepError};
