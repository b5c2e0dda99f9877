//! The desk of a node that runs on the caller's thread.
#![tactic(auto)]

mod call;
mod copies;
mod desk;
mod search;
mod steps;

pub use desk::StepDesk;
