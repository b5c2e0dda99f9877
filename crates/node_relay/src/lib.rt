//! A locked state that puts messages into a link as it steps: the lock's history says what went into the link.
#![tactic(auto)]

mod relay;

pub use relay::{Relay, Sent, settle};
