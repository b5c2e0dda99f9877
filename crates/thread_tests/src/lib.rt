//! Tests of the lock and of the links by threads, which need only the public side of the crates.
#![tactic(auto)]

#[cfg(test)]
mod locked_steps;
#[cfg(test)]
mod relayed_messages;
