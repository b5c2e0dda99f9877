//! Tests of stores and of logs, which need only the public side of the crates.
#![tactic(auto)]

#[cfg(test)]
mod commit_logs;
#[cfg(test)]
mod folders;
#[cfg(test)]
mod gate_logs;
#[cfg(test)]
mod list_replicas;
#[cfg(test)]
mod noting;
#[cfg(test)]
mod replica_calls;
#[cfg(test)]
mod stores;
