//! Tests of the command `serve` over stores, doors, sources and sinks in memory, with the threads of the system.
#![tactic(auto)]

#[cfg(test)]
mod clients;
#[cfg(test)]
mod ending;
#[cfg(test)]
mod holding;
#[cfg(test)]
mod meeting;
#[cfg(test)]
mod running;
#[cfg(test)]
mod waiting;
