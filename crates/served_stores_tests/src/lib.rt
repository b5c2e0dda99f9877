//! Tests of the nodes of a served run over stores in memory, which need a replica.
#![tactic(auto)]

#[cfg(test)]
mod faults;
#[cfg(test)]
mod given;
#[cfg(test)]
mod loading;
