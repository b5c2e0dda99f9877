//! Tests of the plans that are made of CQL statements, which need only the public side of the crates.
#![tactic(auto)]

#[cfg(test)]
mod markers;
#[cfg(test)]
mod plans;
#[cfg(test)]
mod schemas;
