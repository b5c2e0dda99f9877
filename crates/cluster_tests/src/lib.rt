//! Tests of nodes and clusters, which need only the public side of the crates.
#![tactic(auto)]

#[cfg(test)]
mod clusters;
#[cfg(test)]
mod lines;
#[cfg(test)]
mod nodes;
#[cfg(test)]
mod plans;
#[cfg(test)]
mod site;
#[cfg(test)]
mod stores;
#[cfg(test)]
mod talk;
#[cfg(test)]
mod told;
#[cfg(test)]
mod words;
