//! Tests of whole conversations of a client with a node, which need only the public side of the crates.
#![tactic(auto)]

#[cfg(test)]
mod batches;
#[cfg(test)]
mod connections;
#[cfg(test)]
mod driver;
#[cfg(test)]
mod faults;
#[cfg(test)]
mod node;
#[cfg(test)]
mod pages;
#[cfg(test)]
mod requests;
#[cfg(test)]
mod rows;
#[cfg(test)]
mod scripted;
#[cfg(test)]
mod stops;
#[cfg(test)]
mod talks;
#[cfg(test)]
mod usual;
