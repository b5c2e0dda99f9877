//! The doors of the nodes of a served run: opened before its threads start, and given back after they ended.
#![tactic(auto)]

mod closing;
mod fault;
mod opening;

pub use closing::{return_doors, return_doors_of};
pub use fault::DoorFault;
pub use opening::open_doors;

#[cfg(test)]
mod tests;
