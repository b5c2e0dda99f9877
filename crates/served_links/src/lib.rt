//! The links between the nodes of a process, as each node has them.
#![tactic(auto)]

mod ends;
mod laws;
mod settling;
mod spreading;
#[cfg(test)]
mod tests;

pub use ends::NodeLinks;
pub use laws::same_ends_stay_linked;
pub use settling::settle;
pub use spreading::spread;
