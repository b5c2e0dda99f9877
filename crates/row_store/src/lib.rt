//! The rows of conditional updates of a node in memory: as its replica keeps them, and as the step that it is in sets them. What
//! a step sets counts at once; it is kept by `settle` or undone by `back`, neither of which takes memory or fails.
#![tactic(auto)]

mod slot;
mod store;
#[cfg(test)]
mod tests;

pub use store::RowStore;
