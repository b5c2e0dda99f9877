//! Nodes of a served run, before and after their threads, and what is said of their runs.
#![tactic(auto)]

mod node;

pub use node::{JobLeft, NodeLeft, NodeParts};
