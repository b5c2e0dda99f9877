//! The nodes of a served run: loaded from the stores of a folder before its threads start, and released after they ended.
#![tactic(auto)]

mod fault;
mod loading;
mod releasing;

pub use fault::LoadFault;
pub use loading::load_nodes;
pub use releasing::{failed_node, release_node, release_nodes};
