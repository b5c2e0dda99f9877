//! The run of all nodes of a served run: each stands under its lock, its jobs have threads of their own, and an operator's console
//! works beside them.
#![tactic(auto)]

mod assigning;
mod closing;
mod desk;
mod desk_job;
mod host;
mod opened;
mod running;
mod working;

pub use desk::{Desk, Ran};
pub use host::Host;
pub use running::run_nodes;
