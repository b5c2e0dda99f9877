//! The program: all that it does is the one call `run_cluster`.
#![tactic(auto)]

mod command;
mod ending;
mod finished;
mod head;
mod program;
mod serving;

pub use command::Command;
pub use finished::Finished;
pub use program::run_cluster;
pub use script_program::Status;
