//! The jobs of a served run: what each thread of a node does.
//!
//! All jobs of a node step it under its lock, each with a pass of its own, and stop at one flag.
#![tactic(auto)]

mod connections;
mod crossing;
mod done;
mod duty;
mod job;
mod running;
mod site;
mod working;

pub use crossing::jobs_cross_threads;
pub use done::JobDone;
pub use duty::Duty;
pub use job::NodeJob;
pub use running::run_jobs;
pub use site::NodeSite;

#[cfg(test)]
mod tests;
