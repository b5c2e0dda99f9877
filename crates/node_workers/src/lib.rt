//! What steps a node that stands under a lock: the desk of a connection, and the workers that deliver the node's messages,
//! tell it the time and have it write its tables.
//!
//! All is generic in what the lock holds. What a call does is said by the lock's own clauses on its pass.
#![tactic(auto)]

mod chore;
mod delivering;
mod desk;
mod ended;
mod laws;
mod outcome;
mod parts;
mod receivers;
mod repeating;
mod site;

pub use delivering::link_worker;
pub use desk::LockDesk;
pub use ended::Ended;
pub use laws::{asks_are_told, calls_leave_entries};
pub use receivers::Receivers;
pub use repeating::{merge_worker, timer_worker};
pub use site::Site;

#[cfg(test)]
mod tests;
