//! The log of a node's steps: each step's entry is, after a crash at any moment, there whole or not at all, and after
//! `Ok` it is there.
#![tactic(auto)]

mod error;
mod laws;
mod log;
mod reading;

pub use error::{LogError, ReserveError};
pub use laws::{appended_entry_is_read, reads_as_one_list};
pub use log::CommitLog;
pub use reading::LogReading;
