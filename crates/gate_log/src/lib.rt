//! An atomic append: an entry is, after a crash at any moment, there whole or not at all, and after `Ok` it is there.
#![tactic(auto)]

mod entries;
mod error;
mod format;
mod log;
mod reading;

pub use entries::Entries;
pub use error::GateError;
pub use format::reads_in_one_way;
pub use log::GateLog;
pub use reading::Reading;
