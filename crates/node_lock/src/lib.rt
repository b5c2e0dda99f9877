//! A lock round a state that goes on by events. Threads step the state in the order of their tickets, and each step that
//! it makes is an entry of one history, which replays at the end.
#![tactic(auto)]

mod answers;
mod held;
mod history;
mod laws;
mod lock;
mod pass;
mod plays;
mod stepper;
mod turns;
mod view;
mod wait;
mod words;

pub use answers::{LockRefused, Receipt};
pub use history::{History, MOST_ENTRIES};
pub use laws::receipts_name_their_entries;
pub use lock::NodeLock;
pub use pass::Pass;
pub use stepper::Stepper;
