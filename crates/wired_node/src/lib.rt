//! A node as it stands under a lock. A step takes an event, puts the node's messages into their links, keeps the answers that it
//! tells, and gives an answer that is collected.
#![tactic(auto)]

mod answers;
mod crossing;
mod entry;
mod laws;
mod linked;
mod senders;
mod wired;

pub use crossing::crosses_threads;
pub use entry::NodeEntry;
pub use laws::{answers_are_given_once, failures_are_counted, messages_are_put};
pub use senders::NodeSender;
pub use wired::Wired;
