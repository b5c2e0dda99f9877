//! What threads ask of a node that stands under a lock, why the node refuses it, and what it replies.
#![tactic(auto)]

mod call;
mod reply;

pub use call::{Cause, NodeCall};
pub use reply::NodeReply;
