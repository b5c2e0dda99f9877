//! Links between the nodes of one process. Each carries messages one way, in order, and loses those that don't fit.
#![tactic(auto)]

mod ends;
mod link;
mod rings;

pub use ends::{Receiver, Sender};
pub use link::{LINK_ROOM, Link};
pub use rings::{link_between, links};
