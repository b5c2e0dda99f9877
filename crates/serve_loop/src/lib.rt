//! A connection: frames are heard from a link and answered one after another, until the peer, a fault or the stop sign ends it.
#![tactic(auto)]

mod asking;
mod exchange;
mod hearing;
mod sending;
mod served;
mod serving;

pub use served::Served;
pub use serving::serve_connection;
