//! A cluster of nodes in one process, with its network, its stores in memory and its chronicle. Its nodes stop, crash and are loaded
//! again as it is told.
#![tactic(auto)]

mod annals;
mod cluster;
mod entering;
mod error;
mod event;
mod mail;
mod parts;
mod routes;
mod seat;
mod told;
mod turn;

pub use cluster::Cluster;
pub use error::ClusterError;
pub use event::ClusterEvent;
