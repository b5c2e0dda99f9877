//! A whole served run, from its stores to its stores.
#![tactic(auto)]

mod ending;
mod giving;
mod serving;
mod wiring;

pub use ending::{ServedEnd, ServedRun};
pub use serving::{CONNECTIONS, Place, serve};
