//! A lock whose state several jobs step, each with a pass of its own.
#![tactic(auto)]

mod closing;
mod laws;
mod opening;
#[cfg(test)]
mod tests;

pub use closing::close;
pub use laws::same_passes_have_all_seats;
pub use opening::{Seats, open};
