//! The changes that a statement asks for, as one mutation: one change of each place, in the order of places, and their size.
#![tactic(auto)]

mod keeping;
mod laws;
mod length;
mod order;

pub use keeping::kept;
pub use laws::kept_are_one;
pub use length::is_long;
