//! A chronicle as it is kept: what each event made at a node is one piece, in which the entries that every step makes take no
//! memory of their own.
#![tactic(auto)]

mod alive;
mod piece;

pub use alive::Alive;
pub use piece::{Halted, Piece, Stepped};
