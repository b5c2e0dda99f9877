//! What a statement of CQL asks for: prepared once, and filled with the values of each request.
#![tactic(auto)]

mod binder;
mod drafts;
mod error;
mod filled;
mod laws;
mod piece;
mod reach;
mod reads;
mod supply;
mod writes;

pub use binder::{bind, fill, prepare};
pub use error::BindError;
pub use laws::{lasting_refusals_hold, lowest_is_told, preparing_tells_lowest};
pub use supply::Values;
