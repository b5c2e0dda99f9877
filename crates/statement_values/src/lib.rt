//! What a request gives for the markers of a statement.
#![tactic(auto)]

mod params;
mod supplier;

pub use params::{Param, ParamList, Params};
pub use supplier::Supplier;
