//! Where a connection's requests are submitted and their answers collected.
#![tactic(auto)]

mod answer;
mod desk;
mod laws;

pub use answer::Answer;
pub use desk::Desk;
pub use laws::{answers_stay, calls_go_on};
