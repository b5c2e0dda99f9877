//! The hints of a node in memory: what its replica keeps of them, and what the step that it is in makes of that. A step's
//! changes count at once; they are kept by `settle` or undone by `back`, neither of which takes memory or fails.
#![tactic(auto)]

mod aging;
mod gone;
mod index;
mod laws;
mod looks;
mod store;
mod table;
mod tally;

pub use aging::Expired;
pub use laws::{same_hints_are_an_equivalence, same_hints_stay_the_same};
pub use store::HintStore;
