//! What a node keeps, and what the entries of its log make of it. The definitions are in specs/.
//!
//! Kept are a ceiling of node time, the changes of partitions with the times at which they came, rows of conditional updates,
//! hints with the last number of each peer, and the marks of repairs.
#![tactic(auto)]

mod laws;
mod parts;

pub use laws::{
    data_is_taken_together, each_entry_makes_a_state, entries_follow_each_other,
    kept_is_an_equivalence, what_is_kept_is_one,
};
pub use parts::{LastNumber, RowAt};
