//! What the coordinator of a repair does, as a relation between the repair before a move and behind it: whom it asks, what it
//! makes of snapshots, of what was fetched and of acknowledgements, whom it sends what, and what it tells. And what a replica
//! of the range tells. The definitions are in specs/, and the crates of a coordinator and of a node cite them in their
//! contracts. After Cassandra's documentation, "Repair".
#![tactic(auto)]

mod laws;
mod repair;

pub use laws::{held_alike_told_alike, repaired_once_all_have_it, worked_rows};
pub use repair::{Fetched, Phase, Repair, Snapshot};
