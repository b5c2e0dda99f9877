//! What a node keeps through crashes: the trait of its store, whatever that is made of. What a commit was answered `Ok` for is
//! there after each crash, and what one was not answered for is there whole or not at all.
#![tactic(auto)]

mod entries;
mod error;
mod kept;
mod laws;
mod mem_replica;
mod merge;
mod replica;

pub use durable_state::{LastNumber, RowAt};
pub use entries::{arrive_at, purges_nothing};
pub use error::{CallError, FinishError, LoadError, RoomError};
pub use kept::{Kept, Partitions};
pub use laws::crashes_leave_a_front;
pub use mem_replica::MemReplica;
pub use merge::{Graces, MergeDone, MergeJob, Purged, Purges};
pub use replica::Replica;
