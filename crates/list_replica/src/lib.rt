//! What a node keeps, in the log of its steps alone: the contents of partitions are made of it at each load.
#![tactic(auto)]

mod contents;
mod hints;
mod in_memory;
mod loads;
mod memtable;
mod on_log;
mod removing;
mod replay;
mod staging;

pub use in_memory::MemListReplica;
pub use on_log::ListReplica;
