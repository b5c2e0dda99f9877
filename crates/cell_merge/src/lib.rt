//! The contents of partitions as they go between nodes: changes in order, none of which another one there outranks.
#![tactic(auto)]

mod content;
mod lists;
mod plain;
mod ranges;
mod ranking;
mod walk;

pub use content::Content;
pub use plain::PlainContent;
pub use ranges::RangeIndex;
pub use ranking::Rivals;
pub use walk::RowWalk;
