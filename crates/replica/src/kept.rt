//! What is kept beside the contents of partitions.

use changes::Partition;
use cs_base::{Items, Micros};
use durable_state::{LastNumber, RowAt};
use row_change::{Hint, Mark};

/// What is kept beside the contents of partitions.
#[derive(Debug, Drop)]
pub struct Kept {
    /// Node time does not pass it without a later one being kept.
    pub ceiling: Micros,
    pub rows: Items<RowAt>,
    /// A peer's own hints are in the order in which they came.
    pub hints: Items<Hint>,
    pub numbers: Items<LastNumber>,
    pub marks: Items<Mark>,
}

pub type Partitions = Items<Partition>;
