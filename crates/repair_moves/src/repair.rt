//! A repair at its coordinator.

use cs_base::{Items, LeafSet, Leaves, Micros, NodeId, Range};
use repair_messages::Parts;

/// What a replica told of the range: a digest of what it held in each leaf, at this time of its own, and whether it had a row
/// of conditional updates there.
#[derive(Drop)]
pub struct Snapshot {
    pub from: NodeId,
    pub time: Micros,
    pub leaves: Leaves,
    pub has_row: bool,
}

/// What a replica held of the leaves that differ.
#[derive(Drop)]
pub struct Fetched {
    pub from: NodeId,
    pub parts: Parts,
}

/// What a repair waits for.
#[derive(Drop)]
pub enum Phase {
    /// Snapshots.
    Asking,
    /// What the replicas hold of these leaves, of which the digests differ. These have told it.
    Fetching(LeafSet, Items<Fetched>),
    /// Acknowledgements of the merge, of which so many partitions were sent. These have not acknowledged it yet.
    Streaming(u64, Items<NodeId>),
}

/// A repair that its coordinator has not answered.
#[derive(Drop)]
pub struct Repair {
    pub range: Range,
    /// The replicas of the range, by rising number.
    pub replicas: Items<NodeId>,
    /// What they told first, in the order in which it came.
    pub snapshots: Items<Snapshot>,
    pub phase: Phase,
}
