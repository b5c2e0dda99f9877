//! What is kept by partition and by peer.

use changes::Partition;
use cs_base::NodeId;
use row_change::PaxosRow;

/// A partition's row of conditional updates.
#[derive(Debug, Drop)]
pub struct RowAt {
    pub partition: Partition,
    pub row: PaxosRow,
}

/// The last number that was given to a hint of a peer.
#[derive(Debug, Drop)]
pub struct LastNumber {
    pub peer: NodeId,
    pub last: u64,
}
