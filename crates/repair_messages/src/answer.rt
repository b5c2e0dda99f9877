//! What is told of a repair.

use cs_base::NodeId;

/// How a repair ended. One that ended otherwise than by `Repaired` sent no marks.
#[derive(Clone, Copy, Debug, PartialEq, Eq)]
pub enum RepairAnswer {
    /// The replicas of the range have the merge of what they held. Of so many partitions the merge went to at least one.
    Repaired(u64),
    /// It did not begin, since this replica is marked down, and none of a lower number is.
    Unavailable(NodeId),
    /// Its deadline came.
    TimedOut,
    /// The replicas have the merge, but this one had a row of conditional updates when it told its digests, and none of a
    /// lower number had.
    Unmarked(NodeId),
}
