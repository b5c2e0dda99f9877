//! What a line can say.

use cs_base::NodeId;

#[derive(Clone, Copy, Debug, PartialEq, Eq)]
pub enum Command {
    /// The first node takes the second one for alive, or else for dead.
    Mark(NodeId, NodeId, bool),
    /// The node writes its tables.
    Flush(NodeId),
    /// The node merges its tables.
    Merge(NodeId),
    /// Each node is looked at.
    Status,
    /// The run ends.
    Stop,
}

/// Why a line is none of these.
#[derive(Clone, Copy, Debug, PartialEq, Eq)]
pub enum ConsoleError {
    /// Its words are not understood.
    Unknown,
    /// A number names no node, or a mark's peer is the node itself.
    Number,
}
