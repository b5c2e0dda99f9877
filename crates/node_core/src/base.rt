//! What a node has in memory between events.

use crate::batches::Batches;
use cs_base::{NodeId, ReqId};
use peer_messages::{NodeIds, Setting};
use read_coord::ReadCoord;
use std::collections::BTreeMap;
use write_coord::WriteCoord;

/// A node, the nodes that it takes for dead, the hints that it waits for, and the requests of clients whose coordinator it is,
/// by id, which is the order of their deadlines.
#[derive(Drop)]
pub(crate) struct Base {
    pub setting: Setting,
    pub me: NodeId,
    pub down: NodeIds,
    pub batches: Batches,
    pub writes: BTreeMap<ReqId, WriteCoord>,
    pub reads: BTreeMap<ReqId, ReadCoord>,
    /// How many of the writes have no answer.
    pub unanswered: usize,
}
