//! Replies of a locked node.

use client_desk::Answer;
use cs_base::ReqId;

/// What a step of a locked node tells who made it.
#[derive(Drop)]
pub struct NodeReply {
    /// The request that a client's event began.
    pub started: Option<ReqId>,
    /// The answer that was collected.
    pub answer: Option<Answer>,
    /// After a flush the node has so many tables.
    pub tables: Option<u32>,
    /// The node's store failed, and the node has stopped.
    pub failed: bool,
}
