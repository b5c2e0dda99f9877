//! The entries of a locked node's history.

use http_server::Log;
use node_calls::{NodeCall, NodeReply};
use node_core::StepError;
use peer_messages::{Message, Outputs};
use std::snapshot::Snapshot;

/// What the history keeps of a step: the call, and for proofs alone, without memory, what came of it.
#[derive(Drop)]
pub struct NodeEntry {
    pub call: NodeCall,
    /// What the node told.
    pub told: Snapshot<Result<Outputs, StepError>>,
    /// Its messages, in order, and whether each was lost: handed back by its link, or to a node to which no link leads.
    pub sent: Log<Message, bool>,
    pub reply: Snapshot<NodeReply>,
}
