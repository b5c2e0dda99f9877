//! What the jobs of a node share.

use cs_base::NodeId;
use node_calls::{NodeCall, NodeReply};
use node_lock::{NodeLock, Stepper};
use schema_book::Schema;
use std::alloc::Global;
use std::sync::atomic::{AtomicBool, Ordering};

/// What the jobs of a node share: the runtime, the node under its lock, the clock, the flag at which they stop, and, for the
/// connections, the gate of their requests, the schema and the node's number.
#[derive(Drop)]
pub struct NodeSite<'a, W, N: Stepper<Event = NodeCall, Reply = NodeReply>, C, G> {
    pub rt: &'a W,
    pub alloc: Global,
    pub lock: &'a NodeLock<N>,
    pub clock: &'a C,
    pub stop: &'a AtomicBool,
    pub gate: &'a G,
    pub schema: &'a Schema,
    pub node: NodeId,
}

impl<'a, W, N: Stepper<Event = NodeCall, Reply = NodeReply>, C, G> NodeSite<'a, W, N, C, G> {
    pub(crate) fn raise_stop(&self) {
        self.stop.store(true, Ordering::SeqCst);
    }

    pub(crate) fn is_stopping(&self) -> bool {
        self.stop.load(Ordering::SeqCst)
    }
}
