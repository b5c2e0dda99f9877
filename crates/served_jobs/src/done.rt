//! What is left of jobs.

use crate::duty::Duty;
use node_calls::{NodeCall, NodeReply};
use node_lock::{Pass, Stepper};
use node_workers::Ended;

/// What a job gives back, and how it ended.
#[derive(Drop)]
pub struct JobDone<N: Stepper<Event = NodeCall, Reply = NodeReply>, D> {
    pub pass: Pass<N>,
    pub duty: Duty<D>,
    /// Whether the node's store failed, as the worker was told, and the message that it holds.
    pub ended: Ended,
    pub door_failed: bool,
    pub unstarted: bool,
}
