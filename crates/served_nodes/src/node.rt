//! Nodes, before and after their threads.

use node_calls::{NodeCall, NodeReply};
use node_lock::{History, Stepper};
use node_workers::Ended;
use served_jobs::Duty;

/// A node before its threads start: its state, and what each of its jobs does.
#[derive(Drop)]
pub struct NodeParts<N, D> {
    pub state: N,
    pub duties: Vec<Duty<D>>,
}

/// What a job of a node left.
#[derive(Drop)]
pub struct JobLeft<D> {
    pub duty: Duty<D>,
    pub ended: Ended,
    pub door_failed: bool,
    pub unstarted: bool,
}

/// A node whose threads have ended: its state, the history of its steps, and what its jobs left, in their order.
#[derive(Drop)]
pub struct NodeLeft<N: Stepper<Event = NodeCall, Reply = NodeReply>, D> {
    pub state: N,
    pub history: History<N::Entry>,
    pub jobs: Vec<JobLeft<D>>,
}
