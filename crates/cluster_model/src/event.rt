//! What may happen to a cluster.

use cs_base::{Micros, NodeId, ReqId};
use cs_store::Outcome;
use peer_messages::Ask;

/// An event of a cluster. At a node that isn't of the ring nothing happens.
///
/// Messages are named by the node that sent them, the one to which they go, and their number among all those that were ever sent
/// from the one to the other, from 1 on. A node that is down loses what is delivered to it, turns requests away, and takes nothing
/// else.
#[derive(Drop)]
pub enum ClusterEvent {
    /// A client of the node asks.
    Ask(NodeId, Ask),
    /// This message is delivered, perhaps again. Without such a message nothing happens.
    Deliver(NodeId, NodeId, u64),
    /// `Settle` passes over this message.
    Lose(NodeId, NodeId, u64),
    /// So many times the oldest message is delivered that was neither delivered nor lost.
    Settle(u32),
    /// The node's clock is set, in microseconds, also of one that is down, and the node takes the time.
    Clock(NodeId, Micros),
    /// The node's clock shows this, in microseconds, at what comes next: nothing else happens.
    Reading(NodeId, Micros),
    /// The first node takes the second one for alive, or else for dead.
    Alive(NodeId, NodeId, bool),
    /// The answer of a request is asked for, which is nothing of the node itself: it takes the time.
    Collect(NodeId, ReqId),
    /// The node crashes, with this outcome for what its store has pending. Faults that its store was told are forgotten.
    Crash(NodeId, Outcome),
    /// The node stops at this call of its store from now, or from its next load, counted from 1. At 0 nothing happens.
    StopAt(NodeId, u32, Outcome),
    /// This call of its store fails, counted likewise.
    FailAt(NodeId, u32),
    /// The node is loaded. One that runs is left alone.
    Restart(NodeId),
    /// The node's tables are written.
    Flush(NodeId),
    /// The node's tables are merged. Where it keeps a list there are none, and it does and tells what it does at a flush.
    Merge(NodeId),
}
