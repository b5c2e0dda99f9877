//! The ends that one node has.

use node_workers::Receivers;
use wired_node::NodeSender;

/// The ends of the links of one node.
#[derive(Drop)]
pub struct NodeLinks {
    /// Of the links that lead from it, by rising node that they lead to.
    pub senders: Vec<NodeSender>,
    /// Of the links that lead to it, by rising node that they come from.
    pub receivers: Receivers,
}
