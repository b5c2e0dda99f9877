//! What one move of a coordinator gives.

use crate::answer::RepairAnswer;
use crate::message::RepairMessage;
use cs_base::{Items, NodeId};

/// A message of the repair's request on its way to a replica, perhaps to the coordinator itself.
#[derive(Drop)]
pub struct RepairSend {
    pub upto: NodeId,
    pub message: RepairMessage,
}

pub type RepairSends = Items<RepairSend>;

/// What a coordinator gives: what it sends, in order, and what it tells, with which the repair is done with.
#[derive(Drop)]
pub struct RepairMove {
    pub sends: RepairSends,
    pub answer: Option<RepairAnswer>,
}
