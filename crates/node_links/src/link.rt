//! A link.

use crate::ends::{Receiver, Sender};
use cs_base::NodeId;

/// How many messages a link holds.
pub const LINK_ROOM: usize = 4096;

/// A link from one node to another.
#[derive(Drop)]
pub struct Link<M> {
    pub from: NodeId,
    pub to: NodeId,
    pub sender: Sender<M>,
    pub receiver: Receiver<M>,
}
