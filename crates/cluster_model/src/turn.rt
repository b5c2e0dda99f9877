//! What comes of an event at a node.

use chronicle_pieces::Alive;
use node_core::Lost;
use peer_messages::{Outputs, Refusal};

#[derive(Drop)]
pub(crate) enum Turn {
    /// It steps, and takes these nodes for alive.
    Stepped(Outputs, Alive),
    /// It stops inside its step. Either a call of its store failed, or one stopped it.
    Stopped(Lost, bool),
    /// It takes no step. A client is told this.
    Refused(Refusal),
    /// There is no such node.
    NoNode,
}
