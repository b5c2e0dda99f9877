//! What one move of a coordinator gives.

use crate::entry::PaxosNotes;
use crate::message::PaxosMessage;
use cs_base::{Ballot, Items, NodeId};

/// A message of the operation's request on its way to a replica, perhaps to the coordinator itself.
#[derive(Debug, Drop)]
pub struct PaxosSend {
    pub upto: NodeId,
    pub message: PaxosMessage,
}

pub type PaxosSends = Items<PaxosSend>;

/// What a coordinator gives: what it sends and enters, in order, the ballot that it made, which becomes node time, and
/// whether the operation is done with.
#[derive(Debug, Drop)]
pub struct PaxosMove {
    pub sends: PaxosSends,
    pub notes: PaxosNotes,
    pub ballot: Option<Ballot>,
    pub ended: bool,
}
