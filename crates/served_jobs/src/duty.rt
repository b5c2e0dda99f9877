//! What jobs do.

use node_workers::Receivers;

/// What a job does, with what it does it by.
#[derive(Drop)]
pub enum Duty<D> {
    /// To deliver the messages of the node's links.
    Links(Receivers),
    /// To tell the node the time.
    Ticks,
    /// To have the node write its tables.
    Merges,
    /// To serve the clients that come to a door.
    Connections(D),
}
