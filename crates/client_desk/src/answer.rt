//! Answers.

use changes::ShownRows;
use peer_messages::Refusal;

/// What a node tells a client of a request.
#[derive(Drop)]
pub enum Answer {
    /// A write was taken by as many replicas as its level needs.
    Acknowledged,
    /// The rows of a read, and whether a further one would follow.
    Rows(ShownRows, bool),
    Refused(Refusal),
    /// Memory ran out.
    NoMemory,
}
