//! Messages.

use cell_merge::Content;
use changes::Partition;
use cs_base::Ballot;
use row_change::{PaxosRow, Update};

/// What the coordinator of a conditional operation and a replica of its partition send each other. It is of a request, which
/// what carries it names.
#[derive(Debug, Drop)]
pub enum PaxosMessage {
    /// To a replica: promise to accept nothing below this ballot.
    Prepare(Partition, Ballot),
    /// From it: the ballot is promised. With its row as it was before the promise, and all that it holds of the partition.
    Promise(Ballot, PaxosRow, Content),
    /// To a replica: accept this update under this ballot.
    Propose(Partition, Ballot, Update),
    /// From it: the proposal of this ballot is accepted.
    Accepted(Ballot),
    /// To a replica: the update is chosen, by acceptances of this ballot. Take its changes.
    Commit(Partition, Ballot, Update),
    /// From it: the changes are taken.
    CommitAck(Ballot),
    /// From a replica: this ballot is refused.
    Refused {
        ballot: Ballot,
        /// The ballot that the replica has promised.
        promised: Ballot,
        /// Whether a proposal is refused. Such a replica has not accepted it and never will.
        of_proposal: bool,
    },
}
