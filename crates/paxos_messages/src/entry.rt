//! What a chronicle has of conditional operations.

use cell_merge::Content;
use changes::{Mutation, Partition, ShownRow, ShownRows};
use cs_base::{Ballot, Items, Level, NodeId, ReqId};
use statement_plan::ConditionalOperation;

/// What an operation answers.
#[derive(Debug, Drop)]
pub enum Reply {
    /// Its condition held, and its changes are made.
    Applied,
    /// Its condition did not hold of this row, or of none; nothing is changed.
    NotApplied(Option<ShownRow>),
    /// The rows of a read, and whether a further one would follow.
    Rows(ShownRows, bool),
}

/// What a reply rests on.
#[derive(Debug, Drop)]
pub struct PaxosGrounds {
    /// The ballot under which the operation's update was chosen.
    pub ballot: Ballot,
    /// The replicas that promised that ballot, in order, up to the last of a quorum.
    pub promised: Items<NodeId>,
    /// The merge of what they hold, on which the condition was tested and which the rows show.
    pub merged: Content,
    /// The replicas that took the commit of an applied update, or that accepted an empty one, in order.
    pub heard: Items<NodeId>,
}

/// What an operation waits for.
#[derive(Clone, Copy, Debug, PartialEq, Eq)]
pub enum PaxosPhase {
    /// Promises of its ballot.
    Promising,
    /// Acceptances of the update that it proposed.
    Accepting,
    /// Acknowledgements of a commit.
    Committing,
}

/// How far an operation came whose deadline has come.
#[derive(Clone, Copy, Debug, PartialEq, Eq)]
pub struct PaxosTimeout {
    /// The phase begun last.
    pub phase: PaxosPhase,
    /// How many distinct replicas have answered in it.
    pub received: u8,
    /// How many it waits for.
    pub blockfor: u8,
    /// Whether any replica has replied in any phase, be it by a refusal.
    pub replied: bool,
}

/// What a client is told.
#[derive(Debug, Drop)]
pub enum Telling {
    Answered(Reply, PaxosGrounds),
    TimedOut(PaxosTimeout),
}

/// What happened, for who reads the chronicle. It is of a request, which what carries it names.
#[derive(Debug, Drop)]
pub enum PaxosEntry {
    /// A conditional operation, or a read at a serial level, began.
    Began(ConditionalOperation, Level),
    /// The request's update went out under this ballot, with these changes: from its own coordinator, or once more from
    /// that of a later operation.
    Proposed(Ballot, Mutation),
    /// The operation was answered, or its deadline came.
    Told(Telling),
    /// A replica accepted the request's update under this ballot.
    Accepted {
        node: NodeId,
        partition: Partition,
        ballot: Ballot,
    },
}

/// An entry with its request.
#[derive(Debug, Drop)]
pub struct PaxosNote {
    pub request: ReqId,
    pub entry: PaxosEntry,
}

pub type PaxosNotes = Items<PaxosNote>;
