//! A conditional operation at its coordinator.

use cell_merge::Content;
use cs_base::{Ballot, Items, Level, Micros, NodeId};
use paxos_messages::Reply;
use row_change::{PaxosRow, Update};
use statement_plan::ConditionalOperation;
use token_ring::Replicas;

/// What a coordinator knows when an operation moves.
#[derive(Drop)]
pub struct Context {
    pub me: NodeId,
    /// Node time, which is a ballot where one was made in this step. The next ballot is above it.
    pub time: Micros,
    /// The time to which the step rose, by which retries and deadlines come.
    pub risen: Micros,
    /// The partition's replicas, by rising number.
    pub members: Replicas,
    /// Those of them that are not marked down, by rising number.
    pub alive: Items<NodeId>,
    /// How many replicas are more than half of them.
    pub majority: u8,
    /// How many acknowledgements of its commit an applied update waits for, by the operation's level.
    pub needed: u8,
}

/// What a replica promised with: its row as it was before, and all that it holds of the partition.
#[derive(Drop)]
pub struct Promised {
    pub from: NodeId,
    pub row: PaxosRow,
    pub content: Content,
}

/// Where a ballot stands: the replicas to which it went, the promises, in order, and the replicas that refused it.
#[derive(Drop)]
pub struct Promises {
    pub targets: Items<NodeId>,
    pub got: Items<Promised>,
    pub refused: Items<NodeId>,
}

/// Where a proposal stands: the replicas to which it went, those that accepted it, and those that refused it.
#[derive(Drop)]
pub struct Votes {
    pub targets: Items<NodeId>,
    pub accepted: Items<NodeId>,
    pub refused: Items<NodeId>,
}

/// What an operation is to be told once its update is chosen: its reply, and on what the reply rests, the replicas that
/// promised and the merge of what they hold.
#[derive(Drop)]
pub struct Verdict {
    pub reply: Reply,
    pub promised: Items<NodeId>,
    pub merged: Content,
}

/// Where an operation stands, under the ballot that it made last.
#[derive(Drop)]
pub enum Phase {
    /// The ballot is to be promised.
    Preparing(Ballot, Promises),
    /// Its own update is proposed. It is empty where the condition failed, and for a read.
    ProposingOwn(Ballot, Update, Verdict, Votes),
    /// An older update, which some replica had accepted, is proposed once more.
    ProposingOlder(Ballot, Update, Votes),
    /// Its own update is chosen, and these replicas took it.
    CommittingOwn(Ballot, Verdict, Items<NodeId>),
    /// An older update is chosen, and these replicas took it.
    CommittingOlder(Ballot, Items<NodeId>),
    /// The commit of this ballot went to replicas that lacked it. These have not acknowledged it yet.
    Completing(Ballot, Items<NodeId>),
}

/// A conditional operation, or a read at a serial level, that its coordinator has not answered.
#[derive(Drop)]
pub struct Operation {
    pub level: Level,
    pub operation: ConditionalOperation,
    pub phase: Phase,
    /// The node time from which on it starts over with a new ballot, if it does.
    pub retry: Option<Micros>,
    /// Whether any replica has replied, be it by a refusal.
    pub replied: bool,
}
