//! The entries of a chronicle: what was asked of the nodes, what was submitted, and what clients were told.

use crate::nodes::NodeIds;
use cell_merge::Content;
use changes::{Mutation, Query, ShownRows};
use cs_base::{Items, Level, Micros, NodeId, ReqId, Text};
use statement_plan::{Columns, Fault};

/// Why a request is invalid.
#[derive(Clone, Copy, Debug, PartialEq, Eq)]
pub enum Invalid {
    /// A write at `SERIAL` or `LOCAL_SERIAL`.
    SerialWrite,
    /// A level at which this request can't be done.
    Level,
    /// A table that isn't there.
    UnknownTable,
    /// A partition whose content at the node would grow too large.
    PartitionTooLarge,
    /// Its statement asks for nothing that can be done.
    Statement(Fault),
}

/// A refusal, as a client is told it.
#[derive(Clone, Copy, Debug, PartialEq, Eq)]
pub enum Refusal {
    /// How many replicas are needed, and how many are alive.
    Unavailable {
        required: u8,
        alive: u8,
    },
    /// At its deadline a write had so many acknowledgements of distinct replicas, and waited for so many.
    WriteTimeout {
        received: u8,
        blockfor: u8,
    },
    /// At its deadline a read had so many replies of distinct replicas, waited for so many, and had data of one or not.
    ReadTimeout {
        received: u8,
        blockfor: u8,
        data: bool,
    },
    Overloaded,
    Invalid(Invalid),
    /// The node does not run.
    Down,
}

/// What the answer of a read rests on: the replicas that replied, in order, and the merge of their replies.
#[derive(Drop)]
pub struct Grounds {
    pub heard: NodeIds,
    pub merged: Content,
}

/// What happened, for who reads the chronicle. The replicas heard of and the grounds of a read are not printed.
#[derive(Drop)]
pub enum Entry {
    /// A client's request came; one that its node could not begin has no id.
    Asked(Option<ReqId>),
    /// Its changes were submitted.
    Submitted(ReqId, Mutation),
    /// A write was acknowledged, and by these replicas.
    Acked(ReqId, Level, NodeIds),
    Refused(ReqId, Refusal),
    /// The keyspace of later statements was named.
    Used(ReqId, Text),
    /// A read began, of whose rows this is shown.
    Began(ReqId, Query, Level, Columns),
    /// It was answered with rows, and with whether a further row would follow.
    Rows(ReqId, ShownRows, bool, Grounds),
    /// The node's time after an event.
    Time(NodeId, Micros),
    /// The nodes that the node takes for alive after an event, by rising number.
    Marks(NodeId, NodeIds),
    /// A request that the node could not begin, or that came to a node that does not run.
    Turned(NodeId, Refusal),
    /// After a flush the node has so many tables.
    Tables(NodeId, u32),
    /// The node's store failed, and the node stopped.
    Stopped(NodeId),
}

pub type Entries = Items<Entry>;
