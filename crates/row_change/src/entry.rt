//! The entries of a node's log.

use changes::{Change, Helds, Mutation, Partition};
use cs_base::{Ballot, Items, Micros, NodeId, Range, ReqId};

/// What a conditional update changes: its request, the ballot of the commit that it builds on, and its changes.
#[derive(Debug, Drop)]
pub struct Update {
    pub request: ReqId,
    pub base: Ballot,
    pub changes: Helds,
}

/// A ballot with the update that was proposed or committed by it.
#[derive(Debug, Drop)]
pub struct Stamped {
    pub ballot: Ballot,
    pub update: Update,
}

/// What an acceptor keeps of a partition (Paxos Made Simple, section 2.2): its promise, the update that it accepted last, and
/// the most recent commit.
#[derive(Debug, Drop)]
pub struct PaxosRow {
    pub promised: Ballot,
    /// The highest ballot that it accepted from each proposer, by the proposer's number; 0 for none.
    pub took: [Ballot; 7],
    pub accepted: Option<Stamped>,
    pub commit: Option<Stamped>,
}

/// A mutation that is kept for a peer until the peer has it.
#[derive(Debug, Drop)]
pub struct Hint {
    pub peer: NodeId,
    /// Its number among the hints of its peer.
    pub number: u64,
    /// The time at which its request started at the coordinator.
    pub born: Micros,
    pub mutation: Mutation,
}

/// A repair's mark: the replicas of the range had the same when it ended.
#[derive(Debug, Drop)]
pub struct Mark {
    pub range: Range,
    /// The node's time when it told what it holds.
    pub snapshot: Micros,
    /// The coordinator's time when it sent the marks.
    pub sent: Micros,
}

/// One thing that a step changes in what its node keeps.
#[derive(Debug, Drop)]
pub enum LogItem {
    /// A mutation is applied, at this time.
    Data(Micros, Mutation),
    /// The partition's row as the step leaves it.
    Paxos(Partition, PaxosRow),
    /// A hint comes.
    HintAdd(Hint),
    /// A peer's hint of this number goes.
    HintGone(NodeId, u64),
    /// The time that node time doesn't pass without a new ceiling.
    Ceiling(Micros),
    /// A mark is kept.
    Mark(Mark),
    /// A change is purged.
    Purge(Change),
}

impl LogItem {
    ghost use Rattle.std.specs.Prelude.{◌≡◌};
    ghost use Rattle.row_change.specs.Grammar.{kind_of};

    /// The byte that tells its kind.
    pub fn kind(&self) -> u8
        ensures { result ≡ kind_of self.now }
    {
        match self {
            LogItem::Data(_, _) => 1,
            LogItem::Paxos(_, _) => 2,
            LogItem::HintAdd(_) => 3,
            LogItem::HintGone(_, _) => 4,
            LogItem::Ceiling(_) => 5,
            LogItem::Mark(_) => 6,
            LogItem::Purge(_) => 7,
        }
    }
}

/// What one step commits: its items in the order of their kinds, and those of one kind as the step made them.
#[derive(Debug, Drop)]
pub struct LogEntry {
    pub items: Items<LogItem>,
}
