//! Pieces of a chronicle.

ghost use Rattle.std.specs.Prelude.{◌≡◌};
ghost use Rattle.chronicle_pieces.specs.Pieces.{own_of};

use crate::alive::Alive;
use cs_base::{Micros, NodeId, ReqId};
use peer_messages::{Entries, Entry, Refusal};

/// A step that was made: the request that it began, the nodes that its node takes for alive behind it, the node's time
/// behind it, the step's own entries, and how many tables there are, where the step tells it.
#[derive(Drop)]
pub struct Stepped {
    pub node: NodeId,
    pub started: Option<ReqId>,
    pub alive: Alive,
    pub time: Micros,
    pub entries: Entries,
    pub tables: Option<u32>,
}

/// A step inside which its node stopped: the request that it began, those of its entries that remain, and whether a call of
/// the node's store failed.
#[derive(Drop)]
pub struct Halted {
    pub node: NodeId,
    pub started: Option<ReqId>,
    pub entries: Entries,
    pub has_failed: bool,
}

/// What one event entered.
#[derive(Drop)]
pub enum Piece {
    Stepped(Stepped),
    Halted(Halted),
    /// A request that the node could not begin.
    Turned(NodeId, Refusal),
    /// A load that failed.
    Failed(NodeId),
}

impl Piece {
    /// The entries of the step itself: not what every event enters before and behind them.
    pub fn own(&self) -> &[Entry]
        ensures { result.now ≡ own_of self.now }
    {
        match self {
            Piece::Stepped(step) => step.entries.as_slice(),
            Piece::Halted(halt) => halt.entries.as_slice(),
            Piece::Turned(..) | Piece::Failed(_) => &[],
        }
    }
}
