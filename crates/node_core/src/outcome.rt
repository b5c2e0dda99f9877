//! Why a node takes no step.

ghost use Rattle.std.specs.Prelude.{◌≡◌, [], None};
ghost use Rattle.node_core.specs.declared.outcome.StepError.TheVariants as step_error;

use changes::Partition;
use cs_base::{Items, ReqId};
use peer_messages::Entries;
use std::alloc::{AllocError, Global};

/// What a step had made in which the node stopped: the request that it began, and the entries that it would have entered. Of
/// these that remain which are entered at a stop: who asked, and what was submitted.
#[derive(Drop)]
pub struct Lost {
    pub started: Option<ReqId>,
    pub entries: Entries,
}

/// Why a node takes no step.
#[derive(Drop)]
pub enum StepError {
    /// A call of its store failed, and the node has stopped.
    Failed(Lost),
    /// Its time would pass its end, 2^63 - 2^21 microseconds, or its log 64 MiB.
    NoRoom,
    /// The content of the partition would pass 16 MiB.
    TooLarge(Partition),
    NoMemory,
}

impl From<AllocError> for StepError {
    ghost from_gives = { λ _ r. r ≡ step_error.NoMemory };

    fn from(_: AllocError) -> StepError {
        StepError::NoMemory
    }
}

impl Lost {
    /// Nothing was asked for.
    pub(crate) fn nothing(alloc: Global) -> Lost
        ensures { (result.started ≡ None) × (result.entries ≡ []) }
    {
        Lost {
            started: None,
            entries: Items::new(alloc),
        }
    }
}
