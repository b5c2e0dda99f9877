//! Why a call of a replica gives nothing. After `Failed` the replica is to be loaded again.

use crate::merge::Purges;
use changes::Partition;
use cs_base::Failed;
use cs_store::FileNo;
use std::alloc::AllocError;

/// Why a disk is not loaded. Each hands the disk back.
#[derive(Debug, Drop)]
pub enum LoadError<D: Drop> {
    Failed(D),
    /// The file is not in its format, first at this place.
    Damaged(D, FileNo, u64),
    NoMemory(D),
}

/// Why there is no room for an entry.
#[derive(Debug, Drop)]
pub enum RoomError {
    Failed,
    /// The stored form of what is held of the partition would pass 16 MiB.
    TooLarge(Partition),
    /// The log would pass 64 MiB.
    NoRoom,
    NoMemory,
}

/// Why a call gives nothing. After `NoMemory` nothing has changed.
#[derive(Clone, Copy, Debug, PartialEq, Eq, Drop)]
pub enum CallError {
    Failed,
    NoMemory,
}

/// Why a merge is not finished.
#[derive(Debug, Drop)]
pub enum FinishError {
    /// What is kept has the entry and these purges, or neither.
    Failed(Purges),
    /// The entry is kept, and the merge is not: this table was replaced since it began, or holds something that the merge would
    /// have had to look at.
    Stale(FileNo),
    /// Nothing has changed, but that the merge is given up.
    NoMemory,
}

impl From<AllocError> for CallError {
    ghost use Rattle.std.specs.Prelude.{◌≡◌};
    ghost use Rattle.replica.specs.declared.error.CallError.TheVariants.{NoMemory};

    ghost from_gives = { λ _ r. r ≡ NoMemory };

    fn from(_: AllocError) -> CallError {
        CallError::NoMemory
    }
}

impl From<Failed> for CallError {
    ghost use Rattle.std.specs.Prelude.{◌≡◌};
    ghost use Rattle.replica.specs.declared.error.CallError.TheVariants.{Failed as failed};

    ghost from_gives = { λ _ r. r ≡ failed };

    fn from(_: Failed) -> CallError {
        CallError::Failed
    }
}

impl From<AllocError> for RoomError {
    ghost use Rattle.std.specs.Prelude.{◌≡◌};
    ghost use Rattle.replica.specs.declared.error.RoomError.TheVariants.{NoMemory};

    ghost from_gives = { λ _ r. r ≡ NoMemory };

    fn from(_: AllocError) -> RoomError {
        RoomError::NoMemory
    }
}
