//! Why a log can't be read or have one more entry.

ghost use Rattle.std.specs.Prelude.{◌≡◌};
ghost use Rattle.gate_log.specs.declared.error.GateError.TheVariants.{Failed, NoMemory};

use cs_base::Failed as StoreFailed;
use std::alloc::{AllocError, AllocFailed};
use thiserror::Error;

#[derive(Clone, Copy, Debug, PartialEq, Eq, Error)]
pub enum GateError {
    #[error("a call of the store failed")]
    Failed,
    /// The file breaks the format, first in the field at this offset.
    #[error("the log is damaged at {0}")]
    Damaged(u64),
    #[error("the log would pass 64 MiB")]
    Full,
    #[error("out of memory")]
    NoMemory,
}

impl From<StoreFailed> for GateError {
    ghost from_gives = { λ _ e. e ≡ Failed };

    fn from(_: StoreFailed) -> GateError {
        GateError::Failed
    }
}

impl From<AllocError> for GateError {
    ghost from_gives = { λ _ e. e ≡ NoMemory };

    fn from(_: AllocError) -> GateError {
        GateError::NoMemory
    }
}

impl<T: Drop> From<AllocFailed<T>> for GateError {
    ghost from_gives = { λ _ e. e ≡ NoMemory };

    fn from(_: AllocFailed<T>) -> GateError {
        GateError::NoMemory
    }
}
