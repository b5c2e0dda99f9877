//! Why a log can't be loaded or have one more entry.

ghost use Rattle.std.specs.Prelude.{◌≡◌};
ghost use Rattle.commit_log.specs.declared.error.LogError.TheVariants.{Failed, NoMemory};
ghost use Rattle.commit_log.specs.Errors.{log_error};
ghost use Rattle.commit_log.specs.declared.error.ReserveError.TheVariants as reserve_errors;

use cs_base::Failed as StoreFailed;
use gate_log::GateError;
use std::alloc::{AllocError, AllocFailed};
use thiserror::Error;

/// Why a log can't be loaded.
#[derive(Clone, Copy, Debug, PartialEq, Eq, Error)]
pub enum LogError {
    #[error("a call of the store failed")]
    Failed,
    /// The file breaks the format, of the log or of an entry, first in the field at this offset.
    #[error("the log is damaged at {0}")]
    Damaged(u64),
    #[error("out of memory")]
    NoMemory,
}

impl From<StoreFailed> for LogError {
    ghost from_gives = { λ _ e. e ≡ Failed };

    fn from(_: StoreFailed) -> LogError {
        LogError::Failed
    }
}

/// Of a log that is read. It isn't full.
impl From<GateError> for LogError {
    ghost from_gives = { λ error e. e ≡ log_error error };

    fn from(error: GateError) -> LogError {
        match error {
            GateError::Failed => LogError::Failed,
            GateError::Damaged(place) => LogError::Damaged(place),
            GateError::Full | GateError::NoMemory => LogError::NoMemory,
        }
    }
}

impl From<AllocError> for LogError {
    ghost from_gives = { λ _ e. e ≡ NoMemory };

    fn from(_: AllocError) -> LogError {
        LogError::NoMemory
    }
}

impl<T: Drop> From<AllocFailed<T>> for LogError {
    ghost from_gives = { λ _ e. e ≡ NoMemory };

    fn from(_: AllocFailed<T>) -> LogError {
        LogError::NoMemory
    }
}

/// Why a log can't have one more entry.
#[derive(Clone, Copy, Debug, PartialEq, Eq, Error)]
pub enum ReserveError {
    #[error("the log would pass 64 MiB")]
    Full,
    #[error("out of memory")]
    NoMemory,
}

impl From<AllocError> for ReserveError {
    ghost from_gives = { λ _ e. e ≡ reserve_errors.NoMemory };

    fn from(_: AllocError) -> ReserveError {
        ReserveError::NoMemory
    }
}
