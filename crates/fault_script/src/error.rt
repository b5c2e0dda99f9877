//! Why a text gave no script.

ghost use Rattle.std.specs.Prelude.{◌≡◌};
ghost use Rattle.fault_script.specs.declared.error.ParseError.TheVariants.{NoMemory as ParseMemory};

use crate::script::ScriptError;
use std::alloc::{AllocError, AllocFailed};
use thiserror::Error;

/// Why a text gave no script.
#[derive(Clone, Copy, Debug, PartialEq, Eq, Error)]
pub enum ParseError {
    #[error(transparent)]
    Script(ScriptError),
    #[error("out of memory")]
    NoMemory,
}

impl From<AllocError> for ParseError {
    ghost from_gives = { λ _ e. e ≡ ParseMemory };

    fn from(_error: AllocError) -> ParseError {
        ParseError::NoMemory
    }
}

impl<T: Drop> From<AllocFailed<T>> for ParseError {
    ghost from_gives = { λ _ e. e ≡ ParseMemory };

    fn from(_failed: AllocFailed<T>) -> ParseError {
        ParseError::NoMemory
    }
}
