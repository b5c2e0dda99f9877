//! Why a text is no statement.

ghost use Rattle.std.specs.Prelude.{◌≡◌};
ghost use Rattle.cql_parser.specs.declared.error.ParseError.TheVariants as errors;

use std::alloc::{AllocError, AllocFailed};
use thiserror::Error;

/// Why a text is no statement. Offsets are in bytes.
#[derive(Clone, Copy, Debug, PartialEq, Eq, Error)]
pub enum ParseError {
    /// A character that begins no token, and its offset.
    #[error("no token begins at {0}")]
    Char(usize),
    /// The offset of the first token that no longer begins a statement, or the text's length where it ends within one.
    #[error("a token that can't stand at {0}")]
    Unexpected(usize),
    /// A string, a quoted name or a comment that isn't closed, and the offset of its beginning.
    #[error("not closed from {0} on")]
    Unclosed(usize),
    /// A statement of more than 65,535 tokens.
    #[error("too many tokens")]
    TooLong,
    #[error("out of memory")]
    NoMemory,
}

impl From<AllocError> for ParseError {
    ghost from_gives = { λ _ e. e ≡ errors.NoMemory };

    fn from(_e: AllocError) -> ParseError {
        ParseError::NoMemory
    }
}

impl<T: Drop> From<AllocFailed<T>> for ParseError {
    ghost from_gives = { λ _ e. e ≡ errors.NoMemory };

    fn from(_e: AllocFailed<T>) -> ParseError {
        ParseError::NoMemory
    }
}
