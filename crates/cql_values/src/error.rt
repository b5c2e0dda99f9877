//! Why a value was refused.

ghost use Rattle.std.specs.Prelude.{◌≡◌};
ghost use Rattle.cql_values.specs.declared.error.ValueError.TheVariants as value_errors;
ghost use Rattle.cql_values.specs.declared.error.LiteralError.TheVariants as literal_errors;
ghost use Rattle.cql_values.specs.declared.error.OrderError.TheVariants as order_errors;

use std::alloc::{AllocError, AllocFailed};
use thiserror::Error;

/// Why protocol bytes are no value of a type.
#[derive(Clone, Copy, Debug, PartialEq, Eq, Error)]
pub enum ValueError {
    /// The type has another width; the number of bytes that there are.
    #[error("{0} bytes are not the width of the type")]
    BadLength(usize),
    /// The offset of the first byte that is not UTF-8: the length of the longest beginning that is.
    #[error("not UTF-8 from byte {0} on")]
    NotUtf8(usize),
    /// The offset of the first byte above 127.
    #[error("not ASCII at byte {0}")]
    NotAscii(usize),
    /// A uuid of another version than 1.
    #[error("not a uuid of version 1")]
    NotTimeuuid,
    #[error("out of memory")]
    NoMemory,
}

impl From<AllocError> for ValueError {
    ghost from_gives = { λ _ e. e ≡ value_errors.NoMemory };

    fn from(_e: AllocError) -> ValueError {
        ValueError::NoMemory
    }
}

/// Why a literal is no value of a type.
#[derive(Clone, Copy, Debug, PartialEq, Eq, Error)]
pub enum LiteralError {
    /// Literals of this kind are not for the type.
    #[error("a literal of another kind than the type's")]
    WrongKind,
    /// A whole number outside the type.
    #[error("a number outside the type")]
    OutOfRange,
    /// No word of its kind, a character outside ASCII for `ascii`, or a uuid of another version than 1 for `timeuuid`.
    #[error("a malformed literal")]
    Malformed,
    #[error("out of memory")]
    NoMemory,
}

impl From<AllocError> for LiteralError {
    ghost from_gives = { λ _ e. e ≡ literal_errors.NoMemory };

    fn from(_e: AllocError) -> LiteralError {
        LiteralError::NoMemory
    }
}

impl<T: Drop> From<AllocFailed<T>> for LiteralError {
    ghost from_gives = { λ _ e. e ≡ literal_errors.NoMemory };

    fn from(_e: AllocFailed<T>) -> LiteralError {
        LiteralError::NoMemory
    }
}

/// Why no order bytes of a type stand at the front.
#[derive(Clone, Copy, Debug, PartialEq, Eq, Error)]
pub enum OrderError {
    /// The bytes end before the value does.
    #[error("the bytes end within a value")]
    Short,
    /// The offset of the first byte with which no value of the type goes on.
    #[error("byte {0} does not belong to a value")]
    Malformed(usize),
    #[error("out of memory")]
    NoMemory,
}

impl From<AllocError> for OrderError {
    ghost from_gives = { λ _ e. e ≡ order_errors.NoMemory };

    fn from(_e: AllocError) -> OrderError {
        OrderError::NoMemory
    }
}

impl<T: Drop> From<AllocFailed<T>> for OrderError {
    ghost from_gives = { λ _ e. e ≡ order_errors.NoMemory };

    fn from(_e: AllocFailed<T>) -> OrderError {
        OrderError::NoMemory
    }
}
