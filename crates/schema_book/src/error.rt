//! Why statements make no schema.

ghost use Rattle.std.specs.Prelude.{◌≡◌};
ghost use Rattle.schema_book.specs.declared.error.SchemaError.TheVariants.{NoMemory};

use std::alloc::{AllocError, AllocFailed};
use thiserror::Error;

/// Why a statement is refused.
#[derive(Clone, Copy, Debug, PartialEq, Eq, Error)]
pub enum Fault {
    /// A table or a keyspace of this name exists.
    #[error("a table or keyspace of this name exists")]
    DuplicateTable,
    /// A column is defined twice, or stands twice in a key.
    #[error("a column is defined twice, or stands twice in a key")]
    DuplicateColumn,
    /// No PRIMARY KEY, or more than one.
    #[error("not just one PRIMARY KEY")]
    NoKey,
    /// The key names a column that is not defined.
    #[error("the key names a column that is not defined")]
    KeyColumnUnknown,
    /// The table's keyspace is not named, or was not made.
    #[error("the keyspace is not named, or does not exist")]
    NoKeyspace,
    /// More than 256.
    #[error("more than 256 columns")]
    TooManyColumns,
    /// Another map than that of SimpleStrategy, or a factor outside 1 to the number of nodes.
    #[error("replication other than SimpleStrategy with 1 replica to one on each node")]
    BadReplication,
    /// An option that is not there, or has another value than it may have, or a table more than 1,024.
    #[error("an option that there is not, or that may not have this value, or a table more than 1,024")]
    BadOption,
    /// A clustering column of type uuid.
    #[error("a clustering column of type uuid")]
    UuidClustering,
    /// A statement that is none of a schema.
    #[error("not a statement of a schema")]
    NotSchema,
}

/// A statement, by its place in the list from 0 on, and why it is refused.
#[derive(Clone, Copy, Debug, PartialEq, Eq, Error)]
#[error("statement {statement}: {fault}")]
pub struct Refused {
    pub statement: usize,
    pub fault: Fault,
}

#[derive(Clone, Copy, Debug, PartialEq, Eq, Error)]
pub enum SchemaError {
    #[error(transparent)]
    Refused(Refused),
    #[error("out of memory")]
    NoMemory,
}

impl From<AllocError> for SchemaError {
    ghost from_gives = { λ _ e. e ≡ NoMemory };

    fn from(_: AllocError) -> SchemaError {
        SchemaError::NoMemory
    }
}

impl<T: Drop> From<AllocFailed<T>> for SchemaError {
    ghost from_gives = { λ _ e. e ≡ NoMemory };

    fn from(_: AllocFailed<T>) -> SchemaError {
        SchemaError::NoMemory
    }
}
