//! Why bytes are no stored value.

ghost use Rattle.std.specs.Prelude.{◌≡◌, ◌≤◌, length};
ghost use Rattle.stored_fields.specs.Reading.{place, ended};
ghost use Rattle.stored_fields.specs.declared.fault.Fault.TheVariants.{NoMemory};

use std::alloc::{AllocError, AllocFailed};
use thiserror::Error;

/// Why bytes don't begin with a word, seen from the end of the bytes: a reader knows how many are left where the field
/// begins that breaks the format, and not what stood before.
#[derive(Clone, Copy, Debug, PartialEq, Eq)]
pub enum Fault {
    /// The bytes end within the field.
    Short(usize),
    /// A byte that tells which of several things comes, and tells of none.
    Tag(usize),
    /// What begins here doesn't stand behind what is before it.
    Order(usize),
    NoMemory,
}

impl From<AllocError> for Fault {
    ghost from_gives = { λ _ e. e ≡ NoMemory };

    fn from(_: AllocError) -> Fault {
        Fault::NoMemory
    }
}

impl<T: Drop> From<AllocFailed<T>> for Fault {
    ghost from_gives = { λ _ e. e ≡ NoMemory };

    fn from(_: AllocFailed<T>) -> Fault {
        Fault::NoMemory
    }
}

/// Why bytes are no word of a stored value: the first field that breaks the format, by its offset.
#[derive(Clone, Copy, Debug, PartialEq, Eq, Error)]
pub enum CodecError {
    /// The bytes end within the field that begins here. A byte field begins with its length.
    #[error("the bytes end within the field at byte {0}")]
    Short(usize),
    /// A tag, a kind, a flag or a node that there is not.
    #[error("unknown tag at byte {0}")]
    Tag(usize),
    /// The change whose tag, or the item whose kind, stands here doesn't stand behind the one before it.
    #[error("out of order at byte {0}")]
    Order(usize),
    /// The word ends here, and bytes follow.
    #[error("bytes behind the end at byte {0}")]
    Trailing(usize),
    #[error("out of memory")]
    NoMemory,
}

impl Fault {
    /// The refusal of so many bytes.
    pub fn placed(self, total: usize) -> CodecError
        ensures { result ≡ place total self }
    {
        match self {
            Fault::Short(left) => CodecError::Short(total.saturating_sub(left)),
            Fault::Tag(left) => CodecError::Tag(total.saturating_sub(left)),
            Fault::Order(left) => CodecError::Order(total.saturating_sub(left)),
            Fault::NoMemory => CodecError::NoMemory,
        }
    }
}

/// A value that was read of so many bytes, if nothing stands behind it.
pub fn at_end<T: Drop>(value: T, total: usize, rest: &[u8]) -> Result<T, CodecError>
    ensures { result ≡ ended total value rest.now }
{
    if rest.is_empty() {
        Ok(value)
    } else {
        Err(CodecError::Trailing(total.saturating_sub(rest.len())))
    }
}
