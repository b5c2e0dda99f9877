//! Why a body is refused.

ghost use Rattle.std.specs.Prelude.{◌≡◌};
ghost use Rattle.body_notations.specs.Reading.{place, ended};
ghost use Rattle.body_notations.specs.declared.fault.Fault.TheVariants.{NoMemory};

use std::alloc::{AllocError, AllocFailed};
use thiserror::Error;

/// Why bytes are no word of a notation, seen from the end of the bytes: a reader knows what is left of a body, and not
/// what stood before.
#[derive(Clone, Copy, Debug, PartialEq, Eq)]
pub enum Fault {
    /// Bytes are missing. This many are left from the place where the number, or the bytes behind a length, begin.
    Short(usize),
    /// A text is not UTF-8. This many bytes are left from the first one on with which it is none.
    NotUtf8(usize),
    /// A number that the notation does not have in this place.
    BadValue(i32),
    /// A flag, or a byte or a word that says which of several things comes, that there is not.
    BadFlag,
    /// A [consistency] above 10.
    BadConsistency(u16),
    NoMemory,
}

impl From<AllocError> for Fault {
    ghost from_gives = { λ _ e. e ≡ NoMemory };

    fn from(_: AllocError) -> Fault {
        Fault::NoMemory
    }
}

impl<T: Drop> From<AllocFailed<T>> for Fault {
    ghost from_gives = { λ _ e. e ≡ NoMemory };

    fn from(_: AllocFailed<T>) -> Fault {
        Fault::NoMemory
    }
}

/// Why a body is refused. Places are offsets in the body.
#[derive(Clone, Copy, Debug, PartialEq, Eq, Error)]
pub enum BodyError {
    /// The body ends within the number, or within the bytes behind a length, that begin here.
    #[error("the body ends within what begins at byte {0}")]
    Short(usize),
    /// So many bytes stand behind the body.
    #[error("{0} bytes behind the body")]
    Trailing(usize),
    /// A length or another number that the protocol does not have in this place.
    #[error("{0} in the place of a number that it can't be")]
    BadValue(i32),
    /// No opcode of a request, or of a response.
    #[error("opcode {0:#04x}")]
    Opcode(u8),
    /// A flag, or a byte or a word that says which of several things comes, that there is not.
    #[error("unknown flag")]
    BadFlag,
    /// A consistency above 10.
    #[error("consistency {0}")]
    BadConsistency(u16),
    /// A text is not UTF-8 from this byte on.
    #[error("not UTF-8 from byte {0} on")]
    NotUtf8(usize),
    #[error("out of memory")]
    NoMemory,
}

impl Fault {
    /// The refusal of a body of so many bytes.
    pub fn placed(self, total: usize) -> BodyError
        ensures { result ≡ place total self }
    {
        match self {
            Fault::Short(left) => BodyError::Short(total.saturating_sub(left)),
            Fault::NotUtf8(left) => BodyError::NotUtf8(total.saturating_sub(left)),
            Fault::BadValue(n) => BodyError::BadValue(n),
            Fault::BadFlag => BodyError::BadFlag,
            Fault::BadConsistency(code) => BodyError::BadConsistency(code),
            Fault::NoMemory => BodyError::NoMemory,
        }
    }
}

/// A value that was read, if nothing stands behind it.
pub fn at_end<T: Drop>(value: T, rest: &[u8]) -> Result<T, BodyError>
    ensures { result ≡ ended value rest.now }
{
    if rest.is_empty() {
        Ok(value)
    } else {
        Err(BodyError::Trailing(rest.len()))
    }
}
