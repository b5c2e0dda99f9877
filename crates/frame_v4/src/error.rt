//! Why a stream of frames is refused.

ghost use Rattle.std.specs.Prelude.{◌≡◌};
ghost use Rattle.frame_v4.specs.declared.error.FrameError.TheVariants.{NoMemory};

use std::alloc::{AllocError, AllocFailed};
use thiserror::Error;

/// Why a stream of frames is refused. The first number of three of them is the frame's stream.
#[derive(Clone, Copy, Debug, PartialEq, Eq, Error)]
pub enum FrameError {
    /// A frame begins with another byte than the version of a request.
    #[error("version byte {0:#04x} in place of 0x04")]
    Version(u8),
    /// The flag of compression is set, which was never agreed on.
    #[error("compressed frame on stream {0}")]
    Compressed(i16),
    /// The body would have this many bytes, more than 16 MiB.
    #[error("body of {1} bytes on stream {0}, more than 16 MiB")]
    TooLong(i16, u32),
    /// The length of the body is negative.
    #[error("body of {1} bytes on stream {0}")]
    NegativeLength(i16, i32),
    /// An allocation failed, and nothing was taken.
    #[error("out of memory")]
    NoMemory,
}

impl From<AllocError> for FrameError {
    ghost from_gives = { λ _ e. e ≡ NoMemory };

    fn from(_e: AllocError) -> FrameError {
        FrameError::NoMemory
    }
}

impl<T: Drop> From<AllocFailed<T>> for FrameError {
    ghost from_gives = { λ _ e. e ≡ NoMemory };

    fn from(_e: AllocFailed<T>) -> FrameError {
        FrameError::NoMemory
    }
}
