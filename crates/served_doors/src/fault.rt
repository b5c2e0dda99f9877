//! Why doors are not opened.

use std::alloc::AllocError;
use thiserror::Error;

/// Why the doors of a served run are not opened.
#[derive(Clone, Copy, Debug, PartialEq, Eq, Error)]
pub enum DoorFault {
    /// A door was not opened. The count of the doors tells of it.
    #[error("a door failed")]
    Failed,
    #[error("out of memory")]
    NoMemory,
}

impl From<AllocError> for DoorFault {
    ghost use Rattle.std.specs.Prelude.{◌≡◌};
    ghost use Rattle.served_doors.specs.declared.fault.DoorFault.TheVariants.{NoMemory};

    ghost from_gives = { λ _ fault. fault ≡ NoMemory };

    fn from(_: AllocError) -> DoorFault {
        DoorFault::NoMemory
    }
}
