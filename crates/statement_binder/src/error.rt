//! Why a statement has no plan.

ghost use Rattle.std.specs.Prelude.{◌≡◌};
ghost use Rattle.statement_binder.specs.declared.error.BindError.TheVariants.{NoMemory};

use statement_plan::Fault;
use std::alloc::{AllocError, AllocFailed};

#[derive(Clone, Copy, Debug, PartialEq, Eq)]
pub enum BindError {
    Refused(Fault),
    NoMemory,
}

impl From<AllocError> for BindError {
    ghost from_gives = { λ _ e. e ≡ NoMemory };

    fn from(_: AllocError) -> BindError {
        BindError::NoMemory
    }
}

impl<T: Drop> From<AllocFailed<T>> for BindError {
    ghost from_gives = { λ _ e. e ≡ NoMemory };

    fn from(_: AllocFailed<T>) -> BindError {
        BindError::NoMemory
    }
}
