//! Values at the front of bytes, and values that are whole bytes.

ghost use Rattle.std.specs.Prelude.{◌≡◌, IfOk, None, length};
ghost use Rattle.row_values.specs.Values.{value_in as value_in_of};

use cql_values::{CqlType, CqlValue, ValueError, decode};
use std::alloc::{AllocError, Global};

/// The value at the front of bytes, and how many of them it takes. What no value stands in front of is taken whole, so
/// that none is found behind it.
#[derive(Debug, Drop)]
pub(crate) struct Front {
    pub(crate) value: Option<CqlValue>,
    pub(crate) len: usize,
}

impl Front {
    /// No value.
    pub(crate) fn none(bytes: &[u8]) -> Front
        ensures value { result.value ≡ None }
        ensures len { result.len ≡ length bytes.now }
    {
        Front {
            value: None,
            len: bytes.len(),
        }
    }
}

/// The value of a type that the bytes are in the native protocol.
pub(crate) fn value_in(
    alloc: Global,
    ty: CqlType,
    bytes: &[u8],
) -> Result<Option<CqlValue>, AllocError>
    ensures { IfOk result (λ value. value ≡ value_in_of ty bytes.now) }
{
    match decode(alloc, ty, bytes) {
        Ok(value) => Ok(Some(value)),
        Err(ValueError::NoMemory) => Err(AllocError),
        Err(_) => Ok(None),
    }
}
