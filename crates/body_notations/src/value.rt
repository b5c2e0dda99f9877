//! Values of a request.

use cs_base::Bytes;

/// A [value] (native_protocol_v4.spec, section 3).
#[derive(Debug, Drop)]
pub enum Value {
    /// Length -1.
    Null,
    /// Length -2: nothing is to be written.
    NotSet,
    Given(Bytes),
}
