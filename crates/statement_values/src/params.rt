//! The values of a request (native_protocol_v4.spec, section 4.1.4).

use cs_base::{Bytes, Items};
use std::collections::BTreeMap;

/// A value, in the encoding of the native protocol.
#[derive(Debug, Drop)]
pub enum Param {
    Null,
    /// Nothing is to be written.
    NotSet,
    Given(Bytes),
}

pub type ParamList = Items<Param>;

/// The values that a request gives for the markers of its statement.
#[derive(Drop)]
pub enum Params {
    /// Each marker takes the next value, whether it has a name or none.
    ByPlace(ParamList),
    /// Each marker takes the value of its name. `?` has the name of the column that its value is for, `[timestamp]`
    /// behind TIMESTAMP and `[limit]` behind LIMIT. A value whose name no marker has stands for nothing.
    ByName(BTreeMap<String, Param>),
}
