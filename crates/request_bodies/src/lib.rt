//! The bodies of request frames (native_protocol_v4.spec, section 4.1).
#![tactic(auto)]

mod batch;
mod laws;
mod parameters;
mod payload;
mod request;
mod startup;

pub use batch::{Batch, BatchEntry, BatchKind, BatchStatement};
pub use laws::{decoding_undoes_encoding, encoding_undoes_decoding, one_reading};
pub use parameters::{NamedValue, QueryParameters, Values};
pub use request::{Execute, Query, Request, decode_request, encode_request};
pub use startup::{StringMap, StringPair};
