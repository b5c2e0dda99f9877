//! The bodies of response frames (native_protocol_v4.spec, section 4.2).
#![tactic(auto)]

mod cells;
mod error;
mod laws;
mod metadata;
mod response;
mod rows;
mod supported;

pub use error::{ErrorCause, ErrorResponse, ReadTimeout, Unavailable, WriteTimeout, WriteType};
pub use laws::{decoding_undoes_encoding, encoding_undoes_decoding, one_reading};
pub use metadata::{Column, Columns, Prepared, RowsMetadata, TableColumns, VariablesMetadata};
pub use response::{Response, decode_response, encode_response};
pub use rows::Rows;
pub use supported::{StringLists, SupportedOption};
