//! The bodies of the frames of the native protocol, version 4 (native_protocol_v4.spec, section 4): requests and responses,
//! decoded and encoded.
#![tactic(auto)]

pub use body_notations::{BodyError, Consistency, Value};
pub use request_bodies::{
    Batch, BatchEntry, BatchKind, BatchStatement, Execute, NamedValue, Query, QueryParameters,
    Request, StringMap, StringPair, Values, decode_request, encode_request,
};
pub use response_bodies::{
    Column, Columns, ErrorCause, ErrorResponse, Prepared, ReadTimeout, Response, Rows,
    RowsMetadata, StringLists, SupportedOption, TableColumns, Unavailable, VariablesMetadata,
    WriteTimeout, WriteType, decode_response, encode_response,
};
