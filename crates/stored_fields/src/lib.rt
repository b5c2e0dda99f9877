//! The fields of which stored values are made: numbers, flags, nodes, requests and byte fields, read from the front of
//! bytes and written at their end. Numbers are big-endian.
#![tactic(auto)]

mod fault;
mod reader;
mod writing;

pub use fault::{CodecError, Fault, at_end};
pub use reader::Reader;
pub use writing::{
    write_field, write_flag, write_i64, write_node, write_request, write_stamps,
    write_tagged_field, write_u8, write_u16, write_u32, write_u64,
};
