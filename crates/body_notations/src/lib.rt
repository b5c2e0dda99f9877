//! The notations of which the bodies of the native protocol are made (native_protocol_v4.spec, section 3): read from the
//! front of bytes, and written at their end.
#![tactic(auto)]

mod consistency;
mod fault;
mod notation;
mod reading;
mod value;
mod writing;

pub use consistency::Consistency;
pub use fault::{BodyError, Fault, at_end};
pub use notation::{
    INT_LIMIT, Notation, SHORT_LIMIT, all_have_word, is_set, list_has_word, part_has_word,
    read_items, read_list, read_part, write_items, write_list, write_part,
};
pub use reading::{
    read_byte, read_bytes, read_consistency, read_count, read_int, read_long, read_long_string,
    read_short, read_short_bytes, read_string, read_value, skip_bytes, skip_string,
};
pub use value::Value;
pub use writing::{
    write_bytes, write_consistency, write_count, write_int, write_long, write_long_string,
    write_short, write_short_bytes, write_string, write_value,
};
