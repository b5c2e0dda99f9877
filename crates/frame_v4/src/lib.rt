//! Frames of version 4 of CQL's native protocol (native_protocol_v4.spec of Apache Cassandra, section 2).
#![tactic(auto)]

mod decoding;
mod error;
mod frame;
mod framer;
mod header;
mod held;
mod laws;
mod reading;
mod writing;

pub use decoding::decode;
pub use error::FrameError;
pub use frame::{Decoded, Frame, Frames};
pub use framer::Framer;
pub use laws::{each_is_read, first_frame, goes_on, one_reading, refusal_comes, refusal_stands};
pub use writing::{write_frame, write_request};
