//! Changes and mutations as they are stored.
#![tactic(auto)]

mod change;
mod codec;
mod mutation;
mod place;

pub use change::{read_change, read_changes, write_change, write_changes};
pub use codec::{decode_changes, decode_mutation, encode_changes, encode_mutation};
pub use mutation::{read_mutation, read_partition, write_mutation, write_partition};
