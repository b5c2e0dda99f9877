//! What a node's log keeps: changes and mutations, and the entries of which each is one step's commit.
//!
//! The types of changes, and the bytes of changes and mutations, come from the crates below.
#![tactic(auto)]

mod codec;
mod entry;
mod item;
mod laws;
mod length;
mod paxos;

pub use changes::{Bound, Change, Held, Helds, Mutation, Partition, Place};
pub use codec::{decode_entry, encode_entry};
pub use entry::{Hint, LogEntry, LogItem, Mark, PaxosRow, Stamped, Update};
pub use laws::{
    decoding_undoes_encoding, encoding_has_its_length, encoding_undoes_decoding, one_reading,
    words_are_read,
};
pub use stored_changes::{decode_changes, decode_mutation, encode_changes, encode_mutation};
pub use stored_fields::CodecError;
