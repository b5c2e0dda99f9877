//! The tokens of partition keys, and the ring on which the nodes share them out.
#![tactic(auto)]

mod laws;
mod murmur;
mod replicas;
mod ring;

pub use laws::{
    first_replica_owns_the_token, ranges_share_out_the_tokens, replicas_are_different_nodes,
    replicas_are_those_by_number,
};
pub use murmur::token;
pub use replicas::Replicas;
pub use ring::{MOST_NODES, Ring, RingError};
