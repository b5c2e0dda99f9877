//! The small types of every layer: nodes, times, ballots, request ids, levels, ranges of tokens and their leaves, and
//! the lists that contracts see as lists.
#![tactic(auto)]

mod bytes;
mod failed;
mod faults;
mod ids;
mod items;
mod laws;
mod leaves;
mod level;
mod range;
mod text;

pub use bytes::Bytes;
pub use failed::Failed;
pub use faults::Faults;
pub use ids::{Ballot, Micros, NodeId, ReqId};
pub use items::Items;
pub use laws::{compare_requests, first_node, leaf_count};
pub use leaves::{LEAVES, LeafSet, Leaves, leaves_are_told_by_their_test};
pub use level::{
    Level, blockfor, meeting_nodes_share_a_replica, meeting_tests_share_a_replica, meets, quorum,
};
pub use range::Range;
pub use text::Text;
