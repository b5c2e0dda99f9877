//! What the constants and the order of requests are.

ghost use Rattle.std.specs.Prelude.{◌≡◌};
ghost use Rattle.cs_base.specs.Requests.{request_cmp};

use crate::{LEAVES, NodeId, ReqId};
use std::cmp::Ordering;

/// The first node, as `NodeId::FIRST`.
pub fn first_node() -> NodeId
    ensures { result ≡ 0 }
{
    NodeId::FIRST
}

/// How many leaves a range has.
pub fn leaf_count() -> usize
    ensures { result ≡ 256 }
{
    LEAVES
}

/// Requests are in order of their nodes, and those of one node in order of their times.
pub fn compare_requests(a: &ReqId, b: &ReqId) -> Ordering
    ensures { result ≡ request_cmp a.now b.now }
{
    a.cmp(b)
}
