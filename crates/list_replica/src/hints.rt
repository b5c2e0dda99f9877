//! Hints in the order in which they came, and the last number of each peer.

ghost use Rattle.std.specs.Prelude.{◌≡◌, if◌then◌else◌, nat_lt, OnOk};
ghost use Rattle.durable_state.specs.Keeping.{without_hint};
ghost use Rattle.list_replica.specs.Numbers.{number_at, SetsNumber};

use cs_base::NodeId;
use row_change::Hint;
use std::alloc::AllocError;
use std::collections::BTreeMap;

/// The last number that was given to a hint of each peer.
pub type Numbers = BTreeMap<NodeId, u64>;

/// Lets go of a peer's hint of this number.
pub fn remove_hint(hints: &mut Vec<Hint>, peer: NodeId, number: u64)
    ensures { hints.new.items ≡ without_hint hints.old.items peer number }
{
    hints.retain(|hint| !(hint.peer == peer && hint.number == number));
}

/// Sets the last number of a peer.
pub fn set_last(numbers: &mut Numbers, peer: NodeId, last: u64) -> Result<(), AllocError>
    ensures { OnOk result (SetsNumber peer last numbers.old numbers.new) }
{
    numbers.insert(peer, last)?;
    Ok(())
}

/// The last number that was given to a hint of a peer, 0 for none.
pub fn last_of(numbers: &Numbers, peer: NodeId) -> u64
    ensures { result ≡ number_at numbers.now peer }
{
    numbers.get(&peer).copied().unwrap_or(0)
}

/// Sets the last number of a peer, if it is above the one that it has.
pub fn raise_last(numbers: &mut Numbers, peer: NodeId, number: u64) -> Result<(), AllocError>
    ensures { OnOk result (SetsNumber peer (if nat_lt (number_at numbers.old peer) number then number else number_at numbers.old peer) numbers.old numbers.new) }
{
    if last_of(numbers, peer) < number {
        set_last(numbers, peer, number)?;
    }
    Ok(())
}
