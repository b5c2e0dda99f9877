//! What a step adds to a table of hints and takes from it, as long as it is not settled.

ghost use Rattle.std.specs.Prelude.{◌≡◌, not, filter};
ghost use Rattle.hint_store.specs.Stores.{is_gone, is_added};

use crate::table::{HintTable, Place};
use cs_base::NodeId;
use row_change::Hint;
use std::collections::BTreeSet;

/// The peers and the numbers of hints that are gone.
pub(crate) type Gone = BTreeSet<(NodeId, u64)>;

/// Whether the peer's hints of this number are gone.
pub(crate) fn is_among(gone: &Gone, peer: NodeId, number: u64) -> bool
    ensures { result ≡ is_added gone.now.keys (peer, number) }
{
    gone.contains(&(peer, number))
}

/// Whether the hint is gone.
pub(crate) fn is_gone(gone: &Gone, hint: &Hint) -> bool
    ensures { result ≡ is_gone gone.now.keys hint.now }
{
    is_among(gone, hint.peer, hint.number)
}

/// Takes the hints that are gone out of the table.
pub(crate) fn remove_gone(table: &mut HintTable, gone: &Gone)
    ensures { table.new.entries ≡ filter (λ e. not (is_gone gone.now.keys e.1)) table.old.entries }
{
    for (peer, number) in gone {
        table.remove_number(*peer, *number);
    }
}

/// Takes the hints at these places out of the table.
pub(crate) fn remove_added(table: &mut HintTable, added: &[Place])
    ensures { table.new.entries ≡ filter (λ e. not (is_added added.now e.0)) table.old.entries }
{
    for place in added {
        table.remove(place);
    }
}
