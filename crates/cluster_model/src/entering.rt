//! What is entered in the chronicle. Room is made before; then an event enters without memory.

ghost use Rattle.std.specs.Prelude.{◌≡◌, ◌++◌, ◌<◌, filter, vec_len, vec_capacity};
ghost use Rattle.chronicle_pieces.specs.Pieces.{joined, entries_of};
ghost use Rattle.node_steps.specs.Stops.{is_entered_at_stop};

use chronicle_pieces::Piece;
use cs_base::Items;
use peer_messages::{Entries, Entry};

/// Enters a piece, for which there is room.
pub(crate) fn enter_piece(pieces: &mut Vec<Piece>, piece: Piece)
    requires { vec_len pieces.old < vec_capacity pieces.old }
    ensures { joined pieces.new.items ≡ joined pieces.old.items ++ entries_of piece }
{
    pieces.push_reserved(piece);
}

/// Whether an entry is made although its step is cut off.
fn remains(entry: &Entry) -> bool
    ensures { result ≡ is_entered_at_stop entry.now }
{
    match entry {
        Entry::Asked(_) | Entry::Submitted(..) => true,
        Entry::Acked(..)
        | Entry::Refused(..)
        | Entry::Used(..)
        | Entry::Began(..)
        | Entry::Rows(..)
        | Entry::Time(..)
        | Entry::Marks(..)
        | Entry::Turned(..)
        | Entry::Tables(..)
        | Entry::Stopped(_) => false,
    }
}

/// Of the entries of a step that is cut off those that are made.
pub(crate) fn remaining(entries: Entries) -> Entries
    ensures { result ≡ filter is_entered_at_stop entries }
{
    let mut entries = entries.into_vec();
    entries.retain(|entry| remains(entry));
    Items::from_vec(entries)
}
