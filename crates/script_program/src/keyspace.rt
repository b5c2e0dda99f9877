//! The keyspace that a chronicle in pieces names.

ghost use Rattle.std.specs.Prelude.{◌≡◌, IfOk, option_copied, reverse};
ghost use Rattle.chronicle_pieces.specs.declared.piece.Piece.TheVariants as piece_value;
ghost use Rattle.chronicle_pieces.specs.Pieces.{entries_of, joined};
ghost use Rattle.script_program.specs.Runs.{newest as newest_of, name_in as name_of_entry, is_nothing, keyspace_after as keyspace_after_entries};

use chronicle_pieces::{Halted, Piece, Stepped};
use cs_base::Text;
use peer_messages::Entry;
use std::alloc::{AllocError, Global};

/// The keyspace that the last of these entries names, if it names one.
fn name_in(entries: &[Entry]) -> Option<&Text>
    ensures { option_copied result ≡ name_of_entry (newest_of (reverse entries.now)) }
{
    match entries.last() {
        Some(Entry::Used(_, name)) => Some(name),
        _ => None,
    }
}

fn stepped_name(step: &Stepped) -> Option<&Text>
    ensures { option_copied result ≡ name_of_entry (newest_of (reverse (entries_of (piece_value.Stepped step.now)))) }
{
    match step.tables {
        Some(_) => None,
        None => name_in(step.entries.as_slice()),
    }
}

fn halted_name(halt: &Halted) -> Option<&Text>
    ensures { option_copied result ≡ name_of_entry (newest_of (reverse (entries_of (piece_value.Halted halt.now)))) }
{
    if halt.has_failed {
        return None;
    }
    name_in(halt.entries.as_slice())
}

/// The keyspace that the last entry of a piece names: only an entry of the step itself names one.
fn name_behind(piece: &Piece) -> Option<&Text>
    ensures { option_copied result ≡ name_of_entry (newest_of (reverse (entries_of piece.now))) }
{
    match piece {
        Piece::Stepped(step) => stepped_name(step),
        Piece::Halted(halt) => halted_name(halt),
        Piece::Turned(..) | Piece::Failed(_) => None,
    }
}

fn is_silent_halt(halt: &Halted) -> bool
    ensures { result ≡ is_nothing (entries_of (piece_value.Halted halt.now)) }
{
    if halt.has_failed {
        return false;
    }
    match halt.started {
        Some(_) => false,
        None => halt.entries.as_slice().is_empty(),
    }
}

/// Whether the piece has no entry at all.
fn is_silent(piece: &Piece) -> bool
    ensures { result ≡ is_nothing (entries_of piece.now) }
{
    match piece {
        Piece::Halted(halt) => is_silent_halt(halt),
        Piece::Stepped(_) | Piece::Turned(..) | Piece::Failed(_) => false,
    }
}

/// The keyspace that the newest entry of a chronicle in pieces names, if it names one.
fn newest_name(pieces: &[Piece]) -> Option<&Text>
    ensures { option_copied result ≡ name_of_entry (newest_of (reverse (joined pieces.now))) }
{
    let mut left = pieces.len();
    while left > 0 {
        left -= 1;
        let piece = &pieces[left];
        if !is_silent(piece) {
            return name_behind(piece);
        }
    }
    None
}

/// The keyspace in use behind these entries: the one that the newest entry names, or else the one before.
pub(crate) fn keyspace_after(
    alloc: Global,
    keyspace: Option<Text>,
    chronicle: &[Piece],
) -> Result<Option<Text>, AllocError>
    ensures { IfOk result (λ next. next ≡ keyspace_after_entries keyspace (reverse (joined chronicle.now))) }
{
    match newest_name(chronicle) {
        Some(name) => Ok(Some(name.copy(alloc)?)),
        None => Ok(keyspace),
    }
}
