//! What is still to come over a link in memory.

ghost use Rattle.std.specs.Prelude.{◌≡◌, [], length, Some, MatchOption, slice_get};
ghost use Rattle.std.specs.List.{concat};
ghost use Rattle.cs_io.specs.Links.{FitsIn, Hears, Idles, heard_of, idles_of};
ghost use Rattle.cs_io.specs.Pieces.{past};

use crate::Heard;
use cs_base::Bytes;
use std::marker::Model;

/// Pieces that come one after another.
#[derive(Debug, Drop)]
pub(crate) struct Pieces {
    pieces: Vec<Bytes>,
    // The piece that comes next, and how many of its bytes were read.
    next: usize,
    at: usize,
}

impl Model for Pieces {
    ghost use Rattle.std.specs.Prelude.{ℕ, List, drop, length, ◌≤◌};
    ghost use Rattle.cs_io.specs.Pieces.{behind, IsInFirst};

    ghost Value = { List (List ℕ) };

    ghost view = { λ a. behind a.at (drop a.next a.pieces.items) };

    ghost invariant = { λ a. (a.next ≤ length a.pieces.items) × IsInFirst a.at (drop a.next a.pieces.items) };
}

impl Pieces {
    pub(crate) fn new(pieces: Vec<Bytes>) -> Pieces
        ensures { result ≡ pieces.items }
    {
        Pieces {
            pieces,
            next: 0,
            at: 0,
        }
    }

    /// Fills a beginning of the buffer from the next piece. An empty piece is an idle.
    pub(crate) fn read(&mut self, buffer: &mut [u8]) -> Heard
        ensures exact { result ≡ heard_of self.old (length buffer.old) }
        ensures rest { self.new ≡ past (length buffer.old) self.old }
        ensures within { FitsIn (length buffer.old) result }
        ensures heard { Hears result (concat self.old) buffer.old buffer.new (Some (concat self.new)) }
        ensures idle { Idles result (idles_of self.old) (Some (idles_of self.new)) }
    {
        let Some(left) = self.first() else {
            return Heard::End;
        };
        if left.is_empty() {
            self.advance(0);
            return Heard::Idle;
        }
        let count = left.len().min(buffer.len());
        buffer[..count].copy_from_slice(&left[..count]);
        self.advance(count);
        Heard::Bytes(count)
    }

    // What is left of the next piece.
    fn first(&self) -> Option<&[u8]>
        ensures { MatchOption result (self.now ≡ []) (λ left. slice_get self.now 0 ≡ Some left.now) }
    {
        let piece = self.pieces.get(self.next)?;
        Some(&piece.as_slice()[self.at..])
    }

    // Goes so many bytes on in the next piece.
    fn advance(&mut self, count: usize)
        ensures { self.new ≡ past count self.old }
    {
        let Some(piece) = self.pieces.get(self.next) else {
            return;
        };
        if piece.as_slice().len() - self.at <= count {
            self.next += 1;
            self.at = 0;
        } else {
            self.at += count;
        }
    }
}
