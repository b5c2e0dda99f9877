//! Bytes that were read of a source before they are asked for.

ghost use Rattle.std.specs.Prelude.{◌≡◌, ◌≤◌, [], ◌∷◌, MatchOption, IfOk, IfSome, OnOk, OnErr};
ghost use Rattle.cs_base.specs.Faults.{HasRisen};
ghost use Rattle.source_lines.specs.Lines.{left_of, Fills, GivesByte};

use cs_base::Failed;
use cs_io::Source;
use std::alloc::{AllocError, Global};
use std::marker::Model;

/// How many bytes are asked for at a time.
const PIECE: usize = 4_096;

/// The bytes that were read of a source and not given yet.
#[derive(Drop)]
pub(crate) struct Ahead {
    piece: Vec<u8>,
    // Those of the piece from here up to there.
    next: usize,
    end: usize,
}

impl Model for Ahead {
    ghost use Rattle.std.specs.Prelude.{ℕ, List, take, drop, ◌≤◌, ◌<◌, vec_len};

    ghost Value = { List ℕ };

    ghost view = { λ a. drop a.next (take a.end a.piece.items) };

    ghost invariant = { λ a. (a.next ≤ a.end) × (a.end ≤ vec_len a.piece) × (0 < vec_len a.piece) };
}

impl Ahead {
    pub(crate) fn new(alloc: Global) -> Result<Ahead, AllocError>
        ensures { IfOk result (λ ahead. ahead ≡ []) }
    {
        let piece = vec![in alloc; 0; PIECE]?;
        Ok(Ahead {
            piece,
            next: 0,
            end: 0,
        })
    }

    /// Gives the first of these bytes.
    fn pop(&mut self) -> Option<u8>
        ensures { MatchOption result ((self.old ≡ []) × (self.new ≡ [])) (λ byte. self.old ≡ byte ∷ self.new) }
    {
        if self.next == self.end {
            return None;
        }
        let byte = self.piece[self.next];
        self.next += 1;
        Some(byte)
    }

    /// Reads a piece, where no byte is ahead. None is then only at the end of the source.
    fn fill<S: Source>(&mut self, source: &mut S) -> Result<(), Failed>
        requires { self.old ≡ [] }
        ensures ok { OnOk result (IfSome (S.remaining source.old) (λ left. Fills left self.new (S.remaining source.new))) }
        ensures err { OnErr result ((self.new ≡ []) × (S.remaining source.new ≡ S.remaining source.old)) }
        ensures counted { S.faults source.old ≤ S.faults source.new }
        ensures failed { OnErr result (HasRisen (S.faults source.old) (S.faults source.new)) }
    {
        self.next = 0;
        self.end = 0;
        self.end = source.read(self.piece.as_mut_slice())?;
        Ok(())
    }

    /// Gives the next byte, which is read where none is ahead. `None` is the end of the source.
    pub(crate) fn next<S: Source>(&mut self, source: &mut S) -> Result<Option<u8>, Failed>
        ensures ok { IfOk result (λ byte. IfSome (left_of self.old (S.remaining source.old)) (λ left. GivesByte byte left (left_of self.new (S.remaining source.new)))) }
        ensures err { OnErr result (left_of self.new (S.remaining source.new) ≡ left_of self.old (S.remaining source.old)) }
        ensures counted { S.faults source.old ≤ S.faults source.new }
        ensures failed { OnErr result (HasRisen (S.faults source.old) (S.faults source.new)) }
    {
        if let Some(byte) = self.pop() {
            return Ok(Some(byte));
        }
        self.fill(source)?;
        Ok(self.pop())
    }
}
