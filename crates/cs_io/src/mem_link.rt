//! Links in memory.

ghost use Rattle.std.specs.Prelude.{◌≡◌, ℕ, ◌≤◌, ◌<◌, min, List, [], ◌++◌, length, take, not, is_ok, Option, Some, Ok, IsTrue, IsErr, IfOk, OnErr};
ghost use Rattle.std.specs.List.{concat};
ghost use Rattle.cs_base.specs.Faults.{HasRisen};
ghost use Rattle.cs_io.specs.Links.{FitsIn, Hears, Idles, heard_of, idles_of};

use crate::pieces::Pieces;
use crate::{Heard, Link};
use cs_base::{Bytes, Failed, Faults};
use std::alloc::Global;
use std::marker::Model;

/// A link in memory, whose listed calls fail, as do those writes for which there is no memory.
#[derive(Debug, Drop)]
pub struct MemLink {
    pieces: Pieces,
    written: Vec<u8>,
    most: usize,
    failing: Vec<u64>,
    calls: u64,
    faults: Faults,
}

impl Model for MemLink {
    ghost use Rattle.std.specs.Prelude.{ℕ, List};
    ghost use Rattle.cs_io.specs.Links.{MemLinkState};

    ghost Value = { MemLinkState };

    ghost view = { λ a. record { pieces = a.pieces; written = a.written.items; most = a.most; failing = a.failing.items; calls = a.calls; faults = a.faults } };
}

impl MemLink {
    /// A link over which these pieces come, one after another; an empty piece is an idle. A read gives bytes of one piece, as
    /// many as there is room for.
    ///
    /// A write takes at most `most` bytes; with 0 each write of a piece that has bytes is a fault. The calls of these
    /// numbers fail, where reads and writes are counted together, from 1 on.
    pub fn new(alloc: Global, pieces: Vec<Bytes>, most: usize, failing: Vec<u64>) -> MemLink
        ensures { result ≡ record { pieces = pieces.items; written = []; most = most; failing = failing.items; calls = 0; faults = 0 } }
    {
        MemLink {
            pieces: Pieces::new(pieces),
            written: Vec::new(alloc),
            most,
            failing,
            calls: 0,
            faults: Faults::new(),
        }
    }

    /// What was written so far.
    pub fn written(&self) -> &[u8]
        ensures { result.now ≡ self.now.written }
    {
        self.written.as_slice()
    }

    /// How many faults it had.
    pub fn faults(&self) -> Faults
        ensures { result ≡ self.now.faults }
    {
        self.faults
    }
}

impl Link for MemLink {
    ghost use Rattle.cs_io.specs.Links.{next_call, fails};
    ghost use Rattle.cs_io.specs.Pieces.{past};

    ghost remaining = { λ s. Some (concat s.pieces) };

    ghost idles = { λ s. Some (idles_of s.pieces) };

    ghost written = { λ s. Some s.written };

    ghost faults = { λ s. s.faults };

    fn read(&mut self, buffer: &mut [u8]) -> Result<Heard, Failed>
        ensures within { IfOk result (FitsIn (length buffer.old)) }
        ensures heard { IfOk result (λ heard. Hears heard (concat self.old.pieces) buffer.old buffer.new (Some (concat self.new.pieces))) }
        ensures idle { IfOk result (λ heard. Idles heard (idles_of self.old.pieces) (Some (idles_of self.new.pieces))) }
        ensures unwritten { self.new.written ≡ self.old.written }
        ensures err { OnErr result (self.new.pieces ≡ self.old.pieces) }
        ensures counted { self.old.faults ≤ self.new.faults }
        ensures failed { OnErr result (HasRisen self.old.faults self.new.faults) }

        // The listed calls fail, and no other one; each hears what the next piece has, as much as there is room for.
        ensures answer { is_ok result ≡ not (fails self.old) }
        ensures exact { IfOk result (λ heard. heard ≡ heard_of self.old.pieces (length buffer.old)) }
        ensures pieces { IfOk result (λ _. self.new.pieces ≡ past (length buffer.old) self.old.pieces) }
        ensures calls { self.new.calls ≡ next_call self.old }
        ensures plan { (self.new.failing ≡ self.old.failing) × (self.new.most ≡ self.old.most) }
    {
        self.calls = self.calls.saturating_add(1);
        if self.failing.contains(&self.calls) {
            self.faults.raise();
            return Err(Failed);
        }
        Ok(self.pieces.read(buffer))
    }

    fn write(&mut self, piece: &[u8]) -> Result<usize, Failed>
        ensures within { IfOk result (λ n. n ≤ length piece.now) }
        ensures taken { IfOk result (λ n. self.new.written ≡ self.old.written ++ take n piece.now) }
        ensures unread { self.new.pieces ≡ self.old.pieces }
        ensures err { OnErr result (self.new.written ≡ self.old.written) }
        ensures counted { self.old.faults ≤ self.new.faults }
        ensures failed { OnErr result (HasRisen self.old.faults self.new.faults) }
        ensures stuck { result ≡ Ok 0 → 0 < length piece.now → HasRisen self.old.faults self.new.faults }

        // The listed calls fail, and another one only for want of memory; each takes as much as it may.
        ensures listed { IsTrue (fails self.old) → IsErr result }
        ensures amount { IfOk result (λ n. n ≡ min (length piece.now) self.old.most) }
        ensures calls { self.new.calls ≡ next_call self.old }
        ensures plan { (self.new.failing ≡ self.old.failing) × (self.new.most ≡ self.old.most) }
    {
        self.calls = self.calls.saturating_add(1);
        let count = piece.len().min(self.most);
        let fails = self.failing.contains(&self.calls);
        if fails || self.written.extend_from_slice(&piece[..count]).is_err() {
            self.faults.raise();
            return Err(Failed);
        }
        if count == 0 && !piece.is_empty() {
            self.faults.raise();
        }
        Ok(count)
    }
}
