//! Sinks of bytes.

ghost use Rattle.std.specs.Prelude.{◌≡◌, ℕ, ◌≤◌, ◌<◌, min, List, [], ◌++◌, length, take, Option, Some, None, Ok, IsTrue, IsErr, IfOk, OnErr};
ghost use Rattle.std.specs.Option.{option_map};
ghost use Rattle.cs_base.specs.Faults.{HasRisen};

use cs_base::{Failed, Faults};
use std::alloc::Global;
use std::io::Write;
use std::marker::Model;

/// Where bytes go to.
pub trait Sink {
    /// The bytes that it holds, where the sink tells them.
    ghost contents: { Self → Option (List ℕ) };

    /// How many faults it had. To take nothing of a piece that has bytes is one.
    ghost faults: { Self → ℕ };

    /// Appends a beginning of the piece, and answers its length.
    fn write(&mut self, piece: &[u8]) -> Result<usize, Failed>
        ensures within { IfOk result (λ n. n ≤ length piece.now) }
        ensures written { IfOk result (λ n. contents self.new ≡ option_map (λ held. held ++ take n piece.now) (contents self.old)) }
        ensures err { OnErr result (contents self.new ≡ contents self.old) }
        ensures counted { faults self.old ≤ faults self.new }
        ensures failed { OnErr result (HasRisen (faults self.old) (faults self.new)) }
        ensures stuck { result ≡ Ok 0 → 0 < length piece.now → HasRisen (faults self.old) (faults self.new) };
}

/// A sink in memory, whose listed calls fail, as do those for which there is no memory.
#[derive(Debug, Drop)]
pub struct MemSink {
    bytes: Vec<u8>,
    most: usize,
    failing: Vec<u64>,
    calls: u64,
    faults: Faults,
}

impl Model for MemSink {
    ghost use Rattle.std.specs.Prelude.{ℕ, List};
    ghost use Rattle.cs_io.specs.Streams.{MemStream};

    ghost Value = { MemStream };

    ghost view = { λ a. record { bytes = a.bytes.items; most = a.most; failing = a.failing.items; calls = a.calls; faults = a.faults } };
}

impl MemSink {
    /// An empty sink. A call takes at most `most` bytes; with 0 each call for a piece that has bytes is a fault. The calls
    /// of these numbers, from 1 on, fail.
    pub fn new(alloc: Global, most: usize, failing: Vec<u64>) -> MemSink
        ensures { result ≡ record { bytes = []; most = most; failing = failing.items; calls = 0; faults = 0 } }
    {
        MemSink {
            bytes: Vec::new(alloc),
            most,
            failing,
            calls: 0,
            faults: Faults::new(),
        }
    }

    /// What was written so far.
    pub fn bytes(&self) -> &[u8]
        ensures { result.now ≡ self.now.bytes }
    {
        self.bytes.as_slice()
    }
}

impl Sink for MemSink {
    ghost use Rattle.cs_io.specs.Streams.{next_call, fails};

    ghost contents = { λ s. Some s.bytes };

    ghost faults = { λ s. s.faults };

    fn write(&mut self, piece: &[u8]) -> Result<usize, Failed>
        ensures within { IfOk result (λ n. n ≤ length piece.now) }
        ensures written { IfOk result (λ n. self.new.bytes ≡ self.old.bytes ++ take n piece.now) }
        ensures err { OnErr result (self.new.bytes ≡ self.old.bytes) }
        ensures counted { self.old.faults ≤ self.new.faults }
        ensures failed { OnErr result (HasRisen self.old.faults self.new.faults) }
        ensures stuck { result ≡ Ok 0 → 0 < length piece.now → HasRisen self.old.faults self.new.faults }

        // The listed calls fail, and another one only for want of memory; each takes as much as it may.
        ensures listed { IsTrue (fails self.old) → IsErr result }
        ensures amount { IfOk result (λ n. n ≡ min (length piece.now) self.old.most) }
        ensures calls { self.new.calls ≡ next_call self.old }
        ensures plan { (self.new.failing ≡ self.old.failing) × (self.new.most ≡ self.old.most) }
    {
        self.calls = self.calls.saturating_add(1);
        let count = piece.len().min(self.most);
        let fails = self.failing.contains(&self.calls);
        if fails || self.bytes.extend_from_slice(&piece[..count]).is_err() {
            self.faults.raise();
            return Err(Failed);
        }
        if count == 0 && !piece.is_empty() {
            self.faults.raise();
        }
        Ok(count)
    }
}

/// Standard output, or another writer of the system. It tells nothing of its bytes.
#[derive(Drop)]
pub struct StdSink<W: Write + Drop> {
    writer: W,
    faults: Faults,
}

impl<W: Write + Drop> StdSink<W> {
    pub fn new(writer: W) -> StdSink<W>
        ensures { result ≡ record { writer = writer; faults = 0 } }
    {
        StdSink {
            writer,
            faults: Faults::new(),
        }
    }

    /// How many faults it had.
    pub fn faults(&self) -> Faults
        ensures { result ≡ self.now.faults }
    {
        self.faults
    }
}

impl<W: Write + Drop> Sink for StdSink<W> {
    ghost contents = { λ _. None };

    ghost faults = { λ s. s.faults };

    fn write(&mut self, piece: &[u8]) -> Result<usize, Failed> {
        let Ok(count) = self.writer.write(piece) else {
            self.faults.raise();
            return Err(Failed);
        };
        if count == 0 && !piece.is_empty() {
            self.faults.raise();
        }
        Ok(count)
    }
}
