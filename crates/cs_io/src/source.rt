//! Sources of bytes.

ghost use Rattle.std.specs.Prelude.{◌≡◌, ℕ, ◌≤◌, ◌<◌, List, [], length, not, is_ok, Option, Some, None, IfOk, IfSome, OnErr};
ghost use Rattle.cs_base.specs.Faults.{HasRisen};
ghost use Rattle.cs_io.specs.Streams.{Takes};

use cs_base::{Failed, Faults};
use std::io::Read;
use std::marker::Model;

/// Where bytes come from.
pub trait Source {
    /// The bytes that are left, where the source tells them.
    ghost remaining: { Self → Option (List ℕ) };

    /// How many faults it had.
    ghost faults: { Self → ℕ };

    /// Fills a beginning of the buffer, and answers its length. Of a buffer with room, 0 is the end of the source.
    fn read(&mut self, buffer: &mut [u8]) -> Result<usize, Failed>
        ensures within { IfOk result (λ n. n ≤ length buffer.old) }
        ensures taken { IfOk result (λ n. IfSome (remaining self.old) (λ left. Takes n left buffer.old buffer.new (remaining self.new))) }
        ensures err { OnErr result (remaining self.new ≡ remaining self.old) }
        ensures counted { faults self.old ≤ faults self.new }
        ensures failed { OnErr result (HasRisen (faults self.old) (faults self.new)) };
}

/// A source in memory, whose listed calls fail.
#[derive(Debug, Drop)]
pub struct MemSource {
    bytes: Vec<u8>,
    at: usize,
    most: usize,
    failing: Vec<u64>,
    calls: u64,
    faults: Faults,
}

impl Model for MemSource {
    ghost use Rattle.std.specs.Prelude.{ℕ, List, drop, length, ◌≤◌};
    ghost use Rattle.cs_io.specs.Streams.{MemStream};

    ghost Value = { MemStream };

    ghost view = { λ a. record { bytes = drop a.at a.bytes.items; most = a.most; failing = a.failing.items; calls = a.calls; faults = a.faults } };

    ghost invariant = { λ a. a.at ≤ length a.bytes.items };
}

impl MemSource {
    /// A source of these bytes. A call gives at most `most` of them, and at least one where some are left. The calls of
    /// these numbers, from 1 on, fail.
    pub fn new(bytes: Vec<u8>, most: usize, failing: Vec<u64>) -> MemSource
        ensures { result ≡ record { bytes = bytes.items; most = most; failing = failing.items; calls = 0; faults = 0 } }
    {
        MemSource {
            bytes,
            at: 0,
            most,
            failing,
            calls: 0,
            faults: Faults::new(),
        }
    }
}

impl Source for MemSource {
    ghost use Rattle.cs_io.specs.Streams.{next_call, fails, given_of};

    ghost remaining = { λ s. Some s.bytes };

    ghost faults = { λ s. s.faults };

    fn read(&mut self, buffer: &mut [u8]) -> Result<usize, Failed>
        ensures within { IfOk result (λ n. n ≤ length buffer.old) }
        ensures taken { IfOk result (λ n. Takes n self.old.bytes buffer.old buffer.new (Some self.new.bytes)) }
        ensures err { OnErr result (self.new.bytes ≡ self.old.bytes) }
        ensures counted { self.old.faults ≤ self.new.faults }
        ensures failed { OnErr result (HasRisen self.old.faults self.new.faults) }

        // The listed calls fail, and no other one; each gives as much as it may.
        ensures answer { is_ok result ≡ not (fails self.old) }
        ensures amount { IfOk result (λ n. n ≡ given_of self.old (length buffer.old)) }
        ensures calls { self.new.calls ≡ next_call self.old }
        ensures plan { (self.new.failing ≡ self.old.failing) × (self.new.most ≡ self.old.most) }
    {
        self.calls = self.calls.saturating_add(1);
        if self.failing.contains(&self.calls) {
            self.faults.raise();
            return Err(Failed);
        }
        let left = &self.bytes[self.at..];
        let count = left.len().min(buffer.len()).min(self.most.max(1));
        buffer[..count].copy_from_slice(&left[..count]);
        self.at += count;
        Ok(count)
    }
}

/// Standard input, or another reader of the system. It tells nothing of its bytes.
#[derive(Drop)]
pub struct StdSource<R: Read + Drop> {
    reader: R,
    faults: Faults,
}

impl<R: Read + Drop> StdSource<R> {
    pub fn new(reader: R) -> StdSource<R>
        ensures { result ≡ record { reader = reader; faults = 0 } }
    {
        StdSource {
            reader,
            faults: Faults::new(),
        }
    }

    /// How many faults it had.
    pub fn faults(&self) -> Faults
        ensures { result ≡ self.now.faults }
    {
        self.faults
    }
}

impl<R: Read + Drop> Source for StdSource<R> {
    ghost remaining = { λ _. None };

    ghost faults = { λ s. s.faults };

    fn read(&mut self, buffer: &mut [u8]) -> Result<usize, Failed> {
        let Ok(count) = self.reader.read(buffer) else {
            self.faults.raise();
            return Err(Failed);
        };
        Ok(count)
    }
}
