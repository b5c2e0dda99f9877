//! Entries in one buffer.

ghost use Rattle.std.specs.Prelude.{◌≡◌, ◌==◌, ◌+◌, ◌^◌, ◌<◌, ◌≤◌, [], length, take, slice_index, slice_index_or};
ghost use Rattle.gate_log.specs.Entries.{pieces, IsSplit, last_end};
ghost use Rattle.gate_log.specs.Format.{spellings};

use std::marker::Model;

/// The entries of a log, in order. They lie in the bytes of its file as they were read.
#[derive(Debug, Drop)]
pub struct Entries {
    bytes: Vec<u8>,
    ends: Vec<usize>,
}

impl Model for Entries {
    ghost use Rattle.std.specs.Prelude.{ℕ, List};
    ghost use Rattle.gate_log.specs.Entries.{pieces, IsSplit};

    ghost Value = { List (List ℕ) };

    ghost view = { λ a. pieces 0 a.bytes.items a.ends.items };

    ghost invariant = { λ a. IsSplit 0 a.bytes.items a.ends.items };
}

impl Entries {
    pub(crate) fn new(bytes: Vec<u8>, ends: Vec<usize>) -> Entries
        requires { IsSplit 0 bytes.items ends.items }
        ensures { result ≡ pieces 0 bytes.items ends.items }
    {
        Entries { bytes, ends }
    }

    /// How many there are.
    pub fn len(&self) -> usize
        ensures { result ≡ length self.now }
    {
        self.ends.len()
    }

    pub fn is_empty(&self) -> bool
        ensures { result ≡ (length self.now == 0) }
    {
        self.ends.is_empty()
    }

    /// The bytes of the i-th entry, from 0 on.
    pub fn entry(&self, i: usize) -> &[u8]
        requires { i < length self.now }
        ensures { result.now ≡ slice_index_or self.now i [] }
    {
        let (start, end) = span(&self.bytes, &self.ends, i);
        &self.bytes[start..end]
    }

    /// The place in the file of the gate of the i-th entry, whose bytes stand five places behind it; behind the last
    /// entry that of the gate after it.
    pub fn place(&self, i: usize) -> usize
        requires { i ≤ length self.now }
        ensures place { result ≡ length (spellings (take i self.now)) }
        ensures within { result < 2 ^ 63 }
    {
        gate_of(&self.bytes, &self.ends, i)
    }
}

// The place of the gate of the i-th entry.
fn gate_of(_bytes: &[u8], ends: &[usize], i: usize) -> usize
    requires split { IsSplit 0 _bytes.now ends.now }
    requires inside { i ≤ length ends.now }
    ensures place { result ≡ last_end 0 (take i ends.now) }
    ensures within { result ≤ length _bytes.now }
{
    if i == 0 { 0 } else { ends[i - 1] }
}

// Where the bytes of the i-th entry begin and end.
fn span(bytes: &[u8], ends: &[usize], i: usize) -> (usize, usize)
    requires split { IsSplit 0 bytes.now ends.now }
    requires inside { i < length ends.now }
    ensures start { result.0 ≡ last_end 0 (take i ends.now) + 5 }
    ensures end { result.1 ≡ slice_index ends.now i }
    ensures order { result.0 ≤ result.1 }
    ensures within { result.1 ≤ length bytes.now }
{
    (gate_of(bytes, ends, i) + 5, ends[i])
}
