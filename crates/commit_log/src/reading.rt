//! What stands in the file of a log, of which the entries are decoded one at a time.

ghost use Rattle.std.specs.Prelude.{◌≡◌, ◌==◌, ℕ, ◌+◌, ◌^◌, ◌<◌, List, [], ◌∷◌, ◌++◌, length, take, slice_index_or, None, Some, IfOk, OnOk, IsErrOf};
ghost use Rattle.gate_log.specs.Format.{IsFound};
ghost use Rattle.row_change.specs.declared.entry.LogEntry.{LogEntry as log_entry};
ghost use Rattle.row_change.specs.Grammar.{IsEntry};
ghost use Rattle.row_change.specs.Spelling.{EntryFits};
ghost use Rattle.commit_log.specs.Format.{AreEntries, BreaksEntry, IsDamaged};

use crate::LogError;
use gate_log::Reading;
use row_change::{CodecError, LogEntry, decode_entry};
use std::alloc::Global;

/// What stands in the file of a log: the words of its entries, up to the first closed gate, or up to the field that breaks
/// the format of the gate log. The bytes lie as they were read, and a word is decoded where its entry is asked for, so that
/// who takes the entries in one after another holds one of them at a time.
///
/// Damage is told where it comes first in the file by asking for the entries in order, and then for the end.
#[derive(Debug, Drop)]
pub struct LogReading {
    pub gates: Reading,
}

impl LogReading {
    /// How many words there are.
    pub fn len(&self) -> usize
        ensures { result ≡ length self.now.gates.entries }
    {
        self.gates.entries.len()
    }

    pub fn is_empty(&self) -> bool
        ensures { result ≡ (length self.now.gates.entries == 0) }
    {
        self.gates.entries.is_empty()
    }

    /// Decodes the i-th word, from 0 on. `Damaged` has the place in the file of its first field that breaks the format of an
    /// entry. That is the file's first damage where the words before are entries.
    pub fn entry(&self, alloc: Global, i: usize) -> Result<LogEntry, LogError>
        requires { i < length self.now.gates.entries }

        ensures entry { IfOk result (λ entry. IsEntry (slice_index_or self.now.gates.entries i []) entry []) }
        // It goes on behind the entries before it.
        ensures next { IfOk result (λ entry. (before : List log_entry) → AreEntries (take i self.now.gates.entries) before → AreEntries (take (i + 1) self.now.gates.entries) (before ++ entry ∷ [])) }
        // It can be encoded again.
        ensures fits { IfOk result EntryFits }
        ensures damaged { (file : List ℕ) (before : List log_entry) → IsFound self.now.gates.entries self.now.gates.damage file → AreEntries (take i self.now.gates.entries) before → (p : ℕ) → IsErrOf result (LogError.Damaged p) → IsDamaged p file }
        ensures failed { IsErrOf result LogError.Failed → ⊥ }
    {
        let words = &self.gates.entries;
        // So i + 1 is a usize.
        let _count = words.len();
        let word = words.entry(i);
        // It ends at the next gate.
        let start = words.place(i + 1) - word.len();
        decode_word(alloc, word, start)
    }

    /// Whether a closed gate stands behind the last word, as behind those of a whole log. `Damaged` has the place of the
    /// field there that breaks the format of the gate log. That is the file's first damage where all words are entries.
    pub fn check_end(&self) -> Result<(), LogError>
        ensures whole { OnOk result (self.now.gates.damage ≡ None) }
        ensures place { (p : ℕ) → IsErrOf result (LogError.Damaged p) → self.now.gates.damage ≡ Some p }
        ensures damaged { (file : List ℕ) (entries : List log_entry) → IsFound self.now.gates.entries self.now.gates.damage file → AreEntries self.now.gates.entries entries → (p : ℕ) → IsErrOf result (LogError.Damaged p) → IsDamaged p file }
        ensures failed { IsErrOf result LogError.Failed → ⊥ }
        ensures no_memory { IsErrOf result LogError.NoMemory → ⊥ }
    {
        match self.gates.damage {
            Some(place) => Err(LogError::Damaged(place)),
            None => Ok(()),
        }
    }
}

/// The entry of which a word is the word that begins at this place of the file.
fn decode_word(alloc: Global, word: &[u8], start: usize) -> Result<LogEntry, LogError>
    requires { start + length word.now < 2 ^ 63 }
    ensures entry { IfOk result (λ entry. IsEntry word.now entry []) }
    ensures fits { IfOk result EntryFits }
    ensures damaged { (p : ℕ) → IsErrOf result (LogError.Damaged p) → (offset : ℕ) × BreaksEntry word.now offset × (p ≡ start + offset) }
    ensures failed { IsErrOf result LogError.Failed → ⊥ }
{
    match decode_entry(alloc, word) {
        Ok(entry) => Ok(entry),
        Err(CodecError::NoMemory) => Err(LogError::NoMemory),
        Err(
            CodecError::Short(at)
            | CodecError::Tag(at)
            | CodecError::Order(at)
            | CodecError::Trailing(at),
        ) => Err(LogError::Damaged((start + at) as u64)),
    }
}
