//! The log.

ghost use Rattle.std.specs.Prelude.{◌≡◌, ◌≢◌, ◌==◌, ℕ, ◌+◌, ◌^◌, ◌<◌, ◌≤◌, ◌↔◌, None, Err, IsOk, IfOk, OnOk, OnErr, IsErrOf};
ghost use Rattle.cs_base.specs.Faults.{HasRisen};
ghost use Rattle.cs_store.specs.Faults.{HasCause};
ghost use Rattle.cs_store.specs.Disk.{Stays, IsSettled, SameFiles, Passes, LeavesOnly};
ghost use Rattle.gate_log.specs.Format.{Reads, IsFound};
ghost use Rattle.gate_log.specs.Place.{IsAtRest, CanAppend};
ghost use Rattle.row_change.specs.Lengths.{entry_length};
ghost use Rattle.row_change.specs.Spelling.{EntryFits};
ghost use Rattle.commit_log.specs.Format.{Adds, IsBeforeOrAfter};
ghost use Rattle.commit_log.specs.Place.{IsReady};

use crate::{LogError, LogReading, ReserveError};
use cs_base::Failed;
use cs_store::{FileNo, Store};
use gate_log::{GateError, GateLog, Reading};
use row_change::{LogEntry, encode_entry};
use std::alloc::Global;
use std::marker::Model;

/// The log of one file of a store: a gate log of encoded entries.
#[derive(Debug, Drop)]
pub struct CommitLog {
    gates: GateLog,
    file: FileNo,
    // The bytes of the entry for which memory was taken.
    word: Vec<u8>,
    alloc: Global,
}

impl Model for CommitLog {
    ghost use Rattle.std.specs.Prelude.{◌≡◌};
    ghost use Rattle.commit_log.specs.Place.{LogPlace};

    ghost Value = { LogPlace };

    ghost view = { λ a. record { place = a.gates; word = a.word.items } };

    ghost invariant = { λ a. a.file ≡ a.gates.file };
}

impl CommitLog {
    /// Reads a file in one piece: two calls of the store. It changes nothing, and decodes none of the entries.
    pub fn read<S: Store>(alloc: Global, store: &mut S, f: FileNo) -> Result<LogReading, LogError>
        // After a restart, what is read is what is on the disk.
        requires { S.is_honest → IsSettled f (S.disk store.old) }

        ensures found { IfOk result (λ r. S.is_honest → IsFound r.gates.entries r.gates.damage ((S.disk store.old).seen f)) }
        ensures file { IfOk result (λ r. r.gates.file ≡ f) }
        ensures same { result ≢ Err LogError.Failed → S.is_honest → SameFiles (S.disk store.old) (S.disk store.new) }
        ensures settled { OnOk result (S.is_honest → IsSettled f (S.disk store.new)) }
        ensures any_moment { S.is_honest → LeavesOnly f (Stays ((S.disk store.old).seen f)) (S.disk store.old) (S.disk store.new) }
        // Damage is told where the entries are decoded.
        ensures damaged { (p : ℕ) → IsErrOf result (LogError.Damaged p) → ⊥ }
        ensures failed { IsErrOf result LogError.Failed → HasRisen (S.faults store.old) (S.faults store.new) }
        ensures faults { S.faults store.old ≤ S.faults store.new }
        ensures counted { OnOk result (S.calls store.new ≡ S.calls store.old + 2) }
        ensures at_most { S.calls store.new ≤ S.calls store.old + 2 }
        ensures surely { (m n : ℕ) → n + 2 ≤ m → S.spares store.old m → (result ≢ Err LogError.Failed) × S.spares store.new n }
        ensures room { (k : ℕ) → S.reserved store.old k ≤ S.reserved store.new k }
    {
        let gates = Reading::of(alloc, store, f)?;
        Ok(LogReading { gates })
    }

    /// Cuts the file that was read behind its first closed gate, on the disk: two calls of the store. It takes no memory.
    /// A crash at any moment leaves a file of the same words, and so of the same entries.
    pub fn cut<S: Store>(
        alloc: Global,
        store: &mut S,
        reading: &LogReading,
    ) -> Result<CommitLog, Failed>
        requires whole { reading.now.gates.damage ≡ None }
        requires reads { S.is_honest → Reads reading.now.gates.entries ((S.disk store.old).seen reading.now.gates.file) }
        requires settled { S.is_honest → IsSettled reading.now.gates.file (S.disk store.old) }

        ensures same_entries { OnOk result (S.is_honest → Reads reading.now.gates.entries ((S.disk store.new).seen reading.now.gates.file)) }
        ensures at_rest { IfOk result (λ log. S.is_honest → IsAtRest log.place.gate ((S.disk store.new).seen reading.now.gates.file)) }
        ensures settled { OnOk result (S.is_honest → IsSettled reading.now.gates.file (S.disk store.new)) }
        ensures others { OnOk result (S.is_honest → (k : ℕ) → k ≢ reading.now.gates.file → (S.disk store.new).seen k ≡ (S.disk store.old).seen k) }
        ensures file { IfOk result (λ log. log.place.file ≡ reading.now.gates.file) }
        ensures any_moment { S.is_honest → LeavesOnly reading.now.gates.file (Reads reading.now.gates.entries) (S.disk store.old) (S.disk store.new) }
        ensures cause { HasCause (S.faults store.old) (S.faults store.new) result }
        ensures counted { OnOk result (S.calls store.new ≡ S.calls store.old + 2) }
        ensures at_most { S.calls store.new ≤ S.calls store.old + 2 }
        ensures surely { (m n : ℕ) → n + 2 ≤ m → S.spares store.old m → IsOk result × S.spares store.new n }
        ensures room { (k : ℕ) → S.reserved store.old k ≤ S.reserved store.new k }
    {
        let gates = GateLog::cut(alloc, store, &reading.gates)?;
        Ok(CommitLog {
            gates,
            file: reading.gates.file,
            word: Vec::new(alloc),
            alloc,
        })
    }

    /// The length of the log's file.
    pub fn len(&self) -> u64
        ensures { result ≡ self.now.place.gate + 1 }
    {
        self.gates.len()
    }

    /// Whether it has no entry.
    pub fn is_empty(&self) -> bool
        ensures { result ≡ (self.now.place.gate == 0) }
    {
        self.gates.is_empty()
    }

    /// The number of the log's file.
    pub fn file(&self) -> FileNo
        ensures { result ≡ self.now.place.file }
    {
        self.file
    }

    /// Encodes an entry, and takes all the memory that its append needs.
    pub fn reserve<S: Store>(&mut self, store: &mut S, entry: &LogEntry) -> Result<(), ReserveError>
        // The entry has a word.
        requires { EntryFits entry.now }

        ensures ok { OnOk result (IsReady entry.now self.new (S.reserved store.new)) }
        ensures full { IsErrOf result ReserveError.Full ↔ (2 ^ 26 < self.old.place.gate + entry_length entry.now + 6) }
        ensures file { self.new.place.file ≡ self.old.place.file }
        ensures gate { self.new.place.gate ≡ self.old.place.gate }
        ensures same { S.is_honest → SameFiles (S.disk store.old) (S.disk store.new) }
        ensures settled { S.is_honest → (k : ℕ) → IsSettled k (S.disk store.old) → IsSettled k (S.disk store.new) }
        ensures any_moment { S.is_honest → Passes self.old.place.file Stays (S.disk store.old) (S.disk store.new) }
        ensures cause { S.faults store.new ≡ S.faults store.old }
        ensures uncounted { S.calls store.new ≡ S.calls store.old }
        ensures surely { (n : ℕ) → S.spares store.old n → S.spares store.new n }
        ensures room { (k : ℕ) → S.reserved store.old k ≤ S.reserved store.new k }
    {
        let Ok(len) = u32::try_from(entry.encoded_length()) else {
            return Err(ReserveError::Full);
        };
        reserve_bytes(&mut self.gates, store, len)?;
        self.word = encode_entry(self.alloc, entry)?;
        Ok(())
    }

    /// Appends the entry for which `reserve` was called last: the four store calls of the gate log. At `Ok` it is
    /// acknowledged: from then on each crash leaves a file that has it. It takes no memory, and nothing is encoded: the
    /// entry is there to be named. After `Failed`, load the log again.
    pub fn append<S: Store>(&mut self, store: &mut S, entry: &LogEntry) -> Result<(), Failed>
        requires at_rest { S.is_honest → IsAtRest self.old.place.gate ((S.disk store.old).seen self.old.place.file) }
        requires settled { S.is_honest → IsSettled self.old.place.file (S.disk store.old) }
        requires reserved { IsReady entry.now self.old (S.reserved store.old) }

        ensures acknowledged { OnOk result (S.is_honest → Adds entry.now ((S.disk store.old).seen self.old.place.file) ((S.disk store.new).seen self.old.place.file)) }
        ensures at_rest { OnOk result (S.is_honest → IsAtRest self.new.place.gate ((S.disk store.new).seen self.old.place.file)) }
        ensures settled { OnOk result (S.is_honest → IsSettled self.old.place.file (S.disk store.new)) }
        ensures others { OnOk result (S.is_honest → (k : ℕ) → k ≢ self.old.place.file → (S.disk store.new).seen k ≡ (S.disk store.old).seen k) }
        ensures file { self.new.place.file ≡ self.old.place.file }
        ensures gate { OnOk result (self.new.place.gate ≡ self.old.place.gate + entry_length entry.now + 5) }
        ensures gate_err { OnErr result (self.new.place.gate ≡ self.old.place.gate) }

        // A crash at any moment leaves the entries from before the call, with the new one or without.
        ensures any_moment { S.is_honest → LeavesOnly self.old.place.file (IsBeforeOrAfter entry.now ((S.disk store.old).seen self.old.place.file)) (S.disk store.old) (S.disk store.new) }

        ensures cause { HasCause (S.faults store.old) (S.faults store.new) result }
        ensures counted { OnOk result (S.calls store.new ≡ S.calls store.old + 4) }
        ensures at_most { S.calls store.new ≤ S.calls store.old + 4 }
        ensures surely { (m n : ℕ) → n + 4 ≤ m → S.spares store.old m → IsOk result × S.spares store.new n }
        ensures room { self.old.place.room ≤ self.new.place.room }
        ensures store_room { (k : ℕ) → S.reserved store.old k ≤ S.reserved store.new k }
    {
        self.gates.append(store, &self.word)
    }
}

/// Takes the memory that an append of so many bytes needs.
fn reserve_bytes<S: Store>(gates: &mut GateLog, store: &mut S, len: u32) -> Result<(), ReserveError>
    ensures ok { OnOk result (CanAppend len gates.new (S.reserved store.new)) }
    ensures full { IsErrOf result ReserveError.Full ↔ (2 ^ 26 < gates.old.gate + len + 6) }
    ensures file { gates.new.file ≡ gates.old.file }
    ensures gate { gates.new.gate ≡ gates.old.gate }
    ensures same { S.is_honest → SameFiles (S.disk store.old) (S.disk store.new) }
    ensures settled { S.is_honest → (k : ℕ) → IsSettled k (S.disk store.old) → IsSettled k (S.disk store.new) }
    ensures any_moment { S.is_honest → Passes gates.old.file Stays (S.disk store.old) (S.disk store.new) }
    ensures cause { S.faults store.new ≡ S.faults store.old }
    ensures uncounted { S.calls store.new ≡ S.calls store.old }
    ensures surely { (n : ℕ) → S.spares store.old n → S.spares store.new n }
    ensures room { (k : ℕ) → S.reserved store.old k ≤ S.reserved store.new k }
{
    match gates.reserve(store, len) {
        Ok(()) => Ok(()),
        Err(GateError::Full) => Err(ReserveError::Full),
        Err(_) => Err(ReserveError::NoMemory),
    }
}
