//! The log.

ghost use Rattle.std.specs.Prelude.{◌≡◌, ◌≢◌, ◌==◌, ℕ, ◌+◌, ◌^◌, ◌<◌, ◌≤◌, ◌↔◌, [], ◌∷◌, ◌++◌, length, None, Err, IsOk, IfOk, OnOk, OnErr, IsErrOf, vec_capacity};
ghost use Rattle.std.specs.Int.{w32, to_be_bytes};
ghost use Rattle.cs_base.specs.Faults.{HasRisen};
ghost use Rattle.cs_store.specs.Faults.{HasCause};
ghost use Rattle.cs_store.specs.Disk.{Stays, IsSettled, SameFiles, Passes, LeavesOnly};
ghost use Rattle.gate_log.specs.Format.{Reads, IsDamaged, Adds, IsBeforeOrAfter, IsBeforeOrEmpty, ReadsAlike};
ghost use Rattle.gate_log.specs.Place.{IsAtRest, IsOpen, CanAppend};

use crate::format::{CLOSED, OPEN};
use crate::{Entries, GateError, Reading};
use cs_base::Failed;
use cs_store::{FileNo, Store, cut_durably, write_durably};
use std::alloc::Global;
use std::marker::Model;

/// The greatest length of a log's file: 64 MiB.
const MAX_LEN: u64 = 1 << 26;

/// The log of one file of a store.
///
/// An append writes the entry's length, its bytes and a closed gate behind the gate that is closed now, syncs, opens
/// that gate and syncs again.
#[derive(Debug, Drop)]
pub struct GateLog {
    file: FileNo,
    gate: u64,
    buffer: Vec<u8>,
}

impl Model for GateLog {
    ghost use Rattle.std.specs.Prelude.{◌<◌, ◌^◌, vec_capacity};
    ghost use Rattle.gate_log.specs.Place.{Place};

    ghost Value = { Place };

    ghost view = { λ a. record { file = a.file; gate = a.gate; room = vec_capacity a.buffer } };

    ghost invariant = { λ a. a.gate < 2 ^ 63 };
}

impl GateLog {
    /// Reads the entries of a file up to the first closed gate, and cuts it behind that gate: `Reading::of` and `cut`.
    /// A damaged file is left as it is. It may crash too, at any moment, and then the file reads as the same entries.
    pub fn load<S: Store>(
        alloc: Global,
        store: &mut S,
        f: FileNo,
    ) -> Result<(GateLog, Entries), GateError>
        // After a restart, what is read is what is on the disk.
        requires { S.is_honest → IsSettled f (S.disk store.old) }

        ensures entries { IfOk result (λ r. S.is_honest → Reads r.1 ((S.disk store.old).seen f)) }
        ensures same_entries { IfOk result (λ r. S.is_honest → Reads r.1 ((S.disk store.new).seen f)) }
        ensures at_rest { IfOk result (λ r. S.is_honest → IsAtRest r.0.gate ((S.disk store.new).seen f)) }
        ensures settled { OnOk result (S.is_honest → IsSettled f (S.disk store.new)) }
        ensures others { OnOk result (S.is_honest → (k : ℕ) → k ≢ f → (S.disk store.new).seen k ≡ (S.disk store.old).seen k) }
        ensures file { IfOk result (λ r. r.0.file ≡ f) }

        // A crash at any moment leaves the same entries.
        ensures any_moment { S.is_honest → LeavesOnly f (ReadsAlike ((S.disk store.old).seen f)) (S.disk store.old) (S.disk store.new) }

        ensures damaged { (p : ℕ) → IsErrOf result (GateError.Damaged p) → S.is_honest → IsDamaged p ((S.disk store.old).seen f) }
        ensures refused { OnErr result (result ≢ Err GateError.Failed → S.is_honest → SameFiles (S.disk store.old) (S.disk store.new)) }
        ensures full { IsErrOf result GateError.Full → ⊥ }
        ensures failed { IsErrOf result GateError.Failed → HasRisen (S.faults store.old) (S.faults store.new) }
        ensures faults { S.faults store.old ≤ S.faults store.new }
        ensures counted { OnOk result (S.calls store.new ≡ S.calls store.old + 4) }
        ensures at_most { S.calls store.new ≤ S.calls store.old + 4 }
        ensures not_cut { OnErr result (result ≢ Err GateError.Failed → S.calls store.new ≤ S.calls store.old + 2) }
        ensures surely { (m n : ℕ) → n + 4 ≤ m → S.spares store.old m → (result ≢ Err GateError.Failed) × S.spares store.new n }
        ensures room { (k : ℕ) → S.reserved store.old k ≤ S.reserved store.new k }
    {
        let reading = Reading::of(alloc, store, f)?;
        if let Some(place) = reading.damage {
            return Err(GateError::Damaged(place));
        }
        let log = GateLog::cut(alloc, store, &reading)?;
        let Reading {
            file: _,
            entries,
            damage: _,
        } = reading;
        Ok((log, entries))
    }

    /// Cuts a file that reads as these entries behind its first closed gate, on the disk: two calls of the store. It
    /// takes no memory. A crash at any moment leaves a file that reads as the same entries.
    pub fn cut<S: Store>(alloc: Global, store: &mut S, reading: &Reading) -> Result<GateLog, Failed>
        requires whole { reading.now.damage ≡ None }
        requires reads { S.is_honest → Reads reading.now.entries ((S.disk store.old).seen reading.now.file) }
        requires settled { S.is_honest → IsSettled reading.now.file (S.disk store.old) }

        ensures same_entries { OnOk result (S.is_honest → Reads reading.now.entries ((S.disk store.new).seen reading.now.file)) }
        ensures at_rest { IfOk result (λ log. S.is_honest → IsAtRest log.gate ((S.disk store.new).seen reading.now.file)) }
        ensures settled { OnOk result (S.is_honest → IsSettled reading.now.file (S.disk store.new)) }
        ensures others { OnOk result (S.is_honest → (k : ℕ) → k ≢ reading.now.file → (S.disk store.new).seen k ≡ (S.disk store.old).seen k) }
        ensures file { IfOk result (λ log. log.file ≡ reading.now.file) }
        ensures any_moment { S.is_honest → LeavesOnly reading.now.file (Reads reading.now.entries) (S.disk store.old) (S.disk store.new) }
        ensures cause { HasCause (S.faults store.old) (S.faults store.new) result }
        ensures counted { OnOk result (S.calls store.new ≡ S.calls store.old + 2) }
        ensures at_most { S.calls store.new ≤ S.calls store.old + 2 }
        ensures surely { (m n : ℕ) → n + 2 ≤ m → S.spares store.old m → IsOk result × S.spares store.new n }
        ensures room { (k : ℕ) → S.reserved store.old k ≤ S.reserved store.new k }
    {
        let gate = reading.entries.place(reading.entries.len()) as u64;
        cut_durably(store, reading.file, gate + 1)?;
        Ok(GateLog {
            file: reading.file,
            gate,
            buffer: Vec::new(alloc),
        })
    }

    /// The length of the log's file.
    pub fn len(&self) -> u64
        ensures { result ≡ self.now.gate + 1 }
    {
        self.gate + 1
    }

    /// Whether it has no entry.
    pub fn is_empty(&self) -> bool
        ensures { result ≡ (self.now.gate == 0) }
    {
        self.gate == 0
    }

    /// Takes all the memory that an append of `len` bytes needs.
    pub fn reserve<S: Store>(&mut self, store: &mut S, len: u32) -> Result<(), GateError>
        ensures ok { OnOk result (CanAppend len self.new (S.reserved store.new)) }
        ensures full { IsErrOf result GateError.Full ↔ (2 ^ 26 < self.old.gate + len + 6) }
        ensures failed { IsErrOf result GateError.Failed → ⊥ }
        ensures damaged { (p : ℕ) → IsErrOf result (GateError.Damaged p) → ⊥ }
        ensures file { self.new.file ≡ self.old.file }
        ensures gate { self.new.gate ≡ self.old.gate }
        ensures same { S.is_honest → SameFiles (S.disk store.old) (S.disk store.new) }
        ensures settled { S.is_honest → (k : ℕ) → IsSettled k (S.disk store.old) → IsSettled k (S.disk store.new) }
        ensures any_moment { S.is_honest → Passes self.old.file Stays (S.disk store.old) (S.disk store.new) }
        ensures cause { S.faults store.new ≡ S.faults store.old }
        ensures uncounted { S.calls store.new ≡ S.calls store.old }
        ensures surely { (n : ℕ) → S.spares store.old n → S.spares store.new n }
        ensures room { (k : ℕ) → S.reserved store.old k ≤ S.reserved store.new k }
    {
        let end = self.gate + u64::from(len) + 6;
        if end > MAX_LEN {
            return Err(GateError::Full);
        }
        self.buffer.clear();
        self.buffer.reserve(len as usize + 5)?;
        store.reserve(self.file, end)?;
        Ok(())
    }

    /// Appends an entry: four calls of the store. At `Ok` it is acknowledged: from then on each crash leaves a file that
    /// has it. It takes no memory. After `Failed`, load the log again.
    pub fn append<S: Store>(&mut self, store: &mut S, bytes: &[u8]) -> Result<(), Failed>
        requires at_rest { S.is_honest → IsAtRest self.old.gate ((S.disk store.old).seen self.old.file) }
        requires settled { S.is_honest → IsSettled self.old.file (S.disk store.old) }
        requires reserved { CanAppend (length bytes.now) self.old (S.reserved store.old) }

        ensures acknowledged { OnOk result (S.is_honest → Adds bytes.now ((S.disk store.old).seen self.old.file) ((S.disk store.new).seen self.old.file)) }
        ensures at_rest { OnOk result (S.is_honest → IsAtRest self.new.gate ((S.disk store.new).seen self.old.file)) }
        ensures settled { OnOk result (S.is_honest → IsSettled self.old.file (S.disk store.new)) }
        ensures others { OnOk result (S.is_honest → (k : ℕ) → k ≢ self.old.file → (S.disk store.new).seen k ≡ (S.disk store.old).seen k) }
        ensures file { self.new.file ≡ self.old.file }
        ensures gate { OnOk result (self.new.gate ≡ self.old.gate + length bytes.now + 5) }
        ensures gate_err { OnErr result (self.new.gate ≡ self.old.gate) }

        // A crash at any moment leaves the entries from before the call, with the new one or without.
        ensures any_moment { S.is_honest → LeavesOnly self.old.file (IsBeforeOrAfter bytes.now ((S.disk store.old).seen self.old.file)) (S.disk store.old) (S.disk store.new) }

        ensures cause { HasCause (S.faults store.old) (S.faults store.new) result }
        ensures counted { OnOk result (S.calls store.new ≡ S.calls store.old + 4) }
        ensures at_most { S.calls store.new ≤ S.calls store.old + 4 }
        ensures surely { (m n : ℕ) → n + 4 ≤ m → S.spares store.old m → IsOk result × S.spares store.new n }
        ensures room { self.old.room ≤ self.new.room }
        ensures store_room { (k : ℕ) → S.reserved store.old k ≤ S.reserved store.new k }
    {
        fill(&mut self.buffer, bytes);
        write_durably(store, self.file, self.gate + 1, &self.buffer)?;
        write_durably(store, self.file, self.gate, &[OPEN])?;
        self.gate += bytes.len() as u64 + 5;
        Ok(())
    }

    /// Empties the log, to be filled again: it closes the first gate, syncs, cuts the file behind that gate and syncs. A
    /// log with no entry is left as it is. It takes no memory. After `Failed`, load the log again.
    pub fn clear<S: Store>(&mut self, store: &mut S) -> Result<(), Failed>
        requires at_rest { S.is_honest → IsAtRest self.old.gate ((S.disk store.old).seen self.old.file) }
        requires settled { S.is_honest → IsSettled self.old.file (S.disk store.old) }
        requires reserved { 1 ≤ S.reserved store.old self.old.file }

        ensures empty { OnOk result (S.is_honest → Reads [] ((S.disk store.new).seen self.old.file)) }
        ensures at_rest { OnOk result (S.is_honest → IsAtRest self.new.gate ((S.disk store.new).seen self.old.file)) }
        ensures settled { OnOk result (S.is_honest → IsSettled self.old.file (S.disk store.new)) }
        ensures others { OnOk result (S.is_honest → (k : ℕ) → k ≢ self.old.file → (S.disk store.new).seen k ≡ (S.disk store.old).seen k) }
        ensures file { self.new.file ≡ self.old.file }
        ensures gate { OnOk result (self.new.gate ≡ 0) }
        ensures gate_err { OnErr result (self.new.gate ≡ self.old.gate) }

        // A crash at any moment leaves the entries from before the call, or none.
        ensures any_moment { S.is_honest → LeavesOnly self.old.file (IsBeforeOrEmpty ((S.disk store.old).seen self.old.file)) (S.disk store.old) (S.disk store.new) }

        ensures cause { HasCause (S.faults store.old) (S.faults store.new) result }
        ensures at_most { S.calls store.new ≤ S.calls store.old + 4 }
        ensures surely { (m n : ℕ) → n + 4 ≤ m → S.spares store.old m → IsOk result × S.spares store.new n }
        ensures room { self.new.room ≡ self.old.room }
        ensures store_room { (k : ℕ) → S.reserved store.old k ≤ S.reserved store.new k }
    {
        if !self.is_empty() {
            empty_file(store, self.file)?;
            self.gate = 0;
        }
        Ok(())
    }
}

/// Closes the first gate of a file that has entries, and cuts the file behind it.
fn empty_file<S: Store>(store: &mut S, f: FileNo) -> Result<(), Failed>
    requires begins { S.is_honest → IsOpen ((S.disk store.old).seen f) }
    requires settled { S.is_honest → IsSettled f (S.disk store.old) }
    requires reserved { 1 ≤ S.reserved store.old f }
    ensures emptied { OnOk result (S.is_honest → (S.disk store.new).seen f ≡ 0 ∷ []) }
    ensures settled { OnOk result (S.is_honest → IsSettled f (S.disk store.new)) }
    ensures others { OnOk result (S.is_honest → (k : ℕ) → k ≢ f → (S.disk store.new).seen k ≡ (S.disk store.old).seen k) }
    ensures any_moment { S.is_honest → LeavesOnly f (IsBeforeOrEmpty ((S.disk store.old).seen f)) (S.disk store.old) (S.disk store.new) }
    ensures cause { HasCause (S.faults store.old) (S.faults store.new) result }
    ensures at_most { S.calls store.new ≤ S.calls store.old + 4 }
    ensures surely { (m n : ℕ) → n + 4 ≤ m → S.spares store.old m → IsOk result × S.spares store.new n }
    ensures store_room { (k : ℕ) → S.reserved store.old k ≤ S.reserved store.new k }
{
    write_durably(store, f, 0, &[CLOSED])?;
    cut_durably(store, f, 1)
}

/// Puts into the buffer what stands behind the gate of an entry: its length, its bytes and the next gate.
fn fill(buffer: &mut Vec<u8>, bytes: &[u8])
    requires short { length bytes.now < 2 ^ 32 }
    requires room { length bytes.now + 5 ≤ vec_capacity buffer.old }
    ensures items { buffer.new.items ≡ to_be_bytes w32 (length bytes.now) ++ bytes.now ++ 0 ∷ [] }
    ensures room { vec_capacity buffer.old ≤ vec_capacity buffer.new }
{
    buffer.clear();
    buffer
        .extend_from_slice(&(bytes.len() as u32).to_be_bytes())
        .unwrap();
    buffer.extend_from_slice(bytes).unwrap();
    buffer.push(CLOSED).unwrap();
}
