//! What stands in the file of a log.

ghost use Rattle.std.specs.Prelude.{◌≡◌, ◌≢◌, ℕ, ◌+◌, ◌≤◌, Err, IfOk, OnOk, IsErrOf};
ghost use Rattle.cs_base.specs.Faults.{HasRisen};
ghost use Rattle.cs_store.specs.Disk.{Stays, IsSettled, SameFiles, LeavesOnly};
ghost use Rattle.gate_log.specs.Format.{IsFound};

use crate::format::find_ends;
use crate::{Entries, GateError};
use cs_store::{FileNo, Store};
use std::alloc::Global;

/// What stands in the file of a log: its entries up to the first closed gate, or up to the field that breaks the format.
#[derive(Debug, Drop)]
pub struct Reading {
    pub file: FileNo,
    pub entries: Entries,
    /// The place of that field, if there is one.
    pub damage: Option<u64>,
}

impl Reading {
    /// Reads a file: two calls of the store. It changes nothing.
    pub fn of<S: Store>(alloc: Global, store: &mut S, f: FileNo) -> Result<Reading, GateError>
        // After a restart, what is read is what is on the disk.
        requires { S.is_honest → IsSettled f (S.disk store.old) }
        ensures found { IfOk result (λ r. S.is_honest → IsFound r.entries r.damage ((S.disk store.old).seen f)) }
        ensures file { IfOk result (λ r. r.file ≡ f) }
        ensures same { result ≢ Err GateError.Failed → S.is_honest → SameFiles (S.disk store.old) (S.disk store.new) }
        ensures settled { OnOk result (S.is_honest → IsSettled f (S.disk store.new)) }
        ensures any_moment { S.is_honest → LeavesOnly f (Stays ((S.disk store.old).seen f)) (S.disk store.old) (S.disk store.new) }
        ensures damaged { (p : ℕ) → IsErrOf result (GateError.Damaged p) → ⊥ }
        ensures full { IsErrOf result GateError.Full → ⊥ }
        ensures failed { IsErrOf result GateError.Failed → HasRisen (S.faults store.old) (S.faults store.new) }
        ensures faults { S.faults store.old ≤ S.faults store.new }
        ensures counted { OnOk result (S.calls store.new ≡ S.calls store.old + 2) }
        ensures at_most { S.calls store.new ≤ S.calls store.old + 2 }
        ensures surely { (m n : ℕ) → n + 2 ≤ m → S.spares store.old m → (result ≢ Err GateError.Failed) × S.spares store.new n }
        ensures room { (k : ℕ) → S.reserved store.old k ≤ S.reserved store.new k }
    {
        let bytes = read_file(alloc, store, f)?;
        let found = find_ends(alloc, &bytes)?;
        Ok(Reading {
            file: f,
            entries: Entries::new(bytes, found.ends),
            damage: found.damage,
        })
    }
}

/// All the bytes of a file.
fn read_file<S: Store>(alloc: Global, store: &mut S, f: FileNo) -> Result<Vec<u8>, GateError>
    requires { S.is_honest → IsSettled f (S.disk store.old) }
    ensures bytes { IfOk result (λ v. S.is_honest → v.items ≡ (S.disk store.old).seen f) }
    ensures same { result ≢ Err GateError.Failed → S.is_honest → SameFiles (S.disk store.old) (S.disk store.new) }
    ensures settled { OnOk result (S.is_honest → IsSettled f (S.disk store.new)) }
    ensures any_moment { S.is_honest → LeavesOnly f (Stays ((S.disk store.old).seen f)) (S.disk store.old) (S.disk store.new) }
    ensures damaged { (p : ℕ) → IsErrOf result (GateError.Damaged p) → ⊥ }
    ensures full { IsErrOf result GateError.Full → ⊥ }
    ensures failed { IsErrOf result GateError.Failed → HasRisen (S.faults store.old) (S.faults store.new) }
    ensures faults { S.faults store.old ≤ S.faults store.new }
    ensures counted { OnOk result (S.calls store.new ≡ S.calls store.old + 2) }
    ensures at_most { S.calls store.new ≤ S.calls store.old + 2 }
    ensures surely { (m n : ℕ) → n + 2 ≤ m → S.spares store.old m → (result ≢ Err GateError.Failed) × S.spares store.new n }
    ensures room { (k : ℕ) → S.reserved store.old k ≤ S.reserved store.new k }
{
    let len = store.len(f)?;
    let mut bytes = vec![in alloc; 0; len as usize]?;
    store.read(f, 0, &mut bytes)?;
    Ok(bytes)
}
