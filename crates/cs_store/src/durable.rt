//! Changes of a file that are on the disk before they are acknowledged.

ghost use Rattle.std.specs.Prelude.{◌≡◌, ℕ, ◌+◌, ◌≤◌, length, take, IsOk, OnOk};
ghost use Rattle.cs_store.specs.Faults.{HasCause};
ghost use Rattle.cs_store.specs.Disk.{overwritten, Torn, Cut, IsSettled, Changes, LeavesOnly};

use crate::{FileNo, Store};
use cs_base::Failed;

/// Writes to a file and syncs it: two counted calls. After `Ok` the bytes are on the disk.
pub fn write_durably<S: Store>(
    store: &mut S,
    f: FileNo,
    at: u64,
    bytes: &[u8],
) -> Result<(), Failed>
    requires settled { S.is_honest → IsSettled f (S.disk store.old) }
    requires place { S.is_honest → at ≤ length ((S.disk store.old).seen f) }
    requires reserved { at + length bytes.now ≤ S.reserved store.old f }
    ensures written { OnOk result (S.is_honest → Changes f (overwritten ((S.disk store.old).seen f) at bytes.now) (S.disk store.old) (S.disk store.new)) }
    ensures durable { OnOk result (S.is_honest → IsSettled f (S.disk store.new)) }
    ensures any_moment { S.is_honest → LeavesOnly f (Torn at (length bytes.now) ((S.disk store.old).seen f)) (S.disk store.old) (S.disk store.new) }
    ensures room { (k : ℕ) → S.reserved store.old k ≤ S.reserved store.new k }
    ensures cause { HasCause (S.faults store.old) (S.faults store.new) result }
    ensures counted { OnOk result (S.calls store.new ≡ S.calls store.old + 2) }
    ensures at_most { S.calls store.new ≤ S.calls store.old + 2 }
    ensures surely { (m n : ℕ) → n + 2 ≤ m → S.spares store.old m → IsOk result × S.spares store.new n }
{
    store.write_at(f, at, bytes)?;
    store.sync(f)
}

/// Cuts a file and syncs it: two counted calls. After `Ok` it has that length on the disk.
pub fn cut_durably<S: Store>(store: &mut S, f: FileNo, len: u64) -> Result<(), Failed>
    requires settled { S.is_honest → IsSettled f (S.disk store.old) }
    requires place { S.is_honest → len ≤ length ((S.disk store.old).seen f) }
    ensures cut { OnOk result (S.is_honest → Changes f (take len ((S.disk store.old).seen f)) (S.disk store.old) (S.disk store.new)) }
    ensures durable { OnOk result (S.is_honest → IsSettled f (S.disk store.new)) }
    ensures any_moment { S.is_honest → LeavesOnly f (Cut len ((S.disk store.old).seen f)) (S.disk store.old) (S.disk store.new) }
    ensures room { (k : ℕ) → S.reserved store.old k ≤ S.reserved store.new k }
    ensures cause { HasCause (S.faults store.old) (S.faults store.new) result }
    ensures counted { OnOk result (S.calls store.new ≡ S.calls store.old + 2) }
    ensures at_most { S.calls store.new ≤ S.calls store.old + 2 }
    ensures surely { (m n : ℕ) → n + 2 ≤ m → S.spares store.old m → IsOk result × S.spares store.new n }
{
    store.cut(f, len)?;
    store.sync(f)
}
