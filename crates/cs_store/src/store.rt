//! The disk of one node.

ghost use Rattle.std.specs.Prelude.{◌≡◌, ℕ, ◌+◌, ◌^◌, ◌<◌, ◌≤◌, Bool, List, length, take, drop, is_ok, IsOk, IsErr, IfOk, OnOk};
ghost use Rattle.cs_store.specs.Faults.{HasCause};
ghost use Rattle.cs_store.specs.Calls.{Call, Call as call};
ghost use Rattle.cs_store.specs.Disk.{Disk, MayStay, overwritten, may_leave, Torn, Cut, Stays, Only, SameFiles, Changes, Passes};

use crate::FileNo;
use cs_base::Failed;
use std::alloc::AllocError;

/// The disk of one node, as files by number. A file that nobody wrote is empty.
///
/// Each call but `reserve` is counted. After `Failed` the store may hold what a crash may leave.
pub trait Store {
    /// The store keeps to the disk model. An adapter, of whose files nothing is known, doesn't say so.
    ghost is_honest: { Type 0 };

    /// Its files, and what a crash may leave of them.
    ghost disk: { Self → Disk };

    /// How often a call has failed.
    ghost faults: { Self → ℕ };

    /// How many counted calls there were.
    ghost calls: { Self → ℕ };

    /// The next n counted calls don't fail.
    ghost spares: { Self → ℕ → Type 0 };

    /// Up to which length writes to a file take no memory.
    ghost reserved: { Self → ℕ → ℕ };

    /// What else is known of a counted call on a file: by the call, the store before and after it, and whether the
    /// answer is `Ok`.
    ghost acts: { ℕ → Call → Self → Self → Bool → Type 0 } = { λ _ _ _ _ _. Unit {0} };

    /// The length of a file.
    fn len(&mut self, f: FileNo) -> Result<u64, Failed>
        ensures length { IfOk result (λ n. is_honest → n ≡ length ((disk self.old).seen f)) }
        ensures same { OnOk result (is_honest → SameFiles (disk self.old) (disk self.new)) }
        ensures crash { is_honest → Passes f Stays (disk self.old) (disk self.new) }
        ensures room { (k : ℕ) → reserved self.old k ≤ reserved self.new k }
        ensures cause { HasCause (faults self.old) (faults self.new) result }
        ensures counted { calls self.new ≡ calls self.old + 1 }
        ensures surely { (m n : ℕ) → n < m → spares self.old m → IsOk result × spares self.new n }
        ensures acts { acts f call.looks self.old self.new (is_ok result) };

    /// Fills the buffer with the bytes of a file from `at` on.
    fn read(&mut self, f: FileNo, at: u64, buf: &mut [u8]) -> Result<(), Failed>
        requires { is_honest → at + length buf.old ≤ length ((disk self.old).seen f) }
        ensures bytes { OnOk result (is_honest → buf.new ≡ take (length buf.old) (drop at ((disk self.old).seen f))) }
        ensures same { OnOk result (is_honest → SameFiles (disk self.old) (disk self.new)) }
        ensures crash { is_honest → Passes f Stays (disk self.old) (disk self.new) }
        ensures room { (k : ℕ) → reserved self.old k ≤ reserved self.new k }
        ensures cause { HasCause (faults self.old) (faults self.new) result }
        ensures counted { calls self.new ≡ calls self.old + 1 }
        ensures surely { (m n : ℕ) → n < m → spares self.old m → IsOk result × spares self.new n }
        ensures acts { acts f call.looks self.old self.new (is_ok result) };

    /// Makes writes that end at or below `upto` take no memory.
    fn reserve(&mut self, f: FileNo, upto: u64) -> Result<(), AllocError>
        ensures ok { OnOk result (upto ≤ reserved self.new f) }
        ensures limit { 2 ^ 63 < upto → IsErr result }
        ensures same { is_honest → SameFiles (disk self.old) (disk self.new) }
        ensures crash { is_honest → Passes f Stays (disk self.old) (disk self.new) }
        ensures room { (k : ℕ) → reserved self.old k ≤ reserved self.new k }
        ensures cause { faults self.new ≡ faults self.old }
        ensures uncounted { calls self.new ≡ calls self.old }
        ensures surely { (n : ℕ) → spares self.old n → spares self.new n };

    /// Writes over what is there, and past the end. Until a sync, a crash may leave any bytes in the range.
    fn write_at(&mut self, f: FileNo, at: u64, bytes: &[u8]) -> Result<(), Failed>
        requires place { is_honest → at ≤ length ((disk self.old).seen f) }
        requires reserved { at + length bytes.now ≤ reserved self.old f }
        ensures written { OnOk result (is_honest → Changes f (overwritten ((disk self.old).seen f) at bytes.now) (disk self.old) (disk self.new)) }
        ensures crash { is_honest → Passes f (Torn at (length bytes.now)) (disk self.old) (disk self.new) }
        ensures room { (k : ℕ) → reserved self.old k ≤ reserved self.new k }
        ensures cause { HasCause (faults self.old) (faults self.new) result }
        ensures counted { calls self.new ≡ calls self.old + 1 }
        ensures surely { (m n : ℕ) → n < m → spares self.old m → IsOk result × spares self.new n }
        ensures acts { acts f (call.writes at bytes.now) self.old self.new (is_ok result) };

    /// Cuts a file to a length.
    fn cut(&mut self, f: FileNo, len: u64) -> Result<(), Failed>
        requires { is_honest → len ≤ length ((disk self.old).seen f) }
        ensures cut { OnOk result (is_honest → Changes f (take len ((disk self.old).seen f)) (disk self.old) (disk self.new)) }
        ensures crash { is_honest → Passes f (Cut len) (disk self.old) (disk self.new) }
        ensures room { (k : ℕ) → reserved self.old k ≤ reserved self.new k }
        ensures cause { HasCause (faults self.old) (faults self.new) result }
        ensures counted { calls self.new ≡ calls self.old + 1 }
        ensures surely { (m n : ℕ) → n < m → spares self.old m → IsOk result × spares self.new n }
        ensures acts { acts f (call.cuts len) self.old self.new (is_ok result) };

    /// After it, a crash leaves of the file what a read gives.
    fn sync(&mut self, f: FileNo) -> Result<(), Failed>
        ensures durable { OnOk result (is_honest → Only ((disk self.old).seen f) (may_leave (disk self.new) f)) }
        ensures same { OnOk result (is_honest → SameFiles (disk self.old) (disk self.new)) }
        ensures crash { is_honest → Passes f Stays (disk self.old) (disk self.new) }
        ensures room { (k : ℕ) → reserved self.old k ≤ reserved self.new k }
        ensures cause { HasCause (faults self.old) (faults self.new) result }
        ensures counted { calls self.new ≡ calls self.old + 1 }
        ensures surely { (m n : ℕ) → n < m → spares self.old m → IsOk result × spares self.new n }
        ensures acts { acts f call.syncs self.old self.new (is_ok result) };

    /// What a read gives is among what a crash may leave, at every moment and so behind each call, failed ones too.
    ghost may_stay: { (store : Self) → is_honest → MayStay (disk store) };

    /// Where the next m counted calls don't fail, nor do fewer.
    ghost spares_fewer: { (store : Self) (m n : ℕ) → n ≤ m → spares store m → spares store n };
}
