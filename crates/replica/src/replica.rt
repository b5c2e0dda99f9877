//! What a node keeps, however its disk keeps it.

ghost use Rattle.std.specs.Prelude.{◌≡◌, ◌↔◌, ◌≤◌, ◌+◌, ℕ, ◌⊎◌, Bool, List, Option, Some, None, Contains, IsTrue, is_some, IsOk, IfOk, OnOk, IfErr, IsErrOf, IfSome};
ghost use Rattle.std.specs.List.Sorted.{IsStrictlySortedBy};
ghost use Rattle.cs_base.specs.Faults.{HasRisen};
ghost use Rattle.cs_base.specs.Ring.{in_range};
ghost use Rattle.changes.specs.declared.Held.{Held as held};
ghost use Rattle.changes.specs.declared.Partition.{Partition as partition_value};
ghost use Rattle.changes.specs.Order.{partition_cmp};
ghost use Rattle.changes.specs.Queries.{MeetsBounds};
ghost use Rattle.cs_store.specs.Disk.{IsSettled, SameFiles};
ghost use Rattle.cs_store.specs.Faults.{HasCause};
ghost use Rattle.cs_store.specs.Images.{formatted_bytes};
ghost use Rattle.stored_changes.specs.Spelling.{MutationFits};
ghost use Rattle.row_change.specs.declared.entry.Hint.{Hint as hint};
ghost use Rattle.row_change.specs.declared.entry.LogEntry.{LogEntry as entry_value};
ghost use Rattle.row_change.specs.Spelling.{EntryFits};
ghost use Rattle.durable_state.specs.State.{Durable, IsSameKept, Holds, changes_of, formatted};
ghost use Rattle.durable_state.specs.Taking.{HasOneArrival};
ghost use Rattle.durable_state.specs.Keeping.{IsWithOrWithout};
ghost use Rattle.replica.specs.declared.merge.MergeJob.{MergeJob as merge_job};
ghost use Rattle.replica.specs.Calls.{Committed, Looked};
ghost use Rattle.replica.specs.Finding.{AlwaysLeaves, IsSafe};
ghost use Rattle.replica.specs.Kept.{IsKeptOf, IsInOrder, IsKeptAfter, ArriveAllAt, ArriveAtOnce, PurgeNothing};
ghost use Rattle.replica.specs.Lengths.{PassesLog, IsFirstTooLarge, AllStaySmall, added_length, is_flush_due, with_added};
ghost use Rattle.replica.specs.Merges.{told_purges, with_purges};
ghost use Rattle.replica.specs.declared.error.RoomError.TheVariants as room_error;
ghost use Rattle.replica.specs.declared.error.CallError.TheVariants as call_error;
ghost use Rattle.replica.specs.declared.error.FinishError.TheVariants as finish_error;
ghost use Rattle.replica.specs.declared.error.LoadError.TheVariants as load_error;

use crate::{
    CallError, FinishError, Graces, Kept, LoadError, MergeDone, MergeJob, Partitions, Purges,
    RoomError,
};
use cell_merge::Content;
use changes::{Bound, Partition};
use cs_base::{Failed, Micros, Range};
use cs_store::Store;
use row_change::LogEntry;
use std::alloc::Global;

/// What one node keeps.
///
/// Each step of the node commits one entry: `room`, and then `commit`, `flush` or `finish_merge` with nothing called in between.
/// After a call that answered `Failed` no other one may be made, but for `release`: then the disk is to be loaded again.
pub trait Replica: Drop {
    type Disk: Store + Drop;

    /// What files stand for: by what each has, and what is kept.
    ghost stands_for: { (ℕ → List ℕ) → Durable → Type 0 };

    /// What breaks the format: by what each file has, the file, and the place in it.
    ghost is_damaged: { (ℕ → List ℕ) → ℕ → ℕ → Type 0 };

    /// Its disk.
    ghost disk: { Self → Self.Disk };

    /// What it keeps.
    ghost durable: { Self → Durable };

    /// No call has failed.
    ghost is_whole: { Self → Type 0 };

    /// Room was granted for this entry, and no other call was made since.
    ghost is_granted: { Self → entry_value → Type 0 };

    /// The length of its log's file.
    ghost log_end: { Self → ℕ };

    /// How many bytes were added to the log since the last flush, if one was made since the load.
    ghost since_flush: { Self → Option ℕ };

    /// How many tables it has.
    ghost table_count: { Self → ℕ };

    /// Whether there are tables to be merged.
    ghost is_merge_due: { Self → Bool };

    /// The merge was begun last since the load, and is not finished.
    ghost is_merging: { Self → merge_job → Type 0 };

    /// Reads what is kept on a disk.
    fn load(alloc: Global, store: Self::Disk) -> Result<(Self, Kept), LoadError<Self::Disk>>
        // After a restart, what is read is what is on the disk.
        requires settled { Self.Disk.is_honest → (k : ℕ) → IsSettled k (Self.Disk.disk store) }

        ensures durable { IfOk result (λ r. Self.Disk.is_honest → stands_for (Self.Disk.disk store).seen (durable r.0)) }
        ensures kept { IfOk result (λ r. Self.Disk.is_honest → IsKeptOf (durable r.0) r.1) }
        ensures in_order { IfOk result (λ r. IsInOrder r.1) }
        ensures hints_fit { IfOk result (λ r. (h : hint) → Contains r.1.hints h → MutationFits h.mutation) }
        ensures whole { IfOk result (λ r. is_whole r.0) }
        ensures no_flush { IfOk result (λ r. since_flush r.0 ≡ None) }
        ensures no_merge { IfOk result (λ r. (job : merge_job) → is_merging r.0 job → ⊥) }

        // A crash at any moment leaves what was there.
        ensures any_moment { IfOk result (λ r. Self.Disk.is_honest → (d : Durable) → stands_for (Self.Disk.disk store).seen d → AlwaysLeaves stands_for (IsSameKept d) (Self.Disk.disk store) (Self.Disk.disk (disk r.0))) }
        ensures any_moment_failed { (s : Self.Disk) → IsErrOf result (load_error.Failed s) → Self.Disk.is_honest → (d : Durable) → stands_for (Self.Disk.disk store).seen d → AlwaysLeaves stands_for (IsSameKept d) (Self.Disk.disk store) (Self.Disk.disk s) }
        ensures any_moment_no_memory { (s : Self.Disk) → IsErrOf result (load_error.NoMemory s) → Self.Disk.is_honest → (d : Durable) → stands_for (Self.Disk.disk store).seen d → AlwaysLeaves stands_for (IsSameKept d) (Self.Disk.disk store) (Self.Disk.disk s) }

        ensures failed { (s : Self.Disk) → IsErrOf result (load_error.Failed s) → HasRisen (Self.Disk.faults store) (Self.Disk.faults s) }
        ensures damaged { (s : Self.Disk) (f p : ℕ) → IsErrOf result (load_error.Damaged s f p) → Self.Disk.is_honest → is_damaged (Self.Disk.disk store).seen f p × SameFiles (Self.Disk.disk store) (Self.Disk.disk s) }
        ensures faults { IfOk result (λ r. Self.Disk.faults store ≤ Self.Disk.faults (disk r.0)) }
        ensures surely { ((n : ℕ) → Self.Disk.spares store n) → ((s : Self.Disk) → IsErrOf result (load_error.Failed s) → ⊥) × IfOk result (λ r. (n : ℕ) → Self.Disk.spares (disk r.0) n) };

    /// Takes all the memory that a commit of the entry needs, and sees that there is room for it. `TooLarge` names the first
    /// partition of the entry that grows too large, and comes before `NoRoom`.
    fn room(&mut self, alloc: Global, entry: &LogEntry) -> Result<(), RoomError>
        requires whole { is_whole self.old }
        requires fits { EntryFits entry.now }
        requires no_purges { PurgeNothing entry.now.items }

        ensures ok { OnOk result (is_granted self.new entry.now) }
        ensures small { OnOk result (Self.Disk.is_honest → AllStaySmall entry.now.items entry.now.items (durable self.old)) }
        ensures short { OnOk result (PassesLog (log_end self.old) entry.now → ⊥) }
        ensures too_large { (p : partition_value) → IsErrOf result (room_error.TooLarge p) → Self.Disk.is_honest → IsFirstTooLarge entry.now.items (durable self.old) p }
        ensures no_room { IsErrOf result room_error.NoRoom → PassesLog (log_end self.old) entry.now × (Self.Disk.is_honest → AllStaySmall entry.now.items entry.now.items (durable self.old)) }
        ensures failed { IsErrOf result room_error.Failed → HasRisen (Self.Disk.faults (disk self.old)) (Self.Disk.faults (disk self.new)) }
        ensures whole { (IsErrOf result room_error.Failed → ⊥) → is_whole self.new }
        ensures log { log_end self.new ≡ log_end self.old }
        ensures flushed { since_flush self.new ≡ since_flush self.old }
        ensures tables { table_count self.new ≡ table_count self.old }
        ensures due { is_merge_due self.new ≡ is_merge_due self.old }
        ensures merging { (job : merge_job) → is_merging self.new job ↔ is_merging self.old job }

        // Nothing of what is kept changes, and a crash at any moment leaves it.
        ensures looked { Self.Disk.is_honest → Looked stands_for (λ r. Self.Disk.disk (disk r)) durable self.old self.new }

        ensures faults { Self.Disk.faults (disk self.old) ≤ Self.Disk.faults (disk self.new) }
        ensures uncounted { table_count self.old ≡ 0 → Self.Disk.calls (disk self.new) ≡ Self.Disk.calls (disk self.old) }
        ensures spared { table_count self.old ≡ 0 → (n : ℕ) → Self.Disk.spares (disk self.old) n → Self.Disk.spares (disk self.new) n }
        ensures surely { ((n : ℕ) → Self.Disk.spares (disk self.old) n) → (IsErrOf result room_error.Failed → ⊥) × ((n : ℕ) → Self.Disk.spares (disk self.new) n) };

    /// Keeps the entry, whose changes all came at this time. At `Ok` each crash from then on leaves it there. It takes no memory.
    fn commit(&mut self, entry: &LogEntry, at: Micros) -> Result<(), Failed>
        requires granted { is_granted self.old entry.now }
        requires whole { is_whole self.old }
        requires arrival { ArriveAllAt at entry.now.items }

        ensures ok { OnOk result (Self.Disk.is_honest → Committed stands_for (λ r. Self.Disk.disk (disk r)) durable entry.now.items self.old self.new) }
        ensures whole { OnOk result (is_whole self.new) }
        ensures log { OnOk result (log_end self.new ≡ log_end self.old + added_length entry.now) }
        ensures flushed { OnOk result (since_flush self.new ≡ with_added (since_flush self.old) (added_length entry.now)) }
        ensures tables { OnOk result (table_count self.new ≡ table_count self.old) }
        ensures due { OnOk result (is_merge_due self.new ≡ is_merge_due self.old) }
        ensures merging { OnOk result ((job : merge_job) → is_merging self.new job ↔ is_merging self.old job) }

        // A crash at any moment leaves what was kept before the call, with the entry or without.
        ensures any_moment { Self.Disk.is_honest → AlwaysLeaves stands_for (IsWithOrWithout entry.now.items (durable self.old)) (Self.Disk.disk (disk self.old)) (Self.Disk.disk (disk self.new)) }

        ensures cause { HasCause (Self.Disk.faults (disk self.old)) (Self.Disk.faults (disk self.new)) result }
        ensures counted { OnOk result (Self.Disk.calls (disk self.new) ≡ Self.Disk.calls (disk self.old) + 4) }
        ensures at_most { Self.Disk.calls (disk self.new) ≤ Self.Disk.calls (disk self.old) + 4 }
        ensures surely { (m n : ℕ) → n + 4 ≤ m → Self.Disk.spares (disk self.old) m → IsOk result × Self.Disk.spares (disk self.new) n };

    /// All that is held of the rows of a partition between two bounds, each change whole.
    fn content(
        &mut self,
        alloc: Global,
        partition: &Partition,
        from: &Bound,
        upto: &Bound,
    ) -> Result<Content, CallError>
        requires whole { is_whole self.old }

        ensures content { IfOk result (λ part. Self.Disk.is_honest → (x : held) → Contains part x ↔ (Holds (changes_of (durable self.old).content) partition.now x × MeetsBounds from.now upto.now x.place)) }
        ensures failed { IsErrOf result call_error.Failed → HasRisen (Self.Disk.faults (disk self.old)) (Self.Disk.faults (disk self.new)) }
        ensures whole { (IsErrOf result call_error.Failed → ⊥) → is_whole self.new }
        ensures log { log_end self.new ≡ log_end self.old }
        ensures flushed { since_flush self.new ≡ since_flush self.old }
        ensures tables { table_count self.new ≡ table_count self.old }
        ensures due { is_merge_due self.new ≡ is_merge_due self.old }
        ensures merging { (job : merge_job) → is_merging self.new job ↔ is_merging self.old job }

        // Nothing of what is kept changes, and a crash at any moment leaves it.
        ensures looked { Self.Disk.is_honest → Looked stands_for (λ r. Self.Disk.disk (disk r)) durable self.old self.new }

        ensures faults { Self.Disk.faults (disk self.old) ≤ Self.Disk.faults (disk self.new) }
        ensures uncounted { table_count self.old ≡ 0 → Self.Disk.calls (disk self.new) ≡ Self.Disk.calls (disk self.old) }
        ensures spared { table_count self.old ≡ 0 → (n : ℕ) → Self.Disk.spares (disk self.old) n → Self.Disk.spares (disk self.new) n }
        ensures surely { ((n : ℕ) → Self.Disk.spares (disk self.old) n) → (IsErrOf result call_error.Failed → ⊥) × ((n : ℕ) → Self.Disk.spares (disk self.new) n) };

    /// The partitions of which something is held, with a token in the range, in the order of token, table and key.
    fn partitions(&mut self, alloc: Global, range: &Range) -> Result<Partitions, CallError>
        requires whole { is_whole self.old }

        ensures held { IfOk result (λ ps. Self.Disk.is_honest → (p : partition_value) → Contains ps p ↔ (((x : held) × Holds (changes_of (durable self.old).content) p x) × IsTrue (in_range range.now p.token))) }
        ensures in_order { IfOk result (λ ps. IsStrictlySortedBy partition_cmp ps) }
        ensures failed { IsErrOf result call_error.Failed → HasRisen (Self.Disk.faults (disk self.old)) (Self.Disk.faults (disk self.new)) }
        ensures whole { (IsErrOf result call_error.Failed → ⊥) → is_whole self.new }
        ensures log { log_end self.new ≡ log_end self.old }
        ensures flushed { since_flush self.new ≡ since_flush self.old }
        ensures tables { table_count self.new ≡ table_count self.old }
        ensures due { is_merge_due self.new ≡ is_merge_due self.old }
        ensures merging { (job : merge_job) → is_merging self.new job ↔ is_merging self.old job }

        // Nothing of what is kept changes, and a crash at any moment leaves it.
        ensures looked { Self.Disk.is_honest → Looked stands_for (λ r. Self.Disk.disk (disk r)) durable self.old self.new }

        ensures faults { Self.Disk.faults (disk self.old) ≤ Self.Disk.faults (disk self.new) }
        ensures uncounted { table_count self.old ≡ 0 → Self.Disk.calls (disk self.new) ≡ Self.Disk.calls (disk self.old) }
        ensures spared { table_count self.old ≡ 0 → (n : ℕ) → Self.Disk.spares (disk self.old) n → Self.Disk.spares (disk self.new) n }
        ensures surely { ((n : ℕ) → Self.Disk.spares (disk self.old) n) → (IsErrOf result call_error.Failed → ⊥) × ((n : ℕ) → Self.Disk.spares (disk self.new) n) };

    /// Writes what is recent as a table, where tables are kept, and keeps the entry, both or neither; `kept` is what is kept beside
    /// the contents then. It tells how many tables there are. Where a list is kept, it keeps the entry and tells 0.
    fn flush(&mut self, alloc: Global, step: &LogEntry, kept: &Kept) -> Result<u32, CallError>
        requires granted { is_granted self.old step.now }
        requires whole { is_whole self.old }
        requires arrival { ArriveAtOnce step.now.items }
        requires kept { Self.Disk.is_honest → IsKeptAfter step.now.items (durable self.old) kept.now }

        ensures ok { OnOk result (Self.Disk.is_honest → Committed stands_for (λ r. Self.Disk.disk (disk r)) durable step.now.items self.old self.new) }
        ensures tables { IfOk result (λ n. n ≡ table_count self.new) }
        ensures flushed { OnOk result (since_flush self.new ≡ Some 0) }
        ensures no_memory { IsErrOf result call_error.NoMemory → Self.Disk.is_honest → Looked stands_for (λ r. Self.Disk.disk (disk r)) durable self.old self.new }
        ensures no_memory_log { IsErrOf result call_error.NoMemory → (log_end self.new ≡ log_end self.old) × (since_flush self.new ≡ since_flush self.old) × (table_count self.new ≡ table_count self.old) × (is_merge_due self.new ≡ is_merge_due self.old) }
        ensures failed { IsErrOf result call_error.Failed → HasRisen (Self.Disk.faults (disk self.old)) (Self.Disk.faults (disk self.new)) }
        ensures whole { (IsErrOf result call_error.Failed → ⊥) → is_whole self.new }
        ensures merging { (IsErrOf result call_error.Failed → ⊥) → (job : merge_job) → is_merging self.new job ↔ is_merging self.old job }

        // A crash at any moment leaves what was kept before the call, with the entry or without.
        ensures any_moment { Self.Disk.is_honest → AlwaysLeaves stands_for (IsWithOrWithout step.now.items (durable self.old)) (Self.Disk.disk (disk self.old)) (Self.Disk.disk (disk self.new)) }

        ensures faults { Self.Disk.faults (disk self.old) ≤ Self.Disk.faults (disk self.new) }
        ensures surely { ((n : ℕ) → Self.Disk.spares (disk self.old) n) → (IsErrOf result call_error.Failed → ⊥) × ((n : ℕ) → Self.Disk.spares (disk self.new) n) };

    /// Begins a merge of tables, if there are tables to be merged. What it may purge is told by the time and the marks of now.
    fn begin_merge(
        &mut self,
        alloc: Global,
        kept: &Kept,
        graces: &Graces,
        expiry: Micros,
        now: Micros,
    ) -> Result<Option<MergeJob>, CallError>
        requires whole { is_whole self.old }
        requires kept { Self.Disk.is_honest → IsKeptOf (durable self.old) kept.now }

        ensures due { IfOk result (λ job. is_some job ≡ is_merge_due self.old) }
        ensures began { IfOk result (λ job. IfSome job (λ j. is_merging self.new j)) }
        ensures failed { IsErrOf result call_error.Failed → HasRisen (Self.Disk.faults (disk self.old)) (Self.Disk.faults (disk self.new)) }
        ensures whole { (IsErrOf result call_error.Failed → ⊥) → is_whole self.new }
        ensures log { log_end self.new ≡ log_end self.old }
        ensures flushed { since_flush self.new ≡ since_flush self.old }
        ensures tables { table_count self.new ≡ table_count self.old }

        // Nothing of what is kept changes, and a crash at any moment leaves it.
        ensures looked { Self.Disk.is_honest → Looked stands_for (λ r. Self.Disk.disk (disk r)) durable self.old self.new }

        ensures faults { Self.Disk.faults (disk self.old) ≤ Self.Disk.faults (disk self.new) }
        ensures surely { ((n : ℕ) → Self.Disk.spares (disk self.old) n) → (IsErrOf result call_error.Failed → ⊥) × ((n : ℕ) → Self.Disk.spares (disk self.new) n) };

    /// Puts a merge in the place of its tables and keeps the entry, both or neither; at `Stale` it keeps the entry alone, as also
    /// where the merge is not the one that was begun last. `kept` is what is kept beside the contents then. It tells what the merge
    /// purged, and nothing else is held no more. Where a list is kept, it keeps the entry and purges nothing.
    fn finish_merge(
        &mut self,
        alloc: Global,
        step: &LogEntry,
        kept: &Kept,
        merge: MergeDone,
    ) -> Result<Purges, FinishError>
        requires granted { is_granted self.old step.now }
        requires whole { is_whole self.old }
        requires arrival { ArriveAtOnce step.now.items }
        requires kept { Self.Disk.is_honest → IsKeptAfter step.now.items (durable self.old) kept.now }

        ensures ok { IfOk result (λ purges. Self.Disk.is_honest → Committed stands_for (λ r. Self.Disk.disk (disk r)) durable (with_purges step.now.items purges) self.old self.new) }
        ensures stale { (f : ℕ) → IsErrOf result (finish_error.Stale f) → Self.Disk.is_honest → Committed stands_for (λ r. Self.Disk.disk (disk r)) durable step.now.items self.old self.new }
        ensures no_memory { IsErrOf result finish_error.NoMemory → Self.Disk.is_honest → Looked stands_for (λ r. Self.Disk.disk (disk r)) durable self.old self.new }
        ensures whole { ((purges : _) → IsErrOf result (finish_error.Failed purges) → ⊥) → is_whole self.new }
        ensures over { ((purges : _) → IsErrOf result (finish_error.Failed purges) → ⊥) → (job : merge_job) → is_merging self.new job → ⊥ }

        // A crash at any moment leaves what was kept before the call, with the entry and the purges or without.
        ensures any_moment { Self.Disk.is_honest → AlwaysLeaves stands_for (IsWithOrWithout (with_purges step.now.items (told_purges result)) (durable self.old)) (Self.Disk.disk (disk self.old)) (Self.Disk.disk (disk self.new)) }

        ensures failed { (purges : _) → IsErrOf result (finish_error.Failed purges) → HasRisen (Self.Disk.faults (disk self.old)) (Self.Disk.faults (disk self.new)) }
        ensures faults { Self.Disk.faults (disk self.old) ≤ Self.Disk.faults (disk self.new) }
        ensures surely { ((n : ℕ) → Self.Disk.spares (disk self.old) n) → ((purges : _) → IsErrOf result (finish_error.Failed purges) → ⊥) × ((n : ℕ) → Self.Disk.spares (disk self.new) n) };

    /// Whether a flush is due: the log has more than 32 MiB, and no flush was made since the load, or 1 MiB was added since the last.
    fn flush_due(&self) -> bool
        ensures { result ≡ is_flush_due (log_end self.now) (since_flush self.now) };

    /// Whether there are tables to be merged.
    fn merge_due(&self) -> bool
        ensures { result ≡ is_merge_due self.now };

    /// How many tables there are: 0 where a list is kept.
    fn tables(&self) -> u32
        ensures { result ≡ table_count self.now };

    /// The disk, to be loaded again.
    fn release(self) -> Self::Disk
        ensures { result ≡ disk self };

    /// A crash leaves what is kept, and nothing else.
    ghost is_safe: { (r : Self) → Self.Disk.is_honest → is_whole r → IsSafe stands_for (durable r) (Self.Disk.disk (disk r)) };

    /// Files stand for one state, but for its order,
    ghost stand_for_one: { (files : ℕ → List ℕ) (a b : Durable) → stands_for files a → stands_for files b → IsSameKept a b };

    /// in which each change has one arrival.
    ghost arrive_once: { (files : ℕ → List ℕ) (d : Durable) → stands_for files d → HasOneArrival d.content };

    /// Files that stand for a state are not damaged, and damaged ones are so first at one place.
    ghost stand_undamaged: { (files : ℕ → List ℕ) (d : Durable) (f p : ℕ) → stands_for files d → is_damaged files f p → ⊥ };

    ghost damaged_at_one: { (files : ℕ → List ℕ) (f p g q : ℕ) → is_damaged files f p → is_damaged files g q → (f ≡ g) × (p ≡ q) };

    /// A formatted store keeps nothing.
    ghost begins_empty: { (files : ℕ → List ℕ) → ((k : ℕ) → files k ≡ formatted_bytes k) → stands_for files formatted };
}
