//! The one commit of a step.

ghost use Rattle.std.specs.Prelude.{◌≡◌, ◌≤◌, ℕ, OnOk, OnErr, IsErrOf, IfOk};
ghost use Rattle.cs_base.specs.Faults.{HasRisen};
ghost use Rattle.row_change.specs.Spelling.{EntryFits};
ghost use Rattle.durable_state.specs.Keeping.{Commits, IsWithOrWithout};
ghost use Rattle.replica.specs.Finding.{AlwaysLeaves};
ghost use Rattle.replica.specs.Kept.{ArriveAllAt, ArriveAtOnce, IsKeptAfter, PurgeNothing};
ghost use Rattle.replica.specs.Lengths.{IsFirstTooLarge};
ghost use Rattle.replica.specs.declared.error.CallError.TheVariants as call_error;
ghost use Rattle.replica.specs.declared.error.RoomError.TheVariants as room_error;
ghost use Rattle.node_core.specs.Nodes.{HasRoom, IsSameLog, OverflowsLog};
ghost use Rattle.node_core.specs.Memory.{IsBare, TellsBy, kept_with};

use cs_base::{Items, Micros};
use hint_store::HintStore;
use replica::{CallError, Kept, Replica, RoomError};
use row_change::LogEntry;
use std::alloc::Global;

fn as_room_error(error: CallError) -> RoomError
    ensures failed { error ≡ call_error.Failed → result ≡ room_error.Failed }
    ensures no_memory { error ≡ call_error.NoMemory → result ≡ room_error.NoMemory }
{
    match error {
        CallError::Failed => RoomError::Failed,
        CallError::NoMemory => RoomError::NoMemory,
    }
}

/// Keeps an entry whose changes came at this time, where there is room for it. Without an item nothing is called.
pub(crate) fn keep<R: Replica>(
    replica: &mut R,
    alloc: Global,
    entry: &LogEntry,
    at: Micros,
) -> Result<(), RoomError>
    requires whole { R.is_whole replica.old }
    requires fits { EntryFits entry.now }
    requires no_purges { PurgeNothing entry.now.items }
    requires arrival { ArriveAllAt at entry.now.items }

    ensures ok { OnOk result (R.Disk.is_honest → Commits entry.now.items (R.durable replica.old) (R.durable replica.new)) }
    ensures whole { (IsErrOf result room_error.Failed → ⊥) → R.is_whole replica.new }
    ensures same { OnErr result ((IsErrOf result room_error.Failed → ⊥) → R.Disk.is_honest → R.durable replica.new ≡ R.durable replica.old) }
    ensures log { OnErr result ((IsErrOf result room_error.Failed → ⊥) → IsSameLog R.log_end R.since_flush replica.old replica.new) }
    ensures too_large { (p : _) → IsErrOf result (room_error.TooLarge p) → R.Disk.is_honest → IsFirstTooLarge entry.now.items (R.durable replica.old) p }
    ensures room { OnOk result (R.Disk.is_honest → HasRoom (R.log_end replica.old) (R.durable replica.old) entry.now.items) }
    ensures no_room { IsErrOf result room_error.NoRoom → R.Disk.is_honest → OverflowsLog (R.log_end replica.old) (R.durable replica.old) entry.now.items }
    ensures failed { IsErrOf result room_error.Failed → HasRisen (R.Disk.faults (R.disk replica.old)) (R.Disk.faults (R.disk replica.new)) }
    ensures faults { R.Disk.faults (R.disk replica.old) ≤ R.Disk.faults (R.disk replica.new) }
    ensures surely { IsErrOf result room_error.Failed → ((n : ℕ) → R.Disk.spares (R.disk replica.old) n) → ⊥ }
    ensures spared { ((n : ℕ) → R.Disk.spares (R.disk replica.old) n) → (n : ℕ) → R.Disk.spares (R.disk replica.new) n }

    // A crash at any moment leaves what was kept before the call, with the entry or without.
    ensures any_moment { R.Disk.is_honest → AlwaysLeaves R.stands_for (IsWithOrWithout entry.now.items (R.durable replica.old)) (R.Disk.disk (R.disk replica.old)) (R.Disk.disk (R.disk replica.new)) }
{
    if entry.items.as_slice().is_empty() {
        return Ok(());
    }
    replica.room(alloc, entry)?;
    match replica.commit(entry, at) {
        Ok(()) => Ok(()),
        Err(_) => Err(RoomError::Failed),
    }
}

/// Keeps an entry and has tables written, where there is room for it; `kept` is what is kept beside the contents then. It tells
/// how many tables there are.
pub(crate) fn keep_and_flush<R: Replica>(
    replica: &mut R,
    alloc: Global,
    entry: &LogEntry,
    kept: &Kept,
) -> Result<u32, RoomError>
    requires whole { R.is_whole replica.old }
    requires fits { EntryFits entry.now }
    requires no_purges { PurgeNothing entry.now.items }
    requires arrival { ArriveAtOnce entry.now.items }
    requires kept { R.Disk.is_honest → IsKeptAfter entry.now.items (R.durable replica.old) kept.now }

    ensures ok { OnOk result (R.Disk.is_honest → Commits entry.now.items (R.durable replica.old) (R.durable replica.new)) }
    ensures tables { IfOk result (λ n. n ≡ R.table_count replica.new) }
    ensures whole { (IsErrOf result room_error.Failed → ⊥) → R.is_whole replica.new }
    ensures same { OnErr result ((IsErrOf result room_error.Failed → ⊥) → R.Disk.is_honest → R.durable replica.new ≡ R.durable replica.old) }
    ensures log { OnErr result ((IsErrOf result room_error.Failed → ⊥) → IsSameLog R.log_end R.since_flush replica.old replica.new) }
    ensures too_large { (p : _) → IsErrOf result (room_error.TooLarge p) → R.Disk.is_honest → IsFirstTooLarge entry.now.items (R.durable replica.old) p }
    ensures room { OnOk result (R.Disk.is_honest → HasRoom (R.log_end replica.old) (R.durable replica.old) entry.now.items) }
    ensures no_room { IsErrOf result room_error.NoRoom → R.Disk.is_honest → OverflowsLog (R.log_end replica.old) (R.durable replica.old) entry.now.items }
    ensures failed { IsErrOf result room_error.Failed → HasRisen (R.Disk.faults (R.disk replica.old)) (R.Disk.faults (R.disk replica.new)) }
    ensures faults { R.Disk.faults (R.disk replica.old) ≤ R.Disk.faults (R.disk replica.new) }
    ensures surely { IsErrOf result room_error.Failed → ((n : ℕ) → R.Disk.spares (R.disk replica.old) n) → ⊥ }
    ensures spared { ((n : ℕ) → R.Disk.spares (R.disk replica.old) n) → (n : ℕ) → R.Disk.spares (R.disk replica.new) n }

    // A crash at any moment leaves what was kept before the call, with the entry or without.
    ensures any_moment { R.Disk.is_honest → AlwaysLeaves R.stands_for (IsWithOrWithout entry.now.items (R.durable replica.old)) (R.Disk.disk (R.disk replica.old)) (R.Disk.disk (R.disk replica.new)) }
{
    replica.room(alloc, entry)?;
    match replica.flush(alloc, entry, kept) {
        Ok(count) => Ok(count),
        Err(error) => Err(as_room_error(error)),
    }
}

/// Keeps an entry and has tables written, where there is room for it. `kept` has no hints of its own: for the call it gets those
/// of their store.
fn flush_with<R: Replica>(
    kept: &mut Kept,
    hints: &HintStore,
    replica: &mut R,
    alloc: Global,
    entry: &LogEntry,
) -> Result<u32, RoomError>
    requires whole { R.is_whole replica.old }
    requires fits { EntryFits entry.now }
    requires no_purges { PurgeNothing entry.now.items }
    requires arrival { ArriveAtOnce entry.now.items }
    requires bare { IsBare kept.old }
    requires kept { R.Disk.is_honest → IsKeptAfter entry.now.items (R.durable replica.old) (kept_with hints.now.now kept.old) }

    ensures back { kept.new ≡ kept.old }
    ensures ok { OnOk result (R.Disk.is_honest → Commits entry.now.items (R.durable replica.old) (R.durable replica.new)) }
    ensures tables { IfOk result (λ n. n ≡ R.table_count replica.new) }
    ensures whole { (IsErrOf result room_error.Failed → ⊥) → R.is_whole replica.new }
    ensures same { OnErr result ((IsErrOf result room_error.Failed → ⊥) → R.Disk.is_honest → R.durable replica.new ≡ R.durable replica.old) }
    ensures log { OnErr result ((IsErrOf result room_error.Failed → ⊥) → IsSameLog R.log_end R.since_flush replica.old replica.new) }
    ensures too_large { (p : _) → IsErrOf result (room_error.TooLarge p) → R.Disk.is_honest → IsFirstTooLarge entry.now.items (R.durable replica.old) p }
    ensures room { OnOk result (R.Disk.is_honest → HasRoom (R.log_end replica.old) (R.durable replica.old) entry.now.items) }
    ensures no_room { IsErrOf result room_error.NoRoom → R.Disk.is_honest → OverflowsLog (R.log_end replica.old) (R.durable replica.old) entry.now.items }
    ensures failed { IsErrOf result room_error.Failed → HasRisen (R.Disk.faults (R.disk replica.old)) (R.Disk.faults (R.disk replica.new)) }
    ensures faults { R.Disk.faults (R.disk replica.old) ≤ R.Disk.faults (R.disk replica.new) }
    ensures surely { IsErrOf result room_error.Failed → ((n : ℕ) → R.Disk.spares (R.disk replica.old) n) → ⊥ }
    ensures spared { ((n : ℕ) → R.Disk.spares (R.disk replica.old) n) → (n : ℕ) → R.Disk.spares (R.disk replica.new) n }

    // A crash at any moment leaves what was kept before the call, with the entry or without.
    ensures any_moment { R.Disk.is_honest → AlwaysLeaves R.stands_for (IsWithOrWithout entry.now.items (R.durable replica.old)) (R.Disk.disk (R.disk replica.old)) (R.Disk.disk (R.disk replica.new)) }
{
    let all = hints.to_items(alloc)?;
    let numbers = hints.last_numbers(alloc)?;
    kept.hints = all;
    kept.numbers = numbers;
    let told = keep_and_flush(replica, alloc, entry, kept);
    kept.hints = Items::new(alloc);
    kept.numbers = Items::new(alloc);
    told
}

/// Keeps an entry, and has tables written where that was asked for; `kept` and the hints are what is kept beside the contents
/// then.
fn write<R: Replica>(
    kept: &mut Kept,
    hints: &HintStore,
    replica: &mut R,
    alloc: Global,
    entry: &LogEntry,
    at: Micros,
    flushes: bool,
) -> Result<Option<u32>, RoomError>
    requires whole { R.is_whole replica.old }
    requires fits { EntryFits entry.now }
    requires no_purges { PurgeNothing entry.now.items }
    requires arrival { ArriveAllAt at entry.now.items }
    requires bare { IsBare kept.old }
    requires kept { R.Disk.is_honest → IsKeptAfter entry.now.items (R.durable replica.old) (kept_with hints.now.now kept.old) }

    ensures back { kept.new ≡ kept.old }
    ensures ok { OnOk result (R.Disk.is_honest → Commits entry.now.items (R.durable replica.old) (R.durable replica.new)) }
    ensures tables { IfOk result (λ tables. TellsBy flushes tables) }
    ensures whole { (IsErrOf result room_error.Failed → ⊥) → R.is_whole replica.new }
    ensures same { OnErr result ((IsErrOf result room_error.Failed → ⊥) → R.Disk.is_honest → R.durable replica.new ≡ R.durable replica.old) }
    ensures log { OnErr result ((IsErrOf result room_error.Failed → ⊥) → IsSameLog R.log_end R.since_flush replica.old replica.new) }
    ensures too_large { (p : _) → IsErrOf result (room_error.TooLarge p) → R.Disk.is_honest → IsFirstTooLarge entry.now.items (R.durable replica.old) p }
    ensures room { OnOk result (R.Disk.is_honest → HasRoom (R.log_end replica.old) (R.durable replica.old) entry.now.items) }
    ensures no_room { IsErrOf result room_error.NoRoom → R.Disk.is_honest → OverflowsLog (R.log_end replica.old) (R.durable replica.old) entry.now.items }
    ensures failed { IsErrOf result room_error.Failed → HasRisen (R.Disk.faults (R.disk replica.old)) (R.Disk.faults (R.disk replica.new)) }
    ensures faults { R.Disk.faults (R.disk replica.old) ≤ R.Disk.faults (R.disk replica.new) }
    ensures surely { IsErrOf result room_error.Failed → ((n : ℕ) → R.Disk.spares (R.disk replica.old) n) → ⊥ }
    ensures spared { ((n : ℕ) → R.Disk.spares (R.disk replica.old) n) → (n : ℕ) → R.Disk.spares (R.disk replica.new) n }

    // A crash at any moment leaves what was kept before the call, with the entry or without.
    ensures any_moment { R.Disk.is_honest → AlwaysLeaves R.stands_for (IsWithOrWithout entry.now.items (R.durable replica.old)) (R.Disk.disk (R.disk replica.old)) (R.Disk.disk (R.disk replica.new)) }
{
    if flushes {
        return Ok(Some(flush_with(kept, hints, replica, alloc, entry)?));
    }
    keep(replica, alloc, entry, at)?;
    Ok(None)
}

/// Keeps an entry with the ceiling that it raises, or leaves both as they were.
pub(crate) fn commit<R: Replica>(
    kept: &mut Kept,
    hints: &HintStore,
    replica: &mut R,
    alloc: Global,
    entry: &LogEntry,
    at: Micros,
    ceiling: Micros,
    flushes: bool,
) -> Result<Option<u32>, RoomError>
    requires whole { R.is_whole replica.old }
    requires fits { EntryFits entry.now }
    requires no_purges { PurgeNothing entry.now.items }
    requires arrival { ArriveAllAt at entry.now.items }
    requires bare { IsBare kept.old }
    requires kept { R.Disk.is_honest → IsKeptAfter entry.now.items (R.durable replica.old) (record (kept_with hints.now.now kept.old) { ceiling = ceiling }) }

    ensures raised { OnOk result (kept.new ≡ record kept.old { ceiling = ceiling }) }
    ensures back { OnErr result (kept.new ≡ kept.old) }
    ensures ok { OnOk result (R.Disk.is_honest → Commits entry.now.items (R.durable replica.old) (R.durable replica.new)) }
    ensures tables { IfOk result (λ tables. TellsBy flushes tables) }
    ensures whole { (IsErrOf result room_error.Failed → ⊥) → R.is_whole replica.new }
    ensures same { OnErr result ((IsErrOf result room_error.Failed → ⊥) → R.Disk.is_honest → R.durable replica.new ≡ R.durable replica.old) }
    ensures log { OnErr result ((IsErrOf result room_error.Failed → ⊥) → IsSameLog R.log_end R.since_flush replica.old replica.new) }
    ensures too_large { (p : _) → IsErrOf result (room_error.TooLarge p) → R.Disk.is_honest → IsFirstTooLarge entry.now.items (R.durable replica.old) p }
    ensures room { OnOk result (R.Disk.is_honest → HasRoom (R.log_end replica.old) (R.durable replica.old) entry.now.items) }
    ensures no_room { IsErrOf result room_error.NoRoom → R.Disk.is_honest → OverflowsLog (R.log_end replica.old) (R.durable replica.old) entry.now.items }
    ensures failed { IsErrOf result room_error.Failed → HasRisen (R.Disk.faults (R.disk replica.old)) (R.Disk.faults (R.disk replica.new)) }
    ensures faults { R.Disk.faults (R.disk replica.old) ≤ R.Disk.faults (R.disk replica.new) }
    ensures surely { IsErrOf result room_error.Failed → ((n : ℕ) → R.Disk.spares (R.disk replica.old) n) → ⊥ }
    ensures spared { ((n : ℕ) → R.Disk.spares (R.disk replica.old) n) → (n : ℕ) → R.Disk.spares (R.disk replica.new) n }

    // A crash at any moment leaves what was kept before the call, with the entry or without.
    ensures any_moment { R.Disk.is_honest → AlwaysLeaves R.stands_for (IsWithOrWithout entry.now.items (R.durable replica.old)) (R.Disk.disk (R.disk replica.old)) (R.Disk.disk (R.disk replica.new)) }
{
    let before = kept.ceiling;
    kept.ceiling = ceiling;
    match write(kept, hints, replica, alloc, entry, at, flushes) {
        Ok(tables) => Ok(tables),
        Err(error) => {
            kept.ceiling = before;
            Err(error)
        }
    }
}
