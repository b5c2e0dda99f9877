//! The replica.

ghost use Rattle.std.specs.Prelude.{◌≡◌, ◌≢◌, ℕ, ◌+◌, ◌≤◌, Err, IfOk, OnOk, OnErr, IsErrOf};
ghost use Rattle.std.specs.List.{AllByRecursion};
ghost use Rattle.cs_base.specs.Faults.{HasRisen};
ghost use Rattle.cs_store.specs.Disk.{IsSettled, SameFiles, LeavesOnly};
ghost use Rattle.gate_log.specs.Place.{IsAtRest};
ghost use Rattle.row_change.specs.Spelling.{EntryFits};
ghost use Rattle.commit_log.specs.Format.{ReadsEntries, IsDamaged, ReadsAlike};
ghost use Rattle.replica.specs.Kept.{ArriveAllAt, ArriveAtOnce, IsInOrder, IsKeptOf};
ghost use Rattle.list_replica.specs.Keeping.{entries_of};
ghost use Rattle.list_replica.specs.Memtables.{committed, kept_in, IsSound};

use crate::contents::{between, partitions};
use crate::memtable::Memtable;
use crate::replay::take_up;
use cell_merge::Content;
use changes::{Bound, Partition};
use commit_log::{CommitLog, LogError, ReserveError};
use cs_base::{Failed, Micros, Range};
use cs_store::{FileNo, Store};
use replica::{
    CallError, FinishError, Graces, Kept, LoadError, MergeDone, MergeJob, Partitions, Purges,
    Replica, RoomError,
};
use row_change::{LogEntry, LogItem};
use std::alloc::Global;

/// A flush is due where the log is longer: 32 MiB.
const FLUSHED_FROM: u64 = 1 << 25;

/// And where so many bytes came since the last: 1 MiB.
const FLUSHED_EACH: u64 = 1 << 20;

/// What a node keeps, in one log of a store, and in memory the contents that the log's entries make.
#[derive(Drop)]
pub struct ListReplica<S> {
    pub(crate) store: S,
    pub(crate) log: CommitLog,
    pub(crate) memtable: Memtable,
    /// How many bytes came to the log since the last flush.
    pub(crate) since_flush: Option<u64>,
}

/// The file of the log.
fn log_file() -> FileNo
    ensures { result ≡ 0 }
{
    FileNo::new(0).unwrap()
}

/// The time at which the first of the changes of an entry came, 0 where it has none.
fn arrival_of(entry: &LogEntry) -> Micros
    ensures { ArriveAtOnce entry.now.items → ArriveAllAt result entry.now.items }
{
    for item in entry.items.as_slice() {
        if let LogItem::Data(at, _) = item {
            return *at;
        }
    }
    Micros::new(0)
}

/// Reads a log and takes its entries in, one after another, and then cuts its file behind them: two calls of the store,
/// and two more where it isn't damaged and there is memory for what the entries make.
fn load_log<S: Store>(
    alloc: Global,
    store: &mut S,
    f: FileNo,
) -> Result<(CommitLog, Memtable, Kept), LogError>
    requires { S.is_honest → IsSettled f (S.disk store.old) }

    ensures entries { IfOk result (λ r. S.is_honest → ReadsEntries (entries_of (committed r.1)) ((S.disk store.old).seen f)) }
    ensures same_entries { IfOk result (λ r. S.is_honest → ReadsEntries (entries_of (committed r.1)) ((S.disk store.new).seen f)) }
    ensures fit { IfOk result (λ r. AllByRecursion EntryFits (entries_of (committed r.1))) }
    ensures sound { IfOk result (λ r. IsSound r.1) }
    ensures kept { IfOk result (λ r. IsKeptOf (kept_in r.1) r.2) }
    ensures in_order { IfOk result (λ r. IsInOrder r.2) }
    ensures at_rest { IfOk result (λ r. S.is_honest → IsAtRest r.0.place.gate ((S.disk store.new).seen f)) }
    ensures settled { OnOk result (S.is_honest → IsSettled f (S.disk store.new)) }
    ensures file { IfOk result (λ r. r.0.place.file ≡ f) }
    ensures any_moment { S.is_honest → LeavesOnly f (ReadsAlike ((S.disk store.old).seen f)) (S.disk store.old) (S.disk store.new) }
    ensures damaged { (p : ℕ) → IsErrOf result (LogError.Damaged p) → S.is_honest → IsDamaged p ((S.disk store.old).seen f) }
    ensures refused { OnErr result (result ≢ Err LogError.Failed → S.is_honest → SameFiles (S.disk store.old) (S.disk store.new)) }
    ensures failed { IsErrOf result LogError.Failed → HasRisen (S.faults store.old) (S.faults store.new) }
    ensures faults { S.faults store.old ≤ S.faults store.new }
    ensures surely { (m n : ℕ) → n + 4 ≤ m → S.spares store.old m → (result ≢ Err LogError.Failed) × S.spares store.new n }
{
    let reading = CommitLog::read(alloc, store, f)?;
    let (memtable, kept) = take_up(alloc, &reading)?;
    let log = CommitLog::cut(alloc, store, &reading)?;
    Ok((log, memtable, kept))
}

impl<S: Store + Drop> Replica for ListReplica<S> {
    ghost use Rattle.std.specs.Prelude.{◌+◌, false};
    ghost use Rattle.commit_log.proofs.Readings.{one_way};
    ghost use Rattle.list_replica.specs.Memtables.{kept_in};
    ghost use Rattle.list_replica.specs.Standing.{StandsFor, IsDamagedAt};
    ghost use Rattle.list_replica.specs.Wholeness.{IsWhole, IsGranted};
    ghost use Rattle.list_replica.specs.Laws.{stand_for_one, arrive_once, stand_undamaged, damaged_at_one, begins_empty, whole_is_safe};

    type Disk = S;

    ghost stands_for = { StandsFor };

    ghost is_damaged = { IsDamagedAt };

    ghost disk = { λ r. r.store };

    ghost durable = { λ r. kept_in r.memtable };

    ghost is_whole = { λ r. IsWhole S.is_honest (S.disk r.store) r.log r.memtable r.since_flush };

    ghost is_granted = { λ r entry. IsGranted r.log (S.reserved r.store) r.memtable entry };

    ghost log_end = { λ r. r.log.place.gate + 1 };

    ghost since_flush = { λ r. r.since_flush };

    ghost table_count = { λ _. 0 };

    ghost is_merge_due = { λ _. false };

    ghost is_merging = { λ _ _. ⊥ };

    ghost is_safe = { λ r honest whole. whole_is_safe S.is_honest (S.disk r.store) r.log r.memtable r.since_flush honest whole };

    ghost stand_for_one = { stand_for_one one_way };

    ghost arrive_once = { arrive_once };

    ghost stand_undamaged = { stand_undamaged one_way };

    ghost damaged_at_one = { damaged_at_one one_way };

    ghost begins_empty = { begins_empty };

    fn load(alloc: Global, store: S) -> Result<(ListReplica<S>, Kept), LoadError<S>> {
        let mut store = store;
        match load_log(alloc, &mut store, log_file()) {
            Ok((log, memtable, kept)) => {
                let replica = ListReplica {
                    store,
                    log,
                    memtable,
                    since_flush: None,
                };
                Ok((replica, kept))
            }
            Err(LogError::Failed) => Err(LoadError::Failed(store)),
            Err(LogError::Damaged(place)) => Err(LoadError::Damaged(store, log_file(), place)),
            Err(LogError::NoMemory) => Err(LoadError::NoMemory(store)),
        }
    }

    fn room(&mut self, alloc: Global, entry: &LogEntry) -> Result<(), RoomError> {
        if let Some(partition) = self.memtable.stage(alloc, entry)? {
            return Err(RoomError::TooLarge(partition));
        }
        match self.log.reserve(&mut self.store, entry) {
            Ok(()) => Ok(()),
            Err(ReserveError::Full) => Err(RoomError::NoRoom),
            Err(ReserveError::NoMemory) => Err(RoomError::NoMemory),
        }
    }

    fn commit(&mut self, entry: &LogEntry, at: Micros) -> Result<(), Failed> {
        let before = self.log.len();
        self.log.append(&mut self.store, entry)?;
        self.memtable.take_in(entry, at);
        if let Some(added) = self.since_flush {
            self.since_flush = Some(added + (self.log.len() - before));
        }
        Ok(())
    }

    fn content(
        &mut self,
        alloc: Global,
        partition: &Partition,
        from: &Bound,
        upto: &Bound,
    ) -> Result<Content, CallError> {
        Ok(between(self.memtable.contents(), alloc, partition, from, upto)?)
    }

    fn partitions(&mut self, alloc: Global, range: &Range) -> Result<Partitions, CallError> {
        Ok(partitions(self.memtable.contents(), alloc, range)?)
    }

    fn flush(&mut self, _: Global, step: &LogEntry, _: &Kept) -> Result<u32, CallError> {
        self.commit(step, arrival_of(step))?;
        self.since_flush = Some(0);
        Ok(0)
    }

    fn begin_merge(
        &mut self,
        _: Global,
        _: &Kept,
        _: &Graces,
        _: Micros,
        _: Micros,
    ) -> Result<Option<MergeJob>, CallError> {
        Ok(None)
    }

    fn finish_merge(
        &mut self,
        alloc: Global,
        step: &LogEntry,
        _: &Kept,
        _: MergeDone,
    ) -> Result<Purges, FinishError> {
        match self.commit(step, arrival_of(step)) {
            Ok(()) => Ok(Purges::new(alloc)),
            Err(_) => Err(FinishError::Failed(Purges::new(alloc))),
        }
    }

    fn flush_due(&self) -> bool {
        let is_flushed = self.since_flush.is_some_and(|added| added < FLUSHED_EACH);
        self.log.len() > FLUSHED_FROM && !is_flushed
    }

    fn merge_due(&self) -> bool {
        false
    }

    fn tables(&self) -> u32 {
        0
    }

    fn release(self) -> S {
        self.store
    }
}
