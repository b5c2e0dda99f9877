//! The replica on a store in memory.

use crate::on_log::ListReplica;
use cell_merge::Content;
use changes::{Bound, Partition};
use cs_base::{Failed, Micros, Range};
use cs_store::{MemStore, Outcome};
use replica::{
    CallError, FinishError, Graces, Kept, LoadError, MemReplica, MergeDone, MergeJob, Partitions,
    Purges, Replica, RoomError,
};
use row_change::LogEntry;
use std::alloc::Global;

/// A list replica on a store in memory, whose calls fail as they are told to.
#[derive(Drop)]
pub struct MemListReplica {
    list: ListReplica<MemStore>,
}

impl Replica for MemListReplica {
    ghost use Rattle.std.specs.Prelude.{◌+◌, false};
    ghost use Rattle.commit_log.proofs.Readings.{one_way};
    ghost use Rattle.cs_store.specs.Mem.{disk_of, room_at};
    ghost use Rattle.list_replica.specs.Memtables.{kept_in};
    ghost use Rattle.list_replica.specs.Standing.{StandsFor, IsDamagedAt};
    ghost use Rattle.list_replica.specs.Wholeness.{IsWhole, IsGranted};
    ghost use Rattle.list_replica.specs.Laws.{stand_for_one, arrive_once, stand_undamaged, damaged_at_one, begins_empty, whole_is_safe};

    type Disk = MemStore;

    ghost stands_for = { StandsFor };

    ghost is_damaged = { IsDamagedAt };

    ghost disk = { λ r. r.list.store };

    ghost durable = { λ r. kept_in r.list.memtable };

    ghost is_whole = { λ r. IsWhole (Unit {0}) (disk_of r.list.store) r.list.log r.list.memtable r.list.since_flush };

    ghost is_granted = { λ r entry. IsGranted r.list.log (room_at r.list.store) r.list.memtable entry };

    ghost log_end = { λ r. r.list.log.place.gate + 1 };

    ghost since_flush = { λ r. r.list.since_flush };

    ghost table_count = { λ _. 0 };

    ghost is_merge_due = { λ _. false };

    ghost is_merging = { λ _ _. ⊥ };

    ghost is_safe = { λ r honest whole. whole_is_safe (Unit {0}) (disk_of r.list.store) r.list.log r.list.memtable r.list.since_flush honest whole };

    ghost stand_for_one = { stand_for_one one_way };

    ghost arrive_once = { arrive_once };

    ghost stand_undamaged = { stand_undamaged one_way };

    ghost damaged_at_one = { damaged_at_one one_way };

    ghost begins_empty = { begins_empty };

    fn load(alloc: Global, store: MemStore) -> Result<(MemListReplica, Kept), LoadError<MemStore>> {
        match ListReplica::load(alloc, store) {
            Ok((list, kept)) => Ok((MemListReplica { list }, kept)),
            Err(error) => Err(error),
        }
    }

    fn room(&mut self, alloc: Global, entry: &LogEntry) -> Result<(), RoomError> {
        self.list.room(alloc, entry)
    }

    fn commit(&mut self, entry: &LogEntry, at: Micros) -> Result<(), Failed> {
        self.list.commit(entry, at)
    }

    fn content(
        &mut self,
        alloc: Global,
        partition: &Partition,
        from: &Bound,
        upto: &Bound,
    ) -> Result<Content, CallError> {
        self.list.content(alloc, partition, from, upto)
    }

    fn partitions(&mut self, alloc: Global, range: &Range) -> Result<Partitions, CallError> {
        self.list.partitions(alloc, range)
    }

    fn flush(&mut self, alloc: Global, step: &LogEntry, kept: &Kept) -> Result<u32, CallError> {
        self.list.flush(alloc, step, kept)
    }

    fn begin_merge(
        &mut self,
        alloc: Global,
        kept: &Kept,
        graces: &Graces,
        expiry: Micros,
        now: Micros,
    ) -> Result<Option<MergeJob>, CallError> {
        self.list.begin_merge(alloc, kept, graces, expiry, now)
    }

    fn finish_merge(
        &mut self,
        alloc: Global,
        step: &LogEntry,
        kept: &Kept,
        merge: MergeDone,
    ) -> Result<Purges, FinishError> {
        self.list.finish_merge(alloc, step, kept, merge)
    }

    fn flush_due(&self) -> bool {
        self.list.flush_due()
    }

    fn merge_due(&self) -> bool {
        self.list.merge_due()
    }

    fn tables(&self) -> u32 {
        self.list.tables()
    }

    fn release(self) -> MemStore {
        self.list.release()
    }
}

impl MemReplica for MemListReplica {
    fn fail_at(&mut self, j: u32) {
        self.list.store.fail_at(j);
    }

    fn stop_at(&mut self, j: u32, outcome: Outcome) {
        self.list.store.stop_at(j, outcome);
    }
}
