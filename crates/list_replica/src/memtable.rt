//! The contents of partitions in memory.

ghost use Rattle.std.specs.Prelude.{◌≡◌, [], ◌∷◌, ◌++◌, IfOk, IfSome, IfNone};
ghost use Rattle.replica.specs.Kept.{ArriveAllAt, PurgeNothing};
ghost use Rattle.replica.specs.Lengths.{AllStaySmall, IsFirstTooLarge};

use crate::contents::Contents;
use crate::staging::{Staged, first_large, reserve_all, stage, take_all};
use changes::Partition;
use cs_base::Micros;
use http_server::Log;
use row_change::LogEntry;
use std::alloc::{AllocError, Global};

/// The contents of partitions, and the changes of an entry that is to come to them.
#[derive(Drop)]
pub struct Memtable {
    contents: Contents,
    staged: Vec<Staged>,
    // The entries that made the contents, for proofs alone: they take no memory.
    committed: Log<LogEntry, ()>,
    alloc: Global,
}

impl Memtable {
    ghost use Rattle.list_replica.specs.Memtables.{committed, kept_in, IsSound, HasStaged};

    /// These contents, with nothing staged.
    pub fn new(alloc: Global, contents: Contents, committed: Log<LogEntry, ()>) -> Memtable
        ensures contents { result.contents ≡ contents }
        ensures committed { result.committed.items ≡ committed.items }
    {
        Memtable {
            contents,
            staged: Vec::new(alloc),
            committed,
            alloc,
        }
    }

    pub fn contents(&self) -> &Contents
        ensures { result.now ≡ self.now.contents }
    {
        &self.contents
    }

    /// Stages the changes of an entry, and takes all the memory that `take_in` needs. If the content of a partition would pass
    /// 16 MiB, it tells the first such one.
    pub fn stage(
        &mut self,
        alloc: Global,
        entry: &LogEntry,
    ) -> Result<Option<Partition>, AllocError>
        requires sound { IsSound self.old }
        requires no_purges { PurgeNothing entry.now.items }
        ensures sound { IsSound self.new }
        ensures committed { committed self.new ≡ committed self.old }
        ensures staged { IfOk result (λ large. IfNone large (HasStaged self.new entry.now.items)) }
        ensures small { IfOk result (λ large. IfNone large (AllStaySmall entry.now.items entry.now.items (kept_in self.old))) }
        ensures too_large { IfOk result (λ large. IfSome large (IsFirstTooLarge entry.now.items (kept_in self.old))) }
    {
        let items = entry.items.as_slice();
        let staged = stage(alloc, items)?;
        let within = reserve_all(&mut self.contents, alloc, staged.as_slice())?;
        if let Some(partition) = first_large(&self.contents, staged.as_slice(), items, within) {
            return Ok(Some(partition.copy(alloc)?));
        }
        self.staged = staged;
        Ok(None)
    }

    /// Takes in the changes of the entry that was staged last, at the node time at which they came. It takes no memory.
    pub fn take_in(&mut self, entry: &LogEntry, at: Micros)
        requires sound { IsSound self.old }
        requires staged { HasStaged self.old entry.now.items }
        requires no_purges { PurgeNothing entry.now.items }
        requires arrival { ArriveAllAt at entry.now.items }
        ensures sound { IsSound self.new }
        ensures committed { committed self.new ≡ committed self.old ++ (entry.now, tt) ∷ [] }
    {
        let staged = std::mem::replace(&mut self.staged, Vec::new(self.alloc));
        take_all(&mut self.contents, staged, at);
        self.committed = self.committed.and(entry, &());
    }
}
