//! The entries of a log, taken in one after another by a load.

ghost use Rattle.std.specs.Prelude.{◌≡◌, ℕ, ◌∷◌, ◌++◌, List, [], map, None, OnOk, IfOk, IsErrOf};
ghost use Rattle.std.specs.BTreeMap.{IsOrdered};
ghost use Rattle.std.specs.List.{AllByRecursion};
ghost use Rattle.std.specs.Ordering.{nat_cmp};
ghost use Rattle.changes.specs.Order.{partition_cmp};
ghost use Rattle.gate_log.specs.Format.{IsFound};
ghost use Rattle.row_change.specs.Spelling.{EntryFits};
ghost use Rattle.commit_log.specs.Format.{AreEntries, IsDamaged};
ghost use Rattle.durable_state.specs.State.{formatted, Durable as durable};
ghost use Rattle.replica.specs.Kept.{IsKeptOf, IsInOrder};
ghost use Rattle.list_replica.specs.Keeping.{kept_by, entries_of};
ghost use Rattle.list_replica.specs.Memtables.{committed, kept_in, IsSound};
ghost use Rattle.list_replica.specs.Rows.{row_entry, number_entry};
ghost use Rattle.list_replica.specs.Stores.{all_of, TakesData};

use crate::hints::{Numbers, raise_last, remove_hint, set_last};
use crate::loads::{Loads, into_contents, load_in};
use crate::memtable::Memtable;
use crate::removing::let_go;
use cell_merge::Content;
use changes::{Mutation, Partition};
use commit_log::{LogError, LogReading};
use cs_base::{Items, Micros, NodeId};
use durable_state::{LastNumber, RowAt};
use http_server::Log;
use replica::Kept;
use row_change::{Hint, LogEntry, LogItem, Mark, PaxosRow};
use std::alloc::{AllocError, Global};
use std::collections::BTreeMap;

/// The rows of conditional updates, by partition.
type Rows = BTreeMap<Partition, PaxosRow>;

/// What the entries so far made.
#[derive(Drop)]
pub struct Replay {
    pub contents: Loads,
    pub ceiling: Micros,
    pub rows: Rows,
    pub hints: Vec<Hint>,
    pub numbers: Numbers,
    pub marks: Vec<Mark>,
    // The entries, for proofs alone: they take no memory.
    pub committed: Log<LogEntry, ()>,
}

/// Takes the changes of a mutation in, at a node time.
fn take_data(
    loads: &mut Loads,
    alloc: Global,
    mutation: Mutation,
    at: Micros,
) -> Result<(), AllocError>
    requires { IsOrdered partition_cmp loads.old }
    ensures takes { OnOk result (TakesData at mutation loads.old loads.new) }
    ensures ordered { IsOrdered partition_cmp loads.new }
{
    let Mutation { partition, changes } = mutation;
    match Content::from_changes(alloc, changes.into_vec()) {
        Ok(incoming) => load_in(loads, alloc, partition, incoming, at),
        Err(error) => {
            drop(partition);
            Err(error)
        }
    }
}

impl Replay {
    ghost use Rattle.list_replica.specs.Replays.{Shows, ShowsItem, ShowsItems, replayed};

    /// Of no entry, without an allocation.
    fn new(alloc: Global) -> Replay
        ensures shows { Shows result formatted }
        ensures none { replayed result ≡ [] }
    {
        Replay {
            contents: BTreeMap::new(alloc),
            ceiling: Micros::new(0),
            rows: BTreeMap::new(alloc),
            hints: Vec::new(alloc),
            numbers: BTreeMap::new(alloc),
            marks: Vec::new(alloc),
            committed: Log::new(),
        }
    }

    fn set_row(&mut self, partition: Partition, row: PaxosRow) -> Result<(), AllocError>
        ensures shows { OnOk result (ShowsItem (LogItem.Paxos partition row) self.old self.new) }
        ensures contents { self.new.contents ≡ self.old.contents }
        ensures replayed { replayed self.new ≡ replayed self.old }
    {
        self.rows.insert(partition, row)?;
        Ok(())
    }

    fn add_hint(&mut self, hint: Hint) -> Result<(), AllocError>
        ensures shows { OnOk result (ShowsItem (LogItem.HintAdd hint) self.old self.new) }
        ensures contents { self.new.contents ≡ self.old.contents }
        ensures replayed { replayed self.new ≡ replayed self.old }
    {
        set_last(&mut self.numbers, hint.peer, hint.number)?;
        self.hints.push(hint)?;
        Ok(())
    }

    fn remove_hint(&mut self, peer: NodeId, number: u64) -> Result<(), AllocError>
        ensures shows { OnOk result (ShowsItem (LogItem.HintGone peer number) self.old self.new) }
        ensures contents { self.new.contents ≡ self.old.contents }
        ensures replayed { replayed self.new ≡ replayed self.old }
    {
        raise_last(&mut self.numbers, peer, number)?;
        remove_hint(&mut self.hints, peer, number);
        Ok(())
    }

    fn add_mark(&mut self, mark: Mark) -> Result<(), AllocError>
        ensures shows { OnOk result (ShowsItem (LogItem.Mark mark) self.old self.new) }
        ensures contents { self.new.contents ≡ self.old.contents }
        ensures replayed { replayed self.new ≡ replayed self.old }
    {
        self.marks.push(mark)?;
        Ok(())
    }

    fn take_item(&mut self, alloc: Global, item: LogItem) -> Result<(), AllocError>
        requires { IsOrdered partition_cmp self.old.contents }
        ensures shows { OnOk result (ShowsItem item self.old self.new) }
        ensures ordered { IsOrdered partition_cmp self.new.contents }
        ensures replayed { replayed self.new ≡ replayed self.old }
    {
        match item {
            LogItem::Data(at, mutation) => take_data(&mut self.contents, alloc, mutation, at),
            LogItem::Paxos(partition, row) => self.set_row(partition, row),
            LogItem::HintAdd(hint) => self.add_hint(hint),
            LogItem::HintGone(peer, number) => self.remove_hint(peer, number),
            LogItem::Ceiling(time) => {
                self.ceiling = time;
                Ok(())
            }
            LogItem::Mark(mark) => self.add_mark(mark),
            LogItem::Purge(change) => {
                let gone = let_go(&mut self.contents, alloc, &change);
                drop(change);
                gone
            }
        }
    }

    fn take_items(&mut self, alloc: Global, items: Vec<LogItem>) -> Result<(), AllocError>
        requires { IsOrdered partition_cmp self.old.contents }
        ensures shows { OnOk result (ShowsItems items.items self.old self.new) }
        ensures ordered { IsOrdered partition_cmp self.new.contents }
        ensures replayed { replayed self.new ≡ replayed self.old }
    {
        for item in items {
            self.take_item(alloc, item)?;
        }
        Ok(())
    }

    fn take_entry(&mut self, alloc: Global, entry: LogEntry) -> Result<(), AllocError>
        requires { IsOrdered partition_cmp self.old.contents }
        ensures shows { OnOk result (ShowsItems entry.items self.old self.new) }
        ensures ordered { IsOrdered partition_cmp self.new.contents }
        ensures replayed { OnOk result (replayed self.new ≡ replayed self.old ++ (entry, tt) ∷ []) }
    {
        self.committed = self.committed.and(&entry, &());
        self.take_items(alloc, entry.items.into_vec())
    }

    /// Decodes the entries of a log and takes them in, one after another: the memory of one is free again before the next.
    fn of(alloc: Global, reading: &LogReading) -> Result<Replay, LogError>
        ensures shows { IfOk result (λ r. Shows r (kept_by (replayed r))) }
        ensures entries { IfOk result (λ r. AreEntries reading.now.gates.entries (entries_of (replayed r))) }
        ensures fit { IfOk result (λ r. AllByRecursion EntryFits (entries_of (replayed r))) }
        ensures damaged { (file : List ℕ) → IsFound reading.now.gates.entries reading.now.gates.damage file → (p : ℕ) → IsErrOf result (LogError.Damaged p) → IsDamaged p file }
        ensures failed { IsErrOf result LogError.Failed → ⊥ }
    {
        let mut replay = Replay::new(alloc);
        for i in 0..reading.len() {
            let entry = reading.entry(alloc, i)?;
            replay.take_entry(alloc, entry)?;
        }
        Ok(replay)
    }

    /// The contents, and what is kept beside them.
    fn finish(self, alloc: Global) -> Result<(Memtable, Kept), AllocError>
        ensures contents { IfOk result (λ r. all_of r.0.contents.entries ≡ all_of self.contents.entries) }
        ensures ordered { IfOk result (λ r. IsOrdered partition_cmp r.0.contents) }
        ensures committed { IfOk result (λ r. r.0.committed.items ≡ self.committed.items) }
        ensures kept { IfOk result (λ r. (d : durable) → Shows self d → IsKeptOf d r.1) }
        ensures in_order { IfOk result (λ r. IsInOrder r.1) }
    {
        let Replay {
            contents,
            ceiling,
            rows,
            hints,
            numbers,
            marks,
            committed,
        } = self;
        let contents = into_contents(alloc, contents)?;
        let rows = list_rows(alloc, rows)?;
        let numbers = list_numbers(alloc, numbers)?;
        let kept = Kept {
            ceiling,
            rows: Items::from_vec(rows),
            hints: Items::from_vec(hints),
            numbers: Items::from_vec(numbers),
            marks: Items::from_vec(marks),
        };
        Ok((Memtable::new(alloc, contents, committed), kept))
    }
}

fn list_rows(alloc: Global, rows: Rows) -> Result<Vec<RowAt>, AllocError>
    ensures items { IfOk result (λ list. list.items ≡ map row_entry rows.entries) }
    ensures ordered { IsOrdered partition_cmp rows }
{
    let mut list = Vec::with_capacity(alloc, rows.len())?;
    for (partition, row) in rows {
        list.push(RowAt { partition, row })?;
    }
    Ok(list)
}

fn list_numbers(alloc: Global, numbers: Numbers) -> Result<Vec<LastNumber>, AllocError>
    ensures items { IfOk result (λ list. list.items ≡ map number_entry numbers.entries) }
    ensures ordered { IsOrdered nat_cmp numbers }
{
    let mut list = Vec::with_capacity(alloc, numbers.len())?;
    for (peer, last) in numbers {
        list.push(LastNumber { peer, last })?;
    }
    Ok(list)
}

/// Takes in the entries of a log, unless it is damaged: the contents that they make, and what they keep beside them. The
/// damage of an entry is told before that of a gate behind it.
pub fn take_up(alloc: Global, reading: &LogReading) -> Result<(Memtable, Kept), LogError>
    ensures whole { OnOk result (reading.now.gates.damage ≡ None) }
    ensures sound { IfOk result (λ r. IsSound r.0) }
    ensures entries { IfOk result (λ r. AreEntries reading.now.gates.entries (entries_of (committed r.0))) }
    ensures fit { IfOk result (λ r. AllByRecursion EntryFits (entries_of (committed r.0))) }
    ensures kept { IfOk result (λ r. IsKeptOf (kept_in r.0) r.1) }
    ensures in_order { IfOk result (λ r. IsInOrder r.1) }
    ensures damaged { (file : List ℕ) → IsFound reading.now.gates.entries reading.now.gates.damage file → (p : ℕ) → IsErrOf result (LogError.Damaged p) → IsDamaged p file }
    ensures failed { IsErrOf result LogError.Failed → ⊥ }
{
    let replay = Replay::of(alloc, reading)?;
    reading.check_end()?;
    let (memtable, kept) = replay.finish(alloc)?;
    Ok((memtable, kept))
}
