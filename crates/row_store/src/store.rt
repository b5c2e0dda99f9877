//! The store of a node's rows.

ghost use Rattle.std.specs.Prelude.{◌≡◌, ◌++◌, ◌∷◌, [], None, Some, not, is_some, if◌then◌else◌, map, IfOk, OnOk, OnErr, IsSome, Contains, option_copied};
ghost use Rattle.std.specs.BTreeMap.{IsOrdered};
ghost use Rattle.changes.specs.declared.Partition.{Partition as partition_value};
ghost use Rattle.changes.specs.Order.{partition_cmp};
ghost use Rattle.durable_state.specs.State.{row_at};
ghost use Rattle.row_store.specs.Slots.{staged_in};
ghost use Rattle.row_store.specs.Stores.{AreSameRows, AreSameSlots, AreSettledIn, AreSlotsOf, AreUnsetIn, IsPutIn, IsSetAt, IsSetIn, IsSettledIn, IsUnsetIn, row_before, row_now, slot_at, staged_at};

use crate::slot::Slot;
use changes::Partition;
use cs_base::Items;
use durable_state::RowAt;
use paxos_acceptor::{copy_row, fresh};
use row_change::{LogItem, PaxosRow};
use std::alloc::{AllocError, Global};
use std::collections::BTreeMap;
use std::marker::Model;

type Slots = BTreeMap<Partition, Slot>;

/// The rows of a node, as they were kept last and as the step has them now.
#[derive(Drop)]
pub struct RowStore {
    slots: Slots,
    /// The partitions whose rows the step has set, each once, in the order in which it set them first.
    set: Vec<Partition>,
}

/// An empty slot for a partition that has none.
fn add_slot(slots: &mut Slots, partition: Partition) -> Result<(), AllocError>
    requires { slot_at slots.old.entries partition ≡ None }
    ensures same { OnOk result (AreSameSlots slots.old.entries slots.new.entries) }
    ensures held { OnOk result (IsSome (slot_at slots.new.entries partition)) }
    ensures err { OnErr result (slots.new.entries ≡ slots.old.entries) }
{
    slots.insert(partition, Slot::empty())?;
    Ok(())
}

/// Makes sure that there is a slot for a partition.
fn hold(slots: &mut Slots, alloc: Global, partition: &Partition) -> Result<(), AllocError>
    ensures same { OnOk result (AreSameSlots slots.old.entries slots.new.entries) }
    ensures held { OnOk result (IsSome (slot_at slots.new.entries partition.now)) }
    ensures err { OnErr result (slots.new.entries ≡ slots.old.entries) }
{
    if slots.contains_key(partition) {
        return Ok(());
    }
    add_slot(slots, partition.copy(alloc)?)
}

/// Sets the row of a partition that has a slot, and tells whether the step had not set it before.
fn set_in(slots: &mut Slots, partition: &Partition, row: PaxosRow) -> bool
    requires { IsSome (slot_at slots.old.entries partition.now) }
    ensures set { IsSetIn partition.now row slots.old.entries slots.new.entries }
    ensures first { result ≡ not (is_some (staged_at slots.old.entries partition.now)) }
{
    match slots.get_mut(partition) {
        Some(slot) => slot.set(row),
        None => unreachable!(),
    }
}

/// What the step has set of a partition is kept.
fn settle_in(slots: &mut Slots, partition: &Partition)
    ensures { IsSettledIn partition.now slots.old.entries slots.new.entries }
{
    if let Some(slot) = slots.get_mut(partition) {
        slot.settle();
    }
}

/// Whether a row of the partition was kept.
fn was_kept(slots: &Slots, partition: &Partition) -> bool
    ensures { result ≡ is_some (row_before slots.now.entries partition.now) }
{
    match slots.get(partition) {
        Some(slot) => slot.settled.is_some(),
        None => false,
    }
}

fn unset_kept(slots: &mut Slots, partition: &Partition)
    ensures { IsUnsetIn partition.now slots.old.entries slots.new.entries }
{
    if let Some(slot) = slots.get_mut(partition) {
        slot.unset();
    }
}

/// Lets go of the slot of a partition of which no row was kept.
fn let_go(slots: &mut Slots, partition: &Partition)
    requires { row_before slots.old.entries partition.now ≡ None }
    ensures { IsUnsetIn partition.now slots.old.entries slots.new.entries }
{
    drop(slots.remove(partition));
}

/// What the step has set of a partition is undone.
fn unset_in(slots: &mut Slots, partition: &Partition)
    ensures { IsUnsetIn partition.now slots.old.entries slots.new.entries }
{
    if was_kept(slots, partition) {
        unset_kept(slots, partition);
    } else {
        let_go(slots, partition);
    }
}

/// What the step has set of these partitions is kept.
fn settle_all(slots: &mut Slots, set: &[Partition])
    ensures { AreSettledIn set.now slots.old.entries slots.new.entries }
{
    for partition in set {
        settle_in(slots, partition);
    }
}

/// What the step has set of these partitions is undone.
fn unset_all(slots: &mut Slots, set: &[Partition])
    ensures { AreUnsetIn set.now slots.old.entries slots.new.entries }
{
    for partition in set {
        unset_in(slots, partition);
    }
}

/// A row that was kept, in the place of what there was of its partition.
fn put_kept(slots: &mut Slots, at: RowAt) -> Result<(), AllocError>
    ensures { OnOk result (IsPutIn at slots.old.entries slots.new.entries) }
{
    let RowAt { partition, row } = at;
    let slot = Slot {
        settled: Some(row),
        staged: None,
    };
    slots.insert(partition, slot)?;
    Ok(())
}

/// These rows by partition. Where a partition has several, the first counts.
fn slots_of(alloc: Global, rows: Vec<RowAt>) -> Result<Slots, AllocError>
    ensures { IfOk result (λ slots. AreSlotsOf rows.items slots.entries) }
{
    let mut slots = BTreeMap::new(alloc);
    let mut left = rows;
    while let Some(at) = left.pop() {
        put_kept(&mut slots, at)?;
    }
    Ok(slots)
}

impl Model for RowStore {
    ghost use Rattle.row_store.specs.Stores.{AreNoted, Staged};

    ghost Value = { Staged };

    ghost view = { λ a. record { slots = a.slots.entries; set = a.set.items } };

    ghost invariant = { λ a. AreNoted a.slots.entries a.set.items };
}

impl RowStore {
    ghost use Rattle.row_store.specs.Stores.{item_of, row_or_fresh, with_noted, before, now};

    /// No rows, without an allocation. Further memory comes from this allocator.
    pub fn new(alloc: Global) -> RowStore
        ensures before { (p : partition_value) → before result p ≡ None }
        ensures now { (p : partition_value) → now result p ≡ None }
        ensures set { result.set ≡ [] }
    {
        RowStore {
            slots: BTreeMap::new(alloc),
            set: Vec::new(alloc),
        }
    }

    /// These rows, as a load found them. Where a partition has several, the first counts.
    pub fn restore(alloc: Global, rows: Items<RowAt>) -> Result<RowStore, AllocError>
        ensures before { IfOk result (λ store. (p : partition_value) → before store p ≡ row_at rows p) }
        ensures now { IfOk result (λ store. (p : partition_value) → now store p ≡ row_at rows p) }
        ensures set { IfOk result (λ store. store.set ≡ []) }
    {
        let slots = slots_of(alloc, rows.into_vec())?;
        Ok(RowStore {
            slots,
            set: Vec::new(alloc),
        })
    }

    /// The row of a partition, as the step has it.
    pub fn row(&self, partition: &Partition) -> Option<&PaxosRow>
        ensures { option_copied result ≡ now self.now partition.now }
    {
        match self.slots.get(partition) {
            Some(slot) => slot.current(),
            None => None,
        }
    }

    /// A copy of the row of a partition, as the step has it: a fresh one where nothing was heard of the partition.
    pub fn copy_or_fresh(
        &self,
        alloc: Global,
        partition: &Partition,
    ) -> Result<PaxosRow, AllocError>
        ensures { IfOk result (λ row. row ≡ row_or_fresh (now self.now partition.now)) }
    {
        match self.row(partition) {
            Some(row) => copy_row(alloc, row),
            None => Ok(fresh()),
        }
    }

    /// The step sets the row of a partition. An error changes nothing. It costs the logarithm of the rows.
    pub fn set(
        &mut self,
        alloc: Global,
        partition: &Partition,
        row: PaxosRow,
    ) -> Result<(), AllocError>
        ensures now { OnOk result (IsSetAt partition.now row (now self.old) (now self.new)) }
        ensures set { OnOk result (self.new.set ≡ with_noted self.old.set partition.now) }
        ensures before { AreSameRows (before self.old) (before self.new) }
        ensures err { OnErr result (AreSameRows (now self.old) (now self.new) × (self.new.set ≡ self.old.set)) }
    {
        let noted = partition.copy(alloc)?;
        self.set.reserve(1)?;
        hold(&mut self.slots, alloc, partition)?;
        if set_in(&mut self.slots, partition, row) {
            self.set.push_reserved(noted);
        }
        Ok(())
    }

    fn item(&self, alloc: Global, partition: &Partition) -> Result<LogItem, AllocError>
        ensures { IfOk result (λ item. item ≡ item_of (now self.now) partition.now) }
    {
        let row = self.copy_or_fresh(alloc, partition)?;
        Ok(LogItem::Paxos(partition.copy(alloc)?, row))
    }

    /// What an entry of a log keeps of what the step has set: each partition once, with its row as it is now.
    pub fn items(&self, alloc: Global) -> Result<Items<LogItem>, AllocError>
        ensures { IfOk result (λ items. items ≡ map (item_of (now self.now)) self.now.set) }
    {
        let mut items = Vec::new(alloc);
        for partition in &self.set {
            items.push(self.item(alloc, partition)?)?;
        }
        Ok(Items::from_vec(items))
    }

    /// Keeps what the step has set. It takes no memory.
    pub fn settle(&mut self)
        ensures before { AreSameRows (now self.old) (before self.new) }
        ensures now { AreSameRows (now self.old) (now self.new) }
        ensures set { self.new.set ≡ [] }
    {
        settle_all(&mut self.slots, &self.set);
        self.set.clear();
    }

    /// Undoes what the step has set. It takes no memory.
    pub fn back(&mut self)
        ensures before { AreSameRows (before self.old) (before self.new) }
        ensures now { AreSameRows (before self.old) (now self.new) }
        ensures set { self.new.set ≡ [] }
    {
        unset_all(&mut self.slots, &self.set);
        self.set.clear();
    }
}
