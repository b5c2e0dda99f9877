//! The changes of an entry, staged by partition before the entry is in the log, with the memory taken that they need.

ghost use Rattle.std.specs.Prelude.{◌≡◌, ◌≢◌, ◌↔◌, ◌⊎◌, ◌++◌, false, Contains, IsTrue, IfNone, IfSome, IfOk, OnOk};
ghost use Rattle.std.specs.BTreeMap.{IsOrdered, get};
ghost use Rattle.std.specs.Option.{option_copied};
ghost use Rattle.changes.specs.declared.Held.{Held as held_value};
ghost use Rattle.changes.specs.declared.Partition.{Partition as partition_value};
ghost use Rattle.changes.specs.Contents.{IsContent};
ghost use Rattle.changes.specs.Order.{partition_cmp};
ghost use Rattle.durable_state.specs.Taking.{InOne};
ghost use Rattle.list_replica.specs.Stores.{all_of, IsReadyAt};
ghost use Rattle.list_replica.specs.Staging.{mutation_of as mutation_in_item, mutations, Brings, IsStagedAt, StagesAt, IsStaging, AreOnce, AreReady, AllFit, IsWithin, IsPast, StaysWithin, GrowsPast, AllStayWithin, IsFirstPast, Comes, AllCome};

use crate::contents::{Contents, reserve, stays_within, take_in};
use cell_merge::Content;
use changes::{Held, Mutation, Partition};
use cs_base::Micros;
use row_change::LogItem;
use std::alloc::{AllocError, Global};

/// The content of all changes that an entry brings to a partition.
#[derive(Debug, Drop)]
pub struct Staged {
    pub partition: Partition,
    pub changes: Content,
}

fn mutation_of(item: &LogItem) -> Option<&Mutation>
    ensures { option_copied result ≡ mutation_in_item item.now }
{
    match item {
        LogItem::Data(_, mutation) => Some(mutation),
        LogItem::Paxos(_, _)
        | LogItem::HintAdd(_)
        | LogItem::HintGone(_, _)
        | LogItem::Ceiling(_)
        | LogItem::Mark(_)
        | LogItem::Purge(_) => None,
    }
}

fn is_same(a: &Partition, b: &Partition) -> bool
    ensures { IsTrue result ↔ (a.now ≡ b.now) }
{
    a == b
}

fn copy_onto(changes: &mut Vec<Held>, alloc: Global, more: &[Held]) -> Result<(), AllocError>
    ensures { OnOk result (changes.new.items ≡ changes.old.items ++ more.now) }
{
    changes.reserve(more.len())?;
    for held in more {
        changes.push_reserved(held.copy(alloc)?);
    }
    Ok(())
}

/// Puts the changes that an item brings to the partition behind others.
fn gather_from(
    changes: &mut Vec<Held>,
    alloc: Global,
    item: &LogItem,
    partition: &Partition,
) -> Result<(), AllocError>
    ensures { OnOk result ((x : held_value) → Contains changes.new.items x ↔ (Contains changes.old.items x ⊎ Brings item.now partition.now x)) }
{
    let Some(mutation) = mutation_of(item) else {
        return Ok(());
    };
    if is_same(&mutation.partition, partition) {
        copy_onto(changes, alloc, mutation.changes.as_slice())?;
    }
    Ok(())
}

/// The content of all changes that the items bring to the partition.
fn gather(alloc: Global, items: &[LogItem], partition: &Partition) -> Result<Content, AllocError>
    ensures { IfOk result (λ content. IsContent content (InOne (mutations items.now) partition.now)) }
{
    let mut changes = Vec::new(alloc);
    for item in items {
        gather_from(&mut changes, alloc, item, partition)?;
    }
    Content::from_changes(alloc, changes)
}

fn is_staged(staged: &[Staged], partition: &Partition) -> bool
    ensures { IsTrue result ↔ IsStagedAt staged.now partition.now }
{
    for changes in staged {
        if is_same(&changes.partition, partition) {
            return true;
        }
    }
    false
}

/// Stages the changes that the items bring to the partition, unless they are.
fn stage_at(
    staged: &mut Vec<Staged>,
    alloc: Global,
    items: &[LogItem],
    partition: &Partition,
) -> Result<(), AllocError>
    ensures { OnOk result (StagesAt items.now partition.now staged.old.items staged.new.items) }
{
    if !is_staged(staged.as_slice(), partition) {
        let changes = gather(alloc, items, partition)?;
        let partition = partition.copy(alloc)?;
        staged.push(Staged { partition, changes })?;
    }
    Ok(())
}

/// The changes of the items, partition by partition.
pub fn stage(alloc: Global, items: &[LogItem]) -> Result<Vec<Staged>, AllocError>
    ensures { IfOk result (λ staged. IsStaging items.now staged.items) }
{
    let mut staged = Vec::new(alloc);
    for item in items {
        if let Some(mutation) = mutation_of(item) {
            stage_at(&mut staged, alloc, items, &mutation.partition)?;
        }
    }
    Ok(staged)
}

/// Takes the memory that `take_all` needs for these changes, and tells whether what is held of each partition stays within
/// 16 MiB with them.
pub fn reserve_all(
    contents: &mut Contents,
    alloc: Global,
    staged: &[Staged],
) -> Result<bool, AllocError>
    requires ordered { IsOrdered partition_cmp contents.old }
    requires once { AreOnce staged.now }
    ensures ready { OnOk result (AreReady contents.new staged.now) }
    ensures within { IfOk result (λ within. IsTrue within → AllFit contents.new staged.now) }
    ensures stored { all_of contents.new.entries ≡ all_of contents.old.entries }
    ensures ordered { IsOrdered partition_cmp contents.new }
{
    let mut within = true;
    for changes in staged {
        within &= reserve(contents, alloc, &changes.partition, &changes.changes)?;
    }
    Ok(within)
}

/// Whether what is held of a partition stays within 16 MiB with its changes.
fn fits(contents: &Contents, staged: &Staged) -> bool
    requires { IsReadyAt contents.now staged.now.partition staged.now.changes }
    ensures within { IsTrue result → IsWithin contents.now staged.now }
    ensures past { result ≡ false → IsPast contents.now staged.now }
{
    match contents.get(&staged.partition) {
        Some(content) => stays_within(content, &staged.changes),
        None => true,
    }
}

/// The same of a partition that is staged.
fn fits_at(contents: &Contents, staged: &[Staged], partition: &Partition) -> bool
    requires ready { AreReady contents.now staged.now }
    requires there { IsStagedAt staged.now partition.now }
    ensures within { IsTrue result → StaysWithin contents.now staged.now partition.now }
    ensures past { result ≡ false → GrowsPast contents.now staged.now partition.now }
{
    for changes in staged {
        if is_same(&changes.partition, partition) {
            return fits(contents, changes);
        }
    }
    true
}

/// The first partition of the items of which too much would be held.
fn first_past<'a>(
    contents: &Contents,
    staged: &[Staged],
    items: &'a [LogItem],
) -> Option<&'a Partition>
    requires staging { IsStaging items.now staged.now }
    requires ready { AreReady contents.now staged.now }
    ensures none { IfNone result (AllStayWithin contents.now staged.now items.now) }
    ensures some { IfSome result (λ p. IsFirstPast contents.now staged.now items.now p.now) }
{
    for item in items {
        if let Some(mutation) = mutation_of(item) {
            if !fits_at(contents, staged, &mutation.partition) {
                return Some(&mutation.partition);
            }
        }
    }
    None
}

/// The same, where it may be known that each of them stays within: then nothing is looked up.
pub fn first_large<'a>(
    contents: &Contents,
    staged: &[Staged],
    items: &'a [LogItem],
    within: bool,
) -> Option<&'a Partition>
    requires staging { IsStaging items.now staged.now }
    requires ready { AreReady contents.now staged.now }
    requires within { IsTrue within → AllFit contents.now staged.now }
    ensures none { IfNone result (AllStayWithin contents.now staged.now items.now) }
    ensures some { IfSome result (λ p. IsFirstPast contents.now staged.now items.now p.now) }
{
    if within {
        return None;
    }
    first_past(contents, staged, items)
}

/// Takes the changes of a partition in at a node time.
fn take_staged(contents: &mut Contents, staged: Staged, at: Micros)
    requires ordered { IsOrdered partition_cmp contents.old }
    requires ready { IsReadyAt contents.old staged.partition staged.changes }
    ensures comes { Comes at contents.old contents.new staged }
    ensures ordered { IsOrdered partition_cmp contents.new }
    ensures others { (q : partition_value) → q ≢ staged.partition → get partition_cmp contents.new q ≡ get partition_cmp contents.old q }
{
    let Staged { partition, changes } = staged;
    take_in(contents, &partition, changes, at);
}

/// Takes all these changes in at a node time. It takes no memory.
pub fn take_all(contents: &mut Contents, staged: Vec<Staged>, at: Micros)
    requires ordered { IsOrdered partition_cmp contents.old }
    requires once { AreOnce staged.items }
    requires ready { AreReady contents.old staged.items }
    ensures comes { AllCome at contents.old contents.new staged.items }
    ensures ordered { IsOrdered partition_cmp contents.new }
{
    for changes in staged {
        take_staged(contents, changes, at);
    }
}
