//! What is held, by partition.

ghost use Rattle.std.specs.Prelude.{◌≡◌, ◌≢◌, ◌↔◌, false, [], ◌∷◌, ◌++◌, None, Contains, IsTrue, IfOk, OnOk};
ghost use Rattle.std.specs.BTreeMap.{IsOrdered, get};
ghost use Rattle.std.specs.List.Sorted.{IsStrictlySortedBy};
ghost use Rattle.cs_base.specs.Ring.{in_range};
ghost use Rattle.changes.specs.declared.Held.{Held as held_value};
ghost use Rattle.changes.specs.declared.Partition.{Partition as partition_value};
ghost use Rattle.changes.specs.Order.{partition_cmp};
ghost use Rattle.changes.specs.Queries.{MeetsBounds};
ghost use Rattle.partition_content.specs.Partition.{changes_in, IsReadyFor};
ghost use Rattle.durable_state.specs.State.{changes_of, Holds};
ghost use Rattle.durable_state.specs.Taking.{ArriveAt, TakesIn};
ghost use Rattle.list_replica.specs.Stores.{all_of, listed, IsReadyAt};
ghost use Rattle.list_replica.specs.Staging.{Comes, FitsAt, IsMergedWithin, IsMergedPast};

use cell_merge::Content;
use changes::{Bound, Partition, encoded_length};
use cs_base::{Items, Micros, Range};
use partition_content::PartitionContent;
use replica::Partitions;
use std::alloc::{AllocError, Global};
use std::collections::BTreeMap;

/// The contents of partitions. One of which nothing is held may stand there too, for changes to come.
pub type Contents = BTreeMap<Partition, PartitionContent>;

/// The most bytes of what is held of a partition, as it is stored: 16 MiB.
const MAX_CONTENT: u64 = 1 << 24;

/// Whether a content stays within 16 MiB with these changes. Mostly it does with all of them, whatever they take the place of,
/// which costs no look at the content.
pub fn stays_within(content: &PartitionContent, changes: &Content) -> bool
    requires { IsReadyFor content.now changes.now }
    ensures within { IsTrue result → IsMergedWithin (changes_in content.now) changes.now }
    ensures past { result ≡ false → IsMergedPast (changes_in content.now) changes.now }
{
    let most = content
        .encoded_length()
        .saturating_add(encoded_length(changes.as_slice()));
    if most <= MAX_CONTENT {
        return true;
    }
    content.length_with(changes) <= MAX_CONTENT
}

/// Takes the memory that these changes need, and tells whether the content stays within 16 MiB with them.
fn reserve_in(content: &mut PartitionContent, incoming: &Content) -> Result<bool, AllocError>
    ensures ready { OnOk result (IsReadyFor content.new incoming.now) }
    ensures within { IfOk result (λ within. IsTrue within → IsMergedWithin (changes_in content.new) incoming.now) }
    ensures stored { content.new.stored ≡ content.old.stored }
{
    content.reserve(incoming)?;
    Ok(stays_within(content, incoming))
}

/// Takes the memory that `take_in` needs for these changes of a partition, and tells whether what is held of it stays within
/// 16 MiB with them: the partition is looked up once for both.
pub fn reserve(
    contents: &mut Contents,
    alloc: Global,
    partition: &Partition,
    incoming: &Content,
) -> Result<bool, AllocError>
    requires { IsOrdered partition_cmp contents.old }
    ensures ready { OnOk result (IsReadyAt contents.new partition.now incoming.now) }
    ensures within { IfOk result (λ within. IsTrue within → FitsAt contents.new partition.now incoming.now) }
    ensures stored { all_of contents.new.entries ≡ all_of contents.old.entries }
    ensures ordered { IsOrdered partition_cmp contents.new }
    ensures others { (q : partition_value) → q ≢ partition.now → get partition_cmp contents.new q ≡ get partition_cmp contents.old q }
{
    match contents.get_mut(partition) {
        Some(content) => reserve_in(content, incoming),
        None => begin(contents, alloc, partition, incoming),
    }
}

/// The same of a partition that isn't there yet.
fn begin(
    contents: &mut Contents,
    alloc: Global,
    partition: &Partition,
    incoming: &Content,
) -> Result<bool, AllocError>
    requires ordered { IsOrdered partition_cmp contents.old }
    requires new { get partition_cmp contents.old partition.now ≡ None }
    ensures ready { OnOk result (IsReadyAt contents.new partition.now incoming.now) }
    ensures within { IfOk result (λ within. IsTrue within → FitsAt contents.new partition.now incoming.now) }
    ensures stored { all_of contents.new.entries ≡ all_of contents.old.entries }
    ensures ordered { IsOrdered partition_cmp contents.new }
    ensures others { (q : partition_value) → q ≢ partition.now → get partition_cmp contents.new q ≡ get partition_cmp contents.old q }
{
    let key = partition.copy(alloc)?;
    let mut content = PartitionContent::new(alloc);
    match reserve_in(&mut content, incoming) {
        Ok(within) => {
            drop(contents.insert(key, content)?);
            Ok(within)
        }
        Err(error) => {
            drop(content);
            drop(key);
            Err(error)
        }
    }
}

/// Takes changes in at a node time, for which there is memory.
pub fn take_in(contents: &mut Contents, partition: &Partition, incoming: Content, at: Micros)
    requires ordered { IsOrdered partition_cmp contents.old }
    requires ready { IsReadyAt contents.old partition.now incoming }
    ensures takes { TakesIn (changes_of (all_of contents.old.entries)) partition.now incoming (changes_of (all_of contents.new.entries)) }
    ensures arrivals { ArriveAt at (all_of contents.old.entries) (all_of contents.new.entries) }
    ensures comes { Comes at contents.old contents.new (record { partition = partition.now; changes = incoming }) }
    ensures ordered { IsOrdered partition_cmp contents.new }
    ensures others { (q : partition_value) → q ≢ partition.now → get partition_cmp contents.new q ≡ get partition_cmp contents.old q }
{
    match contents.get_mut(partition) {
        Some(content) => content.apply(incoming, at),
        None => {}
    }
}

/// All that is held of the rows of a partition between two bounds.
pub fn between(
    contents: &Contents,
    alloc: Global,
    partition: &Partition,
    from: &Bound,
    upto: &Bound,
) -> Result<Content, AllocError>
    requires { IsOrdered partition_cmp contents.now }
    ensures { IfOk result (λ part. (x : held_value) → Contains part x ↔ (Holds (changes_of (all_of contents.now.entries)) partition.now x × MeetsBounds from.now upto.now x.place)) }
{
    match contents.get(partition) {
        Some(content) => content.slice(alloc, from, upto),
        None => Ok(Content::new(alloc)),
    }
}

/// Puts a partition behind others, if something is held of it and its token is in the range.
fn list_one(
    partitions: &mut Vec<Partition>,
    alloc: Global,
    range: &Range,
    partition: &Partition,
    content: &PartitionContent,
) -> Result<(), AllocError>
    ensures { OnOk result (partitions.new.items ≡ partitions.old.items ++ listed range.now ((partition.now, content.now) ∷ [])) }
{
    if !content.is_empty() && range.contains(partition.token) {
        partitions.push(partition.copy(alloc)?)?;
    }
    Ok(())
}

fn list_all(contents: &Contents, alloc: Global, range: &Range) -> Result<Vec<Partition>, AllocError>
    ensures { IfOk result (λ ps. ps.items ≡ listed range.now contents.now.entries) }
{
    let mut partitions = Vec::new(alloc);
    for (partition, content) in contents.iter() {
        list_one(&mut partitions, alloc, range, partition, content)?;
    }
    Ok(partitions)
}

/// The partitions of which something is held, with a token in the range, in order.
pub fn partitions(
    contents: &Contents,
    alloc: Global,
    range: &Range,
) -> Result<Partitions, AllocError>
    requires { IsOrdered partition_cmp contents.now }
    ensures held { IfOk result (λ ps. (p : partition_value) → Contains ps p ↔ (((x : held_value) × Holds (changes_of (all_of contents.now.entries)) p x) × IsTrue (in_range range.now p.token))) }
    ensures in_order { IfOk result (λ ps. IsStrictlySortedBy partition_cmp ps) }
{
    let partitions = list_all(contents, alloc, range)?;
    Ok(Items::from_vec(partitions))
}
