//! What a load makes of a partition.

ghost use Rattle.std.specs.Prelude.{◌≡◌, ◌⊎◌, ◌++◌, [], map, IsTrue, IfOk, OnOk, OnErr};
ghost use Rattle.changes.specs.Contents.{IsMergeOf};
ghost use Rattle.changes.specs.Places.{AreInOrder};
ghost use Rattle.partition_content.specs.Arrivals.{held_of, ComeAt};
ghost use Rattle.partition_content.specs.Partition.{AreBare, changes_in};
ghost use Rattle.partition_content.specs.Runs.{IsLoaded};

use crate::memory::are_narrow;
use crate::runs::{goes_on, push_all};
use crate::{Arrived, PartitionContent};
use cell_merge::Content;
use changes::Held;
use cs_base::Micros;
use std::alloc::{AllocError, Global};
use std::marker::Model;
use std::mem;

/// The changes of a partition as a load takes them in. As long as cells and markers come in the order of their places they are
/// put into a list, of which a tree is made once: a search for the place of each would take most of the time of a load.
#[derive(Drop)]
pub struct LoadedContent {
    /// Changes that came in order. There are none once another one has come.
    run: Vec<Arrived>,
    content: PartitionContent,
    alloc: Global,
}

/// Whether the changes go on a run, beside which nothing is kept then.
fn takes_on(run: &[Arrived], content: &PartitionContent, changes: &[Held]) -> bool
    requires run { AreInOrder (map held_of run.now) }
    requires changes { AreInOrder changes.now }
    ensures ordered { IsTrue result → AreInOrder (map held_of run.now ++ changes.now) }
    ensures bare { IsTrue result → AreBare changes.now }
    ensures alone { IsTrue result → content.now.stored ≡ [] }
{
    if !content.is_empty() {
        return false;
    }
    if !are_narrow(changes) {
        return false;
    }
    goes_on(run, changes)
}

/// Makes the tree of a run, if there is any.
fn settle(
    run: &mut Vec<Arrived>,
    content: &mut PartitionContent,
    alloc: Global,
) -> Result<(), AllocError>
    requires { IsLoaded run.old.items content.old }
    ensures none { run.new.items ≡ [] }
    ensures stored { OnOk result (content.new.stored ≡ run.old.items ++ content.old.stored) }
    ensures err { OnErr result (content.new.stored ≡ []) }
{
    if !run.is_empty() {
        let changes = mem::replace(run, Vec::new(alloc));
        *content = PartitionContent::of_run(alloc, changes)?;
    }
    Ok(())
}

/// Takes changes in at a node time, with the memory that they need.
fn take_in(content: &mut PartitionContent, incoming: Content, at: Micros) -> Result<(), AllocError>
    ensures merge { OnOk result (IsMergeOf (changes_in content.new) (changes_in content.old) incoming) }
    ensures arrivals { OnOk result (ComeAt at content.old.stored content.new.stored) }
    ensures err { OnErr result (content.new.stored ≡ content.old.stored) }
{
    content.reserve(&incoming)?;
    content.apply(incoming, at);
    Ok(())
}

impl Model for LoadedContent {
    ghost use Rattle.std.specs.Prelude.{◌++◌, None};
    ghost use Rattle.partition_content.specs.Partition.{Partition};
    ghost use Rattle.partition_content.specs.Runs.{IsLoaded};

    ghost Value = { Partition };

    ghost view = { λ a. record { stored = a.run.items ++ a.content.stored; ready = None } };

    ghost invariant = { λ a. IsLoaded a.run.items a.content };
}

impl LoadedContent {
    /// No changes, without an allocation. Further memory comes from this allocator.
    pub fn new(alloc: Global) -> LoadedContent
        ensures { result.stored ≡ [] }
    {
        LoadedContent::from_content(alloc, PartitionContent::new(alloc))
    }

    /// What is kept of a partition, for further changes to come.
    pub fn from_content(alloc: Global, content: PartitionContent) -> LoadedContent
        ensures { result.stored ≡ content.stored }
    {
        LoadedContent {
            run: Vec::new(alloc),
            content,
            alloc,
        }
    }

    /// Takes changes in at a node time: the content is then that of both. What was there keeps its arrival, also where it comes
    /// again, and what was not comes at this time. It takes its memory as it goes: after an `Err` there is what was there, or
    /// nothing at all. Cells and markers behind all that came before cost the changes that come; the first others make a tree
    /// of what came before, and then each change costs what `PartitionContent::apply` costs.
    pub fn add(&mut self, incoming: Content, at: Micros) -> Result<(), AllocError>
        ensures content { OnOk result (IsMergeOf (changes_in self.new) (changes_in self.old) incoming) }
        ensures arrivals { OnOk result (ComeAt at self.old.stored self.new.stored) }
        ensures err { OnErr result ((self.new.stored ≡ self.old.stored) ⊎ (self.new.stored ≡ [])) }
    {
        if takes_on(&self.run, &self.content, incoming.as_slice()) {
            return push_all(&mut self.run, incoming.into_changes(), at);
        }
        settle(&mut self.run, &mut self.content, self.alloc)?;
        take_in(&mut self.content, incoming, at)
    }

    /// What is kept of the partition then. It makes the tree, if changes came in order alone.
    pub fn into_content(self) -> Result<PartitionContent, AllocError>
        ensures { IfOk result (λ content. content.stored ≡ self.stored) }
    {
        let mut loaded = self;
        settle(&mut loaded.run, &mut loaded.content, loaded.alloc)?;
        Ok(loaded.content)
    }
}
