//! A change that is let go of: what else is held of its partition is put together anew.

ghost use Rattle.std.specs.Prelude.{◌≡◌, filter, IfOk, OnOk};
ghost use Rattle.std.specs.BTreeMap.{IsOrdered};
ghost use Rattle.changes.specs.Order.{partition_cmp};
ghost use Rattle.durable_state.specs.Taking.{LetsGo};
ghost use Rattle.list_replica.specs.Removing.{is_other, is_same_held, IsAdded, IsWithout};
ghost use Rattle.list_replica.specs.Stores.{all_of};

use crate::loads::Loads;
use cell_merge::Content;
use changes::{Change, Held};
use partition_content::{Arrived, LoadedContent, PartitionContent};
use std::alloc::{AllocError, Global};
use std::mem;

/// Puts a change in at the time at which it came.
fn add(rest: &mut PartitionContent, alloc: Global, arrived: Arrived) -> Result<(), AllocError>
    ensures { OnOk result (IsAdded arrived rest.old.stored rest.new.stored) }
{
    let mut changes = Vec::new(alloc);
    changes.push(arrived.held)?;
    let incoming = Content::from_changes(alloc, changes)?;
    rest.reserve(&incoming)?;
    rest.apply(incoming, arrived.arrival);
    Ok(())
}

fn is_same(x: &Held, y: &Held) -> bool
    ensures { result ≡ is_same_held x.now y.now }
{
    x.place == y.place && x.rank(y).is_eq()
}

/// All that is stored but this change.
fn others(
    content: &PartitionContent,
    alloc: Global,
    held: &Held,
) -> Result<Vec<Arrived>, AllocError>
    ensures { IfOk result (λ all. all.items ≡ filter (is_other held.now) content.now.stored) }
{
    let mut all = content.stored(alloc)?;
    all.retain(|arrived| !is_same(&arrived.held, held));
    Ok(all)
}

/// The content of a partition without this change.
fn without(
    content: &PartitionContent,
    alloc: Global,
    held: &Held,
) -> Result<PartitionContent, AllocError>
    ensures { IfOk result (λ rest. IsWithout held.now content.now.stored rest.stored) }
{
    // Its clause tells that what is stored is in order, and that nothing there outranks another.
    let _ = content.encoded_length();
    let mut rest = PartitionContent::new(alloc);
    for arrived in others(content, alloc, held)? {
        add(&mut rest, alloc, arrived)?;
    }
    Ok(rest)
}

fn remove(loaded: &mut LoadedContent, alloc: Global, held: &Held) -> Result<(), AllocError>
    ensures { OnOk result (IsWithout held.now loaded.old.stored loaded.new.stored) }
{
    let content = mem::replace(loaded, LoadedContent::new(alloc)).into_content()?;
    let rest = without(&content, alloc, held);
    drop(content);
    drop(mem::replace(loaded, LoadedContent::from_content(alloc, rest?)));
    Ok(())
}

/// Lets go of a change of a partition, if it is held.
pub fn let_go(loads: &mut Loads, alloc: Global, change: &Change) -> Result<(), AllocError>
    requires { IsOrdered partition_cmp loads.old }
    ensures gone { OnOk result (LetsGo (all_of loads.old.entries) change.now (all_of loads.new.entries)) }
    ensures ordered { IsOrdered partition_cmp loads.new }
{
    match loads.get_mut(&change.partition) {
        Some(loaded) => remove(loaded, alloc, &change.held),
        None => Ok(()),
    }
}
