//! What a load makes of the partitions.

ghost use Rattle.std.specs.Prelude.{◌≡◌, None, IfOk, OnOk};
ghost use Rattle.std.specs.BTreeMap.{IsOrdered, get};
ghost use Rattle.changes.specs.Order.{partition_cmp};
ghost use Rattle.list_replica.specs.Stores.{all_of, TakesData};

use crate::contents::Contents;
use cell_merge::Content;
use changes::Partition;
use cs_base::Micros;
use partition_content::LoadedContent;
use std::alloc::{AllocError, Global};
use std::collections::BTreeMap;

/// What the entries so far made, by partition.
pub type Loads = BTreeMap<Partition, LoadedContent>;

/// Takes changes of a partition in at a node time.
pub fn load_in(
    loads: &mut Loads,
    alloc: Global,
    partition: Partition,
    incoming: Content,
    at: Micros,
) -> Result<(), AllocError>
    requires { IsOrdered partition_cmp loads.old }
    ensures takes { OnOk result (TakesData at (record { partition = partition; changes = incoming }) loads.old loads.new) }
    ensures ordered { IsOrdered partition_cmp loads.new }
{
    match loads.get_mut(&partition) {
        Some(loaded) => loaded.add(incoming, at),
        None => begin(loads, alloc, partition, incoming, at),
    }
}

/// The same of a partition that isn't there yet.
fn begin(
    loads: &mut Loads,
    alloc: Global,
    partition: Partition,
    incoming: Content,
    at: Micros,
) -> Result<(), AllocError>
    requires ordered { IsOrdered partition_cmp loads.old }
    requires new { get partition_cmp loads.old partition ≡ None }
    ensures takes { OnOk result (TakesData at (record { partition = partition; changes = incoming }) loads.old loads.new) }
    ensures ordered { IsOrdered partition_cmp loads.new }
{
    let mut loaded = LoadedContent::new(alloc);
    match loaded.add(incoming, at) {
        Ok(()) => {
            drop(loads.insert(partition, loaded)?);
            Ok(())
        }
        Err(error) => {
            drop(loaded);
            drop(partition);
            Err(error)
        }
    }
}

/// The contents that they are at the end.
pub fn into_contents(alloc: Global, loads: Loads) -> Result<Contents, AllocError>
    ensures stored { IfOk result (λ contents. all_of contents.entries ≡ all_of loads.entries) }
    ensures ordered { IfOk result (λ contents. IsOrdered partition_cmp contents) }
{
    let mut contents = BTreeMap::new(alloc);
    for (partition, loaded) in loads {
        match loaded.into_content() {
            Ok(content) => drop(contents.insert(partition, content)?),
            Err(error) => {
                drop(partition);
                return Err(error);
            }
        }
    }
    Ok(contents)
}
