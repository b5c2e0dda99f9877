//! Partitions and mutations.

ghost use Rattle.std.specs.Prelude.{◌≡◌, ◌++◌, OnOk};
ghost use Rattle.stored_fields.specs.Reading.{Gives};
ghost use Rattle.stored_fields.specs.Spelling.{FitsField};
ghost use Rattle.stored_changes.specs.Reading.{mutation_at, partition_at};
ghost use Rattle.stored_changes.specs.Spelling.{MutationFits, MutationInRange, PartitionInRange, mutation as mutation_bytes, partition as partition_bytes};

use crate::change::{read_changes, write_changes};
use changes::{Mutation, Partition};
use std::alloc::{AllocError, Global};
use stored_fields::{Fault, Reader, write_field, write_i64, write_u16};

/// A table, a token and a key.
#[tactic(auto, unfolding(crate::specs::Reading::partition_at))]
pub fn read_partition(alloc: Global, reader: &mut Reader<'_>) -> Result<Partition, Fault>
    ensures { Gives (λ p. (p, reader.new.rest.now)) result (partition_at reader.old.rest.now) }
{
    let table = reader.u16()?;
    let token = reader.i64()?;
    let key = reader.field(alloc)?;
    Ok(Partition { token, table, key })
}

/// A partition and changes.
#[tactic(auto, unfolding(crate::specs::Reading::mutation_at))]
pub fn read_mutation(alloc: Global, reader: &mut Reader<'_>) -> Result<Mutation, Fault>
    ensures { Gives (λ m. (m, reader.new.rest.now)) result (mutation_at reader.old.rest.now) }
{
    let partition = read_partition(alloc, reader)?;
    let changes = read_changes(alloc, reader)?;
    Ok(Mutation { partition, changes })
}

/// A table, a token and a key.
pub fn write_partition(out: &mut Vec<u8>, partition: &Partition) -> Result<(), AllocError>
    requires { FitsField partition.now.key }
    ensures written { OnOk result (out.new.items ≡ out.old.items ++ partition_bytes partition.now) }
    ensures in_range { OnOk result (PartitionInRange partition.now) }
{
    write_u16(out, partition.table)?;
    write_i64(out, partition.token)?;
    write_field(out, &partition.key)
}

/// A partition and changes.
pub fn write_mutation(out: &mut Vec<u8>, mutation: &Mutation) -> Result<(), AllocError>
    requires { MutationFits mutation.now }
    ensures written { OnOk result (out.new.items ≡ out.old.items ++ mutation_bytes mutation.now) }
    ensures in_range { OnOk result (MutationInRange mutation.now) }
{
    write_partition(out, &mutation.partition)?;
    write_changes(out, mutation.changes.as_slice())
}
