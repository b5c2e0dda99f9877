//! Equal values in memory of their own.

ghost use Rattle.std.specs.Prelude.{◌≡◌, IfOk};

use crate::{Bound, Held, Helds, Mutation, Partition, Place, Query};
use cs_base::{Bytes, Items};
use std::alloc::{AllocError, Global};

#[inline(always)]
pub(crate) fn copy_value(alloc: Global, value: &Option<Bytes>) -> Result<Option<Bytes>, AllocError>
    ensures { IfOk result (λ copy. copy ≡ value.now) }
{
    match value {
        Some(bytes) => Ok(Some(bytes.copy(alloc)?)),
        None => Ok(None),
    }
}

fn copy_helds(alloc: Global, helds: &Helds) -> Result<Helds, AllocError>
    ensures { IfOk result (λ copy. copy ≡ helds.now) }
{
    let mut copy = Vec::with_capacity(alloc, helds.as_slice().len())?;
    for held in helds.as_slice() {
        copy.push(held.copy(alloc)?)?;
    }
    Ok(Items::from_vec(copy))
}

impl Partition {
    pub fn copy(&self, alloc: Global) -> Result<Partition, AllocError>
        ensures { IfOk result (λ copy. copy ≡ self.now) }
    {
        Ok(Partition {
            table: self.table,
            token: self.token,
            key: self.key.copy(alloc)?,
        })
    }
}

impl Bound {
    pub fn copy(&self, alloc: Global) -> Result<Bound, AllocError>
        ensures { IfOk result (λ copy. copy ≡ self.now) }
    {
        Ok(Bound {
            at: self.at.copy(alloc)?,
            after: self.after,
        })
    }
}

/// Few places are of ranges: kept out of the callers of `Place::copy`.
#[inline(never)]
fn copy_range(alloc: Global, from: &Bound, upto: &Bound) -> Result<Place, AllocError>
    ensures { IfOk result (λ copy. copy ≡ Place.RangeGone from.now upto.now) }
{
    Ok(Place::RangeGone(from.copy(alloc)?, upto.copy(alloc)?))
}

impl Place {
    #[inline(always)]
    pub fn copy(&self, alloc: Global) -> Result<Place, AllocError>
        ensures { IfOk result (λ copy. copy ≡ self.now) }
    {
        match self {
            Place::Cell(row, column) => Ok(Place::Cell(row.copy(alloc)?, *column)),
            Place::Marker(row) => Ok(Place::Marker(row.copy(alloc)?)),
            Place::RowGone(row) => Ok(Place::RowGone(row.copy(alloc)?)),
            Place::RangeGone(from, upto) => copy_range(alloc, from, upto),
            Place::PartGone => Ok(Place::PartGone),
        }
    }
}

impl Held {
    pub fn copy(&self, alloc: Global) -> Result<Held, AllocError>
        ensures { IfOk result (λ copy. copy ≡ self.now) }
    {
        Ok(Held {
            place: self.place.copy(alloc)?,
            value: copy_value(alloc, &self.value)?,
            timestamp: self.timestamp,
            submitted: self.submitted,
            request: self.request,
        })
    }
}

impl Mutation {
    pub fn copy(&self, alloc: Global) -> Result<Mutation, AllocError>
        ensures { IfOk result (λ copy. copy ≡ self.now) }
    {
        Ok(Mutation {
            partition: self.partition.copy(alloc)?,
            changes: copy_helds(alloc, &self.changes)?,
        })
    }
}

impl Query {
    pub fn copy(&self, alloc: Global) -> Result<Query, AllocError>
        ensures { IfOk result (λ copy. copy ≡ self.now) }
    {
        Ok(Query {
            partition: self.partition.copy(alloc)?,
            from: self.from.copy(alloc)?,
            upto: self.upto.copy(alloc)?,
            reversed: self.reversed,
            limit: self.limit,
        })
    }
}
