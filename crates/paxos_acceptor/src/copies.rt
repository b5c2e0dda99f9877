//! Equal values in memory of their own.

ghost use Rattle.std.specs.Prelude.{◌≡◌, IfOk};

use changes::Helds;
use cs_base::Items;
use row_change::{PaxosRow, Stamped, Update};
use std::alloc::{AllocError, Global};

fn copy_changes(alloc: Global, changes: &Helds) -> Result<Helds, AllocError>
    ensures { IfOk result (λ copy. copy ≡ changes.now) }
{
    let mut copy = Vec::with_capacity(alloc, changes.as_slice().len())?;
    for held in changes.as_slice() {
        copy.push(held.copy(alloc)?)?;
    }
    Ok(Items::from_vec(copy))
}

/// A copy of an update.
pub fn copy_update(alloc: Global, update: &Update) -> Result<Update, AllocError>
    ensures { IfOk result (λ copy. copy ≡ update.now) }
{
    Ok(Update {
        request: update.request,
        base: update.base,
        changes: copy_changes(alloc, &update.changes)?,
    })
}

fn copy_stamped(alloc: Global, stamped: &Option<Stamped>) -> Result<Option<Stamped>, AllocError>
    ensures { IfOk result (λ copy. copy ≡ stamped.now) }
{
    match stamped {
        Some(stamped) => Ok(Some(Stamped {
            ballot: stamped.ballot,
            update: copy_update(alloc, &stamped.update)?,
        })),
        None => Ok(None),
    }
}

/// A copy of a row, with both of its updates.
pub fn copy_row(alloc: Global, row: &PaxosRow) -> Result<PaxosRow, AllocError>
    ensures { IfOk result (λ copy. copy ≡ row.now) }
{
    Ok(PaxosRow {
        promised: row.promised,
        took: row.took,
        accepted: copy_stamped(alloc, &row.accepted)?,
        commit: copy_stamped(alloc, &row.commit)?,
    })
}
