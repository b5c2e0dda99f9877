//! Copies of clients' requests.

ghost use Rattle.std.specs.Prelude.{◌≡◌, IfOk};

use changes::{Draft, DraftMutation, Drafts};
use cs_base::{Bytes, Items};
use peer_messages::{Ask, Plan};
use statement_plan::{ColumnNumbers, Columns};
use std::alloc::{AllocError, Global};

fn copy_value(alloc: Global, value: &Option<Bytes>) -> Result<Option<Bytes>, AllocError>
    ensures { IfOk result (λ copy. copy ≡ value.now) }
{
    match value {
        Some(bytes) => Ok(Some(bytes.copy(alloc)?)),
        None => Ok(None),
    }
}

fn copy_draft(alloc: Global, draft: &Draft) -> Result<Draft, AllocError>
    ensures { IfOk result (λ copy. copy ≡ draft.now) }
{
    Ok(Draft {
        place: draft.place.copy(alloc)?,
        value: copy_value(alloc, &draft.value)?,
        timestamp: draft.timestamp,
    })
}

fn copy_drafts(alloc: Global, drafts: &Drafts) -> Result<Drafts, AllocError>
    ensures { IfOk result (λ copy. copy ≡ drafts.now) }
{
    let mut copy = Vec::with_capacity(alloc, drafts.as_slice().len())?;
    for draft in drafts.as_slice() {
        copy.push(copy_draft(alloc, draft)?)?;
    }
    Ok(Items::from_vec(copy))
}

fn copy_mutation(alloc: Global, mutation: &DraftMutation) -> Result<DraftMutation, AllocError>
    ensures { IfOk result (λ copy. copy ≡ mutation.now) }
{
    Ok(DraftMutation {
        partition: mutation.partition.copy(alloc)?,
        changes: copy_drafts(alloc, &mutation.changes)?,
    })
}

fn copy_numbers(alloc: Global, numbers: &ColumnNumbers) -> Result<ColumnNumbers, AllocError>
    ensures { IfOk result (λ copy. copy ≡ numbers.now) }
{
    Ok(Items::from_vec(Vec::from_slice(alloc, numbers.as_slice())?))
}

fn copy_columns(alloc: Global, columns: &Columns) -> Result<Columns, AllocError>
    ensures { IfOk result (λ copy. copy ≡ columns.now) }
{
    match columns {
        Columns::Listed(numbers) => Ok(Columns::Listed(copy_numbers(alloc, numbers)?)),
        Columns::Count => Ok(Columns::Count),
    }
}

fn copy_plan(alloc: Global, plan: &Plan) -> Result<Plan, AllocError>
    ensures { IfOk result (λ copy. copy ≡ plan.now) }
{
    match plan {
        Plan::Write(mutation) => Ok(Plan::Write(copy_mutation(alloc, mutation)?)),
        Plan::Read(query, columns) => {
            Ok(Plan::Read(query.copy(alloc)?, copy_columns(alloc, columns)?))
        }
        Plan::Use(keyspace) => Ok(Plan::Use(keyspace.copy(alloc)?)),
        Plan::Invalid(fault) => Ok(Plan::Invalid(*fault)),
    }
}

/// An equal request in memory of its own.
pub fn copy_ask(alloc: Global, ask: &Ask) -> Result<Ask, AllocError>
    ensures { IfOk result (λ copy. copy ≡ ask.now) }
{
    Ok(Ask {
        plan: copy_plan(alloc, &ask.plan)?,
        level: ask.level,
    })
}
