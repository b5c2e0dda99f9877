//! The changes that a statement makes.

ghost use Rattle.std.specs.Prelude.{◌≡◌, ◌++◌, [], ◌∷◌, IfOk, OnOk};
ghost use Rattle.std.specs.Vec.Iter.{into_iter_items};
ghost use Rattle.statement_binder.specs.Changes.{timestamp_or as timestamp_or_of, draft_at as draft_at_of, cell_draft as cell_draft_of, cell_drafts, row_drafts as row_drafts_of, drafts_at as drafts_at_of};

use crate::filled::CellValue;
use crate::reach::Reach;
use changes::{Draft, Drafts, Place};
use cs_base::{Bytes, Items};
use prepared_statement::Action;
use std::alloc::{AllocError, Global};
use std::vec::IntoIter;

/// A statement's own timestamp, or else this one.
pub(crate) fn timestamp_or(own: Option<i64>, other: Option<i64>) -> Option<i64>
    ensures { result ≡ timestamp_or_of own other }
{
    own.or(other)
}

fn draft_at(timestamp: Option<i64>, place: Place, value: Option<Bytes>) -> Draft
    ensures { result ≡ draft_at_of timestamp place value }
{
    Draft {
        place,
        value,
        timestamp,
    }
}

fn cell_draft(
    alloc: Global,
    timestamp: Option<i64>,
    row: &Bytes,
    cell: CellValue,
) -> Result<Draft, AllocError>
    ensures { IfOk result (λ draft. draft ≡ cell_draft_of timestamp row.now cell) }
{
    let place = Place::Cell(row.copy(alloc)?, cell.column);
    Ok(draft_at(timestamp, place, cell.value))
}

/// Adds the changes of cells.
fn add_cells(
    drafts: &mut Vec<Draft>,
    alloc: Global,
    timestamp: Option<i64>,
    row: &Bytes,
    cells: IntoIter<CellValue>,
) -> Result<(), AllocError>
    ensures { OnOk result (drafts.new.items ≡ drafts.old.items ++ cell_drafts timestamp row.now (into_iter_items cells)) }
{
    for cell in cells {
        drafts.push(cell_draft(alloc, timestamp, row, cell)?)?;
    }
    Ok(())
}

fn row_drafts(
    alloc: Global,
    action: Action,
    timestamp: Option<i64>,
    row: &Bytes,
    cells: Items<CellValue>,
) -> Result<Drafts, AllocError>
    ensures { IfOk result (λ drafts. drafts ≡ row_drafts_of action timestamp row.now cells) }
{
    let cells = cells.into_vec();
    let mut drafts = Vec::with_capacity(alloc, cells.len() + 1)?;
    match action {
        Action::Insert => {
            let marker = Place::Marker(row.copy(alloc)?);
            drafts.push(draft_at(timestamp, marker, Some(Bytes::new(alloc))))?;
            add_cells(&mut drafts, alloc, timestamp, row, cells.into_iter())?;
        }
        Action::Set => add_cells(&mut drafts, alloc, timestamp, row, cells.into_iter())?,
        Action::DeleteRow | Action::DeleteRows | Action::DeletePartition => {
            drafts.push(draft_at(timestamp, Place::RowGone(row.copy(alloc)?), None))?;
        }
    }
    Ok(Items::from_vec(drafts))
}

fn only(alloc: Global, draft: Draft) -> Result<Drafts, AllocError>
    ensures { IfOk result (λ drafts. drafts ≡ draft ∷ []) }
{
    let mut drafts = Vec::with_capacity(alloc, 1)?;
    drafts.push(draft)?;
    Ok(Items::from_vec(drafts))
}

/// The changes of a statement, at this timestamp, or else at the start time of the request.
pub(crate) fn drafts_at(
    alloc: Global,
    action: Action,
    timestamp: Option<i64>,
    reach: Reach,
    cells: Items<CellValue>,
) -> Result<Drafts, AllocError>
    ensures { IfOk result (λ drafts. drafts ≡ drafts_at_of action timestamp reach cells) }
{
    match reach {
        Reach::Row(row) => row_drafts(alloc, action, timestamp, &row, cells),
        Reach::Rows(bounds) => {
            let place = Place::RangeGone(bounds.from, bounds.upto);
            only(alloc, draft_at(timestamp, place, None))
        }
        Reach::Whole => only(alloc, draft_at(timestamp, Place::PartGone, None)),
    }
}
