//! The keys that a change of a place needs, made before it is put in.

ghost use Rattle.std.specs.Prelude.{◌≡◌, IfOk};
ghost use Rattle.partition_content.specs.Keys.{row_end, span_in};

use crate::spots::Spot;
use changes::{Bound, Place};
use cs_base::Bytes;
use std::alloc::{AllocError, Global};

/// Where a change may outrank others, or be outranked but by deletions of ranges and of the partition.
#[derive(Debug, Drop)]
pub(crate) enum Span {
    /// A cell or a marker, where no deletion of rows is among the changes.
    Alone,
    /// A cell or a marker: the key of the deletion of its row.
    Under(Spot),
    /// The deletion of a row: a key behind those of the row.
    Row(Spot),
    /// The deletion of a range: its bounds.
    Rows(Spot, Spot),
    /// The deletion of the partition.
    All,
}

/// The keys of a place: its own, and those between which other changes are told by it.
#[derive(Debug, Drop)]
pub(crate) struct Keys {
    pub(crate) at: Spot,
    pub(crate) span: Span,
}

fn behind_row(alloc: Global, row: &Bytes) -> Result<Span, AllocError>
    ensures { IfOk result (λ span. span ≡ Span.Row (row_end row.now)) }
{
    Ok(Span::Row(Spot::Edge(Bound {
        at: row.copy(alloc)?,
        after: true,
    })))
}

fn span_in_row(alloc: Global, bare: bool, row: &Bytes) -> Result<Span, AllocError>
    ensures { IfOk result (λ span. span ≡ span_in bare row.now) }
{
    if bare {
        return Ok(Span::Alone);
    }
    Ok(Span::Under(Spot::At(Place::RowGone(row.copy(alloc)?))))
}

fn copy_span(alloc: Global, from: &Bound, upto: &Bound) -> Result<Span, AllocError>
    ensures { IfOk result (λ span. span ≡ Span.Rows (Spot.Edge from.now) (Spot.Edge upto.now)) }
{
    let from = Spot::of_bound(alloc, from)?;
    match Spot::of_bound(alloc, upto) {
        Ok(upto) => Ok(Span::Rows(from, upto)),
        Err(error) => {
            drop(from);
            Err(error)
        }
    }
}

impl Keys {
    ghost use Rattle.partition_content.specs.Keys.{span_for, keys_for};

    fn span(alloc: Global, bare: bool, place: &Place) -> Result<Span, AllocError>
        ensures { IfOk result (λ span. span ≡ span_for bare place.now) }
    {
        match place {
            Place::Cell(row, _) | Place::Marker(row) => span_in_row(alloc, bare, row),
            Place::RowGone(row) => behind_row(alloc, row),
            Place::RangeGone(from, upto) => copy_span(alloc, from, upto),
            Place::PartGone => Ok(Span::All),
        }
    }

    /// The keys of a place. Where no deletion of rows is among the changes, a cell needs but its own.
    pub(crate) fn of(alloc: Global, bare: bool, place: &Place) -> Result<Keys, AllocError>
        ensures { IfOk result (λ keys. keys ≡ keys_for bare place.now) }
    {
        let at = Spot::of_place(alloc, place)?;
        match Keys::span(alloc, bare, place) {
            Ok(span) => Ok(Keys { at, span }),
            Err(error) => {
                drop(at);
                Err(error)
            }
        }
    }
}
