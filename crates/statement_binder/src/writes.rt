//! What statements that change rows ask for, one alone or a batch.

ghost use Rattle.std.specs.Prelude.{◌≡◌, ◌++◌, IfOk, OnOk};
ghost use Rattle.std.specs.List.{list_any};
ghost use Rattle.std.specs.Vec.Iter.{into_iter_items};
ghost use Rattle.statement_binder.specs.Answers.{Gives, checked};
ghost use Rattle.statement_binder.specs.Plans.{operation_plan, operation_of as operation_of_change, write_plan, filled_change, change_plan, batch_piece as batch_piece_of, pieces_of, behind_all, pieces_fault as pieces_fault_of, is_elsewhere as is_elsewhere_of, is_scattered as is_scattered_of, scatter_fault as scatter_fault_of, batch_fault as batch_fault_of, drafts_of, mutation_of_pieces, filled_batch, batch_plan};
ghost use Rattle.statement_binder.specs.Supplies.{left_for, next_filled, behind_next};

use crate::drafts::timestamp_or;
use crate::error::BindError;
use crate::filled::Filled;
use crate::piece::{Piece, operation_of, piece_of};
use crate::supply::Supply;
use changes::{Draft, DraftMutation, Partition};
use cs_base::Items;
use prepared_statement::{Batch, Change, condition_fault, is_conditional, lower};
use statement_plan::{Fault, Feature, Plan};
use std::alloc::{AllocError, Global};
use std::vec::IntoIter;

fn check(fault: Option<Fault>) -> Result<(), BindError>
    ensures { result ≡ checked fault }
{
    match fault {
        Some(fault) => Err(BindError::Refused(fault)),
        None => Ok(()),
    }
}

fn operation(
    alloc: Global,
    change: &Change,
    filled: Filled,
    excess: Option<Fault>,
) -> Result<Plan, BindError>
    ensures { Gives result (operation_plan excess (operation_of_change change.now filled)) }
{
    let (fault, operation) = operation_of(alloc, change, filled)?;
    check(lower(fault, excess)).and(Ok(Plan::Conditional(operation)))
}

fn write(piece: Piece, excess: Option<Fault>) -> Result<Plan, BindError>
    ensures { Gives result (write_plan excess piece) }
{
    let fault = lower(piece.fault, excess);
    let mutation = DraftMutation {
        partition: piece.partition,
        changes: piece.drafts,
    };
    check(fault).and(Ok(Plan::Write(mutation)))
}

fn filled_plan(
    alloc: Global,
    timestamp: Option<i64>,
    change: &Change,
    filled: Filled,
    excess: Option<Fault>,
) -> Result<Plan, BindError>
    ensures { Gives result (filled_change timestamp change.now filled excess) }
{
    if is_conditional(change.guard) {
        operation(alloc, change, filled, excess)
    } else {
        write(piece_of(alloc, timestamp, change, filled)?, excess)
    }
}

/// What a statement that changes rows asks for.
pub(crate) fn change(
    alloc: Global,
    timestamp: Option<i64>,
    change: &Change,
    supply: Supply,
) -> Result<Plan, BindError>
    ensures { Gives result (change_plan timestamp change.now (left_for supply.entry)) }
{
    let mut supply = supply;
    let filled = supply.fill(alloc, change.slots.as_slice())?;
    filled_plan(alloc, timestamp, change, filled, supply.excess())
}

fn batch_piece(
    alloc: Global,
    timestamp: Option<i64>,
    change: &Change,
    filled: Filled,
) -> Result<Piece, AllocError>
    ensures { IfOk result (λ piece. piece ≡ batch_piece_of timestamp change.now filled) }
{
    let mut piece = piece_of(alloc, timestamp, change, filled)?;
    piece.fault = lower(condition_fault(change.guard), piece.fault);
    Ok(piece)
}

fn next_piece(
    alloc: Global,
    timestamp: Option<i64>,
    supply: &mut Supply,
    change: &Change,
) -> Result<Piece, AllocError>
    ensures value { IfOk result (λ piece. piece ≡ batch_piece_of timestamp change.now (next_filled (left_for supply.old) change.now.slots)) }
    ensures left { OnOk result (left_for supply.new ≡ behind_next (left_for supply.old) change.now.slots) }
{
    let filled = supply.fill(alloc, change.slots.as_slice())?;
    batch_piece(alloc, timestamp, change, filled)
}

/// The statements of a batch, one after another.
fn pieces(
    alloc: Global,
    timestamp: Option<i64>,
    supply: &mut Supply,
    changes: &[Change],
) -> Result<Items<Piece>, AllocError>
    ensures values { IfOk result (λ ps. ps ≡ pieces_of timestamp (left_for supply.old) changes.now) }
    ensures left { OnOk result (left_for supply.new ≡ behind_all (left_for supply.old) changes.now) }
{
    let mut pieces = Items::new(alloc);
    for change in changes {
        pieces.push(next_piece(alloc, timestamp, supply, change)?)?;
    }
    Ok(pieces)
}

fn pieces_fault(pieces: &[Piece]) -> Option<Fault>
    ensures { result ≡ pieces_fault_of pieces.now }
{
    let mut fault = None;
    for piece in pieces {
        fault = lower(fault, piece.fault);
    }
    fault
}

fn is_elsewhere(partition: &Partition, piece: &Piece) -> bool
    ensures { result ≡ is_elsewhere_of partition.now piece.now }
{
    *partition != piece.partition
}

fn some_elsewhere(partition: &Partition, pieces: &[Piece]) -> bool
    ensures { result ≡ list_any (is_elsewhere_of partition.now) pieces.now }
{
    pieces.iter().any(|piece| is_elsewhere(partition, piece))
}

fn is_scattered(pieces: &[Piece]) -> bool
    ensures { result ≡ is_scattered_of pieces.now }
{
    match pieces {
        [] => true,
        [first, rest @ ..] => some_elsewhere(&first.partition, rest),
    }
}

fn scatter_fault(pieces: &[Piece]) -> Option<Fault>
    ensures { result ≡ scatter_fault_of pieces.now }
{
    if is_scattered(pieces) {
        Some(Fault::NotSupported(Feature::Batch))
    } else {
        None
    }
}

fn batch_fault(front: Option<Fault>, excess: Option<Fault>, pieces: &[Piece]) -> Option<Fault>
    ensures { result ≡ batch_fault_of front excess pieces.now }
{
    lower(
        lower(front, excess),
        lower(pieces_fault(pieces), scatter_fault(pieces)),
    )
}

/// Adds the changes of the statements, one after another.
fn add_drafts(drafts: &mut Vec<Draft>, pieces: IntoIter<Piece>) -> Result<(), AllocError>
    ensures { OnOk result (drafts.new.items ≡ drafts.old.items ++ drafts_of (into_iter_items pieces)) }
{
    for piece in pieces {
        drafts.append(&mut piece.drafts.into_vec())?;
    }
    Ok(())
}

/// All changes of the statements, as one mutation of the first's partition.
fn gather(pieces: Items<Piece>) -> Result<Plan, BindError>
    ensures { Gives result (mutation_of_pieces pieces) }
{
    let mut pieces = pieces.into_vec().into_iter();
    match pieces.next() {
        None => Err(BindError::Refused(Fault::NotSupported(Feature::Batch))),
        Some(first) => {
            let Piece {
                partition,
                drafts,
                ..
            } = first;
            let mut drafts = drafts.into_vec();
            add_drafts(&mut drafts, pieces)?;
            Ok(Plan::Write(DraftMutation {
                partition,
                changes: Items::from_vec(drafts),
            }))
        }
    }
}

fn batch_of_pieces(
    front: Option<Fault>,
    excess: Option<Fault>,
    pieces: Items<Piece>,
) -> Result<Plan, BindError>
    ensures { Gives result (filled_batch front excess pieces) }
{
    match batch_fault(front, excess, pieces.as_slice()) {
        Some(fault) => Err(BindError::Refused(fault)),
        None => gather(pieces),
    }
}

/// What a batch asks for.
pub(crate) fn batch(
    alloc: Global,
    timestamp: Option<i64>,
    batch: &Batch,
    supply: Supply,
) -> Result<Plan, BindError>
    ensures { Gives result (batch_plan timestamp batch.now (left_for supply.entry)) }
{
    let mut supply = supply;
    let front = supply.fill_front(alloc, batch.slots.as_slice())?;
    let timestamp = timestamp_or(front.timestamp, timestamp);
    let fault = front.fault;
    drop(front);
    let pieces = pieces(alloc, timestamp, &mut supply, batch.changes.as_slice())?;
    batch_of_pieces(fault, supply.excess(), pieces)
}
