//! What one statement asks for, with its values.

ghost use Rattle.std.specs.Prelude.{◌≡◌, None, IfOk};
ghost use Rattle.statement_binder.specs.Changes.{drafts_at as drafts_at_of, reach_of as reach_of_action, timestamp_or as timestamp_or_of};
ghost use Rattle.statement_binder.specs.Plans.{aim_at, aimed as aimed_of, piece_of as piece_of_change, operation_of as operation_of_change, own_fault as own_fault_of, test_of as test_of_guard, partition_by};

use crate::drafts::{drafts_at, timestamp_or};
use crate::filled::Filled;
use crate::reach::{Reach, reach_of, size_fault};
use changes::{Drafts, Partition};
use cs_base::{Bytes, Items};
use key_restrictions::partition_of;
use prepared_statement::{Change, Guard, lower};
use statement_plan::{CellTests, ColumnNumbers, Columns, ConditionalOperation, Fault, Test};
use std::alloc::{AllocError, Global};

/// The changes of a statement, and the lowest of its refusals, with which they mean nothing.
#[derive(Debug, Drop)]
pub(crate) struct Piece {
    pub(crate) fault: Option<Fault>,
    pub(crate) partition: Partition,
    pub(crate) drafts: Drafts,
}

/// The partition that a statement names.
fn partition(alloc: Global, change: &Change, filled: &Filled) -> Result<Partition, AllocError>
    ensures { IfOk result (λ partition. partition ≡ partition_by change.now filled.now) }
{
    let columns = change.columns.as_slice();
    partition_of(alloc, change.table, columns, filled.keys.as_slice())
}

/// What of the partition a statement names.
fn reach(alloc: Global, change: &Change, filled: &Filled) -> Result<Reach, AllocError>
    ensures { IfOk result (λ reach. reach ≡ reach_of_action change.now.action change.now.columns filled.now.keys) }
{
    let columns = change.columns.as_slice();
    reach_of(alloc, change.action, columns, filled.keys.as_slice())
}

/// The lowest refusal of a statement by itself.
fn own_fault(
    change: &Change,
    filled: &Filled,
    partition: &Partition,
    reach: &Reach,
) -> Option<Fault>
    ensures { result ≡ own_fault_of change.now filled.now partition.now reach.now }
{
    lower(
        change.fault,
        lower(filled.fault, size_fault(partition, reach)),
    )
}

/// The changes at a timestamp, unless the statement has its own.
fn drafts_of(
    alloc: Global,
    timestamp: Option<i64>,
    change: &Change,
    reach: Reach,
    filled: Filled,
) -> Result<Drafts, AllocError>
    ensures { IfOk result (λ drafts. drafts ≡ drafts_at_of change.now.action (timestamp_or_of filled.timestamp timestamp) reach filled.cells) }
{
    let timestamp = timestamp_or(filled.timestamp, timestamp);
    drafts_at(alloc, change.action, timestamp, reach, filled.cells)
}

/// What a statement asks for at a timestamp, unless it has its own.
pub(crate) fn piece_of(
    alloc: Global,
    timestamp: Option<i64>,
    change: &Change,
    filled: Filled,
) -> Result<Piece, AllocError>
    ensures { IfOk result (λ piece. piece ≡ piece_of_change timestamp change.now filled) }
{
    let partition = partition(alloc, change, &filled)?;
    let reach = reach(alloc, change, &filled)?;
    let fault = own_fault(change, &filled, &partition, &reach);
    let drafts = drafts_of(alloc, timestamp, change, reach, filled)?;
    Ok(Piece {
        fault,
        partition,
        drafts,
    })
}

fn test_of(guard: Guard, tests: CellTests) -> Test
    ensures { result ≡ test_of_guard guard tests }
{
    match guard {
        Guard::Always | Guard::Exists => Test::Present,
        Guard::NotExists => Test::Absent,
        Guard::Tests => Test::Cells(tests),
    }
}

/// Equal numbers.
pub(crate) fn copied(alloc: Global, numbers: &ColumnNumbers) -> Result<ColumnNumbers, AllocError>
    ensures { IfOk result (λ copy. copy ≡ numbers.now) }
{
    Ok(Items::from_vec(Vec::from_slice(alloc, numbers.as_slice())?))
}

/// Where a conditional statement acts, and what it shows.
#[derive(Drop)]
struct Aim {
    fault: Option<Fault>,
    partition: Partition,
    row: Bytes,
    shown: ColumnNumbers,
}

fn aim_by(alloc: Global, change: &Change, filled: &Filled, reach: &Reach) -> Result<Aim, AllocError>
    ensures { IfOk result (λ aim. aim ≡ aim_at change.now filled.now reach.now) }
{
    let partition = partition(alloc, change, filled)?;
    let fault = own_fault(change, filled, &partition, reach);
    let row = reach.row(alloc)?;
    let shown = copied(alloc, &change.shown)?;
    Ok(Aim {
        fault,
        partition,
        row,
        shown,
    })
}

fn changes_and_test(
    alloc: Global,
    change: &Change,
    reach: Reach,
    filled: Filled,
) -> Result<(Drafts, Test), AllocError>
    ensures { IfOk result (λ x. x ≡ (drafts_at_of change.now.action None reach filled.cells, test_of_guard change.now.guard filled.tests)) }
{
    let test = test_of(change.guard, filled.tests);
    let changes = drafts_at(alloc, change.action, None, reach, filled.cells)?;
    Ok((changes, test))
}

fn aimed(aim: Aim, changes: Drafts, test: Test) -> (Option<Fault>, ConditionalOperation)
    ensures { result ≡ aimed_of aim changes test }
{
    let operation = ConditionalOperation {
        partition: aim.partition,
        row: aim.row,
        test,
        changes,
        shown: Columns::Listed(aim.shown),
    };
    (aim.fault, operation)
}

/// The operation of a conditional statement, with all changes that it asks for, and the lowest of its refusals, with which
/// it means nothing.
pub(crate) fn operation_of(
    alloc: Global,
    change: &Change,
    filled: Filled,
) -> Result<(Option<Fault>, ConditionalOperation), AllocError>
    ensures { IfOk result (λ operation. operation ≡ operation_of_change change.now filled) }
{
    let reach = reach(alloc, change, &filled)?;
    let aim = aim_by(alloc, change, &filled, &reach)?;
    let (changes, test) = changes_and_test(alloc, change, reach, filled)?;
    Ok(aimed(aim, changes, test))
}
