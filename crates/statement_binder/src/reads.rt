//! The reads that SELECT asks for.

ghost use Rattle.std.specs.Prelude.{◌≡◌, IfOk};
ghost use Rattle.statement_binder.specs.Answers.{Gives};
ghost use Rattle.statement_binder.specs.Plans.{limit_of as limit_of_value, read_size_fault, query_of as query_of_read, read_at as read_at_of, filled_read, read_plan};
ghost use Rattle.statement_binder.specs.Supplies.{left_for};

use crate::error::BindError;
use crate::filled::Filled;
use crate::piece::copied;
use crate::supply::Supply;
use changes::{Partition, Query};
use key_restrictions::{RowBounds, is_long, partition_of, row_bounds};
use prepared_statement::{Read, lower};
use statement_plan::{Columns, Fault, Plan};
use std::alloc::{AllocError, Global};

/// The most rows that are read where no limit is given: the greatest int.
const MOST_ROWS: u32 = 2_147_483_647;

fn limit_of(limit: Option<i32>) -> u32
    ensures { result ≡ limit_of_value limit }
{
    match limit {
        Some(number) => u32::try_from(number).unwrap_or(MOST_ROWS),
        None => MOST_ROWS,
    }
}

/// What is wrong with the size of a key.
fn key_fault(partition: &Partition, bounds: &RowBounds) -> Option<Fault>
    ensures { result ≡ read_size_fault partition.now bounds.now }
{
    if is_long(partition.key.as_slice())
        || is_long(bounds.from.at.as_slice())
        || is_long(bounds.upto.at.as_slice())
    {
        Some(Fault::KeyTooLong)
    } else if partition.key.as_slice().is_empty() {
        Some(Fault::EmptyKey)
    } else {
        None
    }
}

fn shown(alloc: Global, columns: &Columns) -> Result<Columns, AllocError>
    ensures { IfOk result (λ shown. shown ≡ columns.now) }
{
    match columns {
        Columns::Listed(numbers) => Ok(Columns::Listed(copied(alloc, numbers)?)),
        Columns::Count => Ok(Columns::Count),
    }
}

fn query_of(read: &Read, filled: &Filled, partition: Partition, bounds: RowBounds) -> Query
    ensures { result ≡ query_of_read read.now filled.now partition bounds }
{
    Query {
        partition,
        from: bounds.from,
        upto: bounds.upto,
        reversed: read.reversed,
        limit: limit_of(filled.limit),
    }
}

fn read_at(
    alloc: Global,
    read: &Read,
    filled: &Filled,
    excess: Option<Fault>,
    partition: Partition,
    bounds: RowBounds,
) -> Result<Plan, BindError>
    ensures { Gives result (read_at_of read.now filled.now excess partition bounds) }
{
    let size = key_fault(&partition, &bounds);
    match lower(lower(read.fault, lower(filled.fault, size)), excess) {
        Some(fault) => Err(BindError::Refused(fault)),
        None => {
            let shown = shown(alloc, &read.shown)?;
            Ok(Plan::Read(query_of(read, filled, partition, bounds), shown))
        }
    }
}

fn filled_plan(
    alloc: Global,
    read: &Read,
    filled: &Filled,
    excess: Option<Fault>,
) -> Result<Plan, BindError>
    ensures { Gives result (filled_read read.now filled.now excess) }
{
    let columns = read.columns.as_slice();
    let keys = filled.keys.as_slice();
    let partition = partition_of(alloc, read.table, columns, keys)?;
    let bounds = row_bounds(alloc, columns, keys)?;
    read_at(alloc, read, filled, excess, partition, bounds)
}

/// What a SELECT asks for.
pub(crate) fn read(alloc: Global, read: &Read, supply: Supply) -> Result<Plan, BindError>
    ensures { Gives result (read_plan read.now (left_for supply.entry)) }
{
    let mut supply = supply;
    let filled = supply.fill(alloc, read.slots.as_slice())?;
    filled_plan(alloc, read, &filled, supply.excess())
}
