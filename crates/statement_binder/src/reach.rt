//! Where a statement changes rows.

ghost use Rattle.std.specs.Prelude.{◌≡◌, IfOk};
ghost use Rattle.statement_binder.specs.Changes.{reach_of as reach_of_action, is_long_reach, size_fault as size_fault_of, row_in};

use changes::Partition;
use cql_values::CqlValue;
use cs_base::Bytes;
use key_restrictions::{Restriction, RowBounds, is_long, row_bounds, row_bytes};
use prepared_statement::Action;
use schema_book::ColumnDef;
use statement_plan::Fault;
use std::alloc::{AllocError, Global};

/// Of a partition one row, the rows between two bounds, or all.
#[derive(Debug, Drop)]
pub(crate) enum Reach {
    Row(Bytes),
    Rows(RowBounds),
    Whole,
}

/// Where a statement changes rows.
pub(crate) fn reach_of(
    alloc: Global,
    action: Action,
    columns: &[ColumnDef],
    keys: &[Restriction<CqlValue>],
) -> Result<Reach, AllocError>
    ensures { IfOk result (λ reach. reach ≡ reach_of_action action columns.now keys.now) }
{
    match action {
        Action::Insert | Action::Set | Action::DeleteRow => {
            Ok(Reach::Row(row_bytes(alloc, columns, keys)?))
        }
        Action::DeleteRows => Ok(Reach::Rows(row_bounds(alloc, columns, keys)?)),
        Action::DeletePartition => Ok(Reach::Whole),
    }
}

impl Reach {
    /// Whether a row or a bound has more bytes than are allowed.
    fn is_long(&self) -> bool
        ensures { result ≡ is_long_reach self.now }
    {
        match self {
            Reach::Row(row) => is_long(row.as_slice()),
            Reach::Rows(bounds) => {
                is_long(bounds.from.at.as_slice()) || is_long(bounds.upto.at.as_slice())
            }
            Reach::Whole => false,
        }
    }

    /// The row, if it is one.
    pub(crate) fn row(&self, alloc: Global) -> Result<Bytes, AllocError>
        ensures { IfOk result (λ row. row ≡ row_in self.now) }
    {
        match self {
            Reach::Row(row) => row.copy(alloc),
            Reach::Rows(_) | Reach::Whole => Ok(Bytes::new(alloc)),
        }
    }
}

/// What is wrong with the size of a key.
pub(crate) fn size_fault(partition: &Partition, reach: &Reach) -> Option<Fault>
    ensures { result ≡ size_fault_of partition.now reach.now }
{
    if is_long(partition.key.as_slice()) || reach.is_long() {
        Some(Fault::KeyTooLong)
    } else if partition.key.as_slice().is_empty() {
        Some(Fault::EmptyKey)
    } else {
        None
    }
}
