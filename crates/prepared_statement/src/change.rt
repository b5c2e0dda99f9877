//! What statements ask for before their values are known.

use crate::slot::Slots;
use cs_base::Items;
use schema_book::ColumnDef;
use statement_plan::{ColumnNumbers, Columns, Fault};

/// What a statement does with the rows that it names.
#[derive(Clone, Copy, Debug, PartialEq, Eq)]
pub enum Action {
    /// It makes a row, with these cells.
    Insert,
    /// It sets cells, or deletes them.
    Set,
    DeleteRow,
    /// Of the rows of a partition those between two bounds.
    DeleteRows,
    DeletePartition,
}

/// Under which condition a statement changes rows.
#[derive(Clone, Copy, Debug, PartialEq, Eq)]
pub enum Guard {
    Always,
    NotExists,
    Exists,
    /// All tests of its slots hold.
    Tests,
}

pub type TableColumns = Items<ColumnDef>;

/// A statement that changes rows.
#[derive(Debug, Drop)]
pub struct Change {
    /// The lowest refusal that holds whatever stands in the slots.
    pub fault: Option<Fault>,
    pub table: u16,
    pub columns: TableColumns,
    pub slots: Slots,
    pub action: Action,
    pub guard: Guard,
    /// What is shown of a row for which the condition does not hold.
    pub shown: ColumnNumbers,
}

pub type Changes = Items<Change>;

/// A SELECT.
#[derive(Debug, Drop)]
pub struct Read {
    /// The lowest refusal that holds whatever stands in the slots.
    pub fault: Option<Fault>,
    pub table: u16,
    pub columns: TableColumns,
    pub slots: Slots,
    pub reversed: bool,
    pub shown: Columns,
}

/// A BATCH: what stands behind its own USING TIMESTAMP, and its statements.
#[derive(Debug, Drop)]
pub struct Batch {
    pub slots: Slots,
    pub changes: Changes,
}
