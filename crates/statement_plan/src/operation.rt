//! Conditional operations (CQL reference, "IF").

use crate::plan::Columns;
use changes::{Drafts, Partition, Query};
use cs_base::{Bytes, Items};

/// How a condition compares a cell with its value.
#[derive(Clone, Copy, Debug, PartialEq, Eq)]
pub enum Compare {
    Equal,
    NotEqual,
    Less,
    LessOrEqual,
    Greater,
    GreaterOrEqual,
}

/// How the bytes of two values of a type compare.
#[derive(Clone, Copy, Debug, PartialEq, Eq)]
pub enum ValueOrder {
    /// As big-endian numbers in two's complement.
    Signed,
    /// As unsigned bytes.
    Plain,
    /// As uuids of version 1: by their time, and then by their bytes.
    Time,
}

/// A test of one cell. No value stands for null.
#[derive(Debug, PartialEq, Eq, Drop)]
pub struct CellTest {
    pub column: u8,
    pub compare: Compare,
    pub value: Option<Bytes>,
    pub order: ValueOrder,
}

pub type CellTests = Items<CellTest>;

/// What an operation asks of its partition before it writes.
#[derive(Debug, Drop)]
pub enum Test {
    /// The row is not there.
    Absent,
    /// The row is there.
    Present,
    /// All tests of the row's cells hold.
    Cells(CellTests),
    /// A read, which writes nothing.
    Read(Query),
}

/// An operation on a partition that happens once, in one order with all others there. Its changes have no timestamp.
#[derive(Debug, Drop)]
pub struct ConditionalOperation {
    pub partition: Partition,
    pub row: Bytes,
    pub test: Test,
    pub changes: Drafts,
    pub shown: Columns,
}
