//! Plans.

use crate::operation::ConditionalOperation;
use changes::{DraftMutation, Query};
use cs_base::{Items, Text};

/// Columns by their number in the table, from 0 on.
pub type ColumnNumbers = Items<u8>;

/// What is shown of rows.
#[derive(Debug, Drop)]
pub enum Columns {
    /// These columns, in this order.
    Listed(ColumnNumbers),
    /// The number of rows.
    Count,
}

/// What a statement asks for.
#[derive(Debug, Drop)]
pub enum Plan {
    Write(DraftMutation),
    Read(Query, Columns),
    Conditional(ConditionalOperation),
    /// The keyspace of later statements.
    Use(Text),
}
