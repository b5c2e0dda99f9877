//! SELECT.

use crate::schema::ColumnOrders;
use crate::term::{Names, Relations, TableName, Term};

/// `SELECT`. The list of orders is empty where there is no ORDER BY.
#[derive(Debug, Drop)]
pub struct Select {
    pub selection: Selection,
    pub table: TableName,
    pub relations: Relations,
    pub orders: ColumnOrders,
    pub limit: Option<Term>,
}

/// What a SELECT shows of the rows.
#[derive(Debug, Drop)]
pub enum Selection {
    /// `*`.
    All,
    Columns(Names),
    /// `COUNT(*)`.
    Count,
}
