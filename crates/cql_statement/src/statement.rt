//! A statement.

use crate::modification::{Batch, Delete, Insert, Update};
use crate::schema::{CreateKeyspace, CreateTable, Use};
use crate::select::Select;
use cs_base::Items;

/// A statement.
#[derive(Debug, Drop)]
pub enum Statement {
    CreateKeyspace(CreateKeyspace),
    CreateTable(CreateTable),
    Use(Use),
    Insert(Insert),
    Update(Update),
    Delete(Delete),
    Select(Select),
    Batch(Batch),
}

pub type Statements = Items<Statement>;
