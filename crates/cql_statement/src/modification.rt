//! Statements that change rows.

use crate::term::{Names, Relations, TableName, Term, Terms, TestOperator};
use cs_base::{Items, Text};

/// `USING TIMESTAMP`.
#[derive(Debug, Drop)]
pub struct Stamp {
    pub timestamp: Term,
}

/// `INSERT`. The numbers of columns and of values may differ.
#[derive(Debug, Drop)]
pub struct Insert {
    pub table: TableName,
    pub columns: Names,
    pub values: Terms,
    pub if_not_exists: bool,
    pub stamp: Option<Stamp>,
}

/// `column = term` of a SET.
#[derive(Debug, Drop)]
pub struct Assignment {
    pub column: Text,
    pub term: Term,
}

pub type Assignments = Items<Assignment>;

/// `UPDATE`.
#[derive(Debug, Drop)]
pub struct Update {
    pub table: TableName,
    pub stamp: Option<Stamp>,
    pub assignments: Assignments,
    pub relations: Relations,
    pub condition: Option<Condition>,
}

/// `DELETE`, of the columns that are named, or of rows where none is.
#[derive(Debug, Drop)]
pub struct Delete {
    pub columns: Names,
    pub table: TableName,
    pub stamp: Option<Stamp>,
    pub relations: Relations,
    pub condition: Option<Condition>,
}

/// What stands behind the IF of `UPDATE` and `DELETE`.
#[derive(Debug, Drop)]
pub enum Condition {
    Exists,
    Tests(Tests),
}

/// One of the tests of an IF.
#[derive(Debug, Drop)]
pub struct Test {
    pub column: Text,
    pub operator: TestOperator,
    pub term: Term,
}

pub type Tests = Items<Test>;

/// A statement that a batch may hold.
#[derive(Debug, Drop)]
pub enum Modification {
    Insert(Insert),
    Update(Update),
    Delete(Delete),
}

pub type Modifications = Items<Modification>;

/// `BEGIN BATCH`, or with UNLOGGED.
#[derive(Debug, Drop)]
pub struct Batch {
    pub is_unlogged: bool,
    pub stamp: Option<Stamp>,
    pub statements: Modifications,
}
