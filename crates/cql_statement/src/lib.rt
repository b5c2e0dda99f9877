//! The statements of CQL (CQL reference, "Data Definition" and "Data Manipulation"), as a parser reads them.
//!
//! Names are as they are compared: without quotes, and in lower case where none stood around them. Constants keep their
//! text, in the form that `cql_values::read_literal` takes.
#![tactic(auto)]

mod modification;
mod schema;
mod select;
mod statement;
mod term;

pub use modification::{
    Assignment, Assignments, Batch, Condition, Delete, Insert, Modification, Modifications, Stamp,
    Test, Tests, Update,
};
pub use schema::{
    ColumnItem, ColumnOrder, ColumnOrders, CreateKeyspace, CreateTable, KeyItem, OptionItem,
    Replication, ReplicationEntry, TableItem, TableItems, TableOption, TableOptions, Use,
};
pub use select::{Select, Selection};
pub use statement::{Statement, Statements};
pub use term::{
    Names, Relation, RelationOperator, Relations, TableName, Term, Terms, TestOperator,
};
