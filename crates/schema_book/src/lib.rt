//! The keyspaces and tables that a list of CQL statements makes.
#![tactic(auto)]

mod column_defs;
mod column_items;
mod columns;
mod creation;
mod draft;
mod error;
mod index;
mod keyspaces;
mod laws;
mod names;
mod options;
mod outline;
mod replication;
mod schema;
mod table;
mod tables;

pub use column_defs::ColumnDefs;
pub use error::{Fault, Refused, SchemaError};
pub use laws::{
    columns_are_few, columns_are_in_order, refusals_are_first, tables_are_few, tables_are_found,
    tables_are_numbered,
};
pub use schema::Schema;
pub use table::{ColumnDef, ColumnKind, Keyspace, Table};
