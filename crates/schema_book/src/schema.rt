//! A schema, as a list of statements makes it.

ghost use Rattle.std.specs.Prelude.{◌≡◌, option_copied};

use crate::draft::Draft;
use crate::error::SchemaError;
use crate::keyspaces::Keyspaces;
use crate::table::{Keyspace, Table};
use crate::tables::Tables;
use cql_statement::Statements;
use std::alloc::Global;
use std::marker::Model;

/// Keyspaces and tables, in the order in which they were made.
#[derive(Drop)]
pub struct Schema {
    keyspaces: Keyspaces,
    tables: Tables,
}

impl Model for Schema {
    ghost use Rattle.schema_book.specs.Books.{Book};

    ghost Value = { Book };

    ghost view = { λ a. record { keyspaces = a.keyspaces; tables = a.tables } };
}

impl Schema {
    ghost use Rattle.schema_book.specs.Books.{Answers, table_at, keyspace_at, book_of};

    /// The schema that the statements make, one after another, for so many nodes. `script.kv` has `rf` replicas. `grace`,
    /// in seconds, is that of each table that says none.
    ///
    /// A statement that is refused decides, and of several faults of it that which stands first in
    /// [`Fault`](crate::Fault).
    pub fn from_statements(
        alloc: Global,
        statements: &Statements,
        nodes: u8,
        rf: u8,
        grace: u64,
    ) -> Result<Schema, SchemaError>
        ensures { Answers result (book_of nodes rf grace statements.now) }
    {
        let Draft { keyspaces, tables } = Draft::from_statements(
            alloc, statements, nodes, rf, grace,
        )?;
        Ok(Schema { keyspaces, tables })
    }

    /// The table of these names.
    pub fn table(&self, keyspace: &str, name: &str) -> Option<&Table>
        ensures { option_copied result ≡ table_at self.now keyspace.now name.now }
    {
        self.tables.find(keyspace, name)
    }

    /// All tables, by number.
    pub fn tables(&self) -> &[Table]
        ensures { result.now ≡ self.now.tables }
    {
        self.tables.as_slice()
    }

    /// The keyspace of this name.
    pub fn keyspace(&self, name: &str) -> Option<&Keyspace>
        ensures { option_copied result ≡ keyspace_at self.now name.now }
    {
        self.keyspaces.find(name)
    }
}
