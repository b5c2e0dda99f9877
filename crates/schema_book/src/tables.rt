//! Tables, found by keyspace and name through ordered maps.

ghost use Rattle.std.specs.Prelude.{◌≡◌, ◌∷◌, ◌++◌, [], IfOk, option_copied};
ghost use Rattle.schema_book.specs.Indexes.{table_in};

use crate::index::Index;
use crate::table::Table;
use cs_base::Items;
use std::alloc::{AllocError, Global};
use std::marker::Model;

/// Tables, in the order in which they were made.
#[derive(Drop)]
pub(crate) struct Tables {
    list: Items<Table>,
    index: Index,
}

impl Model for Tables {
    ghost use Rattle.std.specs.Prelude.{List};
    ghost use Rattle.schema_book.specs.Indexes.{IsIndexOf};
    ghost use Rattle.schema_book.specs.declared.table.Table.{Table};

    ghost Value = { List Table };

    ghost view = { λ a. a.list };

    ghost invariant = { λ a. IsIndexOf a.list a.index };
}

impl Tables {
    /// No tables.
    pub(crate) fn new(alloc: Global) -> Tables
        ensures { result ≡ [] }
    {
        Tables {
            list: Items::new(alloc),
            index: Index::new(alloc),
        }
    }

    /// These tables, and one more.
    pub(crate) fn with(self, alloc: Global, table: Table) -> Result<Tables, AllocError>
        ensures { IfOk result (λ more. more ≡ self ++ table ∷ []) }
    {
        let Tables {
            mut list,
            mut index,
        } = self;
        let place = list.as_slice().len();
        index.enter(alloc, &table, place)?;
        list.push(table)?;
        Ok(Tables { list, index })
    }

    pub(crate) fn as_slice(&self) -> &[Table]
        ensures { result.now ≡ self.now }
    {
        self.list.as_slice()
    }

    /// The first table of these names.
    pub(crate) fn find(&self, keyspace: &str, name: &str) -> Option<&Table>
        ensures { option_copied result ≡ table_in self.now keyspace.now name.now }
    {
        let place = self.index.place(keyspace, name)?;
        self.list.as_slice().get(place)
    }
}
