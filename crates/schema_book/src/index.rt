//! Where names stand in a list.

ghost use Rattle.std.specs.Prelude.{◌≡◌, IfOk, OnOk, None};
ghost use Rattle.std.specs.BTreeMap.{get_by_text};
ghost use Rattle.schema_book.specs.Places.{Enters};
ghost use Rattle.schema_book.specs.Indexes.{EntersTable, TakesOut, place_of};

use crate::table::Table;
use cs_base::Text;
use std::alloc::{AllocError, Global};
use std::collections::BTreeMap;

/// The places of keyspaces, of a keyspace's tables, or of a table's columns, by name.
#[derive(Debug, Drop)]
pub(crate) struct Names {
    pub places: BTreeMap<String, usize>,
}

/// The places of tables in a list.
#[derive(Drop)]
pub(crate) struct Index {
    pub keyspaces: BTreeMap<String, Names>,
}

impl Names {
    /// No names.
    pub(crate) fn new(alloc: Global) -> Names
        ensures { (q : _) → get_by_text result.places q ≡ None }
    {
        Names {
            places: BTreeMap::new(alloc),
        }
    }

    /// Adds the place of a name, unless it has one.
    pub(crate) fn enter(
        mut self,
        alloc: Global,
        name: &Text,
        place: usize,
    ) -> Result<Names, AllocError>
        ensures { IfOk result (Enters self name.now place) }
    {
        if self.places.contains_key(name.as_str()) {
            return Ok(self);
        }
        self.places
            .insert(String::from_str(alloc, name.as_str())?, place)?;
        Ok(self)
    }

    /// The place of a name.
    pub(crate) fn place(&self, name: &str) -> Option<usize>
        ensures { result ≡ get_by_text self.now.places name.now }
    {
        self.places.get(name).copied()
    }
}

impl Index {
    /// No tables.
    pub(crate) fn new(alloc: Global) -> Index
        ensures { (keyspace name : _) → place_of result keyspace name ≡ None }
    {
        Index {
            keyspaces: BTreeMap::new(alloc),
        }
    }

    /// The names of a keyspace, which it loses.
    fn take_out(&mut self, alloc: Global, keyspace: &Text) -> Names
        ensures { TakesOut self.old keyspace.now self.new result }
    {
        match self.keyspaces.remove(keyspace.as_str()) {
            Some(names) => names,
            None => Names::new(alloc),
        }
    }

    /// Adds the place of a table, unless its names have one.
    pub(crate) fn enter(
        &mut self,
        alloc: Global,
        table: &Table,
        place: usize,
    ) -> Result<(), AllocError>
        ensures { OnOk result (EntersTable self.old table.now place self.new) }
    {
        let names = self.take_out(alloc, &table.keyspace);
        let names = names.enter(alloc, &table.name, place)?;
        let keyspace = String::from_str(alloc, table.keyspace.as_str())?;
        self.keyspaces.insert(keyspace, names)?;
        Ok(())
    }

    /// The place of the table of these names.
    pub(crate) fn place(&self, keyspace: &str, name: &str) -> Option<usize>
        ensures { result ≡ place_of self.now keyspace.now name.now }
    {
        match self.keyspaces.get(keyspace) {
            Some(names) => names.place(name),
            None => None,
        }
    }
}
