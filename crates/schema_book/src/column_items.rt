//! The columns of CREATE TABLE, found by name through an ordered map.

ghost use Rattle.std.specs.Prelude.{◌≡◌, ◌∷◌, ◌++◌, [], IfOk, option_copied};
ghost use Rattle.schema_book.specs.Outlines.{is_column};
ghost use Rattle.schema_book.specs.Places.{column_in};

use crate::index::Names;
use cql_statement::ColumnItem;
use cs_base::{Items, Text};
use std::alloc::{AllocError, Global};
use std::marker::Model;

/// Columns as they are defined, in the order of the text.
#[derive(Drop)]
pub(crate) struct ColumnItems {
    list: Items<ColumnItem>,
    places: Names,
}

impl Model for ColumnItems {
    ghost use Rattle.std.specs.Prelude.{List};
    ghost use Rattle.cql_statement.specs.declared.schema.ColumnItem.{ColumnItem};
    ghost use Rattle.schema_book.specs.Places.{AreItemPlaces};

    ghost Value = { List ColumnItem };

    ghost view = { λ a. a.list };

    ghost invariant = { λ a. AreItemPlaces a.list a.places };
}

impl ColumnItems {
    /// No columns.
    pub(crate) fn new(alloc: Global) -> ColumnItems
        ensures { result ≡ [] }
    {
        ColumnItems {
            list: Items::new(alloc),
            places: Names::new(alloc),
        }
    }

    /// These columns, and one more.
    pub(crate) fn with(self, alloc: Global, column: ColumnItem) -> Result<ColumnItems, AllocError>
        ensures { IfOk result (λ more. more ≡ self ++ column ∷ []) }
    {
        let ColumnItems { mut list, places } = self;
        let place = list.as_slice().len();
        let places = places.enter(alloc, &column.name, place)?;
        list.push(column)?;
        Ok(ColumnItems { list, places })
    }

    pub(crate) fn as_slice(&self) -> &[ColumnItem]
        ensures { result.now ≡ self.now }
    {
        self.list.as_slice()
    }

    /// The first column of this name.
    pub(crate) fn find(&self, name: &Text) -> Option<&ColumnItem>
        ensures { option_copied result ≡ column_in self.now name.now }
    {
        let place = self.places.place(name.as_str())?;
        self.list.as_slice().get(place)
    }

    /// Whether there is a column of this name.
    pub(crate) fn has(&self, name: &Text) -> bool
        ensures { result ≡ is_column self.now name.now }
    {
        self.find(name).is_some()
    }
}
