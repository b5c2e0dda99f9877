//! Where columns stand, by name.

ghost use Rattle.std.specs.Prelude.{◌≡◌, IfOk};
ghost use Rattle.schema_book.specs.Columns.{ArePlacesOf, column_place};

use crate::index::Names;
use crate::table::ColumnDef;
use cs_base::Items;
use std::alloc::{AllocError, Global};
use std::marker::Model;

/// The columns of a table, in its order. They are found by name through an ordered map.
#[derive(Debug, Drop)]
pub struct ColumnDefs {
    defs: Items<ColumnDef>,
    places: Names,
}

impl Model for ColumnDefs {
    ghost use Rattle.std.specs.Prelude.{List};
    ghost use Rattle.schema_book.specs.Columns.{ArePlacesOf};
    ghost use Rattle.schema_book.specs.declared.table.ColumnDef.{ColumnDef};

    ghost Value = { List ColumnDef };

    ghost view = { λ a. a.defs };

    ghost invariant = { λ a. ArePlacesOf a.defs a.places };
}

/// The places of these columns, by name.
fn places_of(alloc: Global, defs: &[ColumnDef]) -> Result<Names, AllocError>
    ensures { IfOk result (ArePlacesOf defs.now) }
{
    let mut places = Names::new(alloc);
    let mut place = 0;
    for def in defs {
        places = places.enter(alloc, &def.name, place)?;
        place += 1;
    }
    Ok(places)
}

impl ColumnDefs {
    /// Takes the columns over.
    pub fn of(alloc: Global, defs: Items<ColumnDef>) -> Result<ColumnDefs, AllocError>
        ensures { IfOk result (λ columns. columns ≡ defs) }
    {
        let places = places_of(alloc, defs.as_slice())?;
        Ok(ColumnDefs { defs, places })
    }

    pub fn as_slice(&self) -> &[ColumnDef]
        ensures { result.now ≡ self.now }
    {
        self.defs.as_slice()
    }

    /// The place of the first column of this name.
    pub fn place(&self, name: &str) -> Option<usize>
        ensures { result ≡ column_place self.now name.now }
    {
        self.places.place(name)
    }
}
