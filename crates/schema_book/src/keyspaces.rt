//! Keyspaces, found by name through an ordered map.

ghost use Rattle.std.specs.Prelude.{◌≡◌, ◌∷◌, ◌++◌, [], IfOk, option_copied};
ghost use Rattle.schema_book.specs.Places.{keyspace_in};

use crate::index::Names;
use crate::table::Keyspace;
use cs_base::Items;
use std::alloc::{AllocError, Global};
use std::marker::Model;

/// Keyspaces, in the order in which they were made.
#[derive(Drop)]
pub(crate) struct Keyspaces {
    list: Items<Keyspace>,
    places: Names,
}

impl Model for Keyspaces {
    ghost use Rattle.std.specs.Prelude.{List};
    ghost use Rattle.schema_book.specs.Places.{AreKeyspacePlaces};
    ghost use Rattle.schema_book.specs.declared.table.Keyspace.{Keyspace};

    ghost Value = { List Keyspace };

    ghost view = { λ a. a.list };

    ghost invariant = { λ a. AreKeyspacePlaces a.list a.places };
}

impl Keyspaces {
    /// No keyspaces.
    pub(crate) fn new(alloc: Global) -> Keyspaces
        ensures { result ≡ [] }
    {
        Keyspaces {
            list: Items::new(alloc),
            places: Names::new(alloc),
        }
    }

    /// These keyspaces, and one more.
    pub(crate) fn with(self, alloc: Global, keyspace: Keyspace) -> Result<Keyspaces, AllocError>
        ensures { IfOk result (λ more. more ≡ self ++ keyspace ∷ []) }
    {
        let Keyspaces { mut list, places } = self;
        let place = list.as_slice().len();
        let places = places.enter(alloc, &keyspace.name, place)?;
        list.push(keyspace)?;
        Ok(Keyspaces { list, places })
    }

    /// The first keyspace of this name.
    pub(crate) fn find(&self, name: &str) -> Option<&Keyspace>
        ensures { option_copied result ≡ keyspace_in self.now name.now }
    {
        let place = self.places.place(name)?;
        self.list.as_slice().get(place)
    }
}
