//! Statements that change rows, alone or in a batch.

ghost use Rattle.std.specs.Prelude.{◌≡◌};
ghost use Rattle.prepared_statement.specs.Changing.{modification_in};

use cql_statement::{Delete, Insert, Modification, TableName, Update};

#[derive(Clone, Copy)]
pub enum Changing<'a> {
    Insert(&'a Insert),
    Update(&'a Update),
    Delete(&'a Delete),
}

impl<'a> Changing<'a> {
    ghost use Rattle.prepared_statement.specs.Structure.{table_of_modification};

    pub fn of(modification: &'a Modification) -> Changing<'a>
        ensures { modification_in result ≡ modification.now }
    {
        match modification {
            Modification::Insert(insert) => Changing::Insert(insert),
            Modification::Update(update) => Changing::Update(update),
            Modification::Delete(delete) => Changing::Delete(delete),
        }
    }

    pub fn table(self) -> &'a TableName
        ensures { result.now ≡ table_of_modification (modification_in self.entry) }
    {
        match self {
            Changing::Insert(insert) => &insert.table,
            Changing::Update(update) => &update.table,
            Changing::Delete(delete) => &delete.table,
        }
    }
}
