//! Keyspaces and tables, as statements make them one after another.

ghost use Rattle.std.specs.Prelude.{◌≡◌, Some, IfOk, OnOk, option_copied};

use crate::creation::{
    existing, key_fault, option_fault, script_keyspace, script_table, size_fault, table_of,
};
use crate::error::{Fault, Refused, SchemaError};
use crate::keyspaces::Keyspaces;
use crate::outline::Outline;
use crate::replication::factor_in;
use crate::table::{Keyspace, Table};
use crate::tables::Tables;
use cql_statement::{CreateKeyspace, CreateTable, Statement, Statements, TableName};
use cs_base::Text;
use std::alloc::{AllocError, Global};
use std::marker::Model;
use std::mem;

/// Most tables of a schema.
const MOST_TABLES: usize = 1_024;

/// Keyspaces and tables, in the order in which they were made.
#[derive(Drop)]
pub(crate) struct Draft {
    pub keyspaces: Keyspaces,
    pub tables: Tables,
}

impl Model for Draft {
    ghost use Rattle.schema_book.specs.Books.{Book};

    ghost Value = { Book };

    ghost view = { λ a. record { keyspaces = a.keyspaces; tables = a.tables } };
}

impl Draft {
    ghost use Rattle.schema_book.specs.Books.{first_book, keyspace_at, table_at, with_keyspace, with_table};

    fn first(alloc: Global, factor: u8, grace: u64) -> Result<Draft, AllocError>
        ensures { IfOk result (λ draft. draft ≡ first_book factor grace) }
    {
        let keyspace = script_keyspace(alloc, factor)?;
        let table = script_table(alloc, factor, grace)?;
        Ok(Draft {
            keyspaces: Keyspaces::new(alloc).with(alloc, keyspace)?,
            tables: Tables::new(alloc).with(alloc, table)?,
        })
    }

    fn table(&self, keyspace: &str, name: &str) -> Option<&Table>
        ensures { option_copied result ≡ table_at self.now keyspace.now name.now }
    {
        self.tables.find(keyspace, name)
    }

    fn keyspace(&self, name: &str) -> Option<&Keyspace>
        ensures { option_copied result ≡ keyspace_at self.now name.now }
    {
        self.keyspaces.find(name)
    }

    /// Adds a keyspace. An `Err` leaves the draft without keyspaces.
    fn push_keyspace(&mut self, alloc: Global, keyspace: Keyspace) -> Result<(), AllocError>
        ensures { OnOk result (self.new ≡ with_keyspace self.old keyspace) }
    {
        let keyspaces = mem::replace(&mut self.keyspaces, Keyspaces::new(alloc));
        self.keyspaces = keyspaces.with(alloc, keyspace)?;
        Ok(())
    }

    /// Adds a table. An `Err` leaves the draft without tables.
    fn push_table(&mut self, alloc: Global, table: Table) -> Result<(), AllocError>
        ensures { OnOk result (self.new ≡ with_table self.old table) }
    {
        let tables = mem::replace(&mut self.tables, Tables::new(alloc));
        self.tables = tables.with(alloc, table)?;
        Ok(())
    }
}

fn copy_of(alloc: Global, keyspace: &Keyspace) -> Result<Keyspace, AllocError>
    ensures { IfOk result (λ copy. copy ≡ keyspace.now) }
{
    Ok(Keyspace {
        name: keyspace.name.copy(alloc)?,
        factor: keyspace.factor,
    })
}

impl Draft {
    ghost use Rattle.schema_book.specs.Replication.{factor_in as factor_in_of};
    ghost use Rattle.schema_book.specs.Books.{Answers, keyspace_named, has_table as has_table_of, next_number as next_number_of, verdict, table_in, numbered_table, new_table, keyspace_by, table_after, keyspace_after, book_after, book_of};

    fn has_table(&self, table: &TableName) -> bool
        ensures { result ≡ has_table_of self.now table.now }
    {
        match &table.keyspace {
            Some(keyspace) => self.table(keyspace.as_str(), table.name.as_str()).is_some(),
            None => false,
        }
    }

    /// A copy of the keyspace of this name, if there is one.
    fn copy_keyspace(
        &self,
        alloc: Global,
        name: &Option<Text>,
    ) -> Result<Option<Keyspace>, AllocError>
        ensures { IfOk result (λ found. found ≡ keyspace_named self.now name.now) }
    {
        let Some(name) = name else {
            return Ok(None);
        };
        match self.keyspace(name.as_str()) {
            Some(found) => Ok(Some(copy_of(alloc, found)?)),
            None => Ok(None),
        }
    }

    /// The number of a further table, if there is room for one.
    fn next_number(&self) -> Option<u16>
        ensures { result ≡ next_number_of self.now }
    {
        let made = self.tables.as_slice().len();
        if made < MOST_TABLES {
            return Some(made as u16);
        }
        None
    }

    /// Makes a table of this number, unless its options are at fault.
    fn add_numbered(
        &mut self,
        alloc: Global,
        grace: u64,
        create: &CreateTable,
        outline: &Outline,
        keyspace: Keyspace,
        number: u16,
    ) -> Result<Option<Fault>, AllocError>
        ensures { IfOk result (λ fault. numbered_table grace self.old create.now outline.now keyspace (Some number) ≡ verdict self.new fault) }
    {
        if let Some(fault) = option_fault(create, outline) {
            return Ok(Some(fault));
        }
        let table = table_of(alloc, grace, create, outline, keyspace, number)?;
        self.push_table(alloc, table)?;
        Ok(None)
    }

    /// Makes a table, unless it is too wide, one too many, or its options are at fault.
    fn add_table(
        &mut self,
        alloc: Global,
        grace: u64,
        create: &CreateTable,
        outline: &Outline,
        keyspace: Keyspace,
    ) -> Result<Option<Fault>, AllocError>
        ensures { IfOk result (λ fault. table_in grace self.old create.now outline.now (Some keyspace) ≡ verdict self.new fault) }
    {
        if let Some(fault) = size_fault(outline) {
            return Ok(Some(fault));
        }
        let Some(number) = self.next_number() else {
            return Ok(Some(Fault::BadOption));
        };
        self.add_numbered(alloc, grace, create, outline, keyspace, number)
    }

    /// Makes a table that is not there yet.
    fn add_new(
        &mut self,
        alloc: Global,
        grace: u64,
        create: &CreateTable,
    ) -> Result<Option<Fault>, AllocError>
        ensures { IfOk result (λ fault. new_table grace self.old create.now ≡ verdict self.new fault) }
    {
        let outline = Outline::of(alloc, create.items.as_slice())?;
        if let Some(fault) = key_fault(alloc, &outline)? {
            return Ok(Some(fault));
        }
        match self.copy_keyspace(alloc, &create.table.keyspace)? {
            Some(keyspace) => self.add_table(alloc, grace, create, &outline, keyspace),
            None => Ok(Some(Fault::NoKeyspace)),
        }
    }

    fn create_table(
        &mut self,
        alloc: Global,
        grace: u64,
        create: &CreateTable,
    ) -> Result<Option<Fault>, AllocError>
        ensures { IfOk result (λ fault. table_after grace self.old create.now ≡ verdict self.new fault) }
    {
        if self.has_table(&create.table) {
            return Ok(existing(create.if_not_exists));
        }
        self.add_new(alloc, grace, create)
    }

    /// Makes a keyspace that is not there yet.
    fn add_keyspace(
        &mut self,
        alloc: Global,
        nodes: u8,
        create: &CreateKeyspace,
    ) -> Result<Option<Fault>, AllocError>
        ensures { IfOk result (λ fault. keyspace_by self.old create.now (factor_in_of nodes create.now.replication) ≡ verdict self.new fault) }
    {
        let Some(factor) = factor_in(alloc, nodes, create.replication.as_slice())? else {
            return Ok(Some(Fault::BadReplication));
        };
        let name = create.name.copy(alloc)?;
        self.push_keyspace(alloc, Keyspace { name, factor })?;
        Ok(None)
    }

    fn create_keyspace(
        &mut self,
        alloc: Global,
        nodes: u8,
        create: &CreateKeyspace,
    ) -> Result<Option<Fault>, AllocError>
        ensures { IfOk result (λ fault. keyspace_after nodes self.old create.now ≡ verdict self.new fault) }
    {
        if self.keyspace(create.name.as_str()).is_some() {
            return Ok(existing(create.if_not_exists));
        }
        self.add_keyspace(alloc, nodes, create)
    }

    /// Does what a statement says, and gives why it is refused, if it is.
    fn take(
        &mut self,
        alloc: Global,
        nodes: u8,
        grace: u64,
        statement: &Statement,
    ) -> Result<Option<Fault>, AllocError>
        ensures { IfOk result (λ fault. book_after nodes grace self.old statement.now ≡ verdict self.new fault) }
    {
        match statement {
            Statement::CreateKeyspace(create) => self.create_keyspace(alloc, nodes, create),
            Statement::CreateTable(create) => self.create_table(alloc, grace, create),
            Statement::Use(_)
            | Statement::Insert(_)
            | Statement::Update(_)
            | Statement::Delete(_)
            | Statement::Select(_)
            | Statement::Batch(_) => Ok(Some(Fault::NotSchema)),
        }
    }

    pub(crate) fn from_statements(
        alloc: Global,
        statements: &Statements,
        nodes: u8,
        rf: u8,
        grace: u64,
    ) -> Result<Draft, SchemaError>
        ensures { Answers result (book_of nodes rf grace statements.now) }
    {
        let mut draft = Draft::first(alloc, rf, grace)?;
        let mut index = 0;
        for statement in statements.as_slice() {
            if let Some(fault) = draft.take(alloc, nodes, grace, statement)? {
                let statement = index;
                return Err(SchemaError::Refused(Refused { statement, fault }));
            }
            index += 1;
        }
        Ok(draft)
    }
}
