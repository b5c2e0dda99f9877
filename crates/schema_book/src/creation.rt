//! What a statement makes, or why it is refused.

ghost use Rattle.std.specs.Prelude.{◌≡◌, IfOk, false};
ghost use Rattle.cql_values.specs.declared.value.CqlType.TheVariants as types;
ghost use Rattle.schema_book.specs.Books.{existing as existing_of, key_fault as key_fault_of, size_fault as size_fault_of, option_fault as option_fault_of, table_of as table_of_statement, script_columns as script_columns_of, script_table as script_table_of, script_keyspace as script_keyspace_of};

use crate::column_defs::ColumnDefs;
use crate::columns::defs_of;
use crate::error::Fault;
use crate::options::{grace_in, has_bad_option};
use crate::outline::{Outline, defines_twice, has_uuid, some_twice, some_unknown};
use crate::table::{ColumnDef, ColumnKind, Keyspace, Table};
use cql_statement::CreateTable;
use cql_values::CqlType;
use cs_base::{Items, Text};
use std::alloc::{AllocError, Global};

/// Most columns of a table.
const MOST_COLUMNS: usize = 256;

/// What exists is refused, or passed over.
pub(crate) fn existing(if_not_exists: bool) -> Option<Fault>
    ensures { result ≡ existing_of if_not_exists }
{
    if if_not_exists {
        return None;
    }
    Some(Fault::DuplicateTable)
}

/// What is wrong with a table's columns and its key.
pub(crate) fn key_fault(alloc: Global, outline: &Outline) -> Result<Option<Fault>, AllocError>
    ensures { IfOk result (λ fault. fault ≡ key_fault_of outline.now) }
{
    let columns = &outline.columns;
    let keys = outline.keys.as_slice();
    if defines_twice(alloc, columns.as_slice())? || some_twice(alloc, keys)? {
        return Ok(Some(Fault::DuplicateColumn));
    }
    if keys.len() != 1 {
        return Ok(Some(Fault::NoKey));
    }
    if some_unknown(columns, keys) {
        return Ok(Some(Fault::KeyColumnUnknown));
    }
    Ok(None)
}

pub(crate) fn size_fault(outline: &Outline) -> Option<Fault>
    ensures { result ≡ size_fault_of outline.now }
{
    if outline.columns.as_slice().len() > MOST_COLUMNS {
        return Some(Fault::TooManyColumns);
    }
    None
}

/// What is wrong with a table's options, and with its clustering columns.
pub(crate) fn option_fault(create: &CreateTable, outline: &Outline) -> Option<Fault>
    ensures { result ≡ option_fault_of create.now outline.now }
{
    let clustering = outline.clustering();
    if has_bad_option(clustering, create.options.as_slice()) {
        return Some(Fault::BadOption);
    }
    if has_uuid(clustering, outline.columns.as_slice()) {
        return Some(Fault::UuidClustering);
    }
    None
}

/// The table that a statement without a fault makes.
pub(crate) fn table_of(
    alloc: Global,
    grace: u64,
    create: &CreateTable,
    outline: &Outline,
    keyspace: Keyspace,
    number: u16,
) -> Result<Table, AllocError>
    ensures { IfOk result (λ table. table ≡ table_of_statement grace create.now outline.now keyspace number) }
{
    let options = create.options.as_slice();
    Ok(Table {
        number,
        factor: keyspace.factor,
        grace: grace_in(grace, options),
        keyspace: keyspace.name,
        name: create.table.name.copy(alloc)?,
        columns: defs_of(alloc, options, outline)?,
    })
}

fn text_column(alloc: Global, name: &str, kind: ColumnKind) -> Result<ColumnDef, AllocError>
    ensures { IfOk result (λ def. def ≡ record { name = name.now; ty = types.Text; kind = kind; is_descending = false }) }
{
    Ok(ColumnDef {
        name: Text::from_str(alloc, name)?,
        ty: CqlType::Text,
        kind,
        is_descending: false,
    })
}

fn script_columns(alloc: Global) -> Result<ColumnDefs, AllocError>
    ensures { IfOk result (λ defs. defs ≡ script_columns_of) }
{
    let mut defs = Items::new(alloc);
    defs.push(text_column(alloc, "k", ColumnKind::Partition)?)?;
    defs.push(text_column(alloc, "c", ColumnKind::Clustering)?)?;
    defs.push(text_column(alloc, "v", ColumnKind::Regular)?)?;
    ColumnDefs::of(alloc, defs)
}

/// The table that every schema holds.
pub(crate) fn script_table(alloc: Global, factor: u8, grace: u64) -> Result<Table, AllocError>
    ensures { IfOk result (λ table. table ≡ script_table_of factor grace) }
{
    Ok(Table {
        number: 0,
        factor,
        grace,
        keyspace: Text::from_str(alloc, "script")?,
        name: Text::from_str(alloc, "kv")?,
        columns: script_columns(alloc)?,
    })
}

/// Its keyspace.
pub(crate) fn script_keyspace(alloc: Global, factor: u8) -> Result<Keyspace, AllocError>
    ensures { IfOk result (λ keyspace. keyspace ≡ script_keyspace_of factor) }
{
    Ok(Keyspace {
        name: Text::from_str(alloc, "script")?,
        factor,
    })
}
