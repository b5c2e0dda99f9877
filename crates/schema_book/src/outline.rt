//! What stands between the parentheses of CREATE TABLE.

ghost use Rattle.std.specs.Prelude.{◌≡◌, ◌++◌, ◌∷◌, [], map, OnOk, IfOk};
ghost use Rattle.schema_book.specs.Outlines.{item_columns, item_keys, column_keys, outline_of, columns_in, keys_in, clustering_in, partition_in, name_of, defines_twice as defines_twice_of, names_twice as names_twice_of, has_unknown as has_unknown_name, names_unknown as names_unknown_of, is_uuid as is_uuid_of_type, is_uuid_of as is_uuid_among, some_twice as some_twice_of, some_unknown as some_unknown_of, has_uuid as has_uuid_among};

use crate::column_items::ColumnItems;
use crate::names::{copy_names, has_twice, is_among, push_names};
use cql_statement::{ColumnItem, KeyItem, Names, TableItem};
use cql_values::CqlType;
use cs_base::{Items, Text};
use std::alloc::{AllocError, Global};
use std::mem;

/// The columns and the keys of a table, as they stand.
#[derive(Drop)]
pub(crate) struct Outline {
    pub columns: ColumnItems,
    pub keys: Items<KeyItem>,
}

fn copy_column(alloc: Global, column: &ColumnItem) -> Result<ColumnItem, AllocError>
    ensures { IfOk result (λ copy. copy ≡ column.now) }
{
    Ok(ColumnItem {
        name: column.name.copy(alloc)?,
        ty: column.ty,
        is_primary_key: column.is_primary_key,
    })
}

fn copy_key(alloc: Global, key: &KeyItem) -> Result<KeyItem, AllocError>
    ensures { IfOk result (λ copy. copy ≡ key.now) }
{
    Ok(KeyItem {
        partition: copy_names(alloc, key.partition.as_slice())?,
        clustering: copy_names(alloc, key.clustering.as_slice())?,
    })
}

/// The key that is one column alone.
fn lone_key(alloc: Global, name: &Text) -> Result<KeyItem, AllocError>
    ensures { IfOk result (λ key. key ≡ record { partition = name.now ∷ []; clustering = [] }) }
{
    let mut partition = Items::new(alloc);
    partition.push(name.copy(alloc)?)?;
    Ok(KeyItem {
        partition,
        clustering: Items::new(alloc),
    })
}

impl Outline {
    fn add_column(&mut self, alloc: Global, column: &ColumnItem) -> Result<(), AllocError>
        ensures columns { OnOk result (self.new.columns ≡ self.old.columns ++ column.now ∷ []) }
        ensures keys { OnOk result (self.new.keys ≡ self.old.keys ++ column_keys column.now) }
    {
        let columns = mem::replace(&mut self.columns, ColumnItems::new(alloc));
        self.columns = columns.with(alloc, copy_column(alloc, column)?)?;
        if column.is_primary_key {
            self.keys.push(lone_key(alloc, &column.name)?)?;
        }
        Ok(())
    }

    fn add(&mut self, alloc: Global, item: &TableItem) -> Result<(), AllocError>
        ensures columns { OnOk result (self.new.columns ≡ self.old.columns ++ item_columns item.now) }
        ensures keys { OnOk result (self.new.keys ≡ self.old.keys ++ item_keys item.now) }
    {
        match item {
            TableItem::Column(column) => self.add_column(alloc, column)?,
            TableItem::PrimaryKey(key) => self.keys.push(copy_key(alloc, key)?)?,
        }
        Ok(())
    }

    pub(crate) fn of(alloc: Global, items: &[TableItem]) -> Result<Outline, AllocError>
        ensures { IfOk result (λ outline. outline ≡ outline_of items.now) }
    {
        let mut outline = Outline {
            columns: ColumnItems::new(alloc),
            keys: Items::new(alloc),
        };
        for item in items {
            outline.add(alloc, item)?;
        }
        Ok(outline)
    }

    /// The columns of the key's first part. A key of none has none.
    pub(crate) fn partition(&self) -> &[Text]
        ensures { result.now ≡ partition_in self.now.keys }
    {
        match self.keys.as_slice().first() {
            Some(key) => key.partition.as_slice(),
            None => &[],
        }
    }

    /// The clustering columns.
    pub(crate) fn clustering(&self) -> &[Text]
        ensures { result.now ≡ clustering_in self.now.keys }
    {
        match self.keys.as_slice().first() {
            Some(key) => key.clustering.as_slice(),
            None => &[],
        }
    }
}

fn column_names(alloc: Global, columns: &[ColumnItem]) -> Result<Names, AllocError>
    ensures { IfOk result (λ names. names ≡ map name_of columns.now) }
{
    let mut names = Items::new(alloc);
    for column in columns {
        names.push(column.name.copy(alloc)?)?;
    }
    Ok(names)
}

/// Whether a column is defined twice.
pub(crate) fn defines_twice(alloc: Global, columns: &[ColumnItem]) -> Result<bool, AllocError>
    ensures { IfOk result (λ twice. twice ≡ defines_twice_of columns.now) }
{
    let names = column_names(alloc, columns)?;
    has_twice(alloc, names.as_slice())
}

/// Whether a key names a column twice.
fn names_twice(alloc: Global, key: &KeyItem) -> Result<bool, AllocError>
    ensures { IfOk result (λ twice. twice ≡ names_twice_of key.now) }
{
    let mut names = copy_names(alloc, key.partition.as_slice())?;
    push_names(&mut names, alloc, key.clustering.as_slice())?;
    has_twice(alloc, names.as_slice())
}

/// Whether some key names a column twice.
pub(crate) fn some_twice(alloc: Global, keys: &[KeyItem]) -> Result<bool, AllocError>
    ensures { IfOk result (λ twice. twice ≡ some_twice_of keys.now) }
{
    for key in keys {
        if names_twice(alloc, key)? {
            return Ok(true);
        }
    }
    Ok(false)
}

fn has_unknown(columns: &ColumnItems, names: &[Text]) -> bool
    ensures { result ≡ has_unknown_name columns.now names.now }
{
    names.iter().any(|name| !columns.has(name))
}

/// Whether a key names a column that is not defined.
fn names_unknown(columns: &ColumnItems, key: &KeyItem) -> bool
    ensures { result ≡ names_unknown_of columns.now key.now }
{
    has_unknown(columns, key.partition.as_slice())
        || has_unknown(columns, key.clustering.as_slice())
}

/// Whether some key names a column that is not defined.
pub(crate) fn some_unknown(columns: &ColumnItems, keys: &[KeyItem]) -> bool
    ensures { result ≡ some_unknown_of columns.now keys.now }
{
    keys.iter().any(|key| names_unknown(columns, key))
}

fn is_uuid(ty: CqlType) -> bool
    ensures { result ≡ is_uuid_of_type ty }
{
    matches!(ty, CqlType::Uuid)
}

/// Whether a column is among these, and of type uuid.
fn is_uuid_of(names: &[Text], column: &ColumnItem) -> bool
    ensures { result ≡ is_uuid_among names.now column.now }
{
    is_uuid(column.ty) && is_among(&column.name, names)
}

/// Whether one of these columns is of type uuid.
pub(crate) fn has_uuid(names: &[Text], columns: &[ColumnItem]) -> bool
    ensures { result ≡ has_uuid_among names.now columns.now }
{
    columns.iter().any(|column| is_uuid_of(names, column))
}
