//! The columns of a table, in its order.

ghost use Rattle.std.specs.Prelude.{◌≡◌, ◌++◌, false, IfOk, OnOk};
ghost use Rattle.std.specs.Map.{values_of};
ghost use Rattle.schema_book.specs.Columns.{def_of as def_of_column, partition_def, partition_defs, clustering_item, clustering_def, clustering_defs, is_of_key as is_of_key_of, with_other, sorted_others as sorted_others_of, defs_of as defs_of_outline};

use crate::column_defs::ColumnDefs;
use crate::column_items::ColumnItems;
use crate::names::is_among;
use crate::options::falls_in;
use crate::outline::Outline;
use crate::table::{ColumnDef, ColumnKind};
use cql_statement::{ColumnItem, TableOption};
use cs_base::{Bytes, Items, Text};
use std::alloc::{AllocError, Global};
use std::collections::BTreeMap;

fn def_of(
    alloc: Global,
    kind: ColumnKind,
    is_descending: bool,
    column: &ColumnItem,
) -> Result<ColumnDef, AllocError>
    ensures { IfOk result (λ def. def ≡ def_of_column kind is_descending column.now) }
{
    Ok(ColumnDef {
        name: column.name.copy(alloc)?,
        ty: column.ty,
        kind,
        is_descending,
    })
}

/// Adds the column of this name, if there is one, as one of the partition key.
fn add_partition_def(
    defs: &mut Items<ColumnDef>,
    alloc: Global,
    columns: &ColumnItems,
    name: &Text,
) -> Result<(), AllocError>
    ensures { OnOk result (defs.new ≡ defs.old ++ partition_def columns.now name.now) }
{
    if let Some(column) = columns.find(name) {
        defs.push(def_of(alloc, ColumnKind::Partition, false, column)?)?;
    }
    Ok(())
}

fn partition_defs_of(alloc: Global, outline: &Outline) -> Result<Items<ColumnDef>, AllocError>
    ensures { IfOk result (λ defs. defs ≡ partition_defs outline.now) }
{
    let mut defs = Items::new(alloc);
    for name in outline.partition() {
        add_partition_def(&mut defs, alloc, &outline.columns, name)?;
    }
    Ok(defs)
}

fn clustering_item_of(
    alloc: Global,
    options: &[TableOption],
    column: &ColumnItem,
) -> Result<ColumnDef, AllocError>
    ensures { IfOk result (λ def. def ≡ clustering_item options.now column.now) }
{
    let falls = falls_in(options, &column.name);
    def_of(alloc, ColumnKind::Clustering, falls, column)
}

/// Adds the column of this name, if there is one, as a clustering column.
fn add_clustering_def(
    defs: &mut Items<ColumnDef>,
    alloc: Global,
    options: &[TableOption],
    columns: &ColumnItems,
    name: &Text,
) -> Result<(), AllocError>
    ensures { OnOk result (defs.new ≡ defs.old ++ clustering_def options.now columns.now name.now) }
{
    if let Some(column) = columns.find(name) {
        defs.push(clustering_item_of(alloc, options, column)?)?;
    }
    Ok(())
}

/// These columns, and then the clustering columns.
fn with_clustering(
    mut defs: Items<ColumnDef>,
    alloc: Global,
    options: &[TableOption],
    outline: &Outline,
) -> Result<Items<ColumnDef>, AllocError>
    ensures { IfOk result (λ all. all ≡ defs ++ clustering_defs options.now outline.now) }
{
    for name in outline.clustering() {
        add_clustering_def(&mut defs, alloc, options, &outline.columns, name)?;
    }
    Ok(defs)
}

fn is_of_key(outline: &Outline, column: &ColumnItem) -> bool
    ensures { result ≡ is_of_key_of outline.now column.now }
{
    is_among(&column.name, outline.partition()) || is_among(&column.name, outline.clustering())
}

/// Adds a column at its place by name, unless it is of the key.
fn add_other(
    others: &mut BTreeMap<Bytes, ColumnDef>,
    alloc: Global,
    outline: &Outline,
    column: &ColumnItem,
) -> Result<(), AllocError>
    ensures { OnOk result (others.new.entries ≡ with_other outline.now others.old.entries column.now) }
{
    if is_of_key(outline, column) {
        return Ok(());
    }
    let name = Bytes::from_slice(alloc, column.name.as_str().as_bytes())?;
    others.insert(name, def_of(alloc, ColumnKind::Regular, false, column)?)?;
    Ok(())
}

/// The columns that are not of the key, by name.
fn sorted_others(alloc: Global, outline: &Outline) -> Result<BTreeMap<Bytes, ColumnDef>, AllocError>
    ensures { IfOk result (λ others. others.entries ≡ sorted_others_of outline.now) }
{
    let mut others = BTreeMap::new(alloc);
    for column in outline.columns.as_slice() {
        add_other(&mut others, alloc, outline, column)?;
    }
    Ok(others)
}

/// These columns, and then those by name.
fn with_others(
    mut defs: Items<ColumnDef>,
    others: BTreeMap<Bytes, ColumnDef>,
) -> Result<Items<ColumnDef>, AllocError>
    ensures { IfOk result (λ all. all ≡ defs ++ values_of others.entries) }
{
    for def in others.into_values() {
        defs.push(def)?;
    }
    Ok(defs)
}

/// The columns of the partition key, the clustering columns, and the others by name.
pub(crate) fn defs_of(
    alloc: Global,
    options: &[TableOption],
    outline: &Outline,
) -> Result<ColumnDefs, AllocError>
    ensures { IfOk result (λ defs. defs ≡ defs_of_outline options.now outline.now) }
{
    let defs = partition_defs_of(alloc, outline)?;
    let defs = with_clustering(defs, alloc, options, outline)?;
    ColumnDefs::of(alloc, with_others(defs, sorted_others(alloc, outline)?)?)
}
