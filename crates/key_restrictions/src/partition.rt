//! The partition that relations name.

ghost use Rattle.std.specs.Prelude.{◌≡◌, ◌++◌, ◌&&◌, not, flat_map, option_copied, IfOk, OnOk};
ghost use Rattle.key_restrictions.specs.Places.{is_partition_at as is_partition_at_of};
ghost use Rattle.key_restrictions.specs.Rows.{bytes_in as bytes_in_of, key_parts, framed, key_bytes as key_bytes_of, partition_of as partition_of_relations};

use crate::places::{fixing, is_partition, is_partition_at};
use crate::restriction::Restriction;
use changes::Partition;
use cql_values::{CqlValue, encode};
use cs_base::Bytes;
use schema_book::ColumnDef;
use std::alloc::{AllocError, Global};
use token_ring::token;

/// The bytes of the value that a column is to equal.
fn bytes_in(alloc: Global, relation: Option<&Restriction<CqlValue>>) -> Result<Bytes, AllocError>
    ensures { IfOk result (λ bytes. bytes ≡ bytes_in_of (option_copied relation.entry)) }
{
    match relation {
        Some(restriction) => encode(alloc, &restriction.value),
        None => Ok(Bytes::new(alloc)),
    }
}

/// Adds a column's bytes to those of a key of several columns: before them the last two bytes of their number, which
/// has no more in a key that is not too long, and a zero byte behind them.
fn add_framed(key: &mut Vec<u8>, part: &[u8]) -> Result<(), AllocError>
    ensures { OnOk result (key.new.items ≡ key.old.items ++ framed part.now) }
{
    let length = part.len().to_be_bytes();
    key.extend_from_slice(&length[6..])?;
    key.extend_from_slice(part)?;
    key.push(0)?;
    Ok(())
}

/// The bytes of a key of several columns.
fn composite_bytes(
    alloc: Global,
    columns: &[ColumnDef],
    restrictions: &[Restriction<CqlValue>],
) -> Result<Bytes, AllocError>
    ensures { IfOk result (λ key. key ≡ flat_map framed (key_parts columns.now restrictions.now)) }
{
    let mut key = Vec::new(alloc);
    for (place, column) in columns.iter().enumerate() {
        if !is_partition(column.kind) {
            break;
        }
        let part = bytes_in(alloc, fixing(restrictions, place))?;
        add_framed(&mut key, part.as_slice())?;
    }
    Ok(Bytes::from_vec(key))
}

/// Whether the partition key is of one column.
fn has_one_column(columns: &[ColumnDef]) -> bool
    ensures { result ≡ (is_partition_at_of columns.now 0 && not (is_partition_at_of columns.now 1)) }
{
    is_partition_at(columns, 0) && !is_partition_at(columns, 1)
}

/// The bytes of the partition's key.
fn key_bytes(
    alloc: Global,
    columns: &[ColumnDef],
    restrictions: &[Restriction<CqlValue>],
) -> Result<Bytes, AllocError>
    ensures { IfOk result (λ key. key ≡ key_bytes_of columns.now restrictions.now) }
{
    if has_one_column(columns) {
        bytes_in(alloc, fixing(restrictions, 0))
    } else {
        composite_bytes(alloc, columns, restrictions)
    }
}

/// The partition of a table that relations name.
pub fn partition_of(
    alloc: Global,
    table: u16,
    columns: &[ColumnDef],
    restrictions: &[Restriction<CqlValue>],
) -> Result<Partition, AllocError>
    ensures { IfOk result (λ partition. partition ≡ partition_of_relations table columns.now restrictions.now) }
{
    let key = key_bytes(alloc, columns, restrictions)?;
    Ok(Partition {
        table,
        token: token(key.as_slice()),
        key,
    })
}
