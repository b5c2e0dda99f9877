//! The values of the partition key.

ghost use Rattle.std.specs.Prelude.{◌≡◌, ◌++◌, ◌≢◌, ◌≤◌, length, drop, IfOk, OnOk};
ghost use Rattle.row_values.specs.Keys.{part_length, first_part, behind_part};
ghost use Rattle.row_values.specs.Values.{key_values, partition_columns, value_at};

use crate::front::{Front, value_in};
use cql_values::{CqlType, CqlValue};
use key_restrictions::is_partition;
use schema_book::ColumnDef;
use std::alloc::{AllocError, Global};

/// How many bytes the part at the front of a key of several columns has. Its length stands before it, in two bytes, and a
/// zero byte behind it.
fn part_len(key: &[u8]) -> Option<usize>
    ensures { result ≡ part_length key.now }
{
    let [high, low, rest @ ..] = key else {
        return None;
    };
    let len = usize::from(u16::from_be_bytes([*high, *low]));
    if len < rest.len() && rest[len] == 0 {
        Some(len)
    } else {
        None
    }
}

/// The value of the part at the front of a key of several columns.
fn part_front(alloc: Global, ty: CqlType, key: &[u8]) -> Result<Front, AllocError>
    ensures value { IfOk result (λ front. front.value ≡ value_at ty (first_part key.now)) }
    ensures within { IfOk result (λ front. front.len ≤ length key.now) }
    ensures behind { IfOk result (λ front. drop front.len key.now ≡ behind_part key.now) }
{
    match part_len(key) {
        Some(len) => Ok(Front {
            value: value_in(alloc, ty, &key[2..len + 2])?,
            len: len + 3,
        }),
        None => Ok(Front::none(key)),
    }
}

/// How many columns the partition key has.
fn partition_count(columns: &[ColumnDef]) -> usize
    ensures { result ≡ length (partition_columns columns.now) }
{
    columns
        .iter()
        .filter(|column| is_partition(column.kind))
        .count()
}

/// Adds the value of the whole key, for its one column.
fn push_whole(
    alloc: Global,
    values: &mut Vec<Option<CqlValue>>,
    columns: &[ColumnDef],
    key: &[u8],
) -> Result<(), AllocError>
    requires { length (partition_columns columns.now) ≡ 1 }
    ensures { OnOk result (values.new.items ≡ values.old.items ++ key_values columns.now key.now) }
{
    for column in columns {
        if is_partition(column.kind) {
            values.push(value_in(alloc, column.ty, key)?)?;
        }
    }
    Ok(())
}

/// Adds the values of the parts of the key.
fn push_parts(
    alloc: Global,
    values: &mut Vec<Option<CqlValue>>,
    columns: &[ColumnDef],
    key: &[u8],
) -> Result<(), AllocError>
    requires { length (partition_columns columns.now) ≢ 1 }
    ensures { OnOk result (values.new.items ≡ values.old.items ++ key_values columns.now key.now) }
{
    let mut rest = key;
    for column in columns {
        if is_partition(column.kind) {
            let front = part_front(alloc, column.ty, rest)?;
            values.push(front.value)?;
            rest = &rest[front.len..];
        }
    }
    Ok(())
}

/// Adds the values of the partition key.
pub(crate) fn push_key_values(
    alloc: Global,
    values: &mut Vec<Option<CqlValue>>,
    columns: &[ColumnDef],
    key: &[u8],
) -> Result<(), AllocError>
    ensures { OnOk result (values.new.items ≡ values.old.items ++ key_values columns.now key.now) }
{
    if partition_count(columns) == 1 {
        push_whole(alloc, values, columns, key)
    } else {
        push_parts(alloc, values, columns, key)
    }
}
