//! ORDER BY.

ghost use Rattle.std.specs.Prelude.{◌≡◌};
ghost use Rattle.prepared_statement.specs.Orders.{differs as differs_of, behind_partition as behind_partition_of, turns as turns_of, is_reversed as is_reversed_of, is_order as is_order_of, has_bad_order as has_bad_order_of, reverses as reverses_of};

use cql_statement::ColumnOrder;
use key_restrictions::{is_clustering, is_partition};
use schema_book::ColumnDef;

fn differs(one: bool, other: bool) -> bool
    ensures { result ≡ differs_of one other }
{
    if one { !other } else { other }
}

/// The columns behind those of the partition key, of which the clustering columns are the first.
fn behind_partition(columns: &[ColumnDef]) -> &[ColumnDef]
    ensures { result.now ≡ behind_partition_of columns.now }
{
    let mut rest = columns;
    while let [first, others @ ..] = rest {
        if !is_partition(first.kind) {
            return rest;
        }
        rest = others;
    }
    rest
}

/// Whether an order turns that of the table round.
fn turns(column: &ColumnDef, order: &ColumnOrder) -> bool
    ensures { result ≡ turns_of column.now order.now }
{
    differs(column.is_descending, order.is_descending)
}

fn is_reversed(columns: &[ColumnDef], orders: &[ColumnOrder]) -> bool
    ensures { result ≡ is_reversed_of columns.now orders.now }
{
    match (columns, orders) {
        ([column, ..], [order, ..]) => turns(column, order),
        _ => false,
    }
}

/// Whether these are the first of the clustering columns, all turned round or none.
fn is_order(reversed: bool, columns: &[ColumnDef], orders: &[ColumnOrder]) -> bool
    ensures { result ≡ is_order_of reversed columns.now orders.now }
{
    let mut left = columns;
    for order in orders {
        let [column, rest @ ..] = left else {
            return false;
        };
        if !is_clustering(column.kind)
            || column.name.as_str() != order.column.as_str()
            || differs(turns(column, order), reversed)
        {
            return false;
        }
        left = rest;
    }
    true
}

/// Whether the columns are not the first clustering columns, all in the table's order or all turned round.
pub(crate) fn has_bad_order(columns: &[ColumnDef], orders: &[ColumnOrder]) -> bool
    ensures { result ≡ has_bad_order_of columns.now orders.now }
{
    let columns = behind_partition(columns);
    !is_order(is_reversed(columns, orders), columns, orders)
}

/// Whether the order turns that of the table round.
pub(crate) fn reverses(columns: &[ColumnDef], orders: &[ColumnOrder]) -> bool
    ensures { result ≡ reverses_of columns.now orders.now }
{
    is_reversed(behind_partition(columns), orders)
}
