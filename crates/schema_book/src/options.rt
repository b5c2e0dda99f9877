//! The options of a table.

ghost use Rattle.std.specs.Prelude.{◌≡◌};
ghost use Rattle.schema_book.specs.Names.{is_front};
ghost use Rattle.schema_book.specs.Options.{number_in as number_in_of, within as within_of, is_grace as is_grace_of, grace_of as grace_of_item, grace_after as grace_after_of, grace_in as grace_in_of, falls as falls_of, falls_after as falls_after_of, falls_in as falls_in_of, order_names, is_bad_option as is_bad_option_of, has_bad_option as has_bad_option_of};

use cql_statement::{ColumnOrder, OptionItem, TableOption};
use cs_base::Text;

/// The longest grace, in seconds.
const MOST_GRACE: u64 = 100_000_000;

/// The number that a text writes.
pub(crate) fn number_in(text: &str) -> Option<u64>
    ensures { result ≡ number_in_of text.now }
{
    text.parse::<u64>().ok()
}

/// The number, if it lies within these bounds.
fn within(low: u64, high: u64, number: Option<u64>) -> Option<u64>
    ensures { result ≡ within_of low high number }
{
    match number {
        Some(n) if low <= n && n <= high => Some(n),
        _ => None,
    }
}

fn is_grace(option: &OptionItem) -> bool
    ensures { result ≡ is_grace_of option.now }
{
    option.name.as_str() == "gc_grace_seconds"
}

fn grace_of(option: &OptionItem) -> Option<u64>
    ensures { result ≡ grace_of_item option.now }
{
    within(0, MOST_GRACE, number_in(option.value.text.as_str()))
}

fn grace_after(grace: u64, option: &TableOption) -> u64
    ensures { result ≡ grace_after_of grace option.now }
{
    match option {
        TableOption::ClusteringOrder(_) => grace,
        TableOption::Named(item) => {
            if is_grace(item) {
                grace_of(item).unwrap_or(grace)
            } else {
                grace
            }
        }
    }
}

/// The grace of a table with these options: the last that is given, or else this one.
pub(crate) fn grace_in(grace: u64, options: &[TableOption]) -> u64
    ensures { result ≡ grace_in_of grace options.now }
{
    let mut last = grace;
    for option in options {
        last = grace_after(last, option);
    }
    last
}

/// Whether an order has DESC for a column.
fn falls(name: &Text, orders: &[ColumnOrder]) -> bool
    ensures { result ≡ falls_of name.now orders.now }
{
    orders.iter().any(|order| order.column.as_str() == name.as_str() && order.is_descending)
}

fn falls_after(name: &Text, before: bool, option: &TableOption) -> bool
    ensures { result ≡ falls_after_of name.now before option.now }
{
    match option {
        TableOption::ClusteringOrder(orders) => falls(name, orders.as_slice()),
        TableOption::Named(_) => before,
    }
}

/// Whether the last clustering order has DESC for a column.
pub(crate) fn falls_in(options: &[TableOption], name: &Text) -> bool
    ensures { result ≡ falls_in_of options.now name.now }
{
    let mut last = false;
    for option in options {
        last = falls_after(name, last, option);
    }
    last
}

/// Whether an order names these columns from the first on.
fn is_in_front(orders: &[ColumnOrder], names: &[Text]) -> bool
    ensures { result ≡ is_front (order_names orders.now) names.now }
{
    let mut left = names;
    for order in orders {
        let [name, rest @ ..] = left else {
            return false;
        };
        if order.column.as_str() != name.as_str() {
            return false;
        }
        left = rest;
    }
    true
}

fn is_bad_option(clustering: &[Text], option: &TableOption) -> bool
    ensures { result ≡ is_bad_option_of clustering.now option.now }
{
    match option {
        TableOption::ClusteringOrder(orders) => !is_in_front(orders.as_slice(), clustering),
        TableOption::Named(item) => {
            if is_grace(item) {
                grace_of(item).is_none()
            } else {
                item.name.as_str() != "comment"
            }
        }
    }
}

/// Whether an option of a table with these clustering columns is none that it may have.
pub(crate) fn has_bad_option(clustering: &[Text], options: &[TableOption]) -> bool
    ensures { result ≡ has_bad_option_of clustering.now options.now }
{
    options
        .iter()
        .any(|option| is_bad_option(clustering, option))
}
