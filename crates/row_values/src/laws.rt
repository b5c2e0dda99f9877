//! What is so of all values, which each call of a function of this module gives to its caller.

ghost use Rattle.row_values.specs.Laws.{KeysComeBack, ClusteringValuesComeBack, EachColumnHasAValue, ValuesAreDetermined, ValuesAreOfTypes};

use cql_values::{clustering_values_compare, order_bytes_keep_the_order};

/// The parts of a key are those of which `key_restrictions::partition_of` makes it.
pub fn keys_come_back()
    ensures { KeysComeBack }
{}

/// The clustering values that are read from order bytes are those whose bytes they are.
pub fn clustering_values_come_back()
    ensures { ClusteringValuesComeBack }
{
    order_bytes_keep_the_order();
    clustering_values_compare();
}

/// A row has as many values as its table has columns.
pub fn each_column_has_a_value()
    ensures { EachColumnHasAValue }
{}

/// What a row, its key and its table are determines its values.
pub fn values_are_determined()
    ensures { ValuesAreDetermined }
{
    order_bytes_keep_the_order();
    clustering_values_compare();
}

/// In a table, whose columns stand in order (`schema_book::columns_are_in_order`), each value is of its column's type.
pub fn values_are_of_types()
    ensures { ValuesAreOfTypes }
{}
