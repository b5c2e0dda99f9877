//! What is so of all relations, which each call of a function of this module gives to its caller.

ghost use Rattle.key_restrictions.specs.Laws.{BoundsEncloseRows};

use cql_values::{clustering_values_compare, order_bytes_keep_the_order};

/// A row lies between the bounds that `row_range` gives exactly where it meets the relations on its columns.
pub fn bounds_enclose_rows()
    ensures { BoundsEncloseRows }
{
    order_bytes_keep_the_order();
    clustering_values_compare();
}
