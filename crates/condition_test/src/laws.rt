//! What holds of all values.

ghost use Rattle.condition_test.specs.Laws.{ComparesAsValues};

use cql_values::{decoding_undoes_encoding, order_bytes_keep_the_order};

/// The bytes of two values of a type other than uuid compare as the values do.
pub fn bytes_compare_as_values()
    ensures { ComparesAsValues }
{
    decoding_undoes_encoding();
    order_bytes_keep_the_order();
}
