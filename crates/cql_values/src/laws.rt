//! What holds of all values: laws, each the contract of a function that does nothing.

ghost use Rattle.std.specs.Prelude.{◌≡◌, ◌≢◌, List, ℕ, Ok};
ghost use Rattle.cql_values.specs.Value.{IsBytes, IsValue, type_of};
ghost use Rattle.cql_values.specs.Protocol.{IsWord, decoded, value_bytes};
ghost use Rattle.cql_values.specs.Literals.{IsLiteral, literal_text, literal_value};
ghost use Rattle.cql_values.specs.Order.{ComparesTypes, KeepsOrder};
ghost use Rattle.cql_values.specs.declared.value.CqlType.{CqlType};
ghost use Rattle.cql_values.specs.declared.value.CqlType.TheVariants as types;
ghost use Rattle.cql_values.specs.declared.value.CqlValue.{CqlValue};

/// What is written in the protocol is a word of the value, and is decoded to it.
pub fn decoding_undoes_encoding()
    ensures word { (v : CqlValue) → IsValue v → IsWord (type_of v) (value_bytes v) v }
    ensures value { (v : CqlValue) → IsValue v → decoded (type_of v) (value_bytes v) ≡ Ok v }
{}

/// What is decoded is written as the same bytes, but for a boolean, which has the bytes 0 and 1 alone.
pub fn encoding_undoes_decoding()
    ensures { (ty : CqlType) (bytes : List ℕ) (v : CqlValue) → IsBytes bytes → ty ≢ types.Boolean → decoded ty bytes ≡ Ok v → value_bytes v ≡ bytes }
{}

/// What is printed is a literal of the value, and is read as it.
pub fn reading_undoes_printing()
    ensures literal { (v : CqlValue) → IsValue v → IsLiteral (literal_text v) v }
    ensures value { (v : CqlValue) → IsValue v → literal_value (type_of v) (literal_text v) ≡ Ok v }
{}

/// The plain order of order bytes is the order of the values, ascending and DESC, whatever follows them.
pub fn order_bytes_keep_the_order()
    ensures { KeepsOrder }
{}

/// Any two clustering values of one type compare.
pub fn clustering_values_compare()
    ensures { ComparesTypes }
{}
