//! Types, values and literals.

ghost use Rattle.std.specs.Prelude.{◌≡◌};
ghost use Rattle.cql_values.specs.Value.{type_of};

use cs_base::{Bytes, Text};

/// A type of CQL. `varchar` is `Text`.
#[derive(Clone, Copy, Debug, PartialEq, Eq)]
pub enum CqlType {
    Ascii,
    Bigint,
    Blob,
    Boolean,
    Int,
    Timestamp,
    Uuid,
    Text,
    Timeuuid,
    Smallint,
    Tinyint,
}

/// A value, with its type.
///
/// The bytes of an `Ascii` are below 128, and a `Timeuuid` is a uuid of version 1: whatever this crate reads is so,
/// and what is said of writing and reading again is said of such values.
#[derive(Debug, Drop)]
pub enum CqlValue {
    Ascii(Text),
    Bigint(i64),
    Blob(Bytes),
    Boolean(bool),
    Int(i32),
    /// Milliseconds since the beginning of 1970.
    Timestamp(i64),
    /// The sixteen bytes as one number, the first byte the highest.
    Uuid(u128),
    Text(Text),
    /// As a `Uuid`.
    Timeuuid(u128),
    Smallint(i16),
    Tinyint(i8),
}

impl CqlValue {
    pub fn type_of(&self) -> CqlType
        ensures { result ≡ type_of self.now }
    {
        match self {
            CqlValue::Ascii(_) => CqlType::Ascii,
            CqlValue::Bigint(_) => CqlType::Bigint,
            CqlValue::Blob(_) => CqlType::Blob,
            CqlValue::Boolean(_) => CqlType::Boolean,
            CqlValue::Int(_) => CqlType::Int,
            CqlValue::Timestamp(_) => CqlType::Timestamp,
            CqlValue::Uuid(_) => CqlType::Uuid,
            CqlValue::Text(_) => CqlType::Text,
            CqlValue::Timeuuid(_) => CqlType::Timeuuid,
            CqlValue::Smallint(_) => CqlType::Smallint,
            CqlValue::Tinyint(_) => CqlType::Tinyint,
        }
    }
}

/// What a literal looks like.
#[derive(Clone, Copy, Debug, PartialEq, Eq)]
pub enum LiteralKind {
    /// In single quotes.
    Str,
    /// A whole number.
    Whole,
    /// Hexadecimal digits behind `0x`.
    Blob,
    /// Hexadecimal digits with four hyphens.
    Uuid,
    /// `true` or `false`.
    Bool,
}

/// A constant as a statement has it.
#[derive(Debug, Drop)]
pub struct Literal {
    pub kind: LiteralKind,
    /// The term as it was written, with its quotes.
    pub text: Text,
}
