//! What a statement gives values for.

use cql_statement::{RelationOperator, TestOperator};
use cql_values::CqlType;
use cs_base::{Items, Text};
use statement_values::Param;

/// What a value is for. Columns are named by their place in the table; one that is not there has that behind the last.
#[derive(Clone, Copy, Debug, PartialEq, Eq)]
pub enum Role {
    /// A relation on a column of the key, or a value of an INSERT for one.
    Key(usize, RelationOperator),
    /// A relation on another column.
    Filter(usize),
    /// A value for another column.
    Cell(usize),
    /// A test of a column in an IF.
    Test(usize, TestOperator),
    /// `USING TIMESTAMP`.
    Timestamp,
    /// `LIMIT`.
    Limit,
    /// A column of an INSERT that has no value.
    Unfilled(usize),
    /// A value of an INSERT that has no column.
    Unplaced,
}

/// What stands in the text of a statement for a value.
#[derive(Debug, Drop)]
pub enum Stands {
    /// A constant of the type, in the encoding of the native protocol, or null.
    Own(Param),
    /// A constant that is none of the type.
    Mismatched,
    /// A marker, for which a request gives a value.
    Marker,
}

/// A place of a statement at which a value stands.
#[derive(Debug, Drop)]
pub struct Slot {
    /// The name of a named marker. Else that of the column, `[timestamp]` or `[limit]`.
    pub name: Text,
    pub ty: CqlType,
    pub role: Role,
    pub stands: Stands,
}

/// In the order of the text.
pub type Slots = Items<Slot>;
