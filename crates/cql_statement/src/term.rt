//! Names, terms and relations.

use cql_values::Literal;
use cs_base::{Items, Text};

pub type Names = Items<Text>;

/// A table, in the keyspace that is named or in the one in use.
#[derive(Debug, Drop)]
pub struct TableName {
    pub keyspace: Option<Text>,
    pub name: Text,
}

/// What stands for a value.
#[derive(Debug, Drop)]
pub enum Term {
    Constant(Literal),
    Null,
    /// `?`, which stands for the next value of a request.
    Marker,
    /// `:` and a name, which stand for a request's value of that name.
    NamedMarker(Text),
}

pub type Terms = Items<Term>;

/// How a relation of a WHERE compares a column with its term.
#[derive(Clone, Copy, Debug, PartialEq, Eq)]
pub enum RelationOperator {
    Equal,
    Less,
    LessOrEqual,
    Greater,
    GreaterOrEqual,
}

/// How a test of an IF compares a column with its term.
#[derive(Clone, Copy, Debug, PartialEq, Eq)]
pub enum TestOperator {
    Equal,
    NotEqual,
    Less,
    LessOrEqual,
    Greater,
    GreaterOrEqual,
}

/// One of the relations of a WHERE.
#[derive(Debug, Drop)]
pub struct Relation {
    pub column: Text,
    pub operator: RelationOperator,
    pub term: Term,
}

pub type Relations = Items<Relation>;
