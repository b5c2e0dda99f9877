//! Keyspaces, tables and columns.

use crate::column_defs::ColumnDefs;
use cql_values::CqlType;
use cs_base::Text;

/// What a column is for.
#[derive(Clone, Copy, Debug, PartialEq, Eq)]
pub enum ColumnKind {
    /// It is one of those whose values place a row on the ring.
    Partition,
    /// It is one of those by which the rows of a partition are told apart and stand in order.
    Clustering,
    Regular,
}

/// A column of a table.
#[derive(Debug, Drop)]
pub struct ColumnDef {
    pub name: Text,
    pub ty: CqlType,
    pub kind: ColumnKind,
    /// Whether rows stand by falling values of it. It is so of clustering columns alone.
    pub is_descending: bool,
}

/// A table. Its columns are those of the partition key, then the clustering columns, then the others by name.
#[derive(Debug, Drop)]
pub struct Table {
    /// Its place among all tables, from 0 on.
    pub number: u16,
    /// How many replicas each partition has.
    pub factor: u8,
    /// For how many seconds deletions are kept.
    pub grace: u64,
    pub keyspace: Text,
    pub name: Text,
    pub columns: ColumnDefs,
}

/// A keyspace, with the number of replicas of its tables' partitions.
#[derive(Debug, Drop)]
pub struct Keyspace {
    pub name: Text,
    pub factor: u8,
}
