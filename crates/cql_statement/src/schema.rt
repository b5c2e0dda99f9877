//! Statements about keyspaces and tables.

use crate::term::{Names, TableName};
use cql_values::{CqlType, Literal};
use cs_base::{Items, Text};

/// `CREATE KEYSPACE`. `DURABLE_WRITES = TRUE` is what holds without it too, and leaves nothing here.
#[derive(Debug, Drop)]
pub struct CreateKeyspace {
    pub if_not_exists: bool,
    pub name: Text,
    pub replication: Replication,
}

/// An entry of the map behind REPLICATION: a string, and a string or a whole number.
#[derive(Debug, Drop)]
pub struct ReplicationEntry {
    pub key: Literal,
    pub value: Literal,
}

/// The entries as they stand, repeated keys too.
pub type Replication = Items<ReplicationEntry>;

/// `CREATE TABLE`.
#[derive(Debug, Drop)]
pub struct CreateTable {
    pub if_not_exists: bool,
    pub table: TableName,
    pub items: TableItems,
    pub options: TableOptions,
}

/// What stands between the parentheses of `CREATE TABLE`.
#[derive(Debug, Drop)]
pub enum TableItem {
    Column(ColumnItem),
    PrimaryKey(KeyItem),
}

pub type TableItems = Items<TableItem>;

/// A column with its type.
#[derive(Debug, Drop)]
pub struct ColumnItem {
    pub name: Text,
    pub ty: CqlType,
    /// Whether PRIMARY KEY stands behind it.
    pub is_primary_key: bool,
}

/// `PRIMARY KEY ((a, b), c, d)`: a partition key of one or more columns, and any number of clustering columns.
#[derive(Debug, Drop)]
pub struct KeyItem {
    pub partition: Names,
    pub clustering: Names,
}

/// An option of `CREATE TABLE`.
#[derive(Debug, Drop)]
pub enum TableOption {
    ClusteringOrder(ColumnOrders),
    Named(OptionItem),
}

pub type TableOptions = Items<TableOption>;

/// An option by its name, whatever it is, with a whole number or a string.
#[derive(Debug, Drop)]
pub struct OptionItem {
    pub name: Text,
    pub value: Literal,
}

/// A column in an order: rising, or with DESC falling.
#[derive(Debug, Drop)]
pub struct ColumnOrder {
    pub column: Text,
    pub is_descending: bool,
}

pub type ColumnOrders = Items<ColumnOrder>;

/// `USE`.
#[derive(Debug, Drop)]
pub struct Use {
    pub keyspace: Text,
}
