//! Changes to the rows of a partition, what is asked of them, and what is shown.
//!
//! A row is named by the order bytes of its clustering values, and a column by its number in the table: the partition
//! key's columns first, then the clustering columns, then the others by name.
#![tactic(auto)]

mod copies;
mod drafts;
mod encoded;
mod laws;
mod order;
mod storing;
mod winning;

use cs_base::{Bytes, Items, Micros, ReqId};
pub use encoded::encoded_length;
pub use laws::{lengths_add_up, one_change_of_each_place, places_are_ordered};
pub use storing::{are_in_order, in_order};
pub use winning::value_order;

/// A partition: its table, and the key whose token places it. Partitions are in order of token, then table, then key.
#[derive(Debug, PartialEq, Eq, Drop)]
pub struct Partition {
    pub token: i64,
    pub table: u16,
    pub key: Bytes,
}

/// An end of a range of rows: before all rows whose bytes begin with `at`, or behind them.
#[derive(Debug, Drop)]
pub struct Bound {
    pub at: Bytes,
    pub after: bool,
}

/// Where a change stands in its partition.
#[derive(Debug, Drop)]
pub enum Place {
    /// A cell, by its row and column.
    Cell(Bytes, u8),
    /// A row's marker, which INSERT writes: with it a row without cells is shown.
    Marker(Bytes),
    /// The deletion of a row.
    RowGone(Bytes),
    /// The deletion of the rows between two bounds.
    RangeGone(Bound, Bound),
    /// The deletion of the whole partition.
    PartGone,
}

/// A change within a partition. A cell without a value is deleted; a marker has an empty value.
#[derive(Debug, PartialEq, Eq, Drop)]
pub struct Held {
    pub place: Place,
    pub value: Option<Bytes>,
    /// The write timestamp, in microseconds by the client's count.
    pub timestamp: i64,
    /// The coordinator's time when the request was submitted.
    pub submitted: Micros,
    pub request: ReqId,
}

/// A change with its partition.
#[derive(Debug, PartialEq, Eq, Drop)]
pub struct Change {
    pub partition: Partition,
    pub held: Held,
}

pub type Helds = Items<Held>;

/// Changes of one partition that are written together.
#[derive(Debug, Drop)]
pub struct Mutation {
    pub partition: Partition,
    pub changes: Helds,
}

/// A change that a statement asks for. Without a timestamp of its own it gets the start time of its request.
#[derive(Debug, PartialEq, Eq, Drop)]
pub struct Draft {
    pub place: Place,
    pub value: Option<Bytes>,
    pub timestamp: Option<i64>,
}

pub type Drafts = Items<Draft>;

/// The changes of one partition that a statement asks for.
#[derive(Debug, Drop)]
pub struct DraftMutation {
    pub partition: Partition,
    pub changes: Drafts,
}

/// A read of the rows of a partition between two bounds, in clustering order or reversed, up to a limit.
#[derive(Debug, PartialEq, Eq, Drop)]
pub struct Query {
    pub partition: Partition,
    pub from: Bound,
    pub upto: Bound,
    pub reversed: bool,
    pub limit: u32,
}

/// A cell as it is shown.
#[derive(Debug, PartialEq, Eq, Drop)]
pub struct ShownCell {
    pub column: u8,
    pub value: Bytes,
}

/// A row as it is shown: its bytes, and a value for each column that has one, by column.
#[derive(Debug, Drop)]
pub struct ShownRow {
    pub row: Bytes,
    pub cells: Items<ShownCell>,
}

pub type ShownRows = Items<ShownRow>;
