//! Relations, with their columns looked up.

use cql_statement::RelationOperator;
use cs_base::Items;

/// A relation on a column of the key: the column by its place in the table, and its value, where that is there yet.
#[derive(Drop)]
pub struct Restriction<V: Drop> {
    pub column: usize,
    pub operator: RelationOperator,
    pub value: V,
}

pub type Restrictions<V> = Items<Restriction<V>>;
