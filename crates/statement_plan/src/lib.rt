//! What a statement of CQL asks of a partition, with its tables, columns and values looked up.
#![tactic(auto)]

mod fault;
mod operation;
mod plan;

pub use fault::{Fault, Feature};
pub use operation::{CellTest, CellTests, Compare, ConditionalOperation, Test, ValueOrder};
pub use plan::{ColumnNumbers, Columns, Plan};
