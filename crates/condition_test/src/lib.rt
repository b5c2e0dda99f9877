//! Whether the condition of a conditional statement holds of a row.
#![tactic(auto)]

mod condition;
mod laws;
mod order;

pub use condition::holds;
pub use laws::bytes_compare_as_values;
pub use order::order_of;
