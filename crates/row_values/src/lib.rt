//! The values of a shown row, and their print.
//!
//! A read shows a row as the order bytes of its clustering values and its cells in the native protocol; its partition
//! has the bytes of its key. Here they are CQL values again, one for each column of the table.
#![tactic(auto)]

mod clustering;
mod front;
mod key;
mod laws;
mod lines;
mod literals;
mod others;
mod plain;
mod print;
mod row;
mod words;

pub use laws::{
    clustering_values_come_back, each_column_has_a_value, keys_come_back, values_are_determined,
    values_are_of_types,
};
pub use lines::push_lines;
pub use print::push_values;
pub use row::{RowValues, values_of};
