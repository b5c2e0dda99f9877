//! The relations of a WHERE on the key of a table: what they leave open, and the rows that they name.
#![tactic(auto)]

mod bounds;
mod checks;
mod laws;
mod operators;
mod partition;
mod places;
mod restriction;
mod rows;

pub use checks::{filters, is_twice, is_whole, misses_slice, misses_whole, names_rows};
pub use laws::bounds_enclose_rows;
pub use partition::partition_of;
pub use places::{is_clustering, is_key, is_key_at, is_partition};
pub use restriction::{Restriction, Restrictions};
pub use rows::{RowBounds, is_long, row_bounds, row_bytes};
