//! The rows that a query shows of a content.
#![tactic(auto)]

mod page;
mod rows;
mod select;

pub use page::first_rows;
pub use select::shown;
