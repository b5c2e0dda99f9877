//! The state behind a page of a read.
#![tactic(auto)]

mod laws;
mod state;

pub use laws::reading_undoes_writing;
pub use state::{PagingError, read_paging, write_paging};
