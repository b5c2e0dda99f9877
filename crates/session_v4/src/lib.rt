//! A connection of the native protocol, version 4: what is due for each frame of its client.
#![tactic(auto)]

mod act;
mod answers;
mod batches;
mod described;
mod given;
mod kept;
mod laws;
mod outcome;
mod paging;
mod reason;
mod refusals;
mod session;
mod startup;
mod words;

pub use act::Act;
pub use laws::{
    connections_start_once, few_statements_are_kept, frames_leave_connections_open,
    keyspaces_are_told, nothing_is_asked_before_startup, nothing_unknown_is_asked,
    pages_begin_behind_a_row, pages_go_on, prepared_statements_ask_the_same,
};
pub use paging::query_behind;
pub use refusals::stream_of;
pub use session::Session;
pub use words::wordless;
