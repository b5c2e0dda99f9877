//! How a call ends.

use script_program::Status;

/// How a call ended, with its source and its sink.
#[derive(Drop)]
pub struct Finished<S, T> {
    pub status: Status,
    pub source: S,
    pub sink: T,
}
