//! What the jobs of all nodes share.

use schema_book::Schema;
use std::alloc::Global;
use std::sync::atomic::AtomicBool;

/// What the jobs of all nodes share: the runtime, the clock, the flag at which they stop, and, for the connections, the gate of their
/// requests and the schema.
#[derive(Drop)]
pub struct Host<'a, W, C, G> {
    pub rt: &'a W,
    pub alloc: Global,
    pub clock: &'a C,
    pub stop: &'a AtomicBool,
    pub gate: &'a G,
    pub schema: &'a Schema,
}
