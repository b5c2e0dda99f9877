//! What a run begins with and leaves.

use node_calls::{NodeCall, NodeReply};
use node_lock::Stepper;
use served_console::ConsoleEnd;
use served_nodes::NodeLeft;
use source_lines::LineReader;
use std::alloc::AllocError;

/// What a console stands on: where its lines come from, with what was read of it and not taken yet, where its answers go, and what it
/// writes first.
#[derive(Drop)]
pub struct Desk<S, T> {
    pub source: S,
    pub sink: T,
    pub lines: LineReader,
    pub opening: Vec<u8>,
}

/// What is left of a run. There are no nodes where there was no memory.
#[derive(Drop)]
pub struct Ran<N: Stepper<Event = NodeCall, Reply = NodeReply>, D, S, T> {
    pub nodes: Result<Vec<NodeLeft<N, D>>, AllocError>,
    pub source: S,
    pub sink: T,
    pub end: ConsoleEnd,
}
