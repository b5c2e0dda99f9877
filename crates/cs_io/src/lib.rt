//! The outside of the program: where its input comes from, where its output goes, the peers that it answers, the gates that
//! their requests pass, and the signs at which it stops.
#![tactic(auto)]

mod gate;
mod link;
mod mem_link;
mod pieces;
mod sink;
mod source;
mod stop;

pub use gate::{Gate, HoldGate, OpenGate, Passage, Point};
pub use link::{Heard, Link};
pub use mem_link::MemLink;
pub use sink::{MemSink, Sink, StdSink};
pub use source::{MemSource, Source, StdSource};
pub use stop::{NeverStop, StopSign};
