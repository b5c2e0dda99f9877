//! What a node keeps of a partition: its changes in a tree, into which further ones are put once memory is taken for them.
#![tactic(auto)]

ghost use Rattle.std.specs.Prelude.{◌≡◌, IfOk};

mod clearing;
mod content;
mod inside;
mod keys;
mod lengths;
mod loaded;
mod losing;
mod memory;
mod reading;
mod runs;
mod slots;
mod spots;
mod taking;

use changes::Held;
pub use content::PartitionContent;
use cs_base::Micros;
pub use loaded::LoadedContent;
use std::alloc::{AllocError, Global};

/// A change that is stored, and when it came.
#[derive(Debug, PartialEq, Eq, Drop)]
pub struct Arrived {
    pub held: Held,
    /// The node's time at which the content last came to have this change after it had not.
    pub arrival: Micros,
}

impl Arrived {
    /// An equal one, in memory of its own.
    pub fn copy(&self, alloc: Global) -> Result<Arrived, AllocError>
        ensures { IfOk result (λ copy. copy ≡ self.now) }
    {
        Ok(Arrived {
            held: self.held.copy(alloc)?,
            arrival: self.arrival,
        })
    }
}
