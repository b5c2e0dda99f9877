//! The answer of an outside that failed.

use std::error::Error;
use std::fmt;

/// A call to the outside that failed: a read, a write, a sync, an accept. The object's count of faults tells of it.
#[derive(Clone, Copy, Debug, PartialEq, Eq, Drop)]
pub struct Failed;

impl fmt::Display for Failed {
    fn fmt<W: fmt::Write>(&self, f: &mut fmt::Formatter<W>) -> fmt::Result {
        f.write_str("the outside failed")
    }
}

impl Error for Failed {}
