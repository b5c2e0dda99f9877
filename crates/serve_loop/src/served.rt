//! How connections end.

use cs_base::Failed;
use std::alloc::AllocError;

/// How a connection ended.
#[derive(Clone, Copy, Debug, PartialEq, Eq)]
pub enum Served {
    /// The peer sends nothing more, the stop sign was raised, or the node does not run.
    Ended,
    /// What came was no frame; the peer was told so.
    Closed,
    /// A call of the link failed.
    LinkFault,
    NoMemory,
}

/// Why a response was not written whole.
#[derive(Clone, Copy, Debug, PartialEq, Eq)]
pub(crate) enum Unsent {
    Link,
    Memory,
}

impl From<Failed> for Unsent {
    ghost use Rattle.std.specs.Prelude.{◌≡◌};
    ghost use Rattle.serve_loop.specs.declared.served.Unsent.TheVariants.{Link};

    ghost from_gives = { λ _ e. e ≡ Link };

    fn from(_: Failed) -> Unsent {
        Unsent::Link
    }
}

impl From<AllocError> for Unsent {
    ghost use Rattle.std.specs.Prelude.{◌≡◌};
    ghost use Rattle.serve_loop.specs.declared.served.Unsent.TheVariants.{Memory};

    ghost from_gives = { λ _ e. e ≡ Memory };

    fn from(_: AllocError) -> Unsent {
        Unsent::Memory
    }
}
