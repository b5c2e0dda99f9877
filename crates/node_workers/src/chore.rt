//! What a worker calls for again and again.

ghost use Rattle.std.specs.Prelude.{◌≡◌};
ghost use Rattle.node_workers.specs.Repeating.{what_of};

use peer_messages::What;

#[derive(Clone, Copy, Debug, PartialEq, Eq)]
pub(crate) enum Chore {
    Tick,
    Flush,
}

impl Chore {
    pub fn what(self) -> What
        ensures { result ≡ what_of self }
    {
        match self {
            Chore::Tick => What::Tick,
            Chore::Flush => What::Flush,
        }
    }
}
