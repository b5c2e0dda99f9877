//! Desks.

ghost use Rattle.std.specs.Prelude.{◌≡◌, List};
ghost use Rattle.client_desk.specs.Asks.{Asked, Submits, IsAwaited, Collects};

use crate::answer::Answer;
use cs_base::ReqId;
use peer_messages::Ask;

/// Where a connection submits its requests, one after another, and collects their answers.
pub trait Desk {
    /// What whoever lends a desk knows it by.
    type Home;

    /// No call changes it.
    ghost home: { Self → Self.Home };

    /// What was submitted, in order, with the answers that were given.
    ghost asks: { Self → List Asked };

    /// Submits a request: an `Ok` names it, and an `Err` is its answer.
    fn submit(&mut self, ask: Ask) -> Result<ReqId, Answer>
        ensures submits { Submits (asks self.old) ask result (asks self.new) }
        ensures home { home self.new ≡ home self.old };

    /// The answer of the last request that was submitted, where it was not answered yet, or None where there is none yet.
    fn collect(&mut self, request: ReqId) -> Option<Answer>
        requires { IsAwaited (asks self.old) request }
        ensures collects { Collects (asks self.old) request result (asks self.new) }
        ensures home { home self.new ≡ home self.old };
}
