//! Doors.

ghost use Rattle.std.specs.Prelude.{◌≡◌, ℕ, ◌+◌, ◌≤◌, List, [], ◌∷◌, ◌++◌, Option, MatchOption, IfOk, IfSome, OnErr};
ghost use Rattle.std.specs.Option.{option_map};
ghost use Rattle.cs_base.specs.Faults.{HasRisen};
ghost use Rattle.cs_doors.specs.Lending.{HasLent};

use cs_base::Failed;
use cs_io::Link;

/// Where peers wait for a link.
///
/// A link that is given back has to be one that the door gave. No clause can tell a link from another one of the same
/// value, so what is asked is that some link is still to come back.
pub trait Door {
    type Link: Link;

    /// How many links it gave, where the door tells it.
    ghost given: { Self → Option ℕ };

    /// The links that came back, in their order, where the door tells them.
    ghost returned: { Self → Option (List Self.Link) };

    /// How many faults it had.
    ghost faults: { Self → ℕ };

    /// The link of a peer, where one waits now.
    fn next(&mut self) -> Result<Option<Self::Link>, Failed>
        ensures given { IfOk result (λ found. MatchOption found (given self.new ≡ given self.old) (λ _. given self.new ≡ option_map (λ n. n + 1) (given self.old))) }
        ensures lent { IfOk result (λ found. IfSome found (λ _. HasLent 1 (given self.new) (returned self.new))) }
        ensures returned { returned self.new ≡ returned self.old }
        ensures err { OnErr result (given self.new ≡ given self.old) }
        ensures counted { faults self.old ≤ faults self.new }
        ensures failed { OnErr result (HasRisen (faults self.old) (faults self.new)) };

    /// Takes back a link that it gave, and closes it. It takes no memory.
    fn back(&mut self, link: Self::Link)
        requires { HasLent 1 (given self.old) (returned self.old) }
        ensures returned { returned self.new ≡ option_map (λ links. links ++ link ∷ []) (returned self.old) }
        ensures given { given self.new ≡ given self.old }
        ensures faults { faults self.new ≡ faults self.old };
}
