//! The doors of all nodes.

ghost use Rattle.std.specs.Prelude.{◌≡◌, ℕ, ◌+◌, ◌<◌, ◌≤◌, List, [], ◌∷◌, ◌++◌, Option, IfOk, IfSome, OnOk, OnErr};
ghost use Rattle.std.specs.Option.{option_map};
ghost use Rattle.cs_base.specs.Faults.{HasRisen};
ghost use Rattle.cs_doors.specs.Lending.{HasLent};

use crate::door::Door;
use cs_base::{Failed, NodeId};

/// What opens doors. Each connection of a node has a door of its own, and the doors of a node share its port.
///
/// A door that is given back has to be one that was given. As no clause tells two doors of the same value apart, what is
/// asked is that some door is still to come back.
pub trait Doors {
    type Door: Door;

    /// How many doors were given, where it is told.
    ghost given: { Self → Option ℕ };

    /// The doors that came back, in their order, each with its node, where they are told.
    ghost returned: { Self → Option (List (ℕ × Self.Door)) };

    /// How many faults there were here or at a door that is back.
    ghost faults: { Self → ℕ };

    /// A new door of the node, which has given nothing and had no fault.
    fn listen(&mut self, node: NodeId, port: u16) -> Result<Self::Door, Failed>
        ensures fresh { IfOk result (λ door. (Self.Door.faults door ≡ 0) × IfSome (Self.Door.given door) (λ n. n ≡ 0) × IfSome (Self.Door.returned door) (λ links. links ≡ [])) }
        ensures given { OnOk result (given self.new ≡ option_map (λ n. n + 1) (given self.old)) }
        ensures lent { OnOk result ((k : ℕ) → HasLent k (given self.old) (returned self.old) → HasLent (k + 1) (given self.new) (returned self.new)) }
        ensures returned { returned self.new ≡ returned self.old }
        ensures err { OnErr result (given self.new ≡ given self.old) }
        ensures counted { faults self.old ≤ faults self.new }
        ensures failed { OnErr result (HasRisen (faults self.old) (faults self.new)) };

    /// Takes back a door of the node, and closes it. It takes no memory.
    fn back(&mut self, node: NodeId, door: Self::Door)
        requires { HasLent 1 (given self.old) (returned self.old) }
        ensures returned { returned self.new ≡ option_map (λ doors. doors ++ (node, door) ∷ []) (returned self.old) }
        ensures given { given self.new ≡ given self.old }
        ensures lent { (k : ℕ) → HasLent (k + 1) (given self.old) (returned self.old) → HasLent k (given self.new) (returned self.new) }
        ensures counted { faults self.old ≤ faults self.new }
        ensures faults { 0 < Self.Door.faults door → HasRisen (faults self.old) (faults self.new) };

    /// No fewer were given than came back.
    ghost lends: { (s : Self) → HasLent 0 (given s) (returned s) };
}
