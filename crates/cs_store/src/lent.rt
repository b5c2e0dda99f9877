//! What is kept of a node whose store is handed out.

ghost use Rattle.std.specs.Prelude.{◌≡◌, ◌≤◌};
ghost use Rattle.cs_base.specs.Faults.{HasRisen};

use cs_base::Faults;

/// The count of faults of a node, and that of its store when it was handed out.
#[derive(Clone, Copy, Debug, PartialEq, Eq)]
pub struct Lent {
    pub faults: Faults,
    pub taken: Faults,
}

impl Lent {
    /// Nothing has failed.
    pub fn new() -> Lent
        ensures { result ≡ record { faults = 0; taken = 0 } }
    {
        Lent {
            faults: Faults::new(),
            taken: Faults::new(),
        }
    }

    /// The store is back with this count.
    pub fn back(&mut self, count: Faults)
        ensures rose { HasRisen self.old.taken count → HasRisen self.old.faults self.new.faults }
        ensures stays { (HasRisen self.old.taken count → ⊥) → self.new.faults ≡ self.old.faults }
        ensures later { self.old.faults ≤ self.new.faults }
        ensures taken { self.new.taken ≡ self.old.taken }
    {
        if count.has_risen_since(self.taken) {
            self.faults.raise();
        }
    }
}
