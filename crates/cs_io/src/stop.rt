//! Signs that it is time to stop.

ghost use Rattle.std.specs.Prelude.{◌≡◌, Bool, false, IsTrue};

/// A sign that is looked at again and again.
pub trait StopSign {
    /// Whether it has ever answered true.
    ghost has_answered: { Self → Bool };

    /// Whether it is time to stop. Once it is, it stays so.
    fn raised(&mut self) -> bool
        ensures answer { result ≡ has_answered self.new }
        ensures stays { IsTrue (has_answered self.old) → IsTrue (has_answered self.new) };
}

/// The sign of what is not to be stopped.
#[derive(Clone, Copy, Debug, PartialEq, Eq)]
pub struct NeverStop;

impl StopSign for NeverStop {
    ghost has_answered = { λ _. false };

    fn raised(&mut self) -> bool {
        false
    }
}
