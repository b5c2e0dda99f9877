//! Counts of faults.

ghost use Rattle.std.specs.Prelude.{◌≡◌, ◌↔◌, ◌+◌, ◌≤◌, IsTrue};
ghost use Rattle.cs_base.specs.Faults.{HasRisen};

use std::marker::Model;

/// How often an object of the outside has failed. The count stands still at its greatest number.
#[derive(Clone, Copy, Debug, PartialEq, Eq)]
pub struct Faults {
    count: u64,
}

impl Model for Faults {
    ghost use Rattle.std.specs.Prelude.{ℕ};

    ghost Value = { ℕ };

    ghost view = { λ a. a.count };

    ghost inverse = { λ n. record { count = n } };
}

impl Faults {
    /// The count of an object that is new.
    pub const fn new() -> Faults
        ensures { result ≡ 0 }
    {
        Faults { count: 0 }
    }

    pub fn count(self) -> u64
        ensures { result ≡ self }
    {
        self.count
    }

    /// Counts one more.
    pub fn raise(&mut self)
        ensures risen { HasRisen self.old self.new }
        ensures later { self.old ≤ self.new }
        ensures by_one { self.new ≤ self.old + 1 }
    {
        self.count = self.count.saturating_add(1);
    }

    /// Whether it rose since it was `before`, as far as counts tell.
    pub fn has_risen_since(self, before: Faults) -> bool
        ensures { IsTrue result ↔ HasRisen before self }
    {
        before.count < self.count || before.count == u64::MAX
    }
}
