//! Faults to come.

ghost use Rattle.std.specs.Prelude.{◌≡◌};
ghost use Rattle.cs_store.specs.Plan.{fails, sooner};

use crate::Outcome;

/// What happens at a call.
#[derive(Clone, Copy, Debug, PartialEq, Eq)]
pub(crate) enum Fault {
    /// The call fails and does nothing.
    Fail,
    /// The node stops once the call's effect is pending.
    Stop(Outcome),
}

impl Fault {
    fn is_fail(self) -> bool
        ensures { result ≡ fails self }
    {
        match self {
            Fault::Fail => true,
            Fault::Stop(_) => false,
        }
    }
}

/// A fault at the call that comes after so many, the next one being 1.
#[derive(Clone, Copy, Debug, PartialEq, Eq)]
pub(crate) struct Plan {
    pub(crate) calls: u32,
    pub(crate) fault: Fault,
}

impl Plan {
    /// Which of two comes.
    pub(crate) fn or_sooner(self, planned: Option<Plan>) -> Plan
        ensures { result ≡ sooner planned self }
    {
        match planned {
            None => self,
            Some(old) => {
                if self.calls < old.calls || (self.calls == old.calls && self.fault.is_fail()) {
                    self
                } else {
                    old
                }
            }
        }
    }
}
