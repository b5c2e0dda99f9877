//! Faults of a store in memory, as they are told.

ghost use Rattle.std.specs.Prelude.{◌≡◌, not};
ghost use Rattle.cs_store.specs.Mem.{IsSameDisk, is_stopped, plan_of};
ghost use Rattle.cluster_model.specs.Faults.{is_fail as is_fail_of, has_fail, has_stop, planned, all_planned};

use cs_store::{MemStore, Outcome};

/// A fault that a store was told, at the call that comes after so many, the next one being 1.
#[derive(Clone, Copy, Debug, PartialEq, Eq)]
pub(crate) enum Told {
    /// The call fails.
    Fail(u32),
    /// The node stops at it.
    Stop(u32, Outcome),
}

impl Told {
    fn is_fail(&self) -> bool
        ensures { result ≡ is_fail_of self.now }
    {
        match self {
            Told::Fail(_) => true,
            Told::Stop(..) => false,
        }
    }
}

/// Whether some call was to fail.
pub(crate) fn has_failure(told: &[Told]) -> bool
    ensures { result ≡ has_fail told.now }
{
    told.iter().any(|fault| fault.is_fail())
}

/// Whether some call was to stop the node.
pub(crate) fn has_halt(told: &[Told]) -> bool
    ensures { result ≡ has_stop told.now }
{
    told.iter().any(|fault| !fault.is_fail())
}

/// A store is told a fault.
fn tell(store: &mut MemStore, fault: Told)
    ensures plan { plan_of store.new ≡ planned fault (plan_of store.old) }
    ensures disk { IsSameDisk store.old store.new }
    ensures stopped { is_stopped store.new ≡ is_stopped store.old }
{
    match fault {
        Told::Fail(call) if call > 0 => store.fail_at(call),
        Told::Stop(call, outcome) if call > 0 => store.stop_at(call, outcome),
        _ => {}
    }
}

/// A store is told faults, one after another.
pub(crate) fn tell_all(store: &mut MemStore, told: &[Told])
    ensures plan { plan_of store.new ≡ all_planned told.now (plan_of store.old) }
    ensures disk { IsSameDisk store.old store.new }
    ensures stopped { is_stopped store.new ≡ is_stopped store.old }
{
    for fault in told {
        tell(store, *fault);
    }
}
