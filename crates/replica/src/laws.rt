//! The law of commits one after another.

ghost use Rattle.replica.specs.Calls.{CrashesLeaveAFront};

use crate::Replica;

/// A crash at any moment of calls one after another leaves what some of the committed entries make of what was kept at first:
/// from the first one on, and all of those that were answered by then.
pub fn crashes_leave_a_front<R: Replica>()
    ensures { CrashesLeaveAFront R.stands_for (λ r. R.Disk.disk (R.disk r)) R.durable }
{}
