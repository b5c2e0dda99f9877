//! Laws of calls.

ghost use Rattle.node_workers.specs.Chains.{CallsLeaveEntries};
ghost use Rattle.node_workers.specs.Told.{AsksAreTold};

use cs_runtime::Clock;
use node_calls::{NodeCall, NodeReply};
use node_lock::Stepper;

/// Where a pass made calls, each that was not refused left an entry of its own, in order, and nothing else did.
pub fn calls_leave_entries<N: Stepper<Event = NodeCall, Reply = NodeReply>>()
    ensures { CallsLeaveEntries N.steps N.event_of N.reply_of N.refuses }
{}

/// Each request that was submitted at a desk has a call that submitted it, and each answer a call of which it came.
pub fn asks_are_told<C: Clock>()
    ensures { AsksAreTold C.gives }
{}
