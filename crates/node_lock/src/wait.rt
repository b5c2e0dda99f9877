//! How a thread waits for its turn.

ghost use Rattle.std.specs.Prelude.{◌≡◌};

use crate::stepper::Stepper;
use crate::words::{LockShared, SERVING, TICKET};
use std::sync::Wait;
use std::{hint, thread};

/// How many looks a thread makes one upon the other.
const BUSY_LOOKS: u32 = 64;

/// After how many looks a thread sleeps. Until then it lets others run between them, so that the one that has the turn
/// isn't kept from a processor.
const WAKEFUL_LOOKS: u32 = 256;

/// What a thread does between two looks at the ticket that is served.
pub(crate) fn rest<N: Stepper, R: Wait>(
    rt: &R,
    shared: &LockShared<N, N::Entry>,
    looks: u32,
    serving: u64,
)
    requires { shared.now.table_id.words ≡ 3 }
{
    if looks < BUSY_LOOKS {
        hint::spin_loop();
    } else if looks < WAKEFUL_LOOKS {
        thread::yield_now();
    } else {
        shared.park(rt, SERVING, (serving & 0xffff_ffff) as u32);
    }
}

/// Wakes the threads that sleep, once this ticket is served. Where it is the next one to be drawn, none does.
pub(crate) fn wake<N: Stepper>(shared: &LockShared<N, N::Entry>, serving: u64)
    requires { shared.now.table_id.words ≡ 3 }
{
    if shared.peek(TICKET) != serving {
        shared.wake_all(SERVING);
    }
}
