//! Node time, as it rises at the events of a history.

ghost use Rattle.std.specs.Prelude.{◌≡◌, ◌<◌, ◌≤◌, ◌+◌, ◌^◌, max, IfOk};
ghost use Rattle.node_steps.specs.Steps.{reading as reading_of, message_time as message_time_of, is_ahead as is_ahead_of, looked_at, risen_time};
ghost use Rattle.merged_histories.specs.Timed.{seen_event as seen_event_of};

use event_copies::copy_event;
use peer_messages::{Event, What};
use std::alloc::{AllocError, Global};

/// A clock's reading above this counts as this.
const LATEST_READING: u64 = 1 << 62;

/// A message's time may be so much above the node's time and its clock.
const LEAD: u128 = 60_000_000;

fn reading(event: &Event) -> u128
    ensures { result ≡ reading_of event.now }
{
    u128::from(event.clock.count().min(LATEST_READING))
}

/// Whether the event's message is from too far ahead, so that the node refused it.
fn is_ahead(time: u128, event: &Event) -> bool
    requires { time < 2 ^ 127 }
    ensures { result ≡ is_ahead_of time event.now event.now.what }
{
    match &event.what {
        What::Deliver(message) => {
            let latest = time.max(reading(event));
            latest + LEAD < u128::from(message.time.count())
        }
        What::Client(_) | What::Alive(..) | What::Collect(_) | What::Flush | What::Tick => false,
    }
}

fn message_time(what: &What) -> u128
    ensures value { result ≡ message_time_of what.now }
    ensures within { result ≤ 2 ^ 64 }
{
    match what {
        What::Deliver(message) => u128::from(message.time.count()) + 1,
        What::Client(_) | What::Alive(..) | What::Collect(_) | What::Flush | What::Tick => 0,
    }
}

/// The message's time, unless it is from too far ahead.
fn looked_time(time: u128, event: &Event) -> u128
    requires { time < 2 ^ 127 }
    ensures value { result ≡ message_time_of (looked_at time event.now) }
    ensures within { result ≤ 2 ^ 64 }
{
    if is_ahead(time, event) {
        return 0;
    }
    message_time(&event.what)
}

/// The time to which a node's rises at an event.
pub(crate) fn risen(time: u128, event: &Event) -> u128
    requires { time < 2 ^ 127 }
    ensures value { result ≡ risen_time time event.now }
    ensures within { result ≤ max (time + 1) (2 ^ 64) }
{
    let latest = looked_time(time, event).max(reading(event));
    (time + 1).max(latest)
}

/// A copy of the event as the node saw it: where its message was ahead, nothing but time.
pub(crate) fn seen_event(alloc: Global, time: u128, event: &Event) -> Result<Event, AllocError>
    requires { time < 2 ^ 127 }
    ensures { IfOk result (λ seen. seen ≡ seen_event_of time event.now) }
{
    let ahead = is_ahead(time, event);
    if ahead {
        return Ok(Event {
            clock: event.clock,
            what: What::Tick,
        });
    }
    copy_event(alloc, event)
}
