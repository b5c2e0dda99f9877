//! Node time: how it rises at an event, and which messages count for nothing.

ghost use Rattle.std.specs.Prelude.{◌≡◌, ◌<◌, ◌≤◌, ◌↔◌, IsNone, IfSome};
ghost use Rattle.peer_messages.specs.declared.event.What.TheVariants.{Tick};
ghost use Rattle.node_steps.specs.Acts.{ceiling_after, is_old as is_old_of};
ghost use Rattle.node_steps.specs.Steps.{reading as reading_of, message_time as message_time_of, is_ahead as is_ahead_of, looked_at, risen_time, end_of_time, started_by, is_refused as is_refused_of};
ghost use Rattle.node_core.specs.Nodes.{tick_at};

use cs_base::{Micros, NodeId, ReqId};
use peer_messages::{Event, Setting, What};
use std::mem;

/// No node's time passes this.
const END_OF_TIME: u64 = (1 << 63) - (1 << 21);

/// A clock's reading above this counts as this.
const LATEST_READING: u64 = 1 << 62;

/// A message's time may be so much above the node's time and its clock.
const LEAD: u64 = 60_000_000;

/// A new ceiling is so much above the time that needs it.
const CEILING_STEP: u64 = 1_000_000;

fn reading(event: &Event) -> u64
    ensures { result ≡ reading_of event.now }
{
    event.clock.count().min(LATEST_READING)
}

/// Whether the event's message is from too far ahead, so that it counts for nothing.
pub(crate) fn is_ahead(time: Micros, event: &Event) -> bool
    ensures { result ≡ is_ahead_of time event.now event.now.what }
{
    match &event.what {
        What::Deliver(message) => {
            let latest = time.count().max(reading(event));
            u128::from(latest) + u128::from(LEAD) < u128::from(message.time.count())
        }
        What::Client(_) | What::Alive(..) | What::Collect(_) | What::Flush | What::Tick => false,
    }
}

fn message_time(what: &What) -> u128
    ensures { result ≡ message_time_of what.now }
{
    match what {
        What::Deliver(message) => u128::from(message.time.count()) + 1,
        What::Client(_) | What::Alive(..) | What::Collect(_) | What::Flush | What::Tick => 0,
    }
}

/// The message's time, unless it is from too far ahead.
fn looked_time(time: Micros, event: &Event) -> u128
    ensures { result ≡ message_time_of (looked_at time event.now) }
{
    if is_ahead(time, event) {
        return 0;
    }
    message_time(&event.what)
}

/// The time to which a node's rises at an event, unless it would pass its end.
pub(crate) fn risen(time: Micros, event: &Event) -> Option<Micros>
    ensures none { IsNone result ↔ (end_of_time < risen_time time event.now) }
    ensures value { IfSome result (λ risen. risen ≡ risen_time time event.now) }
    ensures within { IfSome result (λ risen. risen ≤ end_of_time) }
{
    let next = u128::from(time.count()) + 1;
    let latest = looked_time(time, event).max(u128::from(reading(event)));
    let risen = next.max(latest);
    if risen > u128::from(END_OF_TIME) {
        return None;
    }
    Some(Micros::new(risen as u64))
}

/// The time to which a node's rises at a reading of its clock, unless it would pass its end.
pub(crate) fn risen_at(time: Micros, clock: Micros) -> Option<Micros>
    ensures none { IsNone result ↔ (end_of_time < risen_time time (tick_at clock)) }
    ensures value { IfSome result (λ risen. risen ≡ risen_time time (tick_at clock)) }
    ensures within { IfSome result (λ risen. risen ≤ end_of_time) }
{
    let event = Event {
        clock,
        what: What::Tick,
    };
    risen(time, &event)
}

/// The ceiling behind a time.
pub(crate) fn raised(ceiling: Micros, time: Micros) -> Micros
    requires { time ≤ end_of_time }
    ensures { result ≡ ceiling_after ceiling time }
{
    if ceiling < time {
        Micros::new(time.count() + CEILING_STEP)
    } else {
        ceiling
    }
}

/// Whether what was born at that time is too old to be heard.
pub(crate) fn is_old(setting: &Setting, time: Micros, born: Micros) -> bool
    ensures { result ≡ is_old_of setting.now time born }
{
    u128::from(born.count()) + u128::from(setting.expiry.count()) < u128::from(time.count())
}

/// Whether the event's message is refused, where the node's time rose from one time to another.
pub(crate) fn is_refused(setting: &Setting, before: Micros, time: Micros, event: &Event) -> bool
    ensures { result ≡ is_refused_of setting.now before time event.now event.now.what }
{
    match &event.what {
        What::Deliver(message) => is_ahead(before, event) || is_old(setting, time, message.born),
        What::Client(_) | What::Alive(..) | What::Collect(_) | What::Flush | What::Tick => false,
    }
}

/// The request that a client's event begins.
pub(crate) fn request_began(me: NodeId, time: Micros, what: &What) -> Option<ReqId>
    ensures { result ≡ started_by me time what.now }
{
    match what {
        What::Client(_) => Some(ReqId { node: me, time }),
        What::Deliver(_) | What::Alive(..) | What::Collect(_) | What::Flush | What::Tick => None,
    }
}

fn leave_nothing(what: &mut What)
    ensures { what.new ≡ Tick }
{
    drop(mem::replace(what, What::Tick));
}

/// Leaves of the event what the node looks at.
pub(crate) fn look(time: Micros, event: &mut Event)
    ensures { event.new ≡ record event.old { what = looked_at time event.old } }
{
    let ahead = is_ahead(time, event);
    if ahead {
        leave_nothing(&mut event.what);
    }
}
