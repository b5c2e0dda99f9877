//! Copies of events.

ghost use Rattle.std.specs.Prelude.{◌≡◌, IfOk};

use crate::asks::copy_ask;
use crate::messages::copy_message;
use peer_messages::{Event, What};
use std::alloc::{AllocError, Global};

fn copy_what(alloc: Global, what: &What) -> Result<What, AllocError>
    ensures { IfOk result (λ copy. copy ≡ what.now) }
{
    match what {
        What::Client(ask) => Ok(What::Client(copy_ask(alloc, ask)?)),
        What::Deliver(message) => Ok(What::Deliver(copy_message(alloc, message)?)),
        What::Alive(peer, up) => Ok(What::Alive(*peer, *up)),
        What::Collect(request) => Ok(What::Collect(*request)),
        What::Flush => Ok(What::Flush),
        What::Tick => Ok(What::Tick),
    }
}

/// An equal event in memory of its own.
pub fn copy_event(alloc: Global, event: &Event) -> Result<Event, AllocError>
    ensures { IfOk result (λ copy. copy ≡ event.now) }
{
    Ok(Event {
        clock: event.clock,
        what: copy_what(alloc, &event.what)?,
    })
}

#[cfg(test)]
mod tests {
    use super::copy_event;
    use cs_base::{Level, Micros, Text};
    use peer_messages::{Ask, Event, Plan, What};
    use std::test::Fail;

    #[test]
    fn request_is_copied(rt: HostRuntime) -> Result<(), Fail> {
        let plan = Plan::Use(Text::from_str(rt.alloc(), "shop")?);
        let event = Event {
            clock: Micros::new(7),
            what: What::Client(Ask {
                plan,
                level: Level::Two,
            }),
        };
        let copy = copy_event(rt.alloc(), &event)?;
        assert_eq!(rt; copy.clock.count(), 7);
        match &copy.what {
            What::Client(
                Ask {
                    plan: Plan::Use(keyspace),
                    level: Level::Two,
                },
            ) => assert_eq!(rt; keyspace.as_str(), "shop"),
            _ => panic!(rt; "another event"),
        }
        Ok(())
    }
}
