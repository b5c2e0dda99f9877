//! How workers end.

ghost use Rattle.std.specs.Prelude.{◌≡◌, true};

use crate::outcome::{Outcome, has_failed};
use node_lock::LockRefused;
use peer_messages::{Message, What};

/// How a worker ended.
#[derive(Drop)]
pub struct Ended {
    /// The node's store failed, and the node has stopped.
    pub failed: bool,
    /// A message that was taken from its link and then not delivered, since the node's history was full.
    pub held: Option<Message>,
}

impl Ended {
    ghost use Rattle.node_workers.specs.Endings.{well as all_well};
    ghost use Rattle.node_workers.specs.Repeating.{failed_as};

    /// Nothing failed, and nothing is held.
    pub(crate) fn well() -> Ended
        ensures { result ≡ all_well }
    {
        Ended {
            failed: false,
            held: None,
        }
    }

    /// The node has failed.
    pub(crate) fn failed() -> Ended
        ensures { result ≡ failed_as true }
    {
        Ended {
            failed: true,
            held: None,
        }
    }
}

ghost use Rattle.node_workers.specs.Endings.{message_in as message_of, held_in as held_with, ended_in, ended_as};

fn message_in(what: What) -> Option<Message>
    ensures { result ≡ message_of what }
{
    match what {
        What::Deliver(message) => Some(message),
        What::Client(_) | What::Alive(..) | What::Collect(_) | What::Flush | What::Tick => None,
    }
}

fn held_in(outcome: Outcome) -> Option<Message>
    ensures { result ≡ held_with outcome }
{
    match outcome {
        Err(LockRefused::Full(call)) => message_in(call.event.what),
        Ok(_) | Err(LockRefused::Refused(_)) => None,
    }
}

/// How a worker ends with what came of a call, if it ends.
pub(crate) fn into_ended(outcome: Outcome) -> Ended
    ensures { result ≡ ended_in outcome }
{
    let failed = has_failed(&outcome);
    Ended {
        failed,
        held: held_in(outcome),
    }
}

/// Goes on where all is well.
pub(crate) fn go_on(ended: Ended) -> Result<bool, Ended>
    ensures { ended_as result ≡ ended }
{
    match ended {
        Ended {
            failed: false,
            held: None,
        } => Ok(true),
        ended => Err(ended),
    }
}
