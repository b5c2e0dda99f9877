//! What comes of calls.

ghost use Rattle.std.specs.Prelude.{◌≡◌};
ghost use Rattle.node_workers.specs.Calls.{is_stopped as is_stopped_for, has_failed as has_failed_in};
ghost use Rattle.served_console.specs.Answers.{refusal_because as refusal_for, refusal_in as refused_in, tables_in as tables_told, nothing_told, and_told};

use crate::answer::Refusal;
use node_calls::{Cause, NodeCall, NodeReply};
use node_lock::{LockRefused, Receipt};

pub(crate) type Outcome = Result<Receipt<NodeReply>, LockRefused<NodeCall>>;

/// What the calls of a line tell: whether a node has failed, which refusal was the first, and how many tables the last one
/// told.
#[derive(Clone, Copy, Debug, PartialEq, Eq)]
pub(crate) struct Told {
    pub failed: bool,
    pub refused: Option<Refusal>,
    pub tables: u32,
}

fn is_stopped(cause: Option<Cause>) -> bool
    ensures { result ≡ is_stopped_for cause }
{
    match cause {
        Some(Cause::Stopped) => true,
        Some(Cause::Nothing | Cause::NoRoom | Cause::TooLarge | Cause::NoMemory) | None => false,
    }
}

fn has_failed(outcome: &Outcome) -> bool
    ensures { result ≡ has_failed_in outcome.now }
{
    match outcome {
        Ok(receipt) => receipt.reply.failed,
        Err(LockRefused::Full(_)) => false,
        Err(LockRefused::Refused(call)) => is_stopped(call.cause),
    }
}

fn refusal_because(cause: Option<Cause>) -> Refusal
    ensures { result ≡ refusal_for cause }
{
    match cause {
        Some(Cause::NoRoom) => Refusal::NoRoom,
        Some(Cause::TooLarge) => Refusal::TooLarge,
        Some(Cause::Nothing | Cause::NoMemory | Cause::Stopped) | None => Refusal::NoMemory,
    }
}

fn refusal_in(outcome: &Outcome) -> Option<Refusal>
    ensures { result ≡ refused_in outcome.now }
{
    match outcome {
        Ok(_) => None,
        Err(LockRefused::Full(_)) => Some(Refusal::Full),
        Err(LockRefused::Refused(call)) => Some(refusal_because(call.cause)),
    }
}

fn tables_in(outcome: &Outcome) -> u32
    ensures { result ≡ tables_told outcome.now }
{
    match outcome {
        Ok(receipt) => receipt.reply.tables.unwrap_or(0),
        Err(_) => 0,
    }
}

impl Told {
    /// There were no calls.
    pub fn nothing() -> Told
        ensures { result ≡ nothing_told }
    {
        Told {
            failed: false,
            refused: None,
            tables: 0,
        }
    }

    /// There was a call more.
    pub fn and(self, outcome: &Outcome) -> Told
        ensures { result ≡ and_told self outcome.now }
    {
        Told {
            failed: self.failed || has_failed(outcome),
            refused: self.refused.or(refusal_in(outcome)),
            tables: tables_in(outcome),
        }
    }
}
