//! What comes of a call.

ghost use Rattle.std.specs.Prelude.{◌≡◌};
ghost use Rattle.node_workers.specs.Calls.{is_stopped as is_stopped_for, has_failed as has_failed_in, answer_because as answer_for, name_in as named_in, name_by as named_by, found_because as found_for, answer_by as answered_by};

use client_desk::Answer;
use cs_base::ReqId;
use node_calls::{Cause, NodeCall, NodeReply};
use node_lock::{LockRefused, Receipt};
use peer_messages::{Invalid, Refusal};

pub(crate) type Outcome = Result<Receipt<NodeReply>, LockRefused<NodeCall>>;

fn is_stopped(cause: Option<Cause>) -> bool
    ensures { result ≡ is_stopped_for cause }
{
    match cause {
        Some(Cause::Stopped) => true,
        Some(Cause::Nothing | Cause::NoRoom | Cause::TooLarge | Cause::NoMemory) | None => false,
    }
}

/// Whether the node's store failed, now or in an earlier step.
pub(crate) fn has_failed(outcome: &Outcome) -> bool
    ensures { result ≡ has_failed_in outcome.now }
{
    match outcome {
        Ok(receipt) => receipt.reply.failed,
        Err(LockRefused::Full(_)) => false,
        Err(LockRefused::Refused(call)) => is_stopped(call.cause),
    }
}

/// Whether the history was full.
pub(crate) fn is_full(outcome: &Outcome) -> bool {
    matches!(outcome, Err(LockRefused::Full(_)))
}

fn answer_because(cause: Option<Cause>) -> Answer
    ensures { result ≡ answer_for cause }
{
    match cause {
        Some(Cause::NoRoom) => Answer::Refused(Refusal::Overloaded),
        Some(Cause::TooLarge) => Answer::Refused(Refusal::Invalid(Invalid::PartitionTooLarge)),
        Some(Cause::Stopped) => Answer::Refused(Refusal::Down),
        Some(Cause::Nothing | Cause::NoMemory) | None => Answer::NoMemory,
    }
}

fn name_in(started: Option<ReqId>) -> Result<ReqId, Answer>
    ensures { result ≡ named_in started }
{
    match started {
        Some(request) => Ok(request),
        None => Err(Answer::NoMemory),
    }
}

fn name_of(outcome: &Outcome) -> Result<ReqId, Answer>
    ensures { result ≡ named_by outcome.now }
{
    match outcome {
        Ok(receipt) if receipt.reply.failed => Err(Answer::Refused(Refusal::Down)),
        Ok(receipt) => name_in(receipt.reply.started),
        Err(LockRefused::Full(_)) => Err(Answer::Refused(Refusal::Overloaded)),
        Err(LockRefused::Refused(call)) => Err(answer_because(call.cause)),
    }
}

fn found_because(cause: Option<Cause>) -> Option<Answer>
    ensures { result ≡ found_for cause }
{
    match cause {
        Some(Cause::Nothing) => None,
        Some(Cause::NoRoom | Cause::TooLarge | Cause::NoMemory | Cause::Stopped) | None => {
            Some(answer_because(cause))
        }
    }
}

fn take_answer(outcome: &mut Outcome) -> Option<Answer>
    ensures { result ≡ answered_by outcome.old }
{
    match outcome {
        Ok(receipt) if receipt.reply.failed => Some(Answer::Refused(Refusal::Down)),
        Ok(receipt) => receipt.reply.answer.take(),
        Err(LockRefused::Full(_)) => Some(Answer::Refused(Refusal::Overloaded)),
        Err(LockRefused::Refused(call)) => found_because(call.cause),
    }
}

/// The name of the request that was submitted, or its answer.
pub(crate) fn into_name(outcome: Outcome) -> Result<ReqId, Answer>
    ensures { result ≡ named_by outcome }
{
    name_of(&outcome)
}

/// The answer that was collected, if there is one by now.
pub(crate) fn into_answer(outcome: Outcome) -> Option<Answer>
    ensures { result ≡ answered_by outcome }
{
    let mut outcome = outcome;
    take_answer(&mut outcome)
}
