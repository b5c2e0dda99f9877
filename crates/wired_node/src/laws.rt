//! Laws of histories.

ghost use Rattle.wired_node.specs.Laws.{MessagesArePut, FailuresAreCounted, AnswersAreGivenOnce};

use cs_store::Store;
use replica::Replica;

/// What a link took is the messages to its node of the entries of a history that replays, in order, but for the lost ones.
pub fn messages_are_put<R: Replica>()
    ensures { MessagesArePut R.Disk.is_honest R.stands_for R.durable R.log_end R.since_flush (λ r. R.Disk.disk (R.disk r)) (λ r. R.Disk.faults (R.disk r)) }
{}

/// A node that ran at the beginning of a history and runs no longer has a store that had a fault since; of one that still runs no
/// entry tells that it failed.
pub fn failures_are_counted<R: Replica>()
    ensures { FailuresAreCounted R.Disk.is_honest R.stands_for R.durable R.log_end R.since_flush (λ r. R.Disk.disk (R.disk r)) (λ r. R.Disk.faults (R.disk r)) }
{}

/// What the entries of a history that replays answer is given to who collects it, once, or is kept, and nothing else is given. So it is
/// of each front of a history, and what is given was answered before.
pub fn answers_are_given_once<R: Replica>()
    ensures { AnswersAreGivenOnce R.Disk.is_honest R.stands_for R.durable R.log_end R.since_flush (λ r. R.Disk.disk (R.disk r)) (λ r. R.Disk.faults (R.disk r)) }
{}
