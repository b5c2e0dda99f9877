//! What the history of a locked node says of the node's steps, and of the links that lead from it.
#![tactic(auto)]

ghost use Rattle.wired_histories.specs.Laws.{FreshLinksTakeWhatIsSent, HistoriesAreSteps, LinksTakeWhatIsSent, RunningHistoriesAreSteps};

use cs_store::Store;
use replica::Replica;
use wired_node::{failures_are_counted, messages_are_put};

/// Where no entry of a history that replays tells that its node failed, the node went through these steps, one for each entry, if
/// its disk is honest. So did a node that still runs.
pub fn histories_are_steps<R: Replica>()
    ensures gone { HistoriesAreSteps R.Disk.is_honest R.stands_for R.durable R.log_end R.since_flush (λ r. R.Disk.disk (R.disk r)) (λ r. R.Disk.faults (R.disk r)) }
    ensures running { RunningHistoriesAreSteps R.Disk.is_honest R.stands_for R.durable R.log_end R.since_flush (λ r. R.Disk.disk (R.disk r)) (λ r. R.Disk.faults (R.disk r)) }
{
    failures_are_counted::<R>();
}

/// What the links of a node take while a history replays are messages of its steps, in order, but for the lost ones.
pub fn links_take_what_is_sent<R: Replica>()
    ensures links { LinksTakeWhatIsSent R.Disk.is_honest R.stands_for R.durable R.log_end R.since_flush (λ r. R.Disk.disk (R.disk r)) (λ r. R.Disk.faults (R.disk r)) }
    ensures fresh { FreshLinksTakeWhatIsSent R.Disk.is_honest R.stands_for R.durable R.log_end R.since_flush (λ r. R.Disk.disk (R.disk r)) (λ r. R.Disk.faults (R.disk r)) }
{
    messages_are_put::<R>();
}
