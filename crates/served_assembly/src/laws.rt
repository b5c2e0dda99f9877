//! Laws of links.

ghost use Rattle.served_assembly.specs.Linking.{LinksStayWhole, RunsMoveLinks};

use cs_runtime::Clock;
use cs_store::Store;
use replica::Replica;
use served_links::same_ends_stay_linked;
use wired_node::messages_are_put;

/// Nodes whose runs began with the ends that `spread` gave them have, behind these runs, the two ends of each link.
pub fn links_stay_whole<R: Replica, D>()
    ensures { LinksStayWhole D R.Disk.is_honest R.stands_for R.durable R.log_end R.since_flush (λ r. R.Disk.disk (R.disk r)) (λ r. R.Disk.faults (R.disk r)) }
{
    messages_are_put::<R>();
    same_ends_stay_linked();
}

/// Where a node that was put together with links and doors has run, these links went through the run, and it has as many doors.
pub fn runs_move_links<R: Replica, D, L, C: Clock>()
    ensures { RunsMoveLinks D R.Disk.is_honest R.stands_for R.durable R.log_end R.since_flush (λ r. R.Disk.disk (R.disk r)) (λ r. R.Disk.faults (R.disk r)) R.Disk L C.gives }
{}
