//! A served run is a run of the cluster: so what holds of all runs holds of what its clients were told.
#![tactic(auto)]

ghost use Rattle.served_cluster.specs.Kinds.{kind_of_door, kind_of_replica, kind_of_streams};
ghost use Rattle.served_theorem.specs.Laws.{FormattedStoresAreLeft, ServedAnswersAreEntered, ServedMessagesWereSent, ServedRunsAreRuns};

use answer_causes::answers_are_right;
use cs_doors::Door;
use cs_io::{Link, Sink, Source};
use cs_runtime::Clock;
use cs_store::Store;
use lawful_orders::{lawful_orders_are_runs, merged_is_a_run, restarts_are_runs};
use node_workers::asks_are_told;
use read_consistency::reads_are_right;
use reads_forward::reads_go_forward;
use replica::Replica;
use wired_histories::{histories_are_steps, links_take_what_is_sent};

/// Each message that a node of a served run took was sent by a step of a node of this run.
pub fn served_messages_were_sent<R: Replica, W, G, D: Door, C: Clock, S: Source, T: Sink>()
    ensures { ServedMessagesWereSent W G R.Disk (kind_of_replica R.Disk.is_honest R.stands_for R.durable R.is_whole R.log_end R.since_flush R.disk R.Disk.disk R.Disk.faults) (kind_of_door D.given D.returned D.faults D.Link.remaining D.Link.written D.Link.faults) C.gives (kind_of_streams S.remaining S.faults T.contents T.faults) }
{
    links_take_what_is_sent::<R>();
}

/// What the nodes of a served run did, in each order in which it may have come, is a run behind the one that left their stores.
pub fn served_runs_are_runs<R: Replica, W, G, D: Door, C: Clock, S: Source, T: Sink>()
    ensures { ServedRunsAreRuns W G R.Disk (kind_of_replica R.Disk.is_honest R.stands_for R.durable R.is_whole R.log_end R.since_flush R.disk R.Disk.disk R.Disk.faults) (kind_of_door D.given D.returned D.faults D.Link.remaining D.Link.written D.Link.faults) C.gives (kind_of_streams S.remaining S.faults T.contents T.faults) }
{
    served_messages_were_sent::<R, W, G, D, C, S, T>();
    histories_are_steps::<R>();
    restarts_are_runs();
    lawful_orders_are_runs();
    merged_is_a_run();
    reads_are_right();
    reads_go_forward();
    answers_are_right();
}

/// What the clients of a served run were told is in the chronicle of each run that goes on by its steps: that a request was begun,
/// and its answer, but for those that tell that no step was made.
pub fn served_answers_are_entered<R: Replica, W, G, D: Door, C: Clock, S: Source, T: Sink>()
    ensures { ServedAnswersAreEntered W G R.Disk (kind_of_replica R.Disk.is_honest R.stands_for R.durable R.is_whole R.log_end R.since_flush R.disk R.Disk.disk R.Disk.faults) (kind_of_door D.given D.returned D.faults D.Link.remaining D.Link.written D.Link.faults) C.gives (kind_of_streams S.remaining S.faults T.contents T.faults) }
{
    asks_are_told::<C>();
}

/// Formatted stores hold what a run left in which nothing happened.
pub fn formatted_stores_are_left<R: Replica>()
    ensures { FormattedStoresAreLeft R.stands_for }
{}
