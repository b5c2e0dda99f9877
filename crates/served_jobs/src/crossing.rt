//! What threads may do with jobs.

use crate::done::JobDone;
use crate::job::NodeJob;
use node_calls::{NodeCall, NodeReply};
use node_lock::Stepper;

fn is_sent<T: Send>() {}

/// Where a node, its entries and a door may go to another thread, and threads may share the runtime, the clock and the gate, the
/// jobs of the node may go to other threads, and so may what is left of them.
pub fn jobs_cross_threads<
    'a,
    W: Sync + 'a,
    N: Stepper<Event = NodeCall, Reply = NodeReply> + Send + 'a,
    C: Sync + 'a,
    G: Sync + 'a,
    D: Send + 'a,
>()
where
    N::Entry: Send,
{
    is_sent::<NodeJob<'a, W, N, C, G, D>>();
    is_sent::<JobDone<N, D>>();
}
