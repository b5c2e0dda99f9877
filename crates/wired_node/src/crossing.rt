//! What threads may do with locked nodes.

use crate::entry::NodeEntry;
use crate::wired::Wired;
use node_lock::{NodeLock, Pass};
use replica::Replica;

fn is_sent<T: Send>() {}

fn is_shared<T: Sync>() {}

/// Where a replica may go to another thread, so may the node on it, its entries and the passes of its lock, and threads may share the
/// lock.
pub fn crosses_threads<R: Replica + Send>() {
    is_sent::<NodeEntry>();
    is_sent::<Wired<R>>();
    is_sent::<Pass<Wired<R>>>();
    is_shared::<NodeLock<Wired<R>>>();
}
