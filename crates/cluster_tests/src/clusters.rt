//! Clusters, and what their network does with messages.

use crate::lines::{self, Partner};
use crate::plans::ask;
use crate::stores::{setting, store};
use crate::told::tell_last;
use crate::words::{node, number, outcome, word};
use chronicle_pieces::Piece;
use cluster_model::{Cluster, ClusterError, ClusterEvent};
use cs_store::MemStore;
use list_replica::MemListReplica;
use replica::MemReplica;
use std::alloc::{AllocError, Global};
use std::fmt::Write;
use std::test::Fail;

/// A cluster over replicas.
#[derive(Drop)]
struct Run<R: MemReplica> {
    cluster: Cluster<R>,
}

/// `begin STORE ..`: the stores of these kinds.
fn stores(alloc: Global, line: &str) -> Result<Vec<MemStore>, AllocError> {
    let mut stores = Vec::new(alloc);
    for kind in line.split(' ').skip(1) {
        stores.push(store(alloc, kind)?)?;
    }
    Ok(stores)
}

/// A cluster on these stores, one or three.
fn begun<R: MemReplica>(alloc: Global, line: &str) -> Result<Cluster<R>, ClusterError> {
    let stores = stores(alloc, line)?;
    let setting = setting(alloc, if stores.len() == 1 { "1" } else { "3" })?;
    if stores.len() != usize::from(setting.ring.nodes()) {
        return Err(ClusterError::NoMemory);
    }
    Cluster::new(alloc, setting, stores)
}

/// What a line lets happen to a cluster.
fn event(alloc: Global, line: &str) -> Result<ClusterEvent, AllocError> {
    let (me, peer) = (node(word(line, 1)), node(word(line, 2)));
    let message = number(word(line, 3));
    match word(line, 0) {
        "deliver" => Ok(ClusterEvent::Deliver(me, peer, message)),
        "lose" => Ok(ClusterEvent::Lose(me, peer, message)),
        "settle" => Ok(ClusterEvent::Settle(word(line, 1).parse().unwrap_or(0))),
        "crash" => Ok(ClusterEvent::Crash(me, outcome(word(line, 2)))),
        "restart" => Ok(ClusterEvent::Restart(me)),
        _ => Ok(ClusterEvent::Ask(me, ask(alloc, line)?)),
    }
}

/// Writes the last entry of each of these pieces, and how a request was turned away.
fn tell_pieces(out: &mut String, pieces: &[Piece]) -> Result<(), AllocError> {
    for piece in pieces {
        match piece {
            Piece::Turned(_, refusal) => write!(out, " {refusal:?}")?,
            _ => tell_last(out, piece.own())?,
        }
    }
    Ok(())
}

impl<R: MemReplica> Run<R> {
    /// Begins anew, or tells why not.
    fn begin(&mut self, alloc: Global, out: &mut String, line: &str) -> Result<(), AllocError> {
        match begun(alloc, line) {
            Ok(cluster) => {
                self.cluster = cluster;
                Ok(())
            }
            Err(error) => write!(out, " {error:?}"),
        }
    }

    /// Lets something happen, and tells what it adds to the chronicle.
    fn step(&mut self, alloc: Global, out: &mut String, line: &str) -> Result<(), AllocError> {
        let before = self.cluster.chronicle().len();
        self.cluster.step(alloc, event(alloc, line)?)?;
        match self.cluster.chronicle().get(before..) {
            Some(pieces) => tell_pieces(out, pieces),
            None => Ok(()),
        }
    }
}

impl<R: MemReplica> Partner for Run<R> {
    fn take(&mut self, alloc: Global, out: &mut String, line: &str) -> Result<(), AllocError> {
        match word(line, 0) {
            "begin" => self.begin(alloc, out, line),
            "runs" => write!(out, " {}", self.cluster.runs(node(word(line, 1)))),
            _ => self.step(alloc, out, line),
        }
    }
}

/// The first line that goes otherwise, or nothing.
fn unlike<R: MemReplica>(alloc: Global, talk: &str) -> Result<String, ClusterError> {
    let cluster = begun::<R>(alloc, "begin formatted")?;
    Ok(lines::unlike(alloc, Run { cluster }, talk)?)
}

/// What happens in each line, and behind the colon what is told then. Messages are delivered by number, and again; what is not lost
/// settles; no cluster begins on a damaged store; and beside a row's long value there is no room in the partition: what takes its
/// place fits, and then the log is full.
const TALK: &str = "begin formatted formatted formatted:
write 0 QUORUM a 5 x: submitted
deliver 1 0 1:
deliver 0 1 1:
deliver 1 0 1: acked>01
deliver 1 0 1:
begin formatted formatted formatted:
write 0 QUORUM a 5 x: submitted
lose 0 1 1:
settle 1:
settle 9: acked>02
read 1 QUORUM: began
settle 9: 1 shown x
begin formatted formatted formatted:
runs 1: true
runs 3: false
crash 1 kept:
runs 1: false
runs 2: true
restart 1:
runs 1: true
begin formatted damaged formatted: Damaged(NodeId { number: 1 }, 0, 1)
begin long:
write 0 QUORUM b 5 x: Invalid(PartitionTooLarge)
write 0 QUORUM a 5 xy: Overloaded
write 0 QUORUM a 5 x: acked>0
write 0 QUORUM a 5: Overloaded
";

#[test]
fn clusters_tell_what_they_are_to(rt: HostRuntime) -> Result<(), Fail> {
    let unlike = unlike::<MemListReplica>(rt.alloc(), TALK)?;
    assert!(rt; unlike.is_empty(), "{unlike}");
    Ok(())
}
