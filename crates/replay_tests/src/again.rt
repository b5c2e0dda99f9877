//! A run that is run again.

use crate::frames::push_rows;
use crate::numbered::Numbered;
use crate::parts::setting;
use cluster_model::{Cluster, ClusterEvent};
use cs_base::{Micros, NodeId};
use cs_store::MemStore;
use event_copies::copy_event;
use peer_messages::{Ask, Entry, Event, What};
use replica::MemReplica;
use std::alloc::{AllocError, Global};

/// The two nodes on formatted stores.
fn begun<R: MemReplica>(alloc: Global) -> Result<Cluster<R>, AllocError> {
    let setting = setting(alloc)?;
    let stores = vec![in alloc; MemStore::formatted(alloc)?, MemStore::formatted(alloc)?]?;
    if stores.len() != usize::from(setting.ring.nodes()) {
        return Err(AllocError);
    }
    match Cluster::new(alloc, setting, stores) {
        Ok(cluster) => Ok(cluster),
        Err(_) => Err(AllocError),
    }
}

/// An event of a node, as one of a cluster whose clocks are set. A message comes by its number.
fn cluster_event(node: NodeId, number: u64, event: Event) -> ClusterEvent {
    let Event { clock, what } = event;
    match what {
        What::Client(ask) => ClusterEvent::Ask(node, ask),
        What::Deliver(message) => ClusterEvent::Deliver(message.from, node, number),
        What::Alive(peer, up) => ClusterEvent::Alive(node, peer, up),
        What::Collect(request) => ClusterEvent::Collect(node, request),
        What::Flush => ClusterEvent::Flush(node),
        What::Tick => ClusterEvent::Clock(node, clock),
    }
}

/// An event happens, at its reading of the node's clock.
fn happen<R: MemReplica>(
    cluster: &mut Cluster<R>,
    alloc: Global,
    numbered: &Numbered,
) -> Result<(), AllocError> {
    let node = numbered.placed.node;
    let event = copy_event(alloc, &numbered.placed.event)?;
    cluster.step(alloc, ClusterEvent::Reading(node, event.clock))?;
    cluster.step(alloc, cluster_event(node, numbered.number, event))
}

/// The cluster behind these events.
pub(crate) fn behind<R: MemReplica>(
    alloc: Global,
    events: &[Numbered],
) -> Result<Cluster<R>, AllocError> {
    let mut cluster = begun(alloc)?;
    for event in events {
        happen(&mut cluster, alloc, event)?;
    }
    Ok(cluster)
}

/// What a node of the cluster shows for a read at ONE, of its own rows, as a result on no stream.
pub(crate) fn shown<R: MemReplica>(
    cluster: &mut Cluster<R>,
    alloc: Global,
    node: NodeId,
    ask: Ask,
) -> Result<Vec<u8>, AllocError> {
    cluster.step(alloc, ClusterEvent::Reading(node, Micros::new(0)))?;
    cluster.step(alloc, ClusterEvent::Ask(node, ask))?;
    let mut out = Vec::new(alloc);
    if let Some(piece) = cluster.chronicle().last() {
        for entry in piece.own() {
            if let Entry::Rows(_, rows, ..) = entry {
                push_rows(alloc, &mut out, 0, rows.as_slice())?;
            }
        }
    }
    Ok(out)
}
