//! Nodes under their locks.

ghost use Rattle.std.specs.Prelude.{◌≤◌, ◌<◌, vec_len, IfOk};
ghost use Rattle.std.specs.List.{AllByRecursion};
ghost use Rattle.item_groups.specs.Zips.{AllZip3};
ghost use Rattle.served_run.specs.Crews.{AreManned, IsOpened};
ghost use Rattle.served_run.specs.Runs.{HasJobs};

use node_calls::{NodeCall, NodeReply};
use node_lock::{NodeLock, Pass, Stepper};
use served_jobs::Duty;
use served_nodes::NodeParts;
use served_seats::open;
use std::alloc::{AllocError, Global};

/// Who steps a node: the console with the first pass, and a job for each duty.
#[derive(Drop)]
pub(crate) struct Crew<N: Stepper<Event = NodeCall, Reply = NodeReply>, D> {
    pub first: Pass<N>,
    pub others: Vec<Pass<N>>,
    pub duties: Vec<Duty<D>>,
}

/// The locks of nodes, and who steps each.
#[derive(Drop)]
pub(crate) struct Opened<N: Stepper<Event = NodeCall, Reply = NodeReply>, D> {
    pub locks: Vec<NodeLock<N>>,
    pub crews: Vec<Crew<N, D>>,
}

/// A node under its lock, with so many jobs.
fn open_one<N: Stepper<Event = NodeCall, Reply = NodeReply>, D: Drop>(
    alloc: Global,
    node: NodeParts<N, D>,
    jobs: u32,
) -> Result<(NodeLock<N>, Crew<N, D>), AllocError>
    requires few { jobs < 1000 }
    requires count { HasJobs jobs node }
    ensures { IfOk result (λ r. IsOpened jobs node r.0 r.1) }
{
    let NodeParts { state, duties } = node;
    let seats = open(alloc, state, jobs)?;
    let crew = Crew {
        first: seats.first,
        others: seats.others,
        duties,
    };
    Ok((seats.lock, crew))
}

/// Puts each node under its lock. Each has so many jobs.
pub(crate) fn open_all<N: Stepper<Event = NodeCall, Reply = NodeReply>, D: Drop>(
    alloc: Global,
    nodes: Vec<NodeParts<N, D>>,
    jobs: u32,
) -> Result<Opened<N, D>, AllocError>
    requires some { (1 ≤ vec_len nodes) × (vec_len nodes ≤ 7) }
    requires few { jobs < 1000 }
    requires count { AllByRecursion (HasJobs jobs) nodes.items }
    ensures each { IfOk result (λ o. AllZip3 (IsOpened jobs) nodes.items o.locks.items o.crews.items) }
    ensures manned { IfOk result (λ o. AreManned jobs o) }
{
    let mut locks = Vec::new(alloc);
    let mut crews = Vec::new(alloc);
    for node in nodes {
        let (lock, crew) = open_one(alloc, node, jobs)?;
        locks.push(lock)?;
        crews.push(crew)?;
    }
    Ok(Opened { locks, crews })
}
