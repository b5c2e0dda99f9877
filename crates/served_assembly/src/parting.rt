//! Nodes whose threads have ended are taken apart.

ghost use Rattle.std.specs.Prelude.{◌≡◌, length, nat_le, IfOk};
ghost use Rattle.std.specs.List.{AllByRecursion, AllZip, count_by, list_any, position};
ghost use Rattle.node_lock.specs.Histories.{most_entries};
ghost use Rattle.served_assembly.specs.Parting.{HasLinksFirst, IsApart, AreParted, IsLedByLinks, IsLinks, door_in, doors_in, has_door, has_door_failed, is_unstarted, receivers_in, receivers_in_duty};

use cs_store::Store;
use node_core::Node;
use node_lock::{History, MOST_ENTRIES};
use node_workers::Receivers;
use replica::Replica;
use served_jobs::Duty;
use served_links::NodeLinks;
use served_nodes::{JobLeft, NodeLeft};
use std::alloc::{AllocError, Global};
use wired_node::Wired;

/// A node that is taken apart, and what is found of its run.
#[derive(Drop)]
pub struct Apart<R: Replica, D: Drop> {
    pub node: Node<R>,
    pub links: NodeLinks,
    pub doors: Vec<D>,
    /// Whether the history of its steps has as many entries as it may have.
    pub is_full: bool,
    pub door_failed: bool,
    /// Whether a thread was not started.
    pub unstarted: bool,
}

/// Whether a history has as many entries as it may have.
fn is_full<E>(history: &History<E>) -> bool
    ensures { result ≡ nat_le most_entries (length history.now) }
{
    history.as_slice().len() as u64 >= MOST_ENTRIES
}

/// Whether the door of one of the jobs failed.
pub(crate) fn door_failed_in<D>(jobs: &[JobLeft<D>]) -> bool
    ensures { result ≡ list_any has_door_failed jobs.now }
{
    jobs.iter().any(|job| job.door_failed)
}

/// Whether one of the jobs got no thread.
pub(crate) fn unstarted_in<D>(jobs: &[JobLeft<D>]) -> bool
    ensures { result ≡ list_any is_unstarted jobs.now }
{
    jobs.iter().any(|job| job.unstarted)
}

/// How many of the jobs served connections.
fn count_doors<D>(jobs: &[JobLeft<D>]) -> usize
    ensures { result ≡ count_by has_door jobs.now }
{
    jobs.iter()
        .filter(|job| matches!(job.duty, Duty::Connections(_)))
        .count()
}

/// The receivers of the job that delivered the node's messages.
fn into_receivers<D: Drop>(lead: JobLeft<D>) -> Receivers
    requires { IsLinks lead.duty }
    ensures { result ≡ receivers_in_duty lead.duty }
{
    let JobLeft { duty, .. } = lead;
    match duty {
        Duty::Links(receivers) => receivers,
        Duty::Ticks | Duty::Merges | Duty::Connections(_) => unreachable!(),
    }
}

/// The door of a job that served connections.
fn into_door<D: Drop>(job: JobLeft<D>) -> Option<D>
    ensures { result ≡ door_in job.duty }
{
    let JobLeft { duty, .. } = job;
    match duty {
        Duty::Connections(door) => Some(door),
        Duty::Links(_) | Duty::Ticks | Duty::Merges => None,
    }
}

/// What the jobs of a node worked by.
#[derive(Drop)]
pub(crate) struct Returned<D: Drop> {
    pub receivers: Receivers,
    pub doors: Vec<D>,
}

/// The receivers of the first job, and the doors of all.
pub(crate) fn take_back<D: Drop>(
    alloc: Global,
    jobs: Vec<JobLeft<D>>,
) -> Result<Returned<D>, AllocError>
    requires { IsLedByLinks jobs.items }
    ensures receivers { IfOk result (λ back. back.receivers ≡ receivers_in jobs.items) }
    ensures doors { IfOk result (λ back. back.doors.items ≡ doors_in jobs.items) }
{
    let mut doors = Vec::with_capacity(alloc, count_doors(&jobs))?;
    let mut jobs = jobs.into_iter();
    let Some(lead) = jobs.next() else {
        unreachable!()
    };
    let receivers = into_receivers(lead);
    for job in jobs {
        if let Some(door) = into_door(job) {
            doors.push_reserved(door);
        }
    }
    Ok(Returned { receivers, doors })
}

/// Takes a node apart.
fn take_apart_one<R: Replica, D: Drop>(
    alloc: Global,
    left: NodeLeft<Wired<R>, D>,
) -> Result<Apart<R, D>, AllocError>
    requires { HasLinksFirst left }
    ensures { IfOk result (λ apart. IsApart R.is_whole R.durable R.log_end R.since_flush (λ r. R.Disk.faults (R.disk r)) R.Disk.is_honest left apart) }
{
    let NodeLeft {
        state,
        history,
        jobs,
    } = left;
    let is_full = is_full(&history);
    drop(history);
    let door_failed = door_failed_in(&jobs);
    let unstarted = unstarted_in(&jobs);
    let Returned { receivers, doors } = take_back(alloc, jobs)?;
    let (node, senders) = state.into_parts();
    Ok(Apart {
        node,
        links: NodeLinks { senders, receivers },
        doors,
        is_full,
        door_failed,
        unstarted,
    })
}

/// Takes nodes apart. The first job of each is the one that delivers its messages.
pub fn take_apart<R: Replica, D: Drop>(
    alloc: Global,
    left: Vec<NodeLeft<Wired<R>, D>>,
) -> Result<Vec<Apart<R, D>>, AllocError>
    requires { AllByRecursion HasLinksFirst left.items }
    ensures { IfOk result (λ aparts. AllZip (IsApart R.is_whole R.durable R.log_end R.since_flush (λ r. R.Disk.faults (R.disk r)) R.Disk.is_honest) left.items aparts.items) }
{
    let mut aparts = Vec::with_capacity(alloc, left.len())?;
    for one in left {
        aparts.push_reserved(take_apart_one(alloc, one)?);
    }
    Ok(aparts)
}

/// Where the first node stands whose history is full.
fn first_full<R: Replica, D: Drop>(aparts: &[Apart<R, D>]) -> Option<usize>
    ensures { result ≡ position (λ apart. apart.is_full) aparts.now }
{
    aparts.iter().position(|apart| apart.is_full)
}

/// Whether a door of one of the nodes failed.
fn door_failed_of<R: Replica, D: Drop>(aparts: &[Apart<R, D>]) -> bool
    ensures { result ≡ list_any (λ apart. apart.door_failed) aparts.now }
{
    aparts.iter().any(|apart| apart.door_failed)
}

/// Whether a job of one of the nodes got no thread.
fn unstarted_of<R: Replica, D: Drop>(aparts: &[Apart<R, D>]) -> bool
    ensures { result ≡ list_any (λ apart. apart.unstarted) aparts.now }
{
    aparts.iter().any(|apart| apart.unstarted)
}

/// Nodes, links and doors, each in their own list, and what is found of all.
#[derive(Drop)]
pub struct Parted<R: Replica, D: Drop> {
    pub nodes: Vec<Node<R>>,
    pub links: Vec<NodeLinks>,
    pub doors: Vec<Vec<D>>,
    /// The first place of a node whose history is full.
    pub full: Option<usize>,
    pub door_failed: bool,
    pub unstarted: bool,
}

/// Puts the nodes, their links and their doors into lists of their own.
pub fn part<R: Replica, D: Drop>(
    alloc: Global,
    aparts: Vec<Apart<R, D>>,
) -> Result<Parted<R, D>, AllocError>
    ensures { IfOk result (λ p. AreParted aparts.items p) }
{
    let full = first_full(&aparts);
    let door_failed = door_failed_of(&aparts);
    let unstarted = unstarted_of(&aparts);
    let mut nodes = Vec::with_capacity(alloc, aparts.len())?;
    let mut links = Vec::with_capacity(alloc, aparts.len())?;
    let mut doors = Vec::with_capacity(alloc, aparts.len())?;
    for apart in aparts {
        nodes.push_reserved(apart.node);
        links.push_reserved(apart.links);
        doors.push_reserved(apart.doors);
    }
    Ok(Parted {
        nodes,
        links,
        doors,
        full,
        door_failed,
        unstarted,
    })
}
