//! Jobs, and the nodes of the console.

ghost use Rattle.std.specs.Prelude.{◌≡◌, ◌≤◌, length, IfOk, vec_len};
ghost use Rattle.std.specs.List.{All, AllZip};
ghost use Rattle.node_lock.specs.Passes.{IsPassOf};
ghost use Rattle.item_groups.specs.Zips.{AllZip3};
ghost use Rattle.served_run.specs.Crews.{AddsGroup, AddsOne, HaveTasks, IsManned, IsSiteOf, IsJobAt, HasTask, IsOperated, IsDeskOf};

use crate::host::Host;
use crate::opened::Crew;
use cs_base::NodeId;
use node_calls::{NodeCall, NodeReply};
use node_lock::{NodeLock, Pass, Stepper};
use node_workers::Site;
use served_console::OperatedNode;
use served_jobs::{Duty, NodeJob, NodeSite};
use std::alloc::{AllocError, Global};

/// Where the jobs of a node work.
fn site_of<'a, W, N: Stepper<Event = NodeCall, Reply = NodeReply>, C, G>(
    host: &Host<'a, W, C, G>,
    lock: &'a NodeLock<N>,
    node: NodeId,
) -> NodeSite<'a, W, N, C, G>
    ensures { IsSiteOf host.now lock.entry.now result }
{
    NodeSite {
        rt: host.rt,
        alloc: host.alloc,
        lock,
        clock: host.clock,
        stop: host.stop,
        gate: host.gate,
        schema: host.schema,
        node,
    }
}

/// Where the jobs of each node work.
pub(crate) fn sites_of<'a, W, N: Stepper<Event = NodeCall, Reply = NodeReply>, C, G>(
    host: &Host<'a, W, C, G>,
    locks: &'a [NodeLock<N>],
) -> Result<Vec<NodeSite<'a, W, N, C, G>>, AllocError>
    requires { length locks.now ≤ 7 }
    ensures { IfOk result (λ sites. AllZip (IsSiteOf host.now) locks.entry.now sites.items) }
{
    let mut sites = Vec::with_capacity(host.alloc, locks.len())?;
    let mut number = 0;
    for lock in locks {
        let node = NodeId::new(number).unwrap();
        sites.push_reserved(site_of(host, lock, node));
        number += 1;
    }
    Ok(sites)
}

/// The jobs of a node's crew.
fn jobs_at<'a, W, N: Stepper<Event = NodeCall, Reply = NodeReply>, C, G, D: Drop>(
    alloc: Global,
    site: &'a NodeSite<'a, W, N, C, G>,
    passes: Vec<Pass<N>>,
    duties: Vec<Duty<D>>,
) -> Result<Vec<NodeJob<'a, W, N, C, G, D>>, AllocError>
    requires passes { All (IsPassOf site.now.lock.now) passes.items }
    requires count { vec_len duties ≡ vec_len passes }
    ensures { IfOk result (λ jobs. AllZip3 (IsJobAt site.entry.now) passes.items duties.items jobs.items) }
{
    let mut jobs = Vec::new(alloc);
    let mut duties = duties.into_iter();
    for pass in passes {
        let Some(duty) = duties.next() else {
            unreachable!()
        };
        jobs.push(NodeJob::new(site, pass, duty))?;
    }
    Ok(jobs)
}

/// The console's part of a node.
fn operated_at<'a, W, N: Stepper<Event = NodeCall, Reply = NodeReply>, C, G>(
    site: &NodeSite<'a, W, N, C, G>,
    pass: Pass<N>,
) -> OperatedNode<'a, W, N, C>
    requires { IsPassOf site.now.lock.now pass }
    ensures { IsOperated site.now pass result }
{
    OperatedNode::new(
        Site {
            rt: site.rt,
            lock: site.lock,
            clock: site.clock,
            stop: site.stop,
        },
        pass,
    )
}

/// The jobs of all nodes, one node behind another, and the console's part of each node.
#[derive(Drop)]
pub(crate) struct Assigned<'a, W, N: Stepper<Event = NodeCall, Reply = NodeReply>, C, G, D> {
    pub jobs: Vec<NodeJob<'a, W, N, C, G, D>>,
    pub operated: Vec<OperatedNode<'a, W, N, C>>,
}

/// Gives a crew its jobs at its node's site, behind those of the nodes before.
fn assign_next<'a, W, N: Stepper<Event = NodeCall, Reply = NodeReply>, C, G, D: Drop>(
    alloc: Global,
    assigned: Assigned<'a, W, N, C, G, D>,
    site: &'a NodeSite<'a, W, N, C, G>,
    crew: Crew<N, D>,
) -> Result<Assigned<'a, W, N, C, G, D>, AllocError>
    requires { IsManned site.now crew }
    ensures jobs { IfOk result (λ a. AddsGroup (HasTask site.entry.now crew) assigned.entry.jobs.items a.jobs.items) }
    ensures operated { IfOk result (λ a. AddsOne (IsDeskOf site.entry.now crew) assigned.entry.operated.items a.operated.items) }
{
    let Assigned { jobs, operated } = assigned;
    let mut jobs = jobs;
    let mut operated = operated;
    let Crew {
        first,
        others,
        duties,
    } = crew;
    let mut group = jobs_at(alloc, site, others, duties)?;
    jobs.append(&mut group)?;
    operated.push(operated_at(site, first))?;
    Ok(Assigned { jobs, operated })
}

/// Gives each of the crews its jobs at its node's site.
pub(crate) fn assign<'a, W, N: Stepper<Event = NodeCall, Reply = NodeReply>, C, G, D: Drop>(
    alloc: Global,
    sites: &'a [NodeSite<'a, W, N, C, G>],
    crews: Vec<Crew<N, D>>,
) -> Result<Assigned<'a, W, N, C, G, D>, AllocError>
    requires { AllZip IsManned sites.now crews.items }
    ensures jobs { IfOk result (λ a. HaveTasks sites.entry.now crews.items a.jobs.items) }
    ensures operated { IfOk result (λ a. AllZip3 IsDeskOf sites.entry.now crews.items a.operated.items) }
{
    let mut assigned = Assigned {
        jobs: Vec::new(alloc),
        operated: Vec::new(alloc),
    };
    let mut crews = crews.into_iter();
    for site in sites {
        let Some(crew) = crews.next() else {
            unreachable!()
        };
        assigned = assign_next(alloc, assigned, site, crew)?;
    }
    Ok(assigned)
}
