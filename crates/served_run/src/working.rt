//! The work of all threads.

ghost use Rattle.std.specs.Prelude.{◌≡◌, ◌≤◌, ◌<◌, ◌*◌, length, vec_len, IfSome, IfNone, IsNone, IfOk, IfErr, OnErr};
ghost use Rattle.std.specs.List.{AllZip};
ghost use Rattle.cs_base.specs.Faults.{HasRisen};
ghost use Rattle.cs_runtime.specs.Jobs.{Ends};
ghost use Rattle.item_groups.specs.Zips.{AllZip3};
ghost use Rattle.served_jobs.specs.Endings.{GivesPass, IsUnstarted, IsWorked};
ghost use Rattle.served_run.specs.Crews.{IsCrewOf};
ghost use Rattle.served_run.specs.Works.{ConsoleDid, HaveWorked, IsBackOf, AreBacks, IsReturned, IsWorkLost};

use crate::assigning::{Assigned, assign, sites_of};
use crate::closing::NodeBack;
use crate::desk::Desk;
use crate::desk_job::DeskJob;
use crate::host::Host;
use crate::opened::Crew;
use cs_doors::Door;
use cs_io::{Gate, Sink, Source};
use cs_runtime::{Clock, NotRun, Spawner};
use item_groups::regroup;
use node_calls::{NodeCall, NodeReply};
use node_lock::{NodeLock, Stepper};
use served_console::{Console, ConsoleDone, ConsoleEnd, ConsoleJob, OperatedNode};
use served_jobs::{JobDone, NodeJob, run_jobs};
use std::alloc::{AllocError, Global};
use std::sync::Wait;

/// What came of the threads. There is nothing of the nodes where there was no memory.
#[derive(Drop)]
pub(crate) struct Worked<N: Stepper<Event = NodeCall, Reply = NodeReply>, D: Drop, S, T> {
    pub backs: Option<Vec<NodeBack<N, D>>>,
    pub source: S,
    pub sink: T,
    pub end: ConsoleEnd,
}

/// Nothing was begun.
fn not_begun<N: Stepper<Event = NodeCall, Reply = NodeReply>, D: Drop, S: Drop, T: Drop>(
    source: S,
    sink: T,
) -> Worked<N, D, S, T>
    ensures source { result.source ≡ source }
    ensures sink { result.sink ≡ sink }
    ensures end { result.end ≡ ConsoleEnd.Ended }
    ensures nothing { IsNone result.backs }
{
    Worked {
        backs: None,
        source,
        sink,
        end: ConsoleEnd::Ended,
    }
}

/// What came back of each node: its pass from the console, and its jobs, so many a node.
fn backs_of<'a, W, N: Stepper<Event = NodeCall, Reply = NodeReply>, C, D: Drop>(
    alloc: Global,
    nodes: Vec<OperatedNode<'a, W, N, C>>,
    groups: Vec<Vec<JobDone<N, D>>>,
) -> Result<Vec<NodeBack<N, D>>, AllocError>
    requires { vec_len groups ≡ vec_len nodes }
    ensures { IfOk result (λ backs. AllZip3 IsBackOf nodes.entry.items groups.items backs.items) }
{
    let mut backs = Vec::new(alloc);
    let mut groups = groups.into_iter();
    for node in nodes {
        let Some(dones) = groups.next() else {
            unreachable!()
        };
        let OperatedNode { site: _, pass } = node;
        backs.push(NodeBack { first: pass, dones })?;
    }
    Ok(backs)
}

/// What came back, node by node.
fn returned_by<'a, W, N: Stepper<Event = NodeCall, Reply = NodeReply>, C, D: Drop>(
    alloc: Global,
    nodes: Vec<OperatedNode<'a, W, N, C>>,
    dones: Vec<JobDone<N, D>>,
    jobs: usize,
) -> Result<Vec<NodeBack<N, D>>, AllocError>
    requires { vec_len dones ≡ vec_len nodes * jobs }
    ensures { IfOk result (λ backs. AreBacks jobs nodes.entry.items dones.items backs.items) }
{
    let groups = regroup(alloc, dones, nodes.len(), jobs)?;
    backs_of(alloc, nodes, groups)
}

/// Parts what came of a run of threads.
fn worked_by<'a, W, N, C, G, D, S, T>(
    alloc: Global,
    outcome: Result<
        (Vec<JobDone<N, D>>, ConsoleDone<'a, W, N, C, S, T>),
        NotRun<NodeJob<'a, W, N, C, G, D>, DeskJob<'a, W, N, C, S, T>>,
    >,
    jobs: usize,
) -> Worked<N, D, S, T>
where
    N: Stepper<Event = NodeCall, Reply = NodeReply>,
    D: Drop,
    S: Drop,
    T: Drop,
    requires { IfOk outcome (λ r. vec_len r.0 ≡ vec_len r.1.console.nodes * jobs) }
    ensures done { IfOk outcome.entry (λ r. IsReturned r.1 result) }
    ensures backs { IfOk outcome.entry (λ r. IfSome result.backs (λ backs. AreBacks jobs r.1.console.nodes.items r.0.items backs.items)) }
    ensures source { IfErr outcome.entry (λ back. result.source ≡ back.here.job.console.source) }
    ensures sink { IfErr outcome.entry (λ back. result.sink ≡ back.here.job.console.sink) }
    ensures end { OnErr outcome.entry (result.end ≡ ConsoleEnd.Ended) }
    ensures nothing { OnErr outcome.entry (IsNone result.backs) }
{
    match outcome {
        Ok((dones, done)) => {
            let ConsoleDone { console, end } = done;
            let Console {
                source,
                sink,
                nodes,
                ..
            } = console;
            Worked {
                backs: returned_by(alloc, nodes, dones, jobs).ok(),
                source,
                sink,
                end,
            }
        }
        Err(back) => {
            let NotRun { jobs: _, here } = back;
            let DeskJob { job, .. } = here;
            let ConsoleJob {
                console,
                opening: _,
            } = job;
            let Console { source, sink, .. } = console;
            not_begun(source, sink)
        }
    }
}

/// Starts the jobs of all nodes, works the console on the caller's thread, and waits for all.
fn run_threads<'a, W, N, C, G, D, P, S, T>(
    spawner: &mut P,
    jobs: Vec<NodeJob<'a, W, N, C, G, D>>,
    here: DeskJob<'a, W, N, C, S, T>,
) -> Result<
    (Vec<JobDone<N, D>>, ConsoleDone<'a, W, N, C, S, T>),
    NotRun<NodeJob<'a, W, N, C, G, D>, DeskJob<'a, W, N, C, S, T>>,
>
where
    W: Wait + Sync,
    N: Stepper<Event = NodeCall, Reply = NodeReply> + Send,
    N::Entry: Send,
    C: Clock + Sync,
    G: Gate + Sync,
    D: Door + Drop + Send,
    D::Link: Send,
    P: Spawner,
    S: Source + Drop,
    T: Sink + Drop,
    ensures counted { P.faults spawner.old ≤ P.faults spawner.new }
    ensures back { IfErr result (λ r. r.here.job ≡ here.entry.job) }
    ensures len { IfOk result (λ r. vec_len r.0 ≡ vec_len jobs.entry) }
    ensures each { IfOk result (λ r. AllZip (Ends GivesPass (IsWorked N.steps N.event_of N.reply_of N.refuses C.gives D.Link.remaining D.Link.written D.Link.faults D.given D.returned D.faults) IsUnstarted (HasRisen (P.faults spawner.old) (P.faults spawner.new))) jobs.entry.items r.0.items) }
    ensures here { IfOk result (λ r. ConsoleDid N.steps N.event_of N.reply_of N.refuses C.gives S.remaining S.faults T.contents T.faults here.entry.job r.1) }
{
    run_jobs(spawner, jobs, here)
}

/// Starts the jobs of the crews, works the console, and waits for all.
pub(crate) fn work_all<W, N, C, G, D, P, S, T>(
    host: &Host<W, C, G>,
    spawner: &mut P,
    locks: &[NodeLock<N>],
    crews: Vec<Crew<N, D>>,
    desk: Desk<S, T>,
    jobs: u32,
) -> Worked<N, D, S, T>
where
    W: Wait + Sync,
    N: Stepper<Event = NodeCall, Reply = NodeReply> + Send,
    N::Entry: Send,
    C: Clock + Sync,
    G: Gate + Sync,
    D: Door + Drop + Send,
    D::Link: Send,
    P: Spawner,
    S: Source + Drop,
    T: Sink + Drop,
    requires few { (1 ≤ length locks.now) × (length locks.now ≤ 7) }
    requires crews { AllZip (IsCrewOf jobs) locks.now crews.items }
    ensures counted { P.faults spawner.old ≤ P.faults spawner.new }
    ensures worked { IfSome result.backs (λ backs. HaveWorked N.steps N.event_of N.reply_of N.refuses C.gives D.Link.remaining D.Link.written D.Link.faults D.given D.returned D.faults host.now (HasRisen (P.faults spawner.old) (P.faults spawner.new))
        S.remaining S.faults T.contents T.faults locks.now crews.items desk backs.items result) }
    ensures lost { IfNone result.backs (IsWorkLost N.steps N.event_of N.reply_of N.refuses C.gives host.now S.remaining S.faults T.contents T.faults desk result) }
{
    let Ok(sites) = sites_of(host, locks) else {
        return not_begun(desk.source, desk.sink);
    };
    let Ok(assigned) = assign(host.alloc, sites.as_slice(), crews) else {
        return not_begun(desk.source, desk.sink);
    };
    let Assigned {
        jobs: all,
        operated,
    } = assigned;
    let console = Console::new(
        host.rt,
        host.stop,
        desk.source,
        desk.sink,
        desk.lines,
        operated,
    );
    let here = DeskJob {
        job: ConsoleJob {
            console,
            opening: desk.opening,
        },
        lock: &locks[0],
        clock: host.clock,
    };
    worked_by(host.alloc, run_threads(spawner, all, here), jobs as usize)
}
