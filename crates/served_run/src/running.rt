//! The run of all nodes.

ghost use Rattle.std.specs.Prelude.{◌≡◌, ◌≤◌, ◌<◌, IfOk, IfNone, IfSome, IsErr, OnErr, vec_len};
ghost use Rattle.std.specs.List.{AllByRecursion, AllZip};
ghost use Rattle.cs_base.specs.Faults.{HasRisen};
ghost use Rattle.item_groups.specs.Zips.{AllZip3};
ghost use Rattle.served_run.specs.Crews.{AreManned, IsBack, IsClosed};
ghost use Rattle.served_run.specs.Runs.{HasJobs, HaveRun, IsLost};
ghost use Rattle.served_run.specs.Works.{HaveClosed};

use crate::closing::close_all;
use crate::desk::{Desk, Ran};
use crate::host::Host;
use crate::opened::{Opened, open_all};
use crate::working::{Worked, work_all};
use cs_doors::Door;
use cs_io::{Gate, Sink, Source};
use cs_runtime::{Clock, Spawner};
use node_calls::{NodeCall, NodeReply};
use node_lock::{NodeLock, Stepper};
use served_console::ConsoleEnd;
use served_nodes::NodeParts;
use std::alloc::{AllocError, Global};
use std::sync::Wait;

/// Closes the locks of nodes whose threads have ended.
fn close_worked<N: Stepper<Event = NodeCall, Reply = NodeReply>, D: Drop, S: Drop, T: Drop>(
    alloc: Global,
    locks: Vec<NodeLock<N>>,
    worked: Worked<N, D, S, T>,
) -> Ran<N, D, S, T>
    requires { IfSome worked.backs (λ backs. AllZip IsBack locks.items backs.items) }
    ensures source { result.source ≡ worked.source }
    ensures sink { result.sink ≡ worked.sink }
    ensures end { result.end ≡ worked.end }
    ensures none { IfNone worked.backs (IsErr result.nodes) }
    ensures closed { IfSome worked.backs (λ backs. IfOk result.nodes (λ left. AllZip3 (IsClosed N.steps) locks.items backs.items left.items)) }
{
    let Worked {
        backs,
        source,
        sink,
        end,
    } = worked;
    let nodes = match backs {
        Some(backs) => close_all(alloc, locks, backs),
        None => Err(AllocError),
    };
    Ran {
        nodes,
        source,
        sink,
        end,
    }
}

/// Runs nodes that stand under their locks.
fn run_opened<W, N, C, G, D, P, S, T>(
    host: &Host<W, C, G>,
    spawner: &mut P,
    opened: Opened<N, D>,
    jobs: u32,
    desk: Desk<S, T>,
) -> Ran<N, D, S, T>
where
    W: Wait + Sync,
    N: Stepper<Event = NodeCall, Reply = NodeReply> + Send,
    N::Entry: Send,
    C: Clock + Sync,
    G: Gate + Sync,
    D: Door + Drop + Send,
    D::Link: Send,
    P: Spawner,
    S: Source + Drop,
    T: Sink + Drop,
    requires { AreManned jobs opened }
    ensures counted { P.faults spawner.old ≤ P.faults spawner.new }
    ensures closed { IfOk result.nodes (λ left. HaveClosed N.steps N.event_of N.reply_of N.refuses C.gives D.Link.remaining D.Link.written D.Link.faults D.given D.returned D.faults host.now (HasRisen (P.faults spawner.old) (P.faults spawner.new))
        S.remaining S.faults T.contents T.faults opened.locks.items opened.crews.items desk left.items result) }
    ensures lost { OnErr result.nodes (IsLost N.steps N.event_of N.reply_of N.refuses C.gives host.now S.remaining S.faults T.contents T.faults desk result) }
{
    let Opened { locks, crews } = opened;
    let worked = work_all(host, spawner, locks.as_slice(), crews, desk, jobs);
    close_worked(host.alloc, locks, worked)
}

/// There was no memory for the locks.
fn not_run<N: Stepper<Event = NodeCall, Reply = NodeReply>, D: Drop, S: Drop, T: Drop>(
    desk: Desk<S, T>,
) -> Ran<N, D, S, T>
    ensures source { result.source ≡ desk.source }
    ensures sink { result.sink ≡ desk.sink }
    ensures end { result.end ≡ ConsoleEnd.Ended }
    ensures nodes { IsErr result.nodes }
{
    let Desk { source, sink, .. } = desk;
    Ran {
        nodes: Err(AllocError),
        source,
        sink,
        end: ConsoleEnd::Ended,
    }
}

/// Runs nodes, each of which has so many jobs, until all jobs and the console have ended.
///
/// There may be no memory before the run begins, and behind it too; of the nodes nothing is told then.
pub fn run_nodes<W, N, C, G, D, P, S, T>(
    host: &Host<W, C, G>,
    spawner: &mut P,
    nodes: Vec<NodeParts<N, D>>,
    jobs: u32,
    desk: Desk<S, T>,
) -> Ran<N, D, S, T>
where
    W: Wait + Sync,
    N: Stepper<Event = NodeCall, Reply = NodeReply> + Send,
    N::Entry: Send,
    C: Clock + Sync,
    G: Gate + Sync,
    D: Door + Drop + Send,
    D::Link: Send,
    P: Spawner,
    S: Source + Drop,
    T: Sink + Drop,
    requires some { (1 ≤ vec_len nodes) × (vec_len nodes ≤ 7) }
    requires few { jobs < 1000 }
    requires count { AllByRecursion (HasJobs jobs) nodes.items }
    ensures counted { P.faults spawner.old ≤ P.faults spawner.new }
    ensures ran { IfOk result.nodes (λ left. HaveRun N.steps N.event_of N.reply_of N.refuses C.gives D.Link.remaining D.Link.written D.Link.faults D.given D.returned D.faults host.now (HasRisen (P.faults spawner.old) (P.faults spawner.new))
        S.remaining S.faults T.contents T.faults nodes.items desk left.items result) }
    ensures lost { OnErr result.nodes (IsLost N.steps N.event_of N.reply_of N.refuses C.gives host.now S.remaining S.faults T.contents T.faults desk result) }
{
    match open_all(host.alloc, nodes, jobs) {
        Ok(opened) => run_opened(host, spawner, opened, jobs, desk),
        Err(_) => not_run(desk),
    }
}
