//! Nodes whose threads have ended.

ghost use Rattle.std.specs.Prelude.{◌≡◌, map, IfOk};
ghost use Rattle.std.specs.List.{AllZip};
ghost use Rattle.item_groups.specs.Zips.{AllZip3};
ghost use Rattle.served_run.specs.Crews.{IsBack, IsClosed, left_of, pass_of};

use node_calls::{NodeCall, NodeReply};
use node_lock::{NodeLock, Pass, Stepper};
use served_jobs::JobDone;
use served_nodes::{JobLeft, NodeLeft};
use served_seats::{close, same_passes_have_all_seats};
use std::alloc::{AllocError, Global};

/// The passes of jobs, and what they left beside.
#[derive(Drop)]
struct Parted<N: Stepper<Event = NodeCall, Reply = NodeReply>, D> {
    passes: Vec<Pass<N>>,
    jobs: Vec<JobLeft<D>>,
}

/// Parts the passes of jobs from what they left beside.
fn part<N: Stepper<Event = NodeCall, Reply = NodeReply>, D: Drop>(
    alloc: Global,
    dones: Vec<JobDone<N, D>>,
) -> Result<Parted<N, D>, AllocError>
    ensures passes { IfOk result (λ p. p.passes.items ≡ map pass_of dones.items) }
    ensures jobs { IfOk result (λ p. p.jobs.items ≡ map left_of dones.items) }
{
    let mut passes = Vec::new(alloc);
    let mut jobs = Vec::new(alloc);
    for done in dones {
        let JobDone {
            pass,
            duty,
            ended,
            door_failed,
            unstarted,
        } = done;
        passes.push(pass)?;
        jobs.push(JobLeft {
            duty,
            ended,
            door_failed,
            unstarted,
        })?;
    }
    Ok(Parted { passes, jobs })
}

/// What came back of a node: the console's pass, and the jobs.
#[derive(Drop)]
pub(crate) struct NodeBack<N: Stepper<Event = NodeCall, Reply = NodeReply>, D: Drop> {
    pub first: Pass<N>,
    pub dones: Vec<JobDone<N, D>>,
}

/// Closes the lock of a node.
fn close_one<N: Stepper<Event = NodeCall, Reply = NodeReply>, D: Drop>(
    alloc: Global,
    lock: NodeLock<N>,
    back: NodeBack<N, D>,
) -> Result<NodeLeft<N, D>, AllocError>
    requires { IsBack lock back }
    ensures { IfOk result (IsClosed N.steps lock back) }
{
    same_passes_have_all_seats::<N>();
    let NodeBack { first, dones } = back;
    let parted = part(alloc, dones)?;
    let (state, history) = close(lock, first, parted.passes);
    Ok(NodeLeft {
        state,
        history,
        jobs: parted.jobs,
    })
}

/// Closes the locks of nodes.
pub(crate) fn close_all<N: Stepper<Event = NodeCall, Reply = NodeReply>, D: Drop>(
    alloc: Global,
    locks: Vec<NodeLock<N>>,
    backs: Vec<NodeBack<N, D>>,
) -> Result<Vec<NodeLeft<N, D>>, AllocError>
    requires { AllZip IsBack locks.items backs.items }
    ensures { IfOk result (λ left. AllZip3 (IsClosed N.steps) locks.items backs.items left.items) }
{
    let mut left = Vec::new(alloc);
    let mut backs = backs.into_iter();
    for lock in locks {
        let Some(back) = backs.next() else {
            unreachable!()
        };
        left.push(close_one(alloc, lock, back)?)?;
    }
    Ok(left)
}
