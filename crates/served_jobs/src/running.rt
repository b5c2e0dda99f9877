//! Jobs in threads.

ghost use Rattle.std.specs.Prelude.{◌≡◌, ◌≤◌, IfOk, IfErr, OnOk, OnErr, vec_len};
ghost use Rattle.std.specs.List.{AllZip};
ghost use Rattle.cs_base.specs.Faults.{HasRisen};
ghost use Rattle.cs_runtime.specs.Jobs.{Ends, EndsMarked, marked, starts_after};
ghost use Rattle.served_jobs.specs.Endings.{GivesPass, IsWorked, IsUnstarted};

use crate::done::JobDone;
use crate::job::NodeJob;
use cs_doors::Door;
use cs_io::Gate;
use cs_runtime::{Clock, Job, NotRun, Spawner};
use node_calls::{NodeCall, NodeReply};
use node_lock::Stepper;
use std::sync::Wait;

/// Has the spawner run the jobs of nodes, each in a thread of its own, and `here` on the caller's thread. It gives what was done in
/// the order of the jobs.
///
/// Want of memory comes before any start, and gives all back.
pub fn run_jobs<
    'a,
    S: Spawner,
    W: Wait + Sync,
    N: Stepper<Event = NodeCall, Reply = NodeReply> + Send,
    C: Clock + Sync,
    G: Gate + Sync,
    D: Door + Drop + Send,
    H: Job,
>(
    spawner: &mut S,
    jobs: Vec<NodeJob<'a, W, N, C, G, D>>,
    here: H,
) -> Result<(Vec<JobDone<N, D>>, H::Done), NotRun<NodeJob<'a, W, N, C, G, D>, H>>
where
    N::Entry: Send,
    D::Link: Send,
    ensures counted { S.faults spawner.old ≤ S.faults spawner.new }
    ensures err { OnErr result ((S.faults spawner.new ≡ S.faults spawner.old) × (S.starts spawner.new ≡ S.starts spawner.old)) }
    ensures back { IfErr result (λ r. (r.jobs ≡ jobs.entry) × (r.here ≡ here)) }
    ensures len { IfOk result (λ r. vec_len r.0 ≡ vec_len jobs.entry) }
    ensures each { IfOk result (λ r. AllZip (Ends GivesPass (IsWorked N.steps N.event_of N.reply_of N.refuses C.gives D.Link.remaining D.Link.written D.Link.faults D.given D.returned D.faults) IsUnstarted (HasRisen (S.faults spawner.old) (S.faults spawner.new))) jobs.entry.items r.0.items) }
    ensures here { IfOk result (λ r. H.ends here r.1 × H.works here r.1) }

    // The listed starts fail, and another one only where the system starts no thread.
    ensures listed { IfOk result (λ r. AllZip (EndsMarked GivesPass (IsWorked N.steps N.event_of N.reply_of N.refuses C.gives D.Link.remaining D.Link.written D.Link.faults D.given D.returned D.faults) IsUnstarted (HasRisen (S.faults spawner.old) (S.faults spawner.new))) (marked (S.failing spawner.old) (S.starts spawner.old) jobs.entry.items) r.0.items) }
    ensures starts { OnOk result (S.starts spawner.new ≡ starts_after (S.starts spawner.old) jobs.entry.items) }
    ensures plan { S.failing spawner.new ≡ S.failing spawner.old }
{
    spawner.run(jobs, here)
}
