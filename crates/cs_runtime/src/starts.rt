//! Starts of threads.

ghost use Rattle.std.specs.Prelude.{◌≡◌, ◌≤◌, [], length, map, IfOk, IfErr, OnErr, vec_len, vec_capacity};
ghost use Rattle.std.specs.List.{AllZip};
ghost use Rattle.cs_base.specs.Faults.{HasRisen};
ghost use Rattle.cs_runtime.specs.Begun.{begun_of};
ghost use Rattle.cs_runtime.specs.Jobs.{EndsMarked, marked};

use crate::begun::Begun;
use crate::job::{Job, NotRun};
use cs_base::Faults;
use std::alloc::{AllocError, Global};
use std::sync::Wait;
use std::sync::atomic::AtomicBool;
use std::thread;
use std::thread::{Scope, Threads};

/// One flag for each job, none of them up.
fn flags(alloc: Global, count: usize) -> Result<Vec<AtomicBool>, AllocError>
    ensures { IfOk result (λ flags. vec_len flags ≡ count) }
{
    let mut flags = Vec::with_capacity(alloc, count)?;
    for _ in 0..count {
        flags.push_reserved(AtomicBool::new(false));
    }
    Ok(flags)
}

/// Starts the jobs in order.
fn start_all<'s, E, J: Job>(
    scope: &Scope<'s, E>,
    refused: &'s [AtomicBool],
    failing: &[u64],
    starts: u64,
    jobs: Vec<J>,
    mut begun: Vec<Begun<J>>,
) -> Vec<Begun<J>>
where
    J: Send + 's,
    J::Done: Send + 's,
    requires flags { vec_len jobs ≤ length refused.now }
    requires room { vec_len jobs ≤ vec_capacity begun }
    requires empty { begun.items ≡ [] }
    ensures jobs { map begun_of result.items ≡ marked failing.now starts jobs.items }
    ensures len { vec_len result ≡ vec_len jobs }
{
    let mut number = starts;
    for job in jobs {
        number = number.saturating_add(1);
        let listed = failing.contains(&number);
        begun.push_reserved(Begun::start(scope, &refused[begun.len()], listed, job));
    }
    begun
}

/// Waits for each to end.
fn end_all<R: Threads, J: Job>(
    rt: &R,
    begun: Vec<Begun<J>>,
    mut dones: Vec<J::Done>,
    faults: &mut Faults,
) -> Vec<J::Done>
    requires room { vec_len begun ≤ vec_capacity dones }
    requires empty { dones.items ≡ [] }
    ensures counted { faults.old ≤ faults.new }
    ensures each { AllZip (EndsMarked J.ends J.works J.unstarts (HasRisen faults.old faults.new)) (map begun_of begun.items) result.items }
{
    for one in begun {
        dones.push_reserved(one.end(rt, faults));
    }
    dones
}

/// Jobs, with the room for what is known of them.
#[derive(Drop)]
struct Ready<'a, J: Job> {
    jobs: Vec<J>,
    begun: Vec<Begun<J>>,
    dones: Vec<J::Done>,
    refused: &'a [AtomicBool],
    ghost begun_room: { (begun.items ≡ []) × (vec_len jobs ≤ vec_capacity begun) },
    ghost dones_room: { (dones.items ≡ []) × (vec_len jobs ≤ vec_capacity dones) },
    ghost flags: { vec_len jobs ≤ length refused.now },
}

/// What came of a run of jobs.
struct Outcome<D, H> {
    dones: Vec<D>,
    here: H,
    faults: Faults,
}

/// Starts the jobs, works here, and waits for all.
fn run_in<'s, E, R: Threads, J: Job, H: Job>(
    rt: &R,
    scope: &Scope<'s, E>,
    failing: &[u64],
    starts: u64,
    faults: Faults,
    ready: Ready<'s, J>,
    here: H,
) -> Outcome<J::Done, H::Done>
where
    J: Send + 's,
    J::Done: Send + 's,
    ensures counted { faults ≤ result.faults }
    ensures each { AllZip (EndsMarked J.ends J.works J.unstarts (HasRisen faults result.faults)) (marked failing.now starts ready.entry.jobs.items) result.dones.items }
    ensures here { H.ends here result.here × H.works here result.here }
{
    let Ready {
        jobs,
        begun,
        dones,
        refused,
    } = ready;
    let mut count = faults;
    let begun = start_all(scope, refused, failing, starts, jobs, begun);
    let here = here.work();
    let dones = end_all(rt, begun, dones, &mut count);
    Outcome {
        dones,
        here,
        faults: count,
    }
}

/// The memory that a run of jobs takes.
#[derive(Drop)]
struct Room<J: Job> {
    begun: Vec<Begun<J>>,
    dones: Vec<J::Done>,
    flags: Vec<AtomicBool>,
}

/// The memory for so many jobs.
fn room_for<J: Job>(alloc: Global, count: usize) -> Result<Room<J>, AllocError>
    ensures begun { IfOk result (λ r. (r.begun.items ≡ []) × (count ≤ vec_capacity r.begun)) }
    ensures dones { IfOk result (λ r. (r.dones.items ≡ []) × (count ≤ vec_capacity r.dones)) }
    ensures flags { IfOk result (λ r. vec_len r.flags ≡ count) }
{
    let begun = Vec::with_capacity(alloc, count)?;
    let dones = Vec::with_capacity(alloc, count)?;
    let flags = flags(alloc, count)?;
    Ok(Room {
        begun,
        dones,
        flags,
    })
}

/// Starts the jobs, each in a thread of its own, works here, and waits for all. The starts of these numbers fail. Where there is no
/// memory, nothing is started, and all is given back.
pub(crate) fn run_all<R: Threads + Wait + Sync, J: Job, H: Job>(
    rt: &R,
    failing: &[u64],
    starts: u64,
    faults: &mut Faults,
    jobs: Vec<J>,
    here: H,
) -> Result<(Vec<J::Done>, H::Done), NotRun<J, H>>
where
    J: Send,
    J::Done: Send,
    ensures counted { faults.old ≤ faults.new }
    ensures err { OnErr result (faults.new ≡ faults.old) }
    ensures back { IfErr result (λ r. (r.jobs ≡ jobs) × (r.here ≡ here)) }
    ensures each { IfOk result (λ r. AllZip (EndsMarked J.ends J.works J.unstarts (HasRisen faults.old faults.new)) (marked failing.now starts jobs.items) r.0.items) }
    ensures here { IfOk result (λ r. H.ends here r.1 × H.works here r.1) }
{
    let Ok(room) = room_for(*jobs.allocator(), jobs.len()) else {
        return Err(NotRun { jobs, here });
    };
    let Room {
        begun,
        dones,
        flags,
    } = room;
    let ready = Ready {
        jobs,
        begun,
        dones,
        refused: flags.as_slice(),
    };
    let before = *faults;
    let outcome = thread::scope(
        thread::scope_env(),
        rt,
        move |scope| -> Outcome<J::Done, H::Done>
            ensures counted { before ≤ result.faults }
            ensures each { AllZip (EndsMarked J.ends J.works J.unstarts (HasRisen before result.faults)) (marked failing.entry.now starts ready.entry.jobs.items) result.dones.items }
            ensures here { H.ends here result.here × H.works here result.here }
        { run_in(rt, scope, failing, starts, before, ready, here) },
    );
    let Outcome {
        dones,
        here,
        faults: after,
    } = outcome;
    *faults = after;
    Ok((dones, here))
}
