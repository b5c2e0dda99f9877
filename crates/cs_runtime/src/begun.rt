//! Jobs that were begun.

ghost use Rattle.std.specs.Prelude.{◌≡◌, ◌≤◌, false, true};
ghost use Rattle.cs_base.specs.Faults.{HasRisen};
ghost use Rattle.cs_runtime.specs.Jobs.{EndsBy, EndsMarked};

use crate::job::{End, Job};
use cs_base::Faults;
use std::marker::Model;
use std::snapshot::Snapshot;
use std::sync::atomic::{AtomicBool, Ordering};
use std::thread::{Promise, PromisedHandle, Scope, Threads};

/// The promise of a thread that it ends this job.
#[derive(Drop)]
pub(crate) struct EndOf<J>(Snapshot<J>);

impl<J: Job> Promise<End<J::Done>> for EndOf<J> {
    ghost kept_by = { λ p r. EndsBy J.ends J.works J.unstarts p.0.value false r };
}

/// A job that has ended, and how.
#[derive(Drop)]
pub(crate) struct Ended<J: Job> {
    of: Snapshot<J>,
    listed: bool,
    end: End<J::Done>,
}

impl<J: Job> Model for Ended<J> {
    ghost use Rattle.std.specs.Prelude.{Bool};
    ghost use Rattle.cs_runtime.specs.Jobs.{EndsBy};

    ghost Value = { J × Bool };

    ghost view = { λ a. (a.of.value, a.listed) };

    ghost invariant = { λ a. EndsBy J.ends J.works J.unstarts a.of.value a.listed a.end };
}

/// A job that has a thread of its own, or that has ended.
#[derive(Drop)]
pub(crate) enum Begun<J: Job> {
    Apart(PromisedHandle<End<J::Done>, EndOf<J>>),
    Here(Ended<J>),
}

impl<J: Job> Begun<J> {
    ghost use Rattle.cs_runtime.specs.Begun.{begun_of};

    /// Starts the job in a thread of the scope, unless the start is to fail. A job that is not started ends here.
    pub(crate) fn start<'s, E>(
        scope: &Scope<'s, E>,
        refused: &'s AtomicBool,
        listed: bool,
        job: J,
    ) -> Begun<J>
    where
        J: Send + 's,
        J::Done: Send + 's,
        ensures { begun_of result ≡ (job, listed) }
    {
        let of = Snapshot::of(&job);
        if listed {
            return Begun::Here(unstarted(job));
        }
        let promise = EndOf(Snapshot::of(&job));
        let run = move || -> End<J::Done>
            ensures { EndsBy J.ends J.works J.unstarts job false result }
        { end_of(job, refused) };
        match scope.spawn_with(promise, run) {
            Ok(thread) => Begun::Apart(thread),
            Err(back) => {
                refused.store(true, Ordering::SeqCst);
                Begun::Here(Ended {
                    of,
                    listed: false,
                    end: (back.value)(),
                })
            }
        }
    }

    /// Waits for the job to end.
    pub(crate) fn end<R: Threads>(self, rt: &R, faults: &mut Faults) -> J::Done
        ensures counted { faults.old ≤ faults.new }
        ensures ends { EndsMarked J.ends J.works J.unstarts (HasRisen faults.old faults.new) (begun_of self) result }
    {
        let end = match self {
            Begun::Apart(thread) => thread.join(rt),
            Begun::Here(ended) => ended.end,
        };
        match end {
            End::Worked(done) => done,
            End::Unstarted(done) => {
                faults.raise();
                done
            }
        }
    }
}

/// Does the work, unless no thread could be made for the job.
fn end_of<J: Job>(job: J, refused: &AtomicBool) -> End<J::Done>
    ensures { EndsBy J.ends J.works J.unstarts job false result }
{
    if refused.load(Ordering::SeqCst) {
        End::Unstarted(job.unstarted())
    } else {
        End::Worked(job.work())
    }
}

/// The job, not started since its start was to fail.
fn unstarted<J: Job>(job: J) -> Ended<J>
    ensures { result ≡ (job, true) }
{
    Ended {
        of: Snapshot::of(&job),
        listed: true,
        end: End::Unstarted(job.unstarted()),
    }
}
