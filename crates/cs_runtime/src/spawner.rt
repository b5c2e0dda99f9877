//! Spawners of threads.

ghost use Rattle.std.specs.Prelude.{◌≡◌, ℕ, ◌≤◌, List, [], IfOk, IfErr, OnOk, OnErr, vec_len};
ghost use Rattle.std.specs.List.{AllZip};
ghost use Rattle.cs_base.specs.Faults.{HasRisen};
ghost use Rattle.cs_runtime.specs.Jobs.{Ends, EndsMarked, marked, starts_after};

use crate::job::{Job, NotRun};
use crate::starts::run_all;
use cs_base::Faults;
use std::marker::Model;
use std::sync::Wait;
use std::thread::Threads;

/// What starts threads. An impl says which starts are to fail, and keeps the counts; `run` does the work.
pub trait Spawner {
    /// The handle by which threads are started.
    type Runtime: Threads + Wait + Sync;

    /// The numbers of the starts that are to fail, from 1 on.
    ghost failing: { Self → List ℕ };

    /// How many starts there were.
    ghost starts: { Self → ℕ };

    /// How many faults it had: starts that failed.
    ghost faults: { Self → ℕ };

    fn runtime(&self) -> &Self::Runtime;

    fn failing(&self) -> &[u64]
        ensures { result.now ≡ failing self.now };

    fn starts(&self) -> u64
        ensures { result ≡ starts self.now };

    fn faults(&self) -> Faults
        ensures { result ≡ faults self.now };

    /// Keeps these counts.
    fn note(&mut self, begun: u64, failed: Faults)
        ensures plan { failing self.new ≡ failing self.old }
        ensures starts { starts self.new ≡ begun }
        ensures faults { faults self.new ≡ failed };

    /// Starts each job in a thread of its own, in order, then works `here` on the caller's thread, and waits for all. It gives
    /// what was done in the order of the jobs.
    ///
    /// Want of memory comes before any start, and gives all back.
    final fn run<J, H>(
        &mut self,
        jobs: Vec<J>,
        here: H,
    ) -> Result<(Vec<J::Done>, H::Done), NotRun<J, H>>
    where
        J: Job + Send,
        J::Done: Send,
        H: Job,
        ensures counted { faults self.old ≤ faults self.new }
        ensures err { OnErr result ((faults self.new ≡ faults self.old) × (starts self.new ≡ starts self.old)) }
        ensures back { IfErr result (λ r. (r.jobs ≡ jobs) × (r.here ≡ here)) }
        ensures len { IfOk result (λ r. vec_len r.0 ≡ vec_len jobs) }
        ensures each { IfOk result (λ r. AllZip (Ends J.ends J.works J.unstarts (HasRisen (faults self.old) (faults self.new))) jobs.items r.0.items) }
        ensures here { IfOk result (λ r. H.ends here r.1 × H.works here r.1) }

        // The listed starts fail, and another one only where the system starts no thread.
        ensures listed { IfOk result (λ r. AllZip (EndsMarked J.ends J.works J.unstarts (HasRisen (faults self.old) (faults self.new))) (marked (failing self.old) (starts self.old) jobs.items) r.0.items) }
        ensures starts { OnOk result (starts self.new ≡ starts_after (starts self.old) jobs.items) }
        ensures plan { failing self.new ≡ failing self.old }
    {
        let before = self.starts();
        let count = jobs.len() as u64;
        let mut failed = self.faults();
        let done = run_all(
            self.runtime(),
            self.failing(),
            before,
            &mut failed,
            jobs,
            here,
        )?;
        self.note(before.saturating_add(count), failed);
        Ok(done)
    }
}

/// The system's threads, of whose starts the listed ones fail.
#[derive(Drop)]
pub struct ListSpawner<R> {
    runtime: R,
    failing: Vec<u64>,
    starts: u64,
    faults: Faults,
}

impl<R> Model for ListSpawner<R> {
    ghost use Rattle.cs_runtime.specs.Jobs.{ListState};

    ghost Value = { ListState };

    ghost view = { λ a. record { failing = a.failing.items; starts = a.starts; faults = a.faults } };
}

impl<R> ListSpawner<R> {
    /// A spawner of which the starts of these numbers fail, from 1 on.
    pub fn new(runtime: R, failing: Vec<u64>) -> ListSpawner<R>
        ensures { result ≡ record { failing = failing.items; starts = 0; faults = 0 } }
    {
        ListSpawner {
            runtime,
            failing,
            starts: 0,
            faults: Faults::new(),
        }
    }
}

impl<R: Threads + Wait + Sync> Spawner for ListSpawner<R> {
    type Runtime = R;

    ghost failing = { λ s. s.failing };

    ghost starts = { λ s. s.starts };

    ghost faults = { λ s. s.faults };

    fn runtime(&self) -> &R {
        &self.runtime
    }

    fn failing(&self) -> &[u64] {
        self.failing.as_slice()
    }

    fn starts(&self) -> u64 {
        self.starts
    }

    fn faults(&self) -> Faults {
        self.faults
    }

    fn note(&mut self, begun: u64, failed: Faults) {
        self.starts = begun;
        self.faults = failed;
    }
}

/// The system's threads. A start fails only where the system starts no thread.
#[derive(Drop)]
pub struct ThreadSpawner<R> {
    runtime: R,
    starts: u64,
    faults: Faults,
}

impl<R> ThreadSpawner<R> {
    pub fn new(runtime: R) -> ThreadSpawner<R>
        ensures starts { result.starts ≡ 0 }
        ensures faults { result.faults ≡ 0 }
    {
        ThreadSpawner {
            runtime,
            starts: 0,
            faults: Faults::new(),
        }
    }
}

impl<R: Threads + Wait + Sync> Spawner for ThreadSpawner<R> {
    type Runtime = R;

    ghost failing = { λ _. [] };

    ghost starts = { λ s. s.starts };

    ghost faults = { λ s. s.faults };

    fn runtime(&self) -> &R {
        &self.runtime
    }

    fn failing(&self) -> &[u64] {
        &[]
    }

    fn starts(&self) -> u64 {
        self.starts
    }

    fn faults(&self) -> Faults {
        self.faults
    }

    fn note(&mut self, begun: u64, failed: Faults) {
        self.starts = begun;
        self.faults = failed;
    }
}
