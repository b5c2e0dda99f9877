//! Jobs of threads.

/// Work for a thread of its own. A job holds what it needs, also the handles by which it waits.
pub trait Job: Drop {
    type Done: Drop;

    // What may be done of the job, be it started or not.
    ghost ends: { Self → Self.Done → Type 0 };

    // What may be done by its work.
    ghost works: { Self → Self.Done → Type 0 } = { λ _ _. Unit {0} };

    // What may be done where it is not started.
    ghost unstarts: { Self → Self.Done → Type 0 } = { λ _ _. Unit {0} };

    /// Does the work.
    fn work(self) -> Self::Done
        ensures ends { ends self result }
        ensures works { works self result };

    /// Ends the job where no thread could be started for it.
    fn unstarted(self) -> Self::Done
        ensures ends { ends self result }
        ensures unstarts { unstarts self result };
}

/// What was done of a job, and how.
#[derive(Drop)]
pub(crate) enum End<D: Drop> {
    Worked(D),
    Unstarted(D),
}

/// Jobs of which none was started, since there was no memory.
#[derive(Drop)]
pub struct NotRun<J: Drop, H: Drop> {
    pub jobs: Vec<J>,
    /// What was to be worked on the caller's thread.
    pub here: H,
}
