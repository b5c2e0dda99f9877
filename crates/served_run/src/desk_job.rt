//! The console's job, as it is handed to the spawner.

use cs_io::{Sink, Source};
use cs_runtime::{Clock, Job};
use node_calls::{NodeCall, NodeReply};
use node_lock::{NodeLock, Stepper};
use served_console::{ConsoleDone, ConsoleJob};
use std::sync::Wait;

/// The job of a console, with the lock of its first node and the clock. These two say at once what the console's nodes say deep inside:
/// how long the nodes' states and the clock live.
#[derive(Drop)]
pub(crate) struct DeskJob<'a, W, N: Stepper<Event = NodeCall, Reply = NodeReply>, C, S, T> {
    pub job: ConsoleJob<'a, W, N, C, S, T>,
    pub lock: &'a NodeLock<N>,
    pub clock: &'a C,
}

impl<
    'a,
    W: Wait,
    N: Stepper<Event = NodeCall, Reply = NodeReply>,
    C: Clock,
    S: Source + Drop,
    T: Sink + Drop,
> Job for DeskJob<'a, W, N, C, S, T> {
    ghost use Rattle.served_console.specs.declared.job.ConsoleDone.{ConsoleDone};
    ghost use Rattle.served_console.specs.Jobs.{GivesBack, IsWorked, IsUnstarted};
    ghost use Rattle.served_run.specs.declared.desk_job.DeskJob.{DeskJob};

    type Done = ConsoleDone<'a, W, N, C, S, T>;

    ghost ends = { λ (desk : DeskJob W N C S T N.Entry) (done : ConsoleDone W N C S T N.Entry). GivesBack desk.job done };

    ghost works = { λ (desk : DeskJob W N C S T N.Entry) (done : ConsoleDone W N C S T N.Entry). IsWorked N.steps N.event_of N.reply_of N.refuses C.gives S.remaining S.faults T.contents T.faults desk.job done };

    ghost unstarts = { λ (desk : DeskJob W N C S T N.Entry) (done : ConsoleDone W N C S T N.Entry). IsUnstarted desk.job done };

    fn work(self) -> ConsoleDone<'a, W, N, C, S, T> {
        let DeskJob { job, .. } = self;
        job.work()
    }

    fn unstarted(self) -> ConsoleDone<'a, W, N, C, S, T> {
        let DeskJob { job, .. } = self;
        job.unstarted()
    }
}
