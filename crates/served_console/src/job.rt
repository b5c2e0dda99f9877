//! The job.

ghost use Rattle.std.specs.Prelude.{◌≡◌};

use crate::console::Console;
use crate::end::ConsoleEnd;
use cs_io::{Sink, Source};
use cs_runtime::{Clock, Job};
use node_calls::{NodeCall, NodeReply};
use node_lock::Stepper;
use std::sync::Wait;

/// A console, and what it writes before all answers.
#[derive(Drop)]
pub struct ConsoleJob<'a, W, N: Stepper<Event = NodeCall, Reply = NodeReply>, C, S, T> {
    pub console: Console<'a, W, N, C, S, T>,
    pub opening: Vec<u8>,
}

/// A console that has ended, and how.
#[derive(Drop)]
pub struct ConsoleDone<'a, W, N: Stepper<Event = NodeCall, Reply = NodeReply>, C, S, T> {
    pub console: Console<'a, W, N, C, S, T>,
    pub end: ConsoleEnd,
}

impl<
    'a,
    W: Wait,
    N: Stepper<Event = NodeCall, Reply = NodeReply>,
    C: Clock,
    S: Source + Drop,
    T: Sink + Drop,
> Job for ConsoleJob<'a, W, N, C, S, T> {
    ghost use Rattle.served_console.specs.declared.job.ConsoleDone.{ConsoleDone};
    ghost use Rattle.served_console.specs.declared.job.ConsoleJob.{ConsoleJob};
    ghost use Rattle.served_console.specs.Jobs.{GivesBack, IsWorked, IsUnstarted};

    type Done = ConsoleDone<'a, W, N, C, S, T>;

    ghost ends = { λ (job : ConsoleJob W N C S T N.Entry) (done : ConsoleDone W N C S T N.Entry). GivesBack job done };

    ghost works = { λ (job : ConsoleJob W N C S T N.Entry) (done : ConsoleDone W N C S T N.Entry). IsWorked N.steps N.event_of N.reply_of N.refuses C.gives S.remaining S.faults T.contents T.faults job done };

    ghost unstarts = { λ (job : ConsoleJob W N C S T N.Entry) (done : ConsoleDone W N C S T N.Entry). IsUnstarted job done };

    fn work(self) -> ConsoleDone<'a, W, N, C, S, T> {
        let ConsoleJob { console, opening } = self;
        let mut console = console;
        let end = console.operate(&opening);
        console.raise_stop();
        ConsoleDone { console, end }
    }

    // The others cannot do without it.
    fn unstarted(self) -> ConsoleDone<'a, W, N, C, S, T> {
        let ConsoleJob {
            console,
            opening: _,
        } = self;
        console.raise_stop();
        ConsoleDone {
            console,
            end: ConsoleEnd::Ended,
        }
    }
}
