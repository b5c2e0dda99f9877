//! The console.

ghost use Rattle.std.specs.Prelude.{◌≡◌, ◌≤◌, false, vec_len};

use crate::end::ConsoleEnd;
use crate::node::OperatedNode;
use crate::obeying::obey;
use crate::writing::{write_all, write_answer};
use cs_base::Failed;
use cs_io::{Sink, Source, StopSign};
use cs_runtime::{Clock, FlagStop};
use node_calls::{NodeCall, NodeReply};
use node_lock::Stepper;
use source_lines::LineReader;
use std::sync::Wait;
use std::sync::atomic::{AtomicBool, Ordering};

/// What a console works with: where its lines come from and its answers go, the nodes of which it asks, from one to seven, and
/// the flag at which it stops, with the sign by which it looks at this.
#[derive(Drop)]
pub struct Console<'a, W, N: Stepper<Event = NodeCall, Reply = NodeReply>, C, S, T> {
    pub rt: &'a W,
    pub stop: &'a AtomicBool,
    pub sign: FlagStop<'a>,
    pub source: S,
    pub sink: T,
    pub lines: LineReader,
    pub nodes: Vec<OperatedNode<'a, W, N, C>>,
    ghost few: { (1 ≤ vec_len nodes) × (vec_len nodes ≤ 7) },
}

impl<'a, W, N: Stepper<Event = NodeCall, Reply = NodeReply>, C, S, T> Console<'a, W, N, C, S, T> {
    /// A console over these. The nodes are from one to seven.
    pub fn new(
        rt: &'a W,
        stop: &'a AtomicBool,
        source: S,
        sink: T,
        lines: LineReader,
        nodes: Vec<OperatedNode<'a, W, N, C>>,
    ) -> Console<'a, W, N, C, S, T>
        requires { (1 ≤ vec_len nodes) × (vec_len nodes ≤ 7) }
        ensures sign { result.sign.was_up ≡ false }
        ensures source { result.source ≡ source }
        ensures sink { result.sink ≡ sink }
        ensures lines { result.lines ≡ lines }
        ensures nodes { result.nodes ≡ nodes.entry }
    {
        Console {
            rt,
            stop,
            sign: FlagStop::new(stop),
            source,
            sink,
            lines,
            nodes,
        }
    }

    pub(crate) fn raise_stop(&self) {
        self.stop.store(true, Ordering::SeqCst);
    }
}

impl<
    'a,
    W: Wait,
    N: Stepper<Event = NodeCall, Reply = NodeReply>,
    C: Clock,
    S: Source,
    T: Sink,
> Console<'a, W, N, C, S, T> {
    ghost use Rattle.std.specs.Prelude.{[]};
    ghost use Rattle.served_console.specs.Consoles.{TakesTurn, TakesLine, Operates, Works};

    /// Does what the line that was read says, and answers it.
    fn take_turn(&mut self) -> Option<ConsoleEnd>
        ensures { TakesTurn N.steps N.event_of N.reply_of N.refuses C.gives T.contents T.faults result self.old self.new }
    {
        let turned = obey(&mut self.nodes, self.lines.line());
        if write_answer(&mut self.sink, turned.answer).is_err() {
            return Some(ConsoleEnd::WriteFault);
        }
        if turned.goes_on {
            None
        } else {
            Some(ConsoleEnd::Ended)
        }
    }

    /// Takes the next line, where the flag is not raised.
    fn take_line(&mut self) -> Option<ConsoleEnd>
        ensures { TakesLine N.steps N.event_of N.reply_of N.refuses C.gives S.remaining S.faults T.contents T.faults result self.old self.new }
    {
        if self.sign.raised() {
            return Some(ConsoleEnd::Ended);
        }
        match self.lines.next_line(self.rt, &mut self.source) {
            Ok(true) => self.take_turn(),
            Ok(false) => Some(ConsoleEnd::Ended),
            Err(Failed) => Some(ConsoleEnd::ReadFault),
        }
    }

    fn take_lines(&mut self) -> ConsoleEnd
        ensures { Operates N.steps N.event_of N.reply_of N.refuses C.gives S.remaining S.faults T.contents T.faults [] self.old result self.new }
    {
        let rt = self.rt;
        for _ in rt.forever() {
            match self.take_line() {
                Some(end) => return end,
                None => {}
            }
        }
        unreachable!()
    }

    /// Writes the opening, and takes lines until the console ends.
    pub(crate) fn operate(&mut self, opening: &[u8]) -> ConsoleEnd
        ensures { Works N.steps N.event_of N.reply_of N.refuses C.gives S.remaining S.faults T.contents T.faults opening.now self.old result self.new }
    {
        if self.sign.raised() {
            return ConsoleEnd::Ended;
        }
        match write_all(&mut self.sink, opening) {
            Ok(()) => self.take_lines(),
            Err(Failed) => ConsoleEnd::WriteFault,
        }
    }
}
