//! Tests over nodes that reply and refuse by the time of their calls.

use crate::{Console, ConsoleDone, ConsoleEnd, ConsoleJob, OperatedNode};
use cs_base::Micros;
use cs_io::{MemSink, MemSource};
use cs_runtime::{Job, SetClock};
use node_calls::{Cause, NodeCall, NodeReply};
use node_lock::{NodeLock, Stepper};
use node_workers::Site;
use peer_messages::Event;
use source_lines::LineReader;
use std::alloc::{AllocError, Global};
use std::snapshot::Snapshot;
use std::sync::Wait;
use std::sync::atomic::{AtomicBool, Ordering};
use std::test::Fail;

// What was called for, and what was replied.
#[derive(Drop)]
struct Made {
    call: NodeCall,
    reply: Snapshot<NodeReply>,
}

#[derive(Drop)]
struct Planned {
    steps: u32,
}

fn reply_of(failed: bool, tables: Option<u32>) -> NodeReply {
    NodeReply {
        started: None,
        answer: None,
        tables,
        failed,
    }
}

// By the time of the call.
fn reply_to(event: &Event) -> Result<NodeReply, Option<Cause>> {
    match event.clock.count() {
        1 => Err(Some(Cause::NoRoom)),
        2 => Err(Some(Cause::TooLarge)),
        3 => Err(Some(Cause::NoMemory)),
        4 => Err(Some(Cause::Nothing)),
        5 => Err(Some(Cause::Stopped)),
        6 => Err(None),
        7 => Ok(reply_of(true, None)),
        8 => Ok(reply_of(false, Some(120))),
        _ => Ok(reply_of(false, None)),
    }
}

impl Stepper for Planned {
    type Event = NodeCall;

    type Reply = NodeReply;

    type Entry = Made;

    ghost event_of = { λ made. made.call };

    ghost reply_of = { λ made. made.reply.value };

    ghost steps = { λ before made after. Unit {0} };

    ghost refuses = { λ state call back. Unit {0} };

    fn step(&mut self, call: NodeCall) -> Result<(Made, NodeReply), NodeCall> {
        match reply_to(&call.event) {
            Ok(reply) => {
                self.steps = self.steps.wrapping_add(1);
                let kept = Snapshot::of(&reply);
                Ok((Made { call, reply: kept }, reply))
            }
            Err(cause) => Err(NodeCall { cause, ..call }),
        }
    }
}

// The input and how much of it a read gives, the times of the calls, and the read and the write that are to fail.
#[derive(Clone, Copy)]
struct Trial<'a> {
    input: &'a str,
    most: usize,
    times: &'a [u64],
    failing_read: u64,
    failing_write: u64,
    raised: bool,
}

fn plain<'a>(input: &'a str, times: &'a [u64]) -> Trial<'a> {
    Trial {
        input,
        most: 100,
        times,
        failing_read: 0,
        failing_write: 0,
        raised: false,
    }
}

fn clock_of(alloc: Global, times: &[u64]) -> Result<SetClock, Fail> {
    let mut readings = Vec::new(alloc);
    for time in times {
        readings.push(Micros::new(*time))?;
    }
    if readings.is_empty() {
        return Err("a time".into());
    }
    Ok(SetClock::new(readings))
}

fn streams(alloc: Global, trial: &Trial) -> Result<(MemSource, MemSink), AllocError> {
    let source = MemSource::new(
        Vec::from_slice(alloc, trial.input.as_bytes())?,
        trial.most,
        Vec::from_slice(alloc, &[trial.failing_read])?,
    );
    let sink = MemSink::new(
        alloc,
        trial.most,
        Vec::from_slice(alloc, &[trial.failing_write])?,
    );
    Ok((source, sink))
}

// The console over these nodes, worked.
fn work<'a, W: Wait>(
    rt: &'a W,
    alloc: Global,
    trial: &Trial,
    stop: &'a AtomicBool,
    first: OperatedNode<'a, W, Planned, SetClock>,
    second: OperatedNode<'a, W, Planned, SetClock>,
) -> Result<(String, ConsoleEnd), Fail> {
    let (source, sink) = streams(alloc, trial)?;
    let lines = LineReader::new(alloc)?;
    let opening = Vec::from_slice(alloc, b"hello\n")?;
    let nodes = Vec::from_array(alloc, [first, second])?;
    let console = Console::new(rt, stop, source, sink, lines, nodes);
    let ConsoleDone { console, end } = ConsoleJob { console, opening }.work();
    let written = Vec::from_slice(alloc, console.sink.bytes())?;
    let written = String::from_utf8(written).map_err(|_| "a text")?;
    Ok((written, end))
}

// What was written, how the console ended, and whether the flag is up then.
fn shown<W: Wait>(rt: &W, alloc: Global, trial: &Trial) -> Result<String, Fail> {
    let (lock, pass) = NodeLock::new(alloc, Planned { steps: 0 }, 1)?;
    let (other_lock, other_pass) = NodeLock::new(alloc, Planned { steps: 0 }, 1)?;
    let clock = clock_of(alloc, trial.times)?;
    let stop = AtomicBool::new(trial.raised);
    let site = Site {
        rt,
        lock: &lock,
        clock: &clock,
        stop: &stop,
    };
    let node = OperatedNode::new(site, pass);
    let site = Site {
        rt,
        lock: &other_lock,
        clock: &clock,
        stop: &stop,
    };
    let other = OperatedNode::new(site, other_pass);
    let (written, end) = work(rt, alloc, trial, &stop, node, other)?;
    let stopped = stop.load(Ordering::SeqCst);
    Ok(format!(in alloc; "{written:?} {end:?} {stopped}")?)
}

#[test]
fn lines_are_obeyed_and_answered(rt: HostRuntime) -> Result<(), Fail> {
    for (input, shown_as) in [
        ("", "\"hello\\n\" Ended true"),
        (
            "mark 0 1 up\nmark 1 0 down\n",
            "\"hello\\nok\\nok\\n\" Ended true",
        ),
        (
            "flush 1\nmerge 0",
            "\"hello\\ntables 0\\ntables 0\\n\" Ended true",
        ),
        ("status\nstop\nstatus\n", "\"hello\\nok\\n\" Ended true"),
        (
            "\nhalt\nflush 2\nstop\r\n",
            "\"hello\\n?\\n?\\n?\\n?\\n\" Ended true",
        ),
    ] {
        for most in [1, 7, 100] {
            let mut plan = plain(input, &[0]);
            plan.most = most;
            assert_eq!(rt; shown(&rt, rt.alloc(), &plan)?.as_str(), shown_as);
        }
    }
    Ok(())
}

#[test]
fn refusals_are_told(rt: HostRuntime) -> Result<(), Fail> {
    for (input, times, shown_as) in [
        ("flush 0\n", [8, 0, 0], "tables 120\\n\" Ended true"),
        (
            "flush 0\nmerge 0\n",
            [1, 2, 0],
            "no room\\ntoo large\\n\" Ended true",
        ),
        (
            "mark 0 1 up\nmark 0 1 up\nflush 1",
            [3, 4, 6],
            "no memory\\nno memory\\nno memory\\n\" Ended true",
        ),
        (
            "status\nflush 1\n",
            [0, 1, 0],
            "no room\\ntables 0\\n\" Ended true",
        ),
        ("status\n", [1, 2, 0], "no room\\n\" Ended true"),
        ("status\n", [2, 0, 0], "too large\\n\" Ended true"),
        ("status\nstatus\n", [7, 0, 0], "\" Ended true"),
        ("flush 0\nflush 0\n", [5, 0, 0], "\" Ended true"),
        ("status\nstatus\n", [1, 5, 0], "\" Ended true"),
    ] {
        let plan = Trial {
            times: &times,
            ..plain(input, &[0])
        };
        let mut whole = String::from_str(rt.alloc(), "\"hello\\n")?;
        whole.push_str(shown_as)?;
        assert_eq!(rt; shown(&rt, rt.alloc(), &plan)?, whole);
    }
    Ok(())
}

#[test]
fn faults_end_the_console(rt: HostRuntime) -> Result<(), Fail> {
    for (failing_read, failing_write, raised, shown_as) in [
        (0, 0, true, "\"\" Ended true"),
        (1, 0, false, "\"hello\\n\" ReadFault true"),
        (4, 0, false, "\"hello\\nok\\n\" ReadFault true"),
        (0, 1, false, "\"\" WriteFault true"),
        (0, 2, false, "\"hello\" WriteFault true"),
        (0, 4, false, "\"hello\\nok\\n\" WriteFault true"),
    ] {
        let plan = Trial {
            most: 5,
            failing_read,
            failing_write,
            raised,
            ..plain("mark 0 1 up\nflush 1\n", &[0])
        };
        assert_eq!(rt; shown(&rt, rt.alloc(), &plan)?.as_str(), shown_as);
    }
    Ok(())
}
