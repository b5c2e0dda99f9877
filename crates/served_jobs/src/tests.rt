//! Tests over a node that counts what it does, and fails late, and one that answers nobody.

ghost use Rattle.node_lock.specs.Passes.{IsPassOf, view_of};
ghost use Rattle.node_lock.specs.Stepped.{IsSamePass};

use crate::{Duty, JobDone, NodeJob, NodeSite};
use cs_base::{Bytes, Items, Micros, NodeId, ReqId};
use cs_doors::{DoorPlan, MemDoor};
use cs_io::{MemLink, OpenGate};
use cs_runtime::{Job, SetClock};
use node_calls::{NodeCall, NodeReply};
use node_links::{LINK_ROOM, Link, link_between};
use node_lock::{NodeLock, Pass, Stepper};
use node_workers::Receivers;
use peer_messages::{Body, Event, Message, What};
use schema_book::Schema;
use std::alloc::{AllocError, Global};
use std::collections::VecDeque;
use std::snapshot::Snapshot;
use std::sync::Wait;
use std::sync::atomic::{AtomicBool, Ordering};
use std::test::Fail;

// A call for options, which no node is asked for, and the opcode of what is answered.
const OPTIONS: &[u8] = b"\x04\x00\x00\x02\x05\x00\x00\x00\x00";

const SUPPORTED: u8 = 6;

// STARTUP, and the opcode of what is answered.
const STARTUP: &[u8] =
    b"\x04\x00\x00\x00\x01\x00\x00\x00\x16\x00\x01\x00\x0bCQL_VERSION\x00\x053.0.0";

const READY: u8 = 2;

// A write into the table that every schema has.
const INSERT: &[u8] =
    b"\x04\x00\x00\x01\x07\x00\x00\x00\x3d\x00\x00\x00\x36INSERT INTO script.kv (k, c, v) VALUES ('a', 'b', 'x')\x00\x01\x00";

// How many bytes a response without a body has.
const HEADER: usize = 9;

// What was called for, and what was replied.
#[derive(Drop)]
struct Made {
    call: NodeCall,
    reply: Snapshot<NodeReply>,
}

fn replied(failed: bool) -> NodeReply {
    NodeReply {
        started: None,
        answer: None,
        tables: None,
        failed,
    }
}

#[derive(Drop)]
struct Counter {
    ticks: u32,
    flushes: u32,
    delivered: u32,
}

impl Counter {
    fn new() -> Counter {
        Counter {
            ticks: 0,
            flushes: 0,
            delivered: 0,
        }
    }

    fn count(&mut self, what: &What) {
        match what {
            What::Tick => self.ticks = self.ticks.wrapping_add(1),
            What::Flush => self.flushes = self.flushes.wrapping_add(1),
            What::Deliver(_) => self.delivered = self.delivered.wrapping_add(1),
            What::Client(_) | What::Alive(..) | What::Collect(_) => {}
        }
    }

    // Its store fails once the time is 30,000.
    fn reply_to(&mut self, event: &Event) -> NodeReply {
        self.count(&event.what);
        replied(event.clock.count() >= 30_000)
    }

    fn counts(&self) -> (u32, u32, u32) {
        (self.ticks, self.flushes, self.delivered)
    }
}

impl Stepper for Counter {
    type Event = NodeCall;

    type Reply = NodeReply;

    type Entry = Made;

    ghost event_of = { λ made. made.call };

    ghost reply_of = { λ made. made.reply.value };

    ghost steps = { λ before made after. Unit {0} };

    ghost refuses = { λ state call back. Unit {0} };

    fn step(&mut self, call: NodeCall) -> Result<(Made, NodeReply), NodeCall> {
        let reply = self.reply_to(&call.event);
        let kept = Snapshot::of(&reply);
        Ok((Made { call, reply: kept }, reply))
    }
}

// It names each request, and answers none. As an answer is asked for the third time it raises the flag.
#[derive(Drop)]
struct Silent<'a> {
    stop: &'a AtomicBool,
    looks: u32,
}

impl Silent<'_> {
    fn look(&mut self) {
        self.looks = self.looks.wrapping_add(1);
        if self.looks == 3 {
            self.stop.store(true, Ordering::SeqCst);
        }
    }

    fn reply_to(&mut self, event: &Event) -> NodeReply {
        match &event.what {
            What::Client(_) => NodeReply {
                started: Some(ReqId {
                    node: NodeId::FIRST,
                    time: event.clock,
                }),
                ..replied(false)
            },
            What::Collect(_) => {
                self.look();
                replied(false)
            }
            What::Deliver(_) | What::Alive(..) | What::Flush | What::Tick => replied(false),
        }
    }
}

impl Stepper for Silent<'_> {
    type Event = NodeCall;

    type Reply = NodeReply;

    type Entry = Made;

    ghost event_of = { λ made. made.call };

    ghost reply_of = { λ made. made.reply.value };

    ghost steps = { λ before made after. Unit {0} };

    ghost refuses = { λ state call back. Unit {0} };

    fn step(&mut self, call: NodeCall) -> Result<(Made, NodeReply), NodeCall> {
        let reply = self.reply_to(&call.event);
        let kept = Snapshot::of(&reply);
        Ok((Made { call, reply: kept }, reply))
    }
}

fn clock_of(alloc: Global, micros: &[u64]) -> Result<SetClock, Fail> {
    let mut readings = Vec::new(alloc);
    for reading in micros {
        readings.push(Micros::new(*reading))?;
    }
    if readings.is_empty() {
        return Err("a reading".into());
    }
    Ok(SetClock::new(readings))
}

fn no_schema(alloc: Global) -> Result<Schema, Fail> {
    Ok(Schema::from_statements(alloc, &Items::new(alloc), 1, 1, 0)?)
}

// A door to which one client comes, which sends these bytes one after another. Its call of this number fails.
fn door_of(alloc: Global, sent: &[&[u8]], failing: u64) -> Result<MemDoor, AllocError> {
    let mut pieces = Vec::new(alloc);
    for piece in sent {
        pieces.push(Bytes::from_slice(alloc, piece)?)?;
    }
    let mut coming = VecDeque::new(alloc);
    coming.push_back(Some(MemLink::new(alloc, pieces, 100, Vec::new(alloc))))?;
    let failing = Vec::from_slice(alloc, &[failing])?;
    Ok(MemDoor::new(alloc, DoorPlan::new(coming, failing)))
}

// What the door's clients were written: the first frame's opcode, and how many bytes.
fn answered(alloc: Global, duty: &Duty<MemDoor>) -> Result<Vec<(u8, usize)>, AllocError> {
    let mut opcodes = Vec::new(alloc);
    if let Duty::Connections(door) = duty {
        for link in door.returned() {
            let written = link.written();
            opcodes.push((written.get(4).copied().unwrap_or(0), written.len()))?;
        }
    }
    Ok(opcodes)
}

fn message_at(time: u64) -> Message {
    let time = Micros::new(time);
    Message {
        from: NodeId::FIRST,
        upto: NodeId::FIRST,
        time,
        born: time,
        request: ReqId {
            node: NodeId::FIRST,
            time,
        },
        body: Body::WriteAck,
    }
}

// The receiver of a link that carries so many messages.
fn receivers_of(alloc: Global, count: u64) -> Result<Receivers, AllocError> {
    let Link {
        from: _,
        to: _,
        sender,
        receiver,
    } = link_between(alloc, 1, 0)?;
    let mut sender = sender;
    for time in 0..count {
        let _ = sender.put(message_at(time));
    }
    let mut receivers = Vec::new(alloc);
    receivers.push(receiver)?;
    Ok(Receivers::from_vec(receivers))
}

// How many receivers there are, and how many messages the first of them knows of.
fn left_in(duty: Duty<MemDoor>) -> (usize, u32) {
    let Duty::Links(receivers) = duty else {
        return (0, 0);
    };
    let mut receivers = receivers.into_vec();
    let count = receivers.len();
    let mut left: u32 = 0;
    if let Some(receiver) = receivers.first_mut() {
        for _ in 0..LINK_ROOM {
            if receiver.take().is_some() {
                left = left.wrapping_add(1);
            }
        }
    }
    (count, left)
}

// What is left of a job of a node that counts, and what was counted.
#[derive(Drop)]
struct Went {
    duty: Duty<MemDoor>,
    failed: bool,
    door_failed: bool,
    unstarted: bool,
    number: u32,
    counts: (u32, u32, u32),
}

// A job is worked, or not started.
fn end_of<W: Wait>(
    job: NodeJob<W, Counter, SetClock, OpenGate, MemDoor>,
    starts: bool,
) -> JobDone<Counter, MemDoor>
    ensures lock { IsPassOf job.entry.site.now.lock.now result.pass }
    ensures pass { IsSamePass (view_of job.entry.pass) (view_of result.pass) }
{
    if starts { job.work() } else { job.unstarted() }
}

fn run_job<W: Wait>(
    rt: &W,
    alloc: Global,
    duty: Duty<MemDoor>,
    micros: &[u64],
    stop: &AtomicBool,
    starts: bool,
) -> Result<Went, Fail> {
    let clock = clock_of(alloc, micros)?;
    let schema = no_schema(alloc)?;
    let (lock, pass) = NodeLock::new(alloc, Counter::new(), 1)?;
    let site = NodeSite {
        rt,
        alloc,
        lock: &lock,
        clock: &clock,
        stop,
        gate: &OpenGate,
        schema: &schema,
        node: NodeId::FIRST,
    };
    let JobDone {
        pass,
        duty,
        ended,
        door_failed,
        unstarted,
    } = end_of(NodeJob::new(&site, pass, duty), starts);
    let number = pass.number();
    let (counter, _) = lock.close(pass);
    Ok(Went {
        duty,
        failed: ended.failed,
        door_failed,
        unstarted,
        number,
        counts: counter.counts(),
    })
}

#[test]
fn a_job_serves_the_clients_of_its_door(rt: HostRuntime) -> Result<(), Fail> {
    let stop = AtomicBool::new(false);
    let door = door_of(rt.alloc(), &[OPTIONS], 2)?;
    let went = run_job(&rt, rt.alloc(), Duty::Connections(door), &[0], &stop, true)?;
    assert!(rt; went.door_failed && !went.unstarted && !went.failed);
    assert!(rt; stop.load(Ordering::SeqCst));
    assert_eq!(rt; went.counts, (0, 0, 0));
    let answered = answered(rt.alloc(), &went.duty)?;
    assert_eq!(rt; answered.len(), 1);
    assert_eq!(rt; answered[0].0, SUPPORTED);
    Ok(())
}

#[test]
fn a_job_at_a_door_ends_at_the_flag(rt: HostRuntime) -> Result<(), Fail> {
    let stop = AtomicBool::new(true);
    let door = door_of(rt.alloc(), &[OPTIONS], 9)?;
    let went = run_job(&rt, rt.alloc(), Duty::Connections(door), &[0], &stop, true)?;
    assert!(rt; !went.door_failed && !went.unstarted && !went.failed);
    assert!(rt; answered(rt.alloc(), &went.duty)?.is_empty());
    Ok(())
}

#[test]
fn a_job_delivers_the_messages_of_its_links(rt: HostRuntime) -> Result<(), Fail> {
    let stop = AtomicBool::new(true);
    let receivers = receivers_of(rt.alloc(), 2)?;
    let went = run_job(&rt, rt.alloc(), Duty::Links(receivers), &[0], &stop, true)?;
    assert!(rt; !went.door_failed && !went.unstarted && !went.failed);
    assert_eq!(rt; went.counts, (0, 0, 2));
    assert_eq!(rt; left_in(went.duty), (1, 0));
    Ok(())
}

#[test]
fn a_job_tells_the_time(rt: HostRuntime) -> Result<(), Fail> {
    let stop = AtomicBool::new(false);
    let readings = [0, 10_000, 30_000];
    let went = run_job(&rt, rt.alloc(), Duty::Ticks, &readings, &stop, true)?;
    assert!(rt; went.failed && !went.door_failed && !went.unstarted);
    assert!(rt; stop.load(Ordering::SeqCst) && matches!(went.duty, Duty::Ticks));
    assert_eq!(rt; went.counts, (3, 0, 0));
    Ok(())
}

#[test]
fn a_job_has_tables_written(rt: HostRuntime) -> Result<(), Fail> {
    let stop = AtomicBool::new(false);
    let readings = [0, 10_000, 30_000];
    let went = run_job(&rt, rt.alloc(), Duty::Merges, &readings, &stop, true)?;
    assert!(rt; went.failed && !went.door_failed && !went.unstarted);
    assert!(rt; stop.load(Ordering::SeqCst) && matches!(went.duty, Duty::Merges));
    assert_eq!(rt; went.counts, (0, 3, 0));
    Ok(())
}

#[test]
fn a_job_that_is_not_started_gives_all_back(rt: HostRuntime) -> Result<(), Fail> {
    let stop = AtomicBool::new(false);
    let receivers = receivers_of(rt.alloc(), 2)?;
    let went = run_job(&rt, rt.alloc(), Duty::Links(receivers), &[0], &stop, false)?;
    assert!(rt; went.unstarted && !went.failed && !went.door_failed);
    assert!(rt; stop.load(Ordering::SeqCst));
    assert_eq!(rt; (went.number, went.counts), (0, (0, 0, 0)));
    assert_eq!(rt; left_in(went.duty), (1, 2));
    Ok(())
}

#[test]
fn a_wait_for_an_answer_ends_at_the_flag(rt: HostRuntime) -> Result<(), Fail> {
    let stop = AtomicBool::new(false);
    let silent = Silent {
        stop: &stop,
        looks: 0,
    };
    let (lock, pass) = NodeLock::new(rt.alloc(), silent, 1)?;
    let clock = clock_of(rt.alloc(), &[0])?;
    let schema = no_schema(rt.alloc())?;
    let site = NodeSite {
        rt: &rt,
        alloc: rt.alloc(),
        lock: &lock,
        clock: &clock,
        stop: &stop,
        gate: &OpenGate,
        schema: &schema,
        node: NodeId::FIRST,
    };
    let door = door_of(rt.alloc(), &[STARTUP, INSERT, OPTIONS], 9)?;
    let done = NodeJob::new(&site, pass, Duty::Connections(door)).work();
    assert!(rt; !done.door_failed && !done.unstarted && !done.ended.failed);
    assert_eq!(rt;
        answered(rt.alloc(), &done.duty)?.as_slice(),
        [(READY, HEADER)].as_slice()
    );
    assert_eq!(rt; lock.close(done.pass).0.looks, 3);
    Ok(())
}
