//! Tests over a state that replies and refuses as its calls are planned.

ghost use Rattle.std.specs.Prelude.{◌≡◌, false};
ghost use Rattle.client_desk.specs.Asks.{IsAwaited};

use crate::{Ended, LockDesk, Receivers, link_worker, merge_worker, timer_worker};
use client_desk::{Answer, Desk};
use cs_base::{Level, Micros, NodeId, ReqId, Text};
use cs_runtime::Clock;
use node_calls::{Cause, NodeCall, NodeReply};
use node_links::{Link, Receiver, links};
use node_lock::{History, NodeLock, Stepper};
use peer_messages::{Ask, Body, Event, Invalid, Message, Plan, Refusal, What};
use std::alloc::{AllocError, Global};
use std::snapshot::Snapshot;
use std::sync::Wait;
use std::sync::atomic::{AtomicBool, AtomicU64, Ordering};
use std::test::Fail;

// How long a request goes without an answer.
const WAIT: u64 = 2_000;

// A clock that goes on where one rests.
#[derive(Drop)]
struct TestClock {
    micros: AtomicU64,
}

impl Clock for TestClock {
    ghost gives = { λ clock reading. Unit {0} };

    fn now(&self) -> Micros {
        Micros::new(self.micros.load(Ordering::SeqCst))
    }

    fn rest(&self, micros: u64) {
        self.micros.fetch_add(micros, Ordering::SeqCst);
    }
}

// What was called for, and what was replied.
#[derive(Drop)]
struct Made {
    call: NodeCall,
    reply: Snapshot<NodeReply>,
}

#[derive(Drop)]
struct Counter {
    steps: u32,
}

fn plain() -> NodeReply {
    NodeReply {
        started: None,
        answer: None,
        tables: None,
        failed: false,
    }
}

fn failed() -> NodeReply {
    NodeReply {
        failed: true,
        ..plain()
    }
}

// A request is named by the time, or what its level stands for comes of it.
fn begun(level: Level, clock: Micros) -> Result<NodeReply, Cause> {
    match level {
        Level::One => Ok(NodeReply {
            started: Some(ReqId {
                node: NodeId::FIRST,
                time: clock,
            }),
            ..plain()
        }),
        Level::Two => Err(Cause::NoRoom),
        Level::Three => Err(Cause::TooLarge),
        Level::All => Err(Cause::NoMemory),
        Level::Serial => Err(Cause::Stopped),
        Level::Quorum => Ok(failed()),
        Level::LocalQuorum => Ok(plain()),
        Level::LocalOne | Level::LocalSerial => Err(Cause::Nothing),
    }
}

fn collected(request: &ReqId, clock: Micros) -> Result<NodeReply, Cause> {
    if clock.count().saturating_sub(request.time.count()) < WAIT {
        return Err(Cause::Nothing);
    }
    Ok(NodeReply {
        answer: Some(Answer::Acknowledged),
        ..plain()
    })
}

// By the time of the message.
fn delivered(message: &Message) -> Result<NodeReply, Cause> {
    match message.time.count() {
        1 => Err(Cause::NoRoom),
        2 => Err(Cause::Stopped),
        3 => Ok(failed()),
        _ => Ok(plain()),
    }
}

fn reply_to(event: &Event) -> Result<NodeReply, Cause> {
    match &event.what {
        What::Client(ask) => begun(ask.level, event.clock),
        What::Collect(request) => collected(request, event.clock),
        What::Deliver(message) => delivered(message),
        What::Alive(..) => Ok(plain()),
        What::Flush | What::Tick if event.clock.count() < 30_000 => Ok(plain()),
        What::Flush | What::Tick => Ok(failed()),
    }
}

impl Stepper for Counter {
    type Event = NodeCall;

    type Reply = NodeReply;

    type Entry = Made;

    ghost event_of = { λ made. made.call };

    ghost reply_of = { λ made. made.reply.value };

    ghost steps = { λ before made after. Unit {0} };

    ghost refuses = { λ state call back. Unit {0} };

    fn step(&mut self, call: NodeCall) -> Result<(Made, NodeReply), NodeCall> {
        match reply_to(&call.event) {
            Ok(reply) => {
                self.steps = self.steps.wrapping_add(1);
                let kept = Snapshot::of(&reply);
                Ok((Made { call, reply: kept }, reply))
            }
            Err(cause) => Err(call.because(cause)),
        }
    }
}

fn clock_at(micros: u64) -> TestClock {
    TestClock {
        micros: AtomicU64::new(micros),
    }
}

fn ask_at(alloc: Global, level: Level) -> Result<Ask, AllocError> {
    Ok(Ask {
        plan: Plan::Use(Text::from_str(alloc, "k")?),
        level,
    })
}

fn text_of(answer: &Answer) -> &'static str {
    match answer {
        Answer::Acknowledged => "acknowledged",
        Answer::Rows(..) => "rows",
        Answer::Refused(Refusal::Overloaded) => "overloaded",
        Answer::Refused(Refusal::Invalid(Invalid::PartitionTooLarge)) => "too large",
        Answer::Refused(Refusal::Down) => "down",
        Answer::Refused(_) => "refused",
        Answer::NoMemory => "no memory",
    }
}

// What is told of a request when it is submitted.
fn told<D: Desk>(desk: &mut D, ask: Ask) -> &'static str {
    match desk.submit(ask) {
        Ok(_) => "named",
        Err(answer) => text_of(&answer),
    }
}

// Whether the answer is there.
fn look<D: Desk>(desk: &mut D, request: &ReqId) -> bool
    requires { IsAwaited (D.asks desk.old) request.now }
    ensures { result ≡ false → D.asks desk.new ≡ D.asks desk.old }
{
    match desk.collect(*request) {
        Some(_) => true,
        None => false,
    }
}

// The time of a request by its name, and how often its answer was asked for until it came.
fn looks<W: Wait, D: Desk>(rt: &W, desk: &mut D, ask: Ask) -> Option<(u64, u32)> {
    let Ok(request) = desk.submit(ask) else {
        return None;
    };
    let time = request.time.count();
    let mut looks: u32 = 0;
    for _ in rt.forever() {
        looks = looks.wrapping_add(1);
        if look(desk, &request) {
            return Some((time, looks));
        }
    }
    unreachable!()
}

#[test]
fn a_desk_names_a_request_and_collects_its_answer(rt: HostRuntime) -> Result<(), Fail> {
    let (lock, pass) = NodeLock::new(rt.alloc(), Counter { steps: 0 }, 1)?;
    let clock = clock_at(5);
    let stop = AtomicBool::new(false);
    let mut desk = LockDesk::new(&rt, &lock, pass, &clock, &stop);
    let found = looks(&rt, &mut desk, ask_at(rt.alloc(), Level::One)?);
    assert_eq!(rt; found, Some((5, 22)));
    assert_eq!(rt; clock.now().count(), 2_126);
    assert!(rt; !stop.load(Ordering::SeqCst));
    assert_eq!(rt; desk.finish().number(), 0);
    Ok(())
}

#[test]
fn a_desk_tells_why_a_node_refuses(rt: HostRuntime) -> Result<(), Fail> {
    let (lock, pass) = NodeLock::new(rt.alloc(), Counter { steps: 0 }, 1)?;
    let clock = clock_at(0);
    let stop = AtomicBool::new(false);
    let mut desk = LockDesk::new(&rt, &lock, pass, &clock, &stop);
    for (level, text, stops) in [
        (Level::Two, "overloaded", false),
        (Level::Three, "too large", false),
        (Level::All, "no memory", false),
        (Level::LocalQuorum, "no memory", false),
        (Level::LocalOne, "no memory", false),
        (Level::Quorum, "down", true),
        (Level::Serial, "down", true),
    ] {
        stop.store(false, Ordering::SeqCst);
        assert_eq!(rt; told(&mut desk, ask_at(rt.alloc(), level)?), text);
        assert_eq!(rt; stop.load(Ordering::SeqCst), stops);
    }
    Ok(())
}

fn message_at(from: NodeId, time: u64) -> Message {
    Message {
        from,
        upto: NodeId::FIRST,
        time: Micros::new(time),
        born: Micros::new(time),
        request: ReqId {
            node: from,
            time: Micros::new(time),
        },
        body: Body::WriteAck,
    }
}

// The receiver of a link that carries messages of these times.
fn receiver_of(link: Link<Message>, times: &[u64]) -> Receiver<Message> {
    let Link {
        from,
        to: _,
        sender,
        receiver,
    } = link;
    let mut sender = sender;
    for time in times {
        let _ = sender.put(message_at(from, *time));
    }
    receiver
}

// The receivers of two links that carry messages of these times.
fn receivers_of(alloc: Global, first: &[u64], second: &[u64]) -> Result<Receivers, Fail> {
    let mut all = links(alloc, 2)?.into_vec();
    let mut receivers = Vec::new(alloc);
    for times in [second, first] {
        receivers.push(receiver_of(all.pop().ok_or("a link")?, times))?;
    }
    receivers.reverse();
    Ok(Receivers::from_vec(receivers))
}

fn delivered_times(alloc: Global, history: &History<Made>) -> Result<Vec<u64>, AllocError> {
    let mut times = Vec::new(alloc);
    for (_, made) in history.as_slice() {
        if let What::Deliver(message) = &made.call.event.what {
            times.push(message.time.count())?;
        }
    }
    Ok(times)
}

#[test]
fn a_worker_delivers_each_message_of_its_links(rt: HostRuntime) -> Result<(), Fail> {
    let (lock, mut pass) = NodeLock::new(rt.alloc(), Counter { steps: 0 }, 1)?;
    let clock = clock_at(0);
    let stop = AtomicBool::new(true);
    let mut receivers = receivers_of(rt.alloc(), &[10, 1, 11], &[20, 21])?;
    let ended = link_worker(&rt, &lock, &mut pass, &mut receivers, &clock, &stop);
    assert!(rt; !ended.failed && ended.held.is_none());
    assert_eq!(rt; receivers.into_vec().len(), 2);
    let (counter, history) = lock.close(pass);
    assert_eq!(rt; counter.steps, 4);
    assert_eq!(rt;
        delivered_times(rt.alloc(), &history)?.as_slice(),
        [10, 20, 21, 11].as_slice()
    );
    Ok(())
}

#[test]
fn a_worker_ends_where_the_node_has_failed(rt: HostRuntime) -> Result<(), Fail> {
    for (time, steps) in [(2, 1), (3, 2)] {
        let (lock, mut pass) = NodeLock::new(rt.alloc(), Counter { steps: 0 }, 1)?;
        let clock = clock_at(0);
        let stop = AtomicBool::new(false);
        let mut receivers = receivers_of(rt.alloc(), &[10, 11], &[time])?;
        let ended = link_worker(&rt, &lock, &mut pass, &mut receivers, &clock, &stop);
        assert!(rt; ended.failed && ended.held.is_none());
        assert!(rt; stop.load(Ordering::SeqCst));
        assert_eq!(rt; lock.close(pass).0.steps, steps);
    }
    Ok(())
}

fn clocks_of(alloc: Global, history: &History<Made>) -> Result<Vec<u64>, AllocError> {
    let mut clocks = Vec::new(alloc);
    for (_, made) in history.as_slice() {
        if made.call.optional && matches!(made.call.event.what, What::Tick) {
            clocks.push(made.call.event.clock.count())?;
        }
    }
    Ok(clocks)
}

#[test]
fn a_timer_ticks_at_once_and_then_in_each_period(rt: HostRuntime) -> Result<(), Fail> {
    let (lock, mut pass) = NodeLock::new(rt.alloc(), Counter { steps: 0 }, 1)?;
    let clock = clock_at(7);
    let stop = AtomicBool::new(false);
    let ended = timer_worker(&rt, &lock, &mut pass, &clock, &stop);
    assert!(rt; ended.failed && stop.load(Ordering::SeqCst));
    let (_, history) = lock.close(pass);
    assert_eq!(rt;
        clocks_of(rt.alloc(), &history)?.as_slice(),
        [7, 10_007, 20_007, 30_007].as_slice()
    );
    Ok(())
}

#[test]
fn a_worker_ends_at_the_stop_flag(rt: HostRuntime) -> Result<(), Fail> {
    let (lock, mut pass) = NodeLock::new(rt.alloc(), Counter { steps: 0 }, 1)?;
    let clock = clock_at(0);
    let stop = AtomicBool::new(true);
    let ended = merge_worker(&rt, &lock, &mut pass, &clock, &stop);
    assert!(rt; !ended.failed && ended.held.is_none());
    let (_, history) = lock.close(pass);
    assert!(rt; history.as_slice().is_empty());
    Ok(())
}

fn is_sent<T: Send + Drop>(_value: T) {}

// A worker's receivers go to its thread, and how it ended comes back.
fn cross_threads(receivers: Receivers, ended: Ended) {
    is_sent(receivers);
    is_sent(ended);
}
