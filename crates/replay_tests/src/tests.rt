//! Served runs that are run again.

use crate::again::{behind, shown};
use crate::clients::ASKS;
use crate::numbered::Numbered;
use crate::served::{Served, last_read, serve};
use crate::telling::{count_answers, requests, told_to};
use cs_base::{NodeId, ReqId};
use list_replica::MemListReplica;
use peer_messages::What;
use replica::MemReplica;
use std::alloc::{AllocError, Global};
use std::sync::Wait;
use std::test::Fail;
use std::thread::Threads;

/// What comes of events: how many pieces the chronicle has and how many answers, what each node's client is to be sent, the names of its
/// requests, and what each node shows for the last read at ONE.
#[derive(Drop)]
struct Again {
    pieces: usize,
    answers: usize,
    sent: Vec<Vec<u8>>,
    requests: Vec<Vec<ReqId>>,
    shown: Vec<Vec<u8>>,
}

fn run_again<R: MemReplica>(alloc: Global, events: &[Numbered]) -> Result<Again, AllocError> {
    let mut cluster = behind::<R>(alloc, events)?;
    let mut again = Again {
        pieces: cluster.chronicle().len(),
        answers: count_answers(cluster.chronicle()),
        sent: Vec::new(alloc),
        requests: Vec::new(alloc),
        shown: Vec::new(alloc),
    };
    for number in 0..2 {
        let node = NodeId::new(number).ok_or(AllocError)?;
        again.sent.push(told_to(alloc, cluster.chronicle(), node)?)?;
        again
            .requests
            .push(requests(alloc, cluster.chronicle(), node)?)?;
        let ask = last_read(alloc, events)?;
        again.shown.push(shown(&mut cluster, alloc, node, ask)?)?;
    }
    Ok(again)
}

/// The same over lists in memory. That the nodes are over such lists stands here alone: a proof over a type of a replica of its own costs
/// much more.
fn told_again(alloc: Global, events: &[Numbered]) -> Result<Again, AllocError> {
    run_again::<MemListReplica>(alloc, events)
}

fn served<W: Threads + Wait + Sync + Copy>(rt: &W, alloc: Global) -> Result<Served, Fail> {
    serve::<MemListReplica, W>(rt, alloc)
}

/// The requests whose answers a node's client collected.
fn collected(alloc: Global, events: &[Numbered], node: NodeId) -> Result<Vec<ReqId>, AllocError> {
    let mut all = Vec::new(alloc);
    for numbered in events {
        if let What::Collect(request) = &numbered.placed.event.what
            && numbered.placed.node == node
        {
            all.push(*request)?;
        }
    }
    Ok(all)
}

#[test]
fn a_served_run_is_run_again(rt: HostRuntime) -> Result<(), Fail> {
    let alloc = rt.alloc();
    let served = served(&rt, alloc)?;
    let again = told_again(alloc, &served.events)?;
    assert_eq!(rt; again.pieces, served.events.len());
    assert_eq!(rt; again.answers, ASKS);
    assert_eq!(rt; again.sent.as_slice(), served.sent.as_slice());
    assert_eq!(rt; again.shown.as_slice(), served.shown.as_slice());
    for requests in &again.requests {
        let node = requests.first().ok_or("a request")?.node;
        assert_eq!(rt; requests, &collected(alloc, &served.events, node)?);
    }
    Ok(())
}

/// The places of the first node's requests.
fn asks_at(alloc: Global, events: &[Numbered]) -> Result<Vec<usize>, AllocError> {
    let mut places = Vec::new(alloc);
    for (place, numbered) in events.iter().enumerate() {
        let is_first = numbered.placed.node == NodeId::FIRST;
        if is_first && matches!(numbered.placed.event.what, What::Client(_)) {
            places.push(place)?;
        }
    }
    Ok(places)
}

fn is_delivery(numbered: &Numbered) -> bool {
    matches!(numbered.placed.event.what, What::Deliver(_))
}

fn first_delivery(events: &[Numbered]) -> Option<usize> {
    events.iter().position(|numbered| is_delivery(numbered))
}

fn exchange(events: &mut [Numbered], one: usize, other: usize) {
    if one < events.len() && other < events.len() {
        events.swap(one, other);
    }
}

fn move_event(events: &mut Vec<Numbered>, from: usize, upto: usize) -> Result<(), AllocError> {
    if from < events.len() && upto < events.len() {
        let event = events.remove(from);
        events.insert(upto, event)?;
    }
    Ok(())
}

fn leave_out(events: &mut Vec<Numbered>, place: usize) {
    if place < events.len() {
        drop(events.remove(place));
    }
}

// The clients are told otherwise where a node is asked for its second request first, where a message comes before the step that sent
// it, and where a request is left out.
#[test]
fn other_orders_are_told_otherwise(rt: HostRuntime) -> Result<(), Fail> {
    let alloc = rt.alloc();
    let Served { events, sent, .. } = served(&rt, alloc)?;
    let mut events = events;
    let asks = asks_at(alloc, &events)?;
    let (first, second) = (
        *asks.first().ok_or("an ask")?,
        *asks.get(1).ok_or("another")?,
    );
    exchange(&mut events, first, second);
    assert_ne!(rt;
        told_again(alloc, &events)?.sent.as_slice(),
        sent.as_slice()
    );
    exchange(&mut events, first, second);
    assert_eq!(rt;
        told_again(alloc, &events)?.sent.as_slice(),
        sent.as_slice()
    );
    let delivery = first_delivery(&events).ok_or("a delivery")?;
    move_event(&mut events, delivery, 0)?;
    assert_ne!(rt;
        told_again(alloc, &events)?.sent.as_slice(),
        sent.as_slice()
    );
    move_event(&mut events, 0, delivery)?;
    leave_out(&mut events, first);
    assert_ne!(rt;
        told_again(alloc, &events)?.sent.as_slice(),
        sent.as_slice()
    );
    Ok(())
}
