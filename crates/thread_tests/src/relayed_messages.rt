//! Messages between threads, and those that a locked state puts into a link.

ghost use Rattle.std.specs.Prelude.{◌≡◌, ◌++◌, ◌<◌, IfOk, IfSome};
ghost use Rattle.node_links.specs.Ends.{taken_by, known_to, IsSameSender, IsSameReceiver};
ghost use Rattle.node_links.specs.Links.{IsFresh};
ghost use Rattle.node_lock.specs.Passes.{IsPassOf, view_of};
ghost use Rattle.node_relay.specs.Relaying.{all_kept};

use node_links::{Link, Receiver, Sender, links};
use node_lock::{History, NodeLock, Pass};
use node_relay::{Relay, Sent, settle};
use std::alloc::{AllocError, Global};
use std::sync::Wait;
use std::test::Fail;
use std::thread::{self, Threads, join};

// A link between two nodes.
fn one_link(alloc: Global) -> Option<Link<u32>>
    ensures { IfSome result IsFresh }
{
    let Ok(all) = links(alloc, 2) else {
        return None;
    };
    let mut all = all.into_vec();
    all.pop()
}

// Puts the numbers, and gives back those that came back.
fn put_numbers(
    alloc: Global,
    sender: Sender<u32>,
    from: u32,
    to: u32,
) -> (Sender<u32>, Result<Vec<u32>, AllocError>)
    ensures { IsSameSender sender result.0 }
{
    let mut sender = sender;
    let mut lost = Vec::new(alloc);
    for number in from..to {
        if let Some(back) = sender.put(number)
            && lost.push(back).is_err()
        {
            return (sender, Err(AllocError));
        }
    }
    (sender, Ok(lost))
}

// Looks so many times for a message.
fn take_some(
    alloc: Global,
    receiver: Receiver<u32>,
    looks: u32,
) -> (Receiver<u32>, Result<Vec<u32>, AllocError>)
    ensures { IsSameReceiver receiver result.0 }
{
    let mut receiver = receiver;
    let mut taken = Vec::new(alloc);
    for _ in 0..looks {
        match receiver.take() {
            Some(message) => {
                if taken.push(message).is_err() {
                    return (receiver, Err(AllocError));
                }
            }
            None => thread::yield_now(),
        }
    }
    (receiver, Ok(taken))
}

// The numbers that were lost and those that were taken, each in order, where one thread puts so many numbers and another
// takes.
fn carry<R: Threads + Sync>(
    rt: &R,
    alloc: Global,
    link: Link<u32>,
    count: u32,
) -> Result<(Vec<u32>, Vec<u32>), AllocError>
    requires { IsFresh link }
{
    let Link {
        from: _,
        to: _,
        sender,
        receiver,
    } = link;
    // more than the link holds, before any is taken
    let (sender, lost) = put_numbers(alloc, sender, 0, 5_000);
    let mut lost = lost?;
    let ((sender, more), (receiver, taken)) = join(
        rt,
        move || -> (Sender<u32>, Result<Vec<u32>, AllocError>)
            ensures { IsSameSender sender result.0 }
        { put_numbers(alloc, sender, 5_000, count) },
        move || -> (Receiver<u32>, Result<Vec<u32>, AllocError>)
            ensures { IsSameReceiver receiver result.0 }
        { take_some(alloc, receiver, count) },
    );
    let mut sender = sender;
    let mut receiver = receiver;
    receiver.finish(&mut sender);
    let (_, rest) = take_some(alloc, receiver, 5_000);
    lost.extend_from_slice(more?.as_slice())?;
    let mut taken = taken?;
    taken.extend_from_slice(rest?.as_slice())?;
    Ok((lost, taken))
}

// Whether each number below `count` stands next in one of the two lists, and none is left over.
fn are_split(count: u32, lost: &[u32], taken: &[u32]) -> bool {
    let mut lost = lost;
    let mut taken = taken;
    for number in 0..count {
        match (lost.split_first(), taken.split_first()) {
            (Some((first, rest)), _) if *first == number => lost = rest,
            (_, Some((first, rest))) if *first == number => taken = rest,
            _ => return false,
        }
    }
    lost.is_empty() && taken.is_empty()
}

#[test]
fn messages_are_lost_or_come_once_in_order(rt: HostRuntime) -> Result<(), Fail> {
    let link = one_link(rt.alloc()).ok_or("memory")?;
    let (lost, taken) = carry(&rt, rt.alloc(), link, 100_000)?;
    assert!(rt; lost.len() >= 904 && taken.len() >= 4_096);
    assert!(rt; are_split(100_000, &lost, &taken));
    Ok(())
}

// Steps each message.
fn step_all<R: Wait>(
    rt: &R,
    lock: &NodeLock<Relay>,
    pass: Pass<Relay>,
    messages: u32,
) -> Pass<Relay>
    requires { IsPassOf lock.now pass }
    ensures { IsPassOf lock.now result × ((view_of result).seats ≡ (view_of pass).seats) }
{
    let mut pass = pass;
    for message in 0..messages {
        let _ = lock.step(rt, &mut pass, message);
    }
    pass
}

// One thread steps messages, and another takes them. What was taken and is still in the link is what the history kept.
fn relay_all<R: Threads + Wait + Sync>(
    rt: &R,
    alloc: Global,
    link: Link<u32>,
    messages: u32,
    looks: u32,
) -> Result<(History<Sent>, Receiver<u32>, Vec<u32>), AllocError>
    requires { IsFresh link }
    ensures { IfOk result (λ r. taken_by r.1 ++ known_to r.1 ≡ all_kept r.0) }
{
    let Link {
        from: _,
        to: _,
        sender,
        receiver,
    } = link;
    let (lock, pass) = NodeLock::new(alloc, Relay { sender }, 1)?;
    let shared = &lock;
    let (pass, (receiver, taken)) = join(
        rt,
        move || -> Pass<Relay>
            requires { IsPassOf shared.now pass }
            ensures { IsPassOf shared.entry.now result × ((view_of result).seats ≡ (view_of pass).seats) }
        { step_all(rt, shared, pass, messages) },
        move || -> (Receiver<u32>, Result<Vec<u32>, AllocError>)
            ensures { IsSameReceiver receiver result.0 }
        { take_some(alloc, receiver, looks) },
    );
    let mut receiver = receiver;
    let (_, history) = settle(lock, pass, &mut receiver);
    Ok((history, receiver, taken?))
}

#[test]
fn a_history_tells_what_its_link_carries(rt: HostRuntime) -> Result<(), Fail> {
    let link = one_link(rt.alloc()).ok_or("memory")?;
    let (history, receiver, mut taken) = relay_all(&rt, rt.alloc(), link, 20_000, 10_000)?;
    let (_, rest) = take_some(rt.alloc(), receiver, 5_000);
    taken.extend_from_slice(rest?.as_slice())?;
    let kept: Vec<u32> = history
        .as_slice()
        .iter()
        .filter(|made| !made.1.lost)
        .map(|made| made.1.message)
        .collect(rt.alloc())?;
    assert_eq!(rt; history.as_slice().len(), 20_000);
    assert_eq!(rt; taken.as_slice(), kept.as_slice());
    Ok(())
}

#[test]
fn a_full_link_takes_a_message_for_each_that_is_taken(rt: HostRuntime) -> Result<(), Fail> {
    let mut link = one_link(rt.alloc()).ok_or("memory")?;
    for number in 0..4_096 {
        assert_eq!(rt; link.sender.put(number), None);
    }
    assert_eq!(rt; link.sender.put(7), Some(7));
    assert_eq!(rt; link.receiver.take(), Some(0));
    assert_eq!(rt; link.sender.put(8), None);
    assert_eq!(rt; link.sender.put(9), Some(9));
    assert_eq!(rt; link.receiver.take(), Some(1));
    Ok(())
}

#[test]
fn links_stand_in_the_order_of_their_nodes(rt: HostRuntime) -> Result<(), Fail> {
    let all = links::<u32>(rt.alloc(), 3)?;
    let ends: Vec<(u8, u8)> = all
        .as_slice()
        .iter()
        .map(|link| (link.from.number(), link.to.number()))
        .collect(rt.alloc())?;
    let want = [(0, 1), (0, 2), (1, 0), (1, 2), (2, 0), (2, 1)];
    assert_eq!(rt; ends.as_slice(), want.as_slice());
    Ok(())
}
