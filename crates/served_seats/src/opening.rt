//! How the lock and its passes are made.

ghost use Rattle.std.specs.Prelude.{◌≡◌, ◌+◌, ◌^◌, ◌<◌, ◌≤◌, [], map, vec_capacity, IfOk};
ghost use Rattle.std.specs.List.{All};
ghost use Rattle.node_lock.specs.Passes.{IsPassOf, view_of, start_of, seats_of};
ghost use Rattle.served_seats.specs.Seats.{fresh, fresh_from, ranging};

use node_lock::{NodeLock, Pass, Stepper};
use std::alloc::{AllocError, Global};

/// A lock, and the passes of those who step its state.
#[derive(Drop)]
pub struct Seats<N: Stepper> {
    pub lock: NodeLock<N>,
    /// The pass of number 0.
    pub first: Pass<N>,
    /// The passes of the numbers from 1 on, in order.
    pub others: Vec<Pass<N>>,
}

/// The lock of a state, with a pass of number 0 and so many others, of the numbers from 1 on.
pub fn open<N: Stepper>(alloc: Global, state: N, others: u32) -> Result<Seats<N>, AllocError>
    requires few { others + 1 < 2 ^ 32 }
    ensures lock { IfOk result (λ s. (start_of s.lock ≡ state) × (seats_of s.lock ≡ others + 1)) }
    ensures first { IfOk result (λ s. IsPassOf s.lock s.first × (view_of s.first ≡ fresh 0)) }
    ensures others { IfOk result (λ s. All (IsPassOf s.lock) s.others.items × (map view_of s.others.items ≡ fresh_from 1 others)) }
{
    let room = Vec::with_capacity(alloc, others as usize)?;
    let (lock, mut first) = NodeLock::new(alloc, state, others + 1)?;
    match lock.split(&mut first, others) {
        Some(rest) => {
            let others = hand_out(&lock, rest, others, room);
            Ok(Seats {
                lock,
                first,
                others,
            })
        }
        None => Ok(Seats {
            lock,
            first,
            others: room,
        }),
    }
}

/// Parts a pass that owns so many numbers from 1 on into as many passes, which fill the room.
fn hand_out<N: Stepper>(
    lock: &NodeLock<N>,
    rest: Pass<N>,
    count: u32,
    room: Vec<Pass<N>>,
) -> Vec<Pass<N>>
    requires pass { IsPassOf lock.now rest × (view_of rest ≡ ranging 1 count) }
    requires some { 0 < count }
    requires room { (room.items ≡ []) × (count ≤ vec_capacity room) }
    ensures passes { All (IsPassOf lock.now) result.items }
    ensures fresh { map view_of result.items ≡ fresh_from 1 count }
{
    let mut passes = room;
    let mut last = rest;
    for number in 1..count {
        let next = part_from(lock, &mut last, count - number);
        passes.push_reserved(last);
        last = next;
    }
    passes.push_reserved(last);
    passes
}

/// Leaves the pass its own number, and gives the others over.
fn part_from<N: Stepper>(lock: &NodeLock<N>, pass: &mut Pass<N>, others: u32) -> Pass<N>
    requires lock { IsPassOf lock.now pass.old }
    requires others { (number : _) × (view_of pass.old ≡ ranging number (others + 1)) × (0 < others) }
    ensures lock { IsPassOf lock.now pass.new × IsPassOf lock.now result }
    ensures kept { view_of pass.new ≡ fresh (view_of pass.old).number }
    ensures given { view_of result ≡ ranging ((view_of pass.old).number + 1) others }
{
    lock.split(pass, others).unwrap()
}
