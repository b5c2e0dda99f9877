//! Passes that step in turn, and what stands under their numbers.

ghost use Rattle.std.specs.Prelude.{◌≡◌, ◌+◌, ◌^◌, ◌<◌, ◌≤◌, map, IfOk};
ghost use Rattle.std.specs.List.{All, AllByRecursion, AllZip};
ghost use Rattle.node_lock.specs.Passes.{IsPassOf, view_of};
ghost use Rattle.node_lock.specs.Stepped.{IsSamePass};
ghost use Rattle.served_seats.specs.Seats.{IsOwn};

use crate::{Seats, close, open};
use node_lock::{History, NodeLock, Pass, Stepper};
use std::alloc::{AllocError, Global};
use std::sync::Wait;
use std::test::Fail;

// A state that adds, and what its history keeps: what was added, and the total after it.
#[derive(Clone, Copy, Debug, PartialEq, Eq)]
struct Adder {
    total: u64,
}

#[derive(Clone, Copy, Debug, PartialEq, Eq)]
struct Added {
    amount: u32,
    total: u64,
}

impl Stepper for Adder {
    type Event = u32;

    type Reply = u64;

    type Entry = Added;

    ghost event_of = { λ added. added.amount };

    ghost reply_of = { λ added. added.total };

    ghost steps = { λ before added after. (after.total ≡ before.total + added.amount) × (added.total ≡ after.total) };

    ghost refuses = { λ state amount back. (back ≡ amount) × (2 ^ 64 ≤ state.total + amount) };

    fn step(&mut self, amount: u32) -> Result<(Added, u64), u32> {
        let Some(total) = self.total.checked_add(u64::from(amount)) else {
            return Err(amount);
        };
        self.total = total;
        Ok((Added { amount, total }, total))
    }
}

// Adds the number of the pass, and so much more.
fn add_one<R: Wait>(rt: &R, lock: &NodeLock<Adder>, pass: Pass<Adder>, more: u32) -> Pass<Adder>
    requires { IsPassOf lock.now pass }
    ensures lock { IsPassOf lock.now result }
    ensures same { IsSamePass (view_of pass) (view_of result) }
    ensures own { IsOwn (view_of pass) → IsOwn (view_of result) }
{
    let mut pass = pass;
    let amount = pass.number().wrapping_add(more);
    let _ = lock.step(rt, &mut pass, amount);
    pass
}

// The same by each of the passes, in order.
fn add_each<R: Wait>(
    rt: &R,
    alloc: Global,
    lock: &NodeLock<Adder>,
    passes: Vec<Pass<Adder>>,
    more: u32,
) -> Result<Vec<Pass<Adder>>, AllocError>
    requires { All (IsPassOf lock.now) passes.items }
    ensures lock { IfOk result (λ stepped. All (IsPassOf lock.now) stepped.items) }
    ensures same { IfOk result (λ stepped. AllZip IsSamePass (map view_of passes.items) (map view_of stepped.items)) }
    ensures own { AllByRecursion IsOwn (map view_of passes.items) → IfOk result (λ stepped. AllByRecursion IsOwn (map view_of stepped.items)) }
{
    let mut stepped = Vec::new(alloc);
    for pass in passes {
        stepped.push(add_one(rt, lock, pass, more))?;
    }
    Ok(stepped)
}

// The state and the history after two rounds.
fn add_in_rounds<R: Wait>(
    rt: &R,
    alloc: Global,
    others: u32,
) -> Result<(Adder, History<Added>), AllocError>
    requires { others + 1 < 2 ^ 32 }
{
    let seats = open(alloc, Adder { total: 0 }, others)?;
    let Seats {
        lock,
        first,
        others,
    } = seats;
    let first = add_one(rt, &lock, first, 100);
    let others = add_each(rt, alloc, &lock, others, 100)?;
    let first = add_one(rt, &lock, first, 200);
    let others = add_each(rt, alloc, &lock, others, 200)?;
    Ok(close(lock, first, others))
}

#[test]
fn each_number_has_the_entries_of_its_pass(rt: HostRuntime) -> Result<(), Fail> {
    let (state, history) = add_in_rounds(&rt, rt.alloc(), 19)?;
    assert_eq!(rt; state.total, 2 * 190 + 20 * 300);
    let entries = history.into_vec();
    assert_eq!(rt; entries.len(), 40);
    for (place, (number, added)) in entries.iter().enumerate() {
        let round = if place < 20 { 100 } else { 200 };
        assert_eq!(rt; *number as usize, place % 20);
        assert_eq!(rt; added.amount as usize, place % 20 + round);
    }
    Ok(())
}

#[test]
fn passes_stand_by_number(rt: HostRuntime) -> Result<(), Fail> {
    for others in [0u32, 1, 2, 19] {
        let seats = open(rt.alloc(), Adder { total: 7 }, others)?;
        assert_eq!(rt; seats.first.number(), 0);
        let numbers: Vec<u32> = seats
            .others
            .as_slice()
            .iter()
            .map(|pass| pass.number())
            .collect(rt.alloc())?;
        let want: Vec<u32> = (1..others + 1).collect(rt.alloc())?;
        assert_eq!(rt; numbers.as_slice(), want.as_slice());
        let (state, history) = close(seats.lock, seats.first, seats.others);
        assert_eq!(rt; (state.total, history.as_slice().len()), (7, 0));
    }
    Ok(())
}
