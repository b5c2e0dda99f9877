//! Steps by several threads at once under one lock, and what its history keeps of them.

ghost use Rattle.std.specs.Prelude.{◌≡◌, ◌+◌, ◌^◌, ◌<◌, ◌≤◌};
ghost use Rattle.std.specs.Thread.{IsSync};
ghost use Rattle.node_lock.specs.Passes.{IsPassOf, view_of};

use node_lock::{History, LockRefused, NodeLock, Pass, Receipt, Stepper};
use std::alloc::{AllocError, Global};
use std::sync::Wait;
use std::test::Fail;
use std::thread::{Threads, join};

// A state that adds, and what its history keeps: what was added, and the total after it.
#[derive(Clone, Copy, Debug, PartialEq, Eq)]
struct Adder {
    total: u64,
}

#[derive(Clone, Copy, Debug, PartialEq, Eq)]
struct Added {
    amount: u32,
    total: u64,
}

impl Stepper for Adder {
    type Event = u32;

    type Reply = u64;

    type Entry = Added;

    ghost event_of = { λ added. added.amount };

    ghost reply_of = { λ added. added.total };

    ghost steps = { λ before added after. (after.total ≡ before.total + added.amount) × (added.total ≡ after.total) };

    ghost refuses = { λ state amount back. (back ≡ amount) × (2 ^ 64 ≤ state.total + amount) };

    fn step(&mut self, amount: u32) -> Result<(Added, u64), u32> {
        let Some(total) = self.total.checked_add(u64::from(amount)) else {
            return Err(amount);
        };
        self.total = total;
        Ok((Added { amount, total }, total))
    }
}

// Adds 0, 1, 2 and so on, so many numbers.
fn add_numbers<R: Wait>(
    rt: &R,
    lock: &NodeLock<Adder>,
    pass: Pass<Adder>,
    steps: u32,
) -> Pass<Adder>
    requires { IsPassOf lock.now pass }
    ensures { IsPassOf lock.now result × ((view_of result).seats ≡ (view_of pass).seats) }
{
    let mut pass = pass;
    for amount in 0..steps {
        let _ = lock.step(rt, &mut pass, amount);
    }
    pass
}

// The same by so many threads at once, each with a pass of its own.
fn add_by_threads<R: Threads + Wait + Sync>(
    rt: &R,
    lock: &NodeLock<Adder>,
    pass: Pass<Adder>,
    threads: u32,
    steps: u32,
) -> Pass<Adder>
    requires { IsPassOf lock.now pass }
    ensures { IsPassOf lock.now result × ((view_of result).seats ≡ (view_of pass).seats) }
{
    let mut pass = pass;
    if threads < 2 {
        return add_numbers(rt, lock, pass, steps);
    }
    let Some(other) = lock.split(&mut pass, threads / 2) else {
        return pass;
    };
    let (one, two) = join(
        rt,
        move || -> Pass<Adder>
            requires { IsSync R.row × IsPassOf lock.now pass }
            ensures { IsPassOf lock.entry.now result × ((view_of result).seats ≡ (view_of pass).seats) }
        { add_by_threads(rt, lock, pass, threads - threads / 2, steps) },
        move || -> Pass<Adder>
            requires { IsSync R.row × IsPassOf lock.now other }
            ensures { IsPassOf lock.entry.now result × ((view_of result).seats ≡ (view_of other).seats) }
        { add_by_threads(rt, lock, other, threads / 2, steps) },
    );
    let mut one = one;
    lock.join(&mut one, two);
    one
}

// The state and the history after so many steps by each of so many threads.
fn sum_up<R: Threads + Wait + Sync>(
    rt: &R,
    alloc: Global,
    threads: u32,
    steps: u32,
) -> Result<(Adder, History<Added>), AllocError>
    requires { 0 < threads }
{
    let (lock, pass) = NodeLock::new(alloc, Adder { total: 0 }, threads)?;
    let pass = add_by_threads(rt, &lock, pass, threads, steps);
    Ok(lock.close(pass))
}

// Whether each pass below 16 made its steps in order, and the totals rise by what was added.
fn is_in_order(entries: &[(u32, Added)]) -> bool {
    let mut next = [0u32; 16];
    let mut total: u64 = 0;
    for (number, added) in entries {
        let place = (*number % 16) as usize;
        total = total.wrapping_add(u64::from(added.amount));
        if added.amount != next[place] || added.total != total {
            return false;
        }
        next[place] = added.amount.wrapping_add(1);
    }
    true
}

#[test]
fn each_thread_makes_its_steps_in_order(rt: HostRuntime) -> Result<(), Fail> {
    for (threads, steps) in [(1u32, 10u32), (2, 20_000), (4, 5_000), (16, 1_000)] {
        assert!(rt; 0 < threads);
        let (state, history) = sum_up(&rt, rt.alloc(), threads, steps)?;
        let entries = history.into_vec();
        assert_eq!(rt; entries.len() as u64, u64::from(threads) * u64::from(steps));
        assert!(rt; is_in_order(&entries), "by {threads} threads");
        assert_eq!(rt; entries.last().map(|last| last.1.total), Some(state.total));
    }
    Ok(())
}

#[test]
fn a_full_history_refuses_a_step(rt: HostRuntime) -> Result<(), Fail> {
    let (lock, pass) = NodeLock::new(rt.alloc(), Adder { total: 1 }, 1)?;
    let mut pass = add_numbers(&rt, &lock, pass, 399_999);
    assert_eq!(rt; lock.step(&rt, &mut pass, 0).map(|r| r.place), Ok(399_999));
    assert_eq!(rt; lock.step(&rt, &mut pass, 7), Err(LockRefused::Full(7)));
    let (_, history) = lock.close(pass);
    assert_eq!(rt; history.as_slice().len(), 400_000);
    Ok(())
}

#[test]
fn a_state_refuses_and_passes_are_cut(rt: HostRuntime) -> Result<(), Fail> {
    let (lock, mut pass) = NodeLock::new(
        rt.alloc(),
        Adder {
            total: u64::MAX - 2,
        },
        3,
    )?;
    assert_eq!(rt; lock.step(&rt, &mut pass, 3), Err(LockRefused::Refused(3)));
    let receipt = lock.step(&rt, &mut pass, 2);
    assert_eq!(rt;
        receipt,
        Ok(Receipt {
            place: 0,
            reply: u64::MAX
        })
    );
    assert!(rt; lock.split(&mut pass, 0).is_none());
    assert!(rt; lock.split(&mut pass, 3).is_none());
    let other = lock.split(&mut pass, 2).ok_or("a pass")?;
    assert_eq!(rt; (pass.number(), other.number()), (0, 1));
    Ok(())
}

fn is_sent<T: Send + Drop>(_value: T) {}

fn is_shared<T: Sync>(_value: &T) {}

// A lock is shared and its passes are sent, where the state and the entries may be sent.
fn cross_threads<N: Stepper + Send>(lock: &NodeLock<N>, pass: Pass<N>)
where
    N::Entry: Send,
{
    is_shared(lock);
    is_sent(pass);
}
