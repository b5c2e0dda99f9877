//! Threads that step an adding state under the node lock: `node_lock_bench [THREADS STEPS]`.
//!
//! It prints how many steps were made and the total. With two numbers it does so several times, each thread making that
//! many steps, and prints the nanoseconds of the fastest turn too. `bench/node_lock/plain.rs` does the same under a
//! mutex of Rust.
#![tactic(auto)]

ghost use Rattle.std.specs.Prelude.{◌+◌, ◌<◌, All, IfOk};
ghost use Rattle.node_lock.specs.Passes.{IsPassOf};

mod adder;

use adder::Adder;
use anyhow::{Result, ensure};
use node_lock::{NodeLock, Pass};
use std::alloc::{AllocError, Global};
use std::env;
use std::sync::Wait;
use std::thread::{self, Threads};
use std::time::Instant;

/// How often the steps are made where time is measured.
const TURNS: u32 = 7;

fn main(rt: HostRuntime) -> Result<()> {
    let words: Vec<String> = env::args(&rt)?.collect(rt.alloc())?;
    let threads: u32 = words.get(1).map_or("4", |word| word.as_str()).parse()?;
    let steps: u32 = words.get(2).map_or("1000", |word| word.as_str()).parse()?;
    ensure!(0 < threads && threads <= 64, "1 to 64 threads");
    let turns = if words.len() > 1 { TURNS } else { 1 };
    let mut least = u128::MAX;
    let mut made = 0;
    for _ in 0..turns {
        let (lock, pass) = NodeLock::new(rt.alloc(), Adder { total: 0 }, threads)?;
        let jobs = passes(rt.alloc(), &lock, pass, threads)?;
        let start = Instant::now(&rt)?;
        made = step_all(&rt, &lock, jobs, steps)?;
        least = least.min(start.elapsed(&rt)?.as_nanos());
    }
    println!(rt; "{made} steps by {threads} threads")?;
    if words.len() > 1 {
        println!(rt; "nanoseconds {least}")?;
    }
    Ok(())
}

/// So many passes of the lock, cut from its first one.
fn passes(
    alloc: Global,
    lock: &NodeLock<Adder>,
    first: Pass<Adder>,
    count: u32,
) -> Result<Vec<Pass<Adder>>, AllocError>
    requires { IsPassOf lock.now first }
    ensures { IfOk result (λ v. All (IsPassOf lock.now) v.items) }
{
    let mut first = first;
    let mut passes = Vec::new(alloc);
    for _ in 1..count {
        if let Some(pass) = lock.split(&mut first, 1) {
            passes.push(pass)?;
        }
    }
    passes.push(first)?;
    Ok(passes)
}

/// Makes the steps of all passes, each in a thread of its own. Answers how many were made.
fn step_all<R: Threads + Wait + Sync>(
    rt: &R,
    lock: &NodeLock<Adder>,
    passes: Vec<Pass<Adder>>,
    steps: u32,
) -> Result<u64, AllocError>
    requires { All (IsPassOf lock.now) passes.items }
{
    let made = thread::map_vec(rt, passes, &|pass| step_times(rt, lock, pass, steps))?;
    let mut sum: u64 = 0;
    for one in made {
        sum = sum.wrapping_add(one);
    }
    Ok(sum)
}

/// Makes so many steps. Answers how many were made.
fn step_times<R: Wait>(rt: &R, lock: &NodeLock<Adder>, pass: Pass<Adder>, steps: u32) -> u64
    requires { IsPassOf lock.now pass }
{
    let mut pass = pass;
    let mut made: u64 = 0;
    for _ in 0..steps {
        if let Ok(receipt) = lock.step(rt, &mut pass, 1)
            && receipt.reply > receipt.place
        {
            made = made.wrapping_add(1);
        }
    }
    made
}
