//! Tests of the clocks, the flag and the spawners.

ghost use Rattle.std.specs.Prelude.{◌≡◌, true, false};

use crate::{Clock, FlagStop, Job, ListSpawner, SetClock, Spawner, SysClock, ThreadSpawner};
use cs_base::Micros;
use cs_io::StopSign;
use std::alloc::{AllocError, Global};
use std::sync::atomic::{AtomicBool, Ordering};
use std::sync::{Barrier, Mutex, Wait};
use std::test::Fail;

#[test]
fn a_set_clock_gives_its_readings_in_order(rt: HostRuntime) -> Result<(), Fail> {
    let mut readings = Vec::new(rt.alloc());
    for reading in [3, 1, 7] {
        readings.push(Micros::new(reading))?;
    }
    assert!(rt; !readings.is_empty());
    let clock = SetClock::new(readings);
    clock.rest(u64::MAX);
    for reading in [3u64, 1, 7, 7] {
        assert_eq!(rt; clock.now().count(), reading);
    }
    Ok(())
}

#[test]
fn the_system_clock_tells_the_time(rt: HostRuntime) {
    let clock = SysClock::new(&rt);
    let first = clock.now().count();
    clock.rest(2_000);
    let year_2020 = 1_577_836_800_000_000;
    assert!(rt; first > year_2020 && clock.now().count() > year_2020);
}

#[test]
fn a_flag_that_was_up_stays_up(rt: HostRuntime) {
    let flag = AtomicBool::new(false);
    let mut stop = FlagStop::new(&flag);
    assert!(rt; !stop.raised());
    flag.store(true, Ordering::SeqCst);
    assert!(rt; stop.raised());
    flag.store(false, Ordering::SeqCst);
    assert!(rt; stop.raised());
}

// A job that meets the others at the barrier, and then counts itself.
#[derive(Drop)]
struct Meet<'a, R> {
    rt: &'a R,
    barrier: &'a Barrier,
    met: &'a Mutex<u64>,
    number: u64,
}

#[derive(Clone, Copy, Debug, PartialEq, Eq)]
struct Met {
    number: u64,
    worked: bool,
}

impl<R: Wait> Job for Meet<'_, R> {
    type Done = Met;

    ghost ends = { λ job done. done.number ≡ job.number };

    ghost works = { λ _ done. done.worked ≡ true };

    ghost unstarts = { λ _ done. done.worked ≡ false };

    fn work(self) -> Met {
        self.barrier.wait(self.rt);
        let mut met = self.met.lock(self.rt);
        *met = met.wrapping_add(1);
        Met {
            number: self.number,
            worked: true,
        }
    }

    fn unstarted(self) -> Met {
        Met {
            number: self.number,
            worked: false,
        }
    }
}

// Runs jobs of these numbers, of which so many meet with the one here. Gives what was done, and how many met.
fn run_meeting<S: Spawner, R: Wait + Sync>(
    spawner: &mut S,
    rt: &R,
    alloc: Global,
    numbers: &[u64],
    meeting: usize,
) -> Result<(Vec<Met>, u64), AllocError> {
    let barrier = Barrier::new(meeting);
    let met = Mutex::new(0);
    let mut jobs = Vec::new(alloc);
    for number in numbers {
        jobs.push(Meet {
            rt,
            barrier: &barrier,
            met: &met,
            number: *number,
        })?;
    }
    let here = Meet {
        rt,
        barrier: &barrier,
        met: &met,
        number: 0,
    };
    let Ok((dones, _)) = spawner.run(jobs, here) else {
        return Err(AllocError);
    };
    Ok((dones, met.into_inner()))
}

const fn done(number: u64, worked: bool) -> Met {
    Met { number, worked }
}

#[test]
fn jobs_run_at_once(rt: HostRuntime) -> Result<(), Fail> {
    let mut spawner = ThreadSpawner::new(&rt);
    let (dones, met) = run_meeting(&mut spawner, &rt, rt.alloc(), &[5, 4, 9], 4)?;
    assert_eq!(rt;
        dones.as_slice(),
        [done(5, true), done(4, true), done(9, true)].as_slice()
    );
    assert_eq!(rt;
        (met, spawner.faults().count(), spawner.starts()),
        (4, 0, 3)
    );
    let (dones, met) = run_meeting(&mut spawner, &rt, rt.alloc(), &[], 1)?;
    assert_eq!(rt; (dones.len(), met), (0, 1));
    Ok(())
}

#[test]
fn listed_starts_fail(rt: HostRuntime) -> Result<(), Fail> {
    let failing = Vec::from_slice(rt.alloc(), &[2, 4])?;
    let mut spawner = ListSpawner::new(&rt, failing);
    let (dones, met) = run_meeting(&mut spawner, &rt, rt.alloc(), &[1, 2, 3], 3)?;
    assert_eq!(rt;
        dones.as_slice(),
        [done(1, true), done(2, false), done(3, true)].as_slice()
    );
    assert_eq!(rt; (met, spawner.faults().count()), (3, 1));
    let (dones, met) = run_meeting(&mut spawner, &rt, rt.alloc(), &[7, 8], 2)?;
    assert_eq!(rt;
        dones.as_slice(),
        [done(7, false), done(8, true)].as_slice()
    );
    assert_eq!(rt;
        (met, spawner.faults().count(), spawner.starts()),
        (2, 2, 5)
    );
    Ok(())
}
