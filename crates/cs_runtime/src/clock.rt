//! Clocks.

ghost use Rattle.std.specs.Prelude.{◌≡◌, ℕ, ◌<◌, vec_len};

use cs_base::Micros;
use std::marker::Model;
use std::sync::atomic::{AtomicUsize, Ordering};
use std::time::{Duration, SystemTime, UNIX_EPOCH};
use std::{thread, time};

/// A clock that nodes read, and by which those wait that have nothing to do. Threads may share it.
pub trait Clock {
    /// The numbers that it gives.
    ghost gives: { Self → ℕ → Type 0 };

    /// A reading, in microseconds.
    fn now(&self) -> Micros
        ensures { gives self.now result };

    /// Waits for about so many microseconds, or not at all.
    fn rest(&self, micros: u64);
}

/// A clock whose readings are set before: it gives each once, in order, and then the last one again and again. It never
/// waits.
#[derive(Drop)]
pub struct SetClock {
    readings: Vec<Micros>,
    given: AtomicUsize,
}

impl Model for SetClock {
    ghost use Rattle.std.specs.Prelude.{ℕ, List, ◌<◌, length};

    ghost Value = { List ℕ };

    ghost view = { λ a. a.readings.items };

    ghost invariant = { λ a. 0 < length a.readings.items };
}

impl SetClock {
    pub fn new(readings: Vec<Micros>) -> SetClock
        requires { 0 < vec_len readings }
        ensures { result ≡ readings.items }
    {
        SetClock {
            readings,
            given: AtomicUsize::new(0),
        }
    }
}

impl Clock for SetClock {
    ghost use Rattle.std.specs.Prelude.{Contains};

    ghost gives = { λ readings now. Contains readings now };

    // Where threads read at once, each takes another reading.
    fn now(&self) -> Micros {
        let last = self.readings.len() - 1;
        let mut at = self.given.load(Ordering::SeqCst);
        if at < last {
            at = self.given.fetch_add(1, Ordering::SeqCst);
        }
        self.readings[at.min(last)]
    }

    fn rest(&self, _micros: u64) {}
}

/// The system's clock, from a handle of the runtime. It tells the microseconds since 1970, and 0 where the system has no
/// answer.
#[derive(Clone, Copy)]
pub struct SysClock<C> {
    runtime: C,
}

impl<C: time::Clock> SysClock<C> {
    pub fn new(runtime: C) -> SysClock<C>
        ensures { result.runtime ≡ runtime }
    {
        SysClock { runtime }
    }
}

impl<C: time::Clock> Clock for SysClock<C> {
    ghost gives = { λ _ _. Unit {0} };

    fn now(&self) -> Micros {
        let Ok(now) = SystemTime::now(&self.runtime) else {
            return Micros::new(0);
        };
        let Ok(since) = now.duration_since(UNIX_EPOCH) else {
            return Micros::new(0);
        };
        let seconds = since.as_secs().saturating_mul(1_000_000);
        Micros::new(seconds.saturating_add(u64::from(since.subsec_micros())))
    }

    fn rest(&self, micros: u64) {
        thread::sleep(&self.runtime, Duration::from_micros(micros));
    }
}
