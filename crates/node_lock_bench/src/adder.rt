//! A state that adds.

use node_lock::Stepper;

/// A step: what was added, and the total after it.
#[derive(Clone, Copy)]
pub struct Added {
    pub amount: u32,
    pub total: u64,
}

#[derive(Clone, Copy)]
pub struct Adder {
    pub total: u64,
}

impl Stepper for Adder {
    ghost use Rattle.node_lock_bench.specs.Adding.{amount_of, total_of, Adds, PassesItsEnd};

    type Event = u32;

    type Reply = u64;

    type Entry = Added;

    ghost event_of = { amount_of };

    ghost reply_of = { total_of };

    ghost steps = { Adds };

    ghost refuses = { PassesItsEnd };

    fn step(&mut self, amount: u32) -> Result<(Added, u64), u32> {
        let Some(total) = self.total.checked_add(u64::from(amount)) else {
            return Err(amount);
        };
        self.total = total;
        Ok((Added { amount, total }, total))
    }
}
