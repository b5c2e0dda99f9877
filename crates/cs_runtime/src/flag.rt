//! A sign that another thread raises.

ghost use Rattle.std.specs.Prelude.{◌≡◌, false};

use cs_io::StopSign;
use std::sync::atomic::{AtomicBool, Ordering};

/// The sign of a flag that threads share. Once it has found the flag up it remembers that, whatever becomes of the flag.
#[derive(Drop)]
pub struct FlagStop<'a> {
    flag: &'a AtomicBool,
    was_up: bool,
}

impl<'a> FlagStop<'a> {
    pub fn new(flag: &'a AtomicBool) -> FlagStop<'a>
        ensures { result.was_up ≡ false }
    {
        FlagStop {
            flag,
            was_up: false,
        }
    }
}

impl StopSign for FlagStop<'_> {
    ghost has_answered = { λ s. s.was_up };

    fn raised(&mut self) -> bool {
        if !self.was_up {
            self.was_up = self.flag.load(Ordering::SeqCst);
        }
        self.was_up
    }
}
