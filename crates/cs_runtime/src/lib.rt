//! What a served run stands on beside its streams and doors: the clock of its nodes, the flag at which it stops, and the
//! threads that do its work.
#![tactic(auto)]

mod begun;
mod clock;
mod flag;
mod job;
mod spawner;
mod starts;

pub use clock::{Clock, SetClock, SysClock};
pub use flag::FlagStop;
pub use job::{Job, NotRun};
pub use spawner::{ListSpawner, Spawner, ThreadSpawner};

#[cfg(test)]
mod tests;
