//! Repairs of ranges as they are seen from outside: what their coordinators and the replicas of a range send each other, what
//! one move of a coordinator gives, and what is told of a repair. After Cassandra's documentation, "Repair".
#![tactic(auto)]

mod answer;
mod message;
mod outcome;

pub use answer::RepairAnswer;
pub use message::{Mutations, Part, Parts, RepairMessage};
pub use outcome::{RepairMove, RepairSend, RepairSends};
