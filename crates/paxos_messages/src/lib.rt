//! Conditional operations as they are seen from outside: what their coordinators and the replicas of their partition send
//! each other, what a chronicle has of them, and what one move of a coordinator gives. After Lamport, "Paxos Made Simple", with
//! one instance for each partition, and Apache Cassandra's documentation of lightweight transactions.
#![tactic(auto)]

mod entry;
mod message;
mod outcome;

pub use entry::{
    PaxosEntry, PaxosGrounds, PaxosNote, PaxosNotes, PaxosPhase, PaxosTimeout, Reply, Telling,
};
pub use message::PaxosMessage;
pub use outcome::{PaxosMove, PaxosSend, PaxosSends};
