//! What the coordinator of a conditional operation does, as a relation between the operation before a move and behind it: its
//! ballots, what it makes of promises, acceptances, refusals and acknowledgements, when it tries again, and what it tells. The
//! definitions are in specs/, and the crates of a coordinator cite them in their contracts.
//! After Lamport, "Paxos Made Simple", and Apache Cassandra's documentation of lightweight transactions.
#![tactic(auto)]

mod laws;
mod operation;

pub use laws::{ballots_are_least, ballots_rise, retries_are_safe, told_after_quorum, worked_rows};
pub use operation::{Context, Operation, Phase, Promised, Promises, Verdict, Votes};
