//! An acceptor's part in a conditional update: what it answers to ballots and proposals of one partition, whether it keeps a
//! commit, and what its row becomes. After Lamport, "Paxos Made Simple", sections 2.2 and 2.3, and Apache Cassandra's
//! lightweight transactions, which add the commit.
//!
//! An acceptor keeps the highest ballot that it accepted of each proposer, too. So it tells a proposal that it accepted before,
//! and promised a higher ballot since, from one that it never accepted: the first is answered as accepted again, and only the
//! second is refused.
//!
//! The calls that decide take no memory, and those that change a row take what is handed to them. A row and an update are
//! copied by calls of their own.
#![tactic(auto)]

mod copies;
mod deciding;
mod laws;
mod rows;
#[cfg(test)]
mod tests;

pub use copies::{copy_row, copy_update};
pub use deciding::{Refused, Vote, accept, commit, prepare};
pub use laws::{
    accepted_is_not_refused, accepted_was_taken, commits_rise, messages_make_steps,
    nothing_below_a_promise_is_taken, promises_rise, promises_tell_what_was_taken,
    refused_is_not_accepted, rows_stay_in_order, taken_is_kept, votes_have_causes,
    worked_run_is_lawful,
};
pub use rows::{fresh, keep_commit, promise, take};
