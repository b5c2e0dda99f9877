//! Conditional updates of one partition, over every lawful history of events: replicas that promise and accept agree on one
//! sequence of operations, and clients are told what a single copy would answer in this sequence. After Lamport, "Paxos Made
//! Simple".
#![tactic(auto)]

ghost use Rattle.paxos_history.specs.Laws.{AcceptsUptoPromise, RefusesForGood, ChosenStays, AcceptedOnce, HistoriesAreSerial};
ghost use Rattle.paxos_history.specs.Example.{RacingInserts};

/// What a replica accepted is at most its promise, and what it refused it neither accepted nor ever accepts.
pub fn replicas_keep_promises()
    ensures accepted { AcceptsUptoPromise }
    ensures refused { RefusesForGood }
{}

/// What was chosen stays: a chosen ballot at or below a proposal is in the proposal's chain.
pub fn chosen_stay()
    ensures { ChosenStays }
{}

/// Of the own proposals of one request at most one is ever accepted anywhere.
pub fn operations_are_accepted_once()
    ensures { AcceptedOnce }
{}

/// The operations that a quorum accepted stand once each in one sequence, in the order of their callers, and each reply that
/// was told is what a single copy answers there.
pub fn histories_are_serial()
    ensures { HistoriesAreSerial }
{}

/// An example: two inserts of one row race, and a read follows; each is told what a single copy says. Three events that the
/// rules forbid are refused.
pub fn racing_inserts_stand_in_one_order()
    ensures { RacingInserts }
{}
