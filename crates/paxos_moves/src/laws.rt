//! Laws of the moves of an operation.

ghost use Rattle.paxos_moves.specs.Laws.{BallotsAreLeast, BallotsRise, RetriesAreSafe, ToldAfterQuorum};
ghost use Rattle.paxos_moves.specs.Worked.{Ballots, Moments, Newest, Missing, OlderFirst, NotBelowTheCommit};

/// A new ballot is the least number above node time that is congruent to the node's number modulo 8.
pub fn ballots_are_least()
    ensures { BallotsAreLeast }
{}

/// Each ballot that an operation makes is above node time, above those that it made before, and its node's own.
pub fn ballots_rise()
    ensures { BallotsRise }
{}

/// An operation starts over after a proposal of its own only where every replica to which that went has refused it.
pub fn retries_are_safe()
    ensures { RetriesAreSafe }
{}

/// An operation is answered only once a quorum has promised its ballot and accepted its update, and one that was applied only
/// once as many replicas have taken its commit as its level waits for.
pub fn told_after_quorum()
    ensures { ToldAfterQuorum }
{}

/// The definitions at a few rows.
pub fn worked_rows()
    ensures ballots { Ballots }
    ensures moments { Moments }
    ensures newest { Newest }
    ensures missing { Missing }
    ensures older_first { OlderFirst }
    ensures not_below { NotBelowTheCommit }
{}
