//! What is answered.

ghost use Rattle.std.specs.Prelude.{◌≡◌, ◌<◌, ◌↔◌, IsTrue, IsOk, IfErr};
ghost use Rattle.paxos_acceptor.specs.Acceptor.{ballot_of, proposer_of, vote_of};

use cs_base::Ballot;
use row_change::PaxosRow;

/// A ballot is not promised, since it is not above the promise that is kept.
#[derive(Clone, Copy, Debug, PartialEq, Eq)]
pub struct Refused {
    pub kept: Ballot,
}

/// What an acceptor does with a proposal.
#[derive(Clone, Copy, Debug, PartialEq, Eq)]
pub enum Vote {
    /// It accepts the proposal, and its row changes.
    Take,
    /// It accepted the proposal before, and answers it as accepted again.
    Again,
    /// It gives no answer: it accepted a later proposal of the same proposer, or the ballot has no proposer.
    Silent,
    /// It never accepted the proposal and never will, since it is below the promise that is kept.
    Refused(Ballot),
}

/// The number that nodes have in their ballots, which are congruent to it modulo 8. No node has the number 7.
pub(crate) fn proposer(ballot: Ballot) -> usize
    ensures { result ≡ proposer_of ballot }
{
    (ballot.number() % 8) as usize
}

/// Whether a ballot is promised: where it is above the promise.
pub fn prepare(row: &PaxosRow, ballot: Ballot) -> Result<(), Refused>
    ensures promised { IsOk result ↔ row.now.promised < ballot }
    ensures kept { IfErr result (λ refused. refused.kept ≡ row.now.promised) }
{
    if row.promised < ballot {
        Ok(())
    } else {
        Err(Refused { kept: row.promised })
    }
}

/// What is done with a proposal of this ballot.
pub fn accept(row: &PaxosRow, ballot: Ballot) -> Vote
    ensures { result ≡ vote_of row.now ballot }
{
    let proposer = proposer(ballot);
    if proposer >= row.took.len() {
        return Vote::Silent;
    }
    let taken = row.took[proposer];
    if row.promised <= ballot {
        Vote::Take
    } else if ballot == taken {
        Vote::Again
    } else if ballot < taken {
        Vote::Silent
    } else {
        Vote::Refused(row.promised)
    }
}

/// Whether a commit is newer than the one that is kept.
pub fn commit(row: &PaxosRow, ballot: Ballot) -> bool
    ensures { IsTrue result ↔ ballot_of row.now.commit < ballot }
{
    match &row.commit {
        Some(kept) => kept.ballot < ballot,
        None => ballot.number() > 0,
    }
}
