//! What the row becomes.

ghost use Rattle.std.specs.Prelude.{◌≡◌, ◌<◌};
ghost use Rattle.paxos_acceptor.specs.declared.deciding.Vote.TheVariants.{Take};
ghost use Rattle.paxos_acceptor.specs.Acceptor.{fresh_row, vote_of};
ghost use Rattle.paxos_acceptor.specs.Steps.{Accepted, Committed, Promised, Step};

use crate::deciding::{commit, proposer};
use cs_base::Ballot;
use row_change::{PaxosRow, Stamped, Update};

/// The row of a partition of which nothing was heard.
pub fn fresh() -> PaxosRow
    ensures { result ≡ fresh_row }
{
    PaxosRow {
        promised: Ballot::new(0),
        took: [Ballot::new(0); 7],
        accepted: None,
        commit: None,
    }
}

/// Promises a ballot that is above the promise. The promise that is sent tells the row as it was before.
pub fn promise(row: &mut PaxosRow, higher: Ballot)
    requires { row.now.promised < higher }
    ensures { Step row.old (Promised higher) row.new }
{
    row.promised = higher;
}

/// Takes a proposal: the update is the accepted one, and its ballot the promise and the highest of its proposer.
pub fn take(row: &mut PaxosRow, ballot: Ballot, update: Update)
    requires { vote_of row.now ballot ≡ Take }
    ensures { Step row.old (Accepted ballot update) row.new }
{
    row.promised = ballot;
    row.took[proposer(ballot)] = ballot;
    row.accepted = Some(Stamped { ballot, update });
}

/// Keeps a commit that is newer than the one that is kept. Any other leaves the row as it was.
pub fn keep_commit(row: &mut PaxosRow, ballot: Ballot, update: Update)
    ensures { Step row.old (Committed ballot update) row.new }
{
    if commit(row, ballot) {
        row.commit = Some(Stamped { ballot, update });
    }
}
