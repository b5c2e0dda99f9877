//! The laws of what an acceptor does of one partition, over all of its runs.

ghost use Rattle.paxos_acceptor.specs.Acceptor.{fresh_row};
ghost use Rattle.paxos_acceptor.specs.Laws.{AcceptedIsNotRefused, AcceptedWasTaken, CommitsAreKept, CommitsRise, IsInOrder, NothingBelowIsTaken, PreparesAreSteps, PromisesAreKept, PromisesRise, PromisesTell, RefusedIsNotAccepted, RepeatedWasTaken, RepeatsAreAccepted, RowsStayInOrder, TakenIsKept, VotesAreDetermined, VotesAreDue, VotesAreSteps};
ghost use Rattle.paxos_acceptor.specs.Worked.{RunIsLawful};

/// An answer to a proposal has its cause, and no two answers have their cause at once.
pub fn votes_have_causes()
    ensures due { VotesAreDue }
    ensures determined { VotesAreDetermined }
{}

/// Each ballot and each proposal that comes makes one of the steps.
pub fn messages_make_steps()
    ensures prepares { PreparesAreSteps }
    ensures votes { VotesAreSteps }
{}

/// A run that is worked out by hand is one of those that the laws speak of.
pub fn worked_run_is_lawful()
    ensures { RunIsLawful }
{}

/// A row has a place for each of seven proposers, and its promise is at least each ballot that it accepted.
pub fn rows_stay_in_order()
    ensures fresh { IsInOrder fresh_row }
    ensures stay { RowsStayInOrder }
{}

/// A promise never falls, and is at least each ballot that was promised or accepted.
pub fn promises_rise()
    ensures rise { PromisesRise }
    ensures kept { PromisesAreKept }
{}

/// Nothing is accepted below a ballot that was promised or accepted before.
pub fn nothing_below_a_promise_is_taken()
    ensures { NothingBelowIsTaken }
{}

/// A promise tells of the highest ballot below it that is ever accepted.
pub fn promises_tell_what_was_taken()
    ensures { PromisesTell }
{}

/// What was accepted is kept, for its proposer and as the accepted update, until a higher ballot is accepted; and a proposal
/// that is kept for its proposer is answered as accepted whenever it comes again.
pub fn taken_is_kept()
    ensures kept { TakenIsKept }
    ensures repeats { RepeatsAreAccepted }
{}

/// What a row has was accepted or committed, and what is answered as accepted again was accepted.
pub fn accepted_was_taken()
    ensures rows { AcceptedWasTaken }
    ensures repeats { RepeatedWasTaken }
{}

/// A proposal that is refused was not accepted before, and is not accepted later.
pub fn refused_is_not_accepted()
    ensures { RefusedIsNotAccepted }
{}

/// A proposal that is accepted was not refused before, and is not refused later.
pub fn accepted_is_not_refused()
    ensures { AcceptedIsNotRefused }
{}

/// The ballot of the commit never falls, and is at least that of each commit that came.
pub fn commits_rise()
    ensures rise { CommitsRise }
    ensures kept { CommitsAreKept }
{}
