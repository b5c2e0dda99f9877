//! What is so of each connection, which each call of a function of this module gives to its caller.

ghost use Rattle.session_v4.specs.Laws.{FewKept, KeyspaceIsTold, NothingBefore, NothingUnknown, SameAsked, StartsOnce, StaysOpen};
ghost use Rattle.session_v4.specs.PageLaws.{PagesBegin, PagesGoOn};

/// A STARTUP is answered with READY once.
pub fn connections_start_once()
    ensures { StartsOnce }
{}

/// No node is asked before STARTUP was answered with READY.
pub fn nothing_is_asked_before_startup()
    ensures { NothingBefore }
{}

/// No node is asked for an EXECUTE of an id that no kept statement has.
pub fn nothing_unknown_is_asked()
    ensures { NothingUnknown }
{}

/// Another keyspace is in use only where the client is told so.
pub fn keyspaces_are_told()
    ensures { KeyspaceIsTold }
{}

/// At most 1,024 statements are kept.
pub fn few_statements_are_kept()
    ensures { FewKept }
{}

/// An EXECUTE of a statement that was just prepared comes to what a QUERY of its text comes to with the same values.
pub fn prepared_statements_ask_the_same()
    ensures { SameAsked }
{}

/// The page behind a row has the rows of the query that stand behind that row, and no others.
pub fn pages_begin_behind_a_row()
    ensures { PagesBegin }
{}

/// The pages of a read, one after another, show each row of the unpaged read once.
pub fn pages_go_on()
    ensures { PagesGoOn }
{}

/// A frame leaves its connection open: bytes that are no frames alone close it.
pub fn frames_leave_connections_open()
    ensures { StaysOpen }
{}
