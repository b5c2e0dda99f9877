//! Conditional operations on a single copy of a partition: what one is told there, and what the copy becomes. So a history of
//! operations, one after another, has one reply for each. And what a content of changes is as such a copy.
#![tactic(auto)]

ghost use Rattle.single_copy.specs.Laws.{ContentsHaveMaps, MapsAreOne, MapsShowRow, MapsShowRows, StepsAreOne};
ghost use Rattle.single_copy.specs.Example.{ARowIsInsertedOnce};

/// Each content is one single copy, and what is shown of it is what the copy has: the rows of a query, and one row.
pub fn contents_are_copies()
    ensures map { ContentsHaveMaps }
    ensures one { MapsAreOne }
    ensures rows { MapsShowRows }
    ensures row { MapsShowRow }
{}

/// An operation on a single copy is told one reply, and leaves one copy.
pub fn a_copy_answers_in_one_way()
    ensures { StepsAreOne }
{}

/// An example: of two INSERTs of a row IF NOT EXISTS the first is applied and the second is told the row, as a read is; a
/// DELETE IF EXISTS then takes it away.
pub fn a_row_is_inserted_once()
    ensures { ARowIsInsertedOnce }
{}
