//! Laws of the moves of a repair.

ghost use Rattle.repair_moves.specs.Laws.{HeldAlikeToldAlike, RepairedOnceAllHaveIt};
ghost use Rattle.repair_moves.specs.Worked.{AnotherHasARow, AtItsDeadline, DownAtItsStart, LastOfAll, NewerIsTheMerge, NothingDiffers, OneLacksARow, Replicas};

/// Replicas that hold the same in a leaf tell the same digest of it.
pub fn held_alike_told_alike()
    ensures { HeldAlikeToldAlike }
{}

/// A repair is answered as such only once each replica of its range has told its digests, without a row of conditional
/// updates, and, where the digests of a leaf differed, what it held there; and each that lacked some of the merge has taken it.
pub fn repaired_once_all_have_it()
    ensures { RepairedOnceAllHaveIt }
{}

/// The definitions at a few rows.
pub fn worked_rows()
    ensures replicas { Replicas }
    ensures down { DownAtItsStart }
    ensures equal { NothingDiffers }
    ensures lacks { OneLacksARow }
    ensures newer { NewerIsTheMerge }
    ensures last { LastOfAll }
    ensures row { AnotherHasARow }
    ensures deadline { AtItsDeadline }
{}
