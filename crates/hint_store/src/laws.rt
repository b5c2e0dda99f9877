//! Laws of hints that are the same, in whatever order the peers stand.

ghost use Rattle.hint_store.specs.Laws.{IsReflexive, IsSymmetric, IsTransitive, AskTheSame, StayTheSame, FirstAreKept};

/// To be the same hints is an equivalence.
pub fn same_hints_are_an_equivalence()
    ensures reflexive { IsReflexive }
    ensures symmetric { IsSymmetric }
    ensures transitive { IsTransitive }
{}

/// What is asked of the same hints is the same, and what is done to them makes the same.
pub fn same_hints_stay_the_same()
    ensures ask { AskTheSame }
    ensures stay { StayTheSame }
    ensures first { FirstAreKept }
{}
