//! What is so of all drafts, which each call of a function of this module gives to its caller.

ghost use Rattle.mutation_drafts.specs.Laws.{KeptAreOne};

/// What is kept of drafts is one list.
pub fn kept_are_one()
    ensures { KeptAreOne }
{}
