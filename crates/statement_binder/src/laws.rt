//! What is so of all answers, which each call of a function of this module gives to its caller.

ghost use Rattle.statement_binder.specs.Laws.{LastingRefusalsHold, LowestIsTold, PreparingTellsLowest};

use mutation_drafts::kept_are_one;

/// Where a statement is refused, that refusal holds, and none that stands before it in [`Fault`](statement_plan::Fault) does; where
/// it has a plan, none holds.
pub fn lowest_is_told()
    ensures { LowestIsTold }
{
    kept_are_one();
}

/// [`prepare`](crate::prepare) tells the lowest of the refusals that hold for all values alike.
pub fn preparing_tells_lowest()
    ensures { PreparingTellsLowest }
{}

/// What is refused so is refused with all values.
pub fn lasting_refusals_hold()
    ensures { LastingRefusalsHold }
{}
