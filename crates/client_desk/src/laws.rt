//! What is so of each desk.

ghost use Rattle.client_desk.specs.Laws.{CallsGoOn, AnswersStay};

/// A call leaves what was submitted in its place, and each answer that was given with its request.
pub fn calls_go_on()
    ensures { CallsGoOn }
{}

/// What is so after one call is so after many.
pub fn answers_stay()
    ensures { AnswersStay }
{}
