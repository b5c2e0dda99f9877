//! Reads go forward: who reads twice, at levels whose replicas must meet, never sees a row go back.
#![tactic(auto)]

ghost use Rattle.reads_forward.specs.Laws.{ReadsGoForward};

/// In each run, whatever is delivered, repeated, reordered or lost, a later read shows what an earlier one showed.
pub fn reads_go_forward()
    ensures { ReadsGoForward }
{}
