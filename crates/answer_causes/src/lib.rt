//! Why clients are told what they are told, over every run of a cluster.
#![tactic(auto)]

ghost use Rattle.answer_causes.specs.Laws.{EachRequestIsAnsweredOnce, TimeoutsComeAtDeadlines, ReplicasAnswerAtOnce, HintsLeaveByAcknowledgementOrAge, MarksSendHints, RequestsSeeMarks, TimeoutsTellNumbers, RefusalsHaveCauses, AcknowledgementsSendHints, HintsGoOutByThese, AnswersAreRight};

/// A request is answered once at most, and never one that a stop or a load forgot.
pub fn each_request_is_answered_once()
    ensures { EachRequestIsAnsweredOnce }
{}

/// A request without an answer is told so exactly at the first step whose time reached its deadline.
pub fn timeouts_come_at_deadlines()
    ensures { TimeoutsComeAtDeadlines }
{}

/// What is asked of a replica is answered in the event in which it comes.
pub fn replicas_answer_at_once()
    ensures { ReplicasAnswerAtOnce }
{}

/// A hint is gone once it is acknowledged or too old, and not before; and its number is never given again.
pub fn hints_leave_by_acknowledgement_or_age()
    ensures { HintsLeaveByAcknowledgementOrAge }
{}

/// The event that marks a node up sends it the first of its hints.
pub fn marks_send_hints()
    ensures { MarksSendHints }
{}

/// A request sees the marks that its node was given since it was last loaded.
pub fn requests_see_marks()
    ensures { RequestsSeeMarks }
{}

/// A write is told of a write's timeout and a read of a read's, with how many distinct replicas were heard of and how many its
/// level waits for; a read to which so many have replied is told how many have the merge of their replies. Who waits on has too few.
pub fn timeouts_tell_numbers()
    ensures { TimeoutsTellNumbers }
{}

/// A write or a read is refused in the event in which it comes exactly where 1,024 requests wait at its node, or too few
/// replicas are alive by the marks that the node was given.
pub fn refusals_have_causes()
    ensures { RefusalsHaveCauses }
{}

/// The event in which a peer acknowledges the last of the hints that were sent to it together sends it the next ones.
pub fn acknowledgements_send_hints()
    ensures { AcknowledgementsSendHints }
{}

/// A hint goes out by nothing but a mark up and the last acknowledgement.
pub fn hints_go_out_by_these()
    ensures { HintsGoOutByThese }
{}

/// In each run, clients are told what they are told for its cause.
pub fn answers_are_right()
    ensures { AnswersAreRight }
{}
