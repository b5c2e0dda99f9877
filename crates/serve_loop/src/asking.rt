//! What a desk answers.

ghost use Rattle.std.specs.Prelude.{◌≡◌, ◌⊎◌, ◌↔◌, false, IsTrue, MatchOption, Ok, None};
ghost use Rattle.peer_messages.specs.declared.chronicle.Refusal.TheVariants.{Down};
ghost use Rattle.session_v4.specs.Sessions.{state_in, Waits};
ghost use Rattle.client_desk.specs.Asks.{IsAwaited, Collects};
ghost use Rattle.serve_loop.specs.Steps.{AsksOnce, AsksAndTells, Tells};

use client_desk::{Answer, Desk};
use cs_base::ReqId;
use cs_io::StopSign;
use peer_messages::{Ask, Refusal};
use response_bodies::Response;
use session_v4::Session;
use std::alloc::AllocError;
use std::sync::Wait;

/// The answer to the last request, if there is one by now.
fn look<D: Desk>(desk: &mut D, request: &ReqId) -> Option<Answer>
    requires { IsAwaited (D.asks desk.old) request.now }
    ensures collects { Collects (D.asks desk.old) request.now result (D.asks desk.new) }
    ensures home { D.home desk.new ≡ D.home desk.old }
{
    desk.collect(*request)
}

/// Waits for the answer to the last request, until the stop sign is raised.
fn collect<R: Wait, D: Desk, Q: StopSign>(
    rt: &R,
    desk: &mut D,
    stop: &mut Q,
    request: ReqId,
) -> Option<Answer>
    requires request { IsAwaited (D.asks desk.old) request }
    requires stop { Q.has_answered stop.old ≡ false }
    ensures collects { Collects (D.asks desk.old) request result (D.asks desk.new) }
    ensures stop { MatchOption result (IsTrue (Q.has_answered stop.new)) (λ _. Q.has_answered stop.new ≡ false) }
    ensures home { D.home desk.new ≡ D.home desk.old }
{
    for _ in rt.forever() {
        if let Some(answer) = look(desk, &request) {
            return Some(answer);
        }
        if stop.raised() {
            return None;
        }
    }
    unreachable!()
}

/// Submits a request, and waits for its answer until the stop sign is raised.
fn answer_to<R: Wait, D: Desk, Q: StopSign>(
    rt: &R,
    desk: &mut D,
    stop: &mut Q,
    ask: Ask,
) -> Option<Answer>
    requires { Q.has_answered stop.old ≡ false }
    ensures asks { AsksOnce (D.asks desk.old) (D.asks desk.new) ask result }
    ensures stop { MatchOption result (IsTrue (Q.has_answered stop.new)) (λ _. Q.has_answered stop.new ≡ false) }
    ensures home { D.home desk.new ≡ D.home desk.old }
{
    match desk.submit(ask) {
        Ok(request) => collect(rt, desk, stop, request),
        Err(answer) => Some(answer),
    }
}

/// Whether the node that was asked does not run.
fn is_down(answer: &Answer) -> bool
    ensures { IsTrue result ↔ (answer.now ≡ Answer.Refused Down) }
{
    matches!(answer, Answer::Refused(Refusal::Down))
}

/// What a client is told of an answer, or None where the node does not run.
fn told(session: &mut Session, stream: i16, answer: &Answer) -> Result<Option<Response>, AllocError>
    requires { Waits (state_in session.old) stream }
    ensures { Tells (state_in session.old) answer.now result (state_in session.new) }
{
    if is_down(answer) {
        return Ok(None);
    }
    let response = session.answer(stream, answer)?;
    Ok(Some(response))
}

/// Asks a desk for a frame of this stream: what its client is told of the answer, or None where the node does not run, or the
/// stop sign is raised before there is an answer.
pub(crate) fn ask_for<R: Wait, D: Desk, Q: StopSign>(
    rt: &R,
    desk: &mut D,
    session: &mut Session,
    stop: &mut Q,
    stream: i16,
    ask: Ask,
) -> Result<Option<Response>, AllocError>
    requires session { Waits (state_in session.old) stream }
    requires stop { Q.has_answered stop.old ≡ false }
    ensures asks { AsksAndTells (D.asks desk.old) (D.asks desk.new) ask (state_in session.old) (Q.has_answered stop.new) result (state_in session.new) }
    ensures stop { (Q.has_answered stop.new ≡ false) ⊎ (result ≡ Ok None) }
    ensures home { D.home desk.new ≡ D.home desk.old }
{
    match answer_to(rt, desk, stop, ask) {
        Some(answer) => told(session, stream, &answer),
        None => Ok(None),
    }
}
