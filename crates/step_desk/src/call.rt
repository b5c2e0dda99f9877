//! What was submitted and answered.

ghost use Rattle.std.specs.Prelude.{◌≡◌, [], ◌∷◌};

use client_desk::Answer;
use cs_base::ReqId;
use http_server::Log;
use peer_messages::Ask;

/// What a call submitted, how it was named, and what was answered, for proofs alone: but for the name it takes no memory.
#[derive(Drop)]
pub(crate) struct Call {
    pub ask: Log<Ask, ()>,
    pub request: Option<ReqId>,
    pub answer: Log<Answer, ()>,
}

impl Call {
    ghost use Rattle.step_desk.specs.Desks.{IsNamedSo};

    /// A request that was submitted, with what came of it.
    pub fn submission(ask: Log<Ask, ()>, named: &Result<ReqId, Answer>) -> Call
        ensures ask { result.ask.items ≡ ask.items }
        ensures named { IsNamedSo result.request result.answer.items named.now }
    {
        match named {
            Ok(request) => Call {
                ask,
                request: Some(*request),
                answer: Log::new(),
            },
            Err(answer) => Call {
                ask,
                request: None,
                answer: Log::new().and(answer, &()),
            },
        }
    }

    /// An answer that was given to the last request.
    pub fn answer(answer: &Answer) -> Call
        ensures ask { result.ask.items ≡ [] }
        ensures answer { result.answer.items ≡ (answer.now, tt) ∷ [] }
    {
        Call {
            ask: Log::new(),
            request: None,
            answer: Log::new().and(answer, &()),
        }
    }
}
