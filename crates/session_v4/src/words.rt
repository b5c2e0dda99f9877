//! What a client is told in the place of a response that has no word.

ghost use Rattle.std.specs.Prelude.{◌≡◌, ◌↔◌, IfOk, IsTrue};
ghost use Rattle.response_bodies.specs.Spelling.{Fits};
ghost use Rattle.session_v4.specs.Words.{wordless as wordless_response, HasWord};

use crate::reason::Reason;
use crate::refusals::invalid;
use frame_bodies::Response;
use std::alloc::{AllocError, Global};

/// Whether a response has a word.
#[tactic(auto, unfolding(crate::specs::Words::HasWord))]
pub(crate) fn has_word(response: &Response) -> bool
    ensures { IsTrue result ↔ HasWord response.now }
{
    response.has_word()
}

/// What a client is told in the place of a response that has no word, or whose body is too long for a frame: Invalid,
/// `NotSupported`.
pub fn wordless(alloc: Global) -> Result<Response, AllocError>
    ensures response { IfOk result (λ r. r ≡ wordless_response) }
    ensures word { IfOk result Fits }
{
    invalid(alloc, Reason::NoWord)
}
