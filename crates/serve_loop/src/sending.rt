//! Responses as bytes, and how they are written.

ghost use Rattle.std.specs.Prelude.{◌≡◌, ◌<◌, ◌≤◌, ◌↔◌, ◌^◌, length, IsTrue, IfOk, OnOk, OnErr, IsErrOf, MatchOption};
ghost use Rattle.cs_base.specs.Faults.{HasRisen};
ghost use Rattle.frame_v4.specs.Spelling.{response_bytes};
ghost use Rattle.response_bodies.specs.Spelling.{body as body_of};
ghost use Rattle.session_v4.specs.Words.{HasWord, wordless as wordless_response};
ghost use Rattle.serve_loop.specs.Exchanges.{FitsFrame, AreBytesOf, frame_of};
ghost use Rattle.serve_loop.specs.Steps.{Writes, WritesFront, SendsAll, SendsFront};

use crate::served::Unsent;
use cs_base::{Bytes, Failed};
use cs_io::Link;
use frame_v4::{Frame, write_frame};
use response_bodies::{Response, encode_response};
use session_v4::wordless;
use std::alloc::{AllocError, Global};

/// The longest body that the length of a frame can tell.
const MOST_BODY: usize = 0x7fff_ffff;

/// Whether a response has a word.
#[tactic(auto, unfolding(session_v4::specs::Words::HasWord))]
fn has_word(response: &Response) -> bool
    ensures { IsTrue result ↔ HasWord response.now }
{
    response.has_word()
}

#[tactic(auto, unfolding(session_v4::specs::Words::HasWord))]
fn encoded(alloc: Global, response: &Response) -> Result<Bytes, AllocError>
    requires { HasWord response.now }
    ensures { IfOk result (λ body. body ≡ body_of response.now) }
{
    encode_response(alloc, response)
}

/// The body of a response, if a frame can hold it.
#[tactic(auto, unfolding(crate::specs::Exchanges::FitsFrame))]
fn fitting_body(alloc: Global, response: &Response) -> Result<Option<Bytes>, AllocError>
    ensures { IfOk result (λ found. MatchOption found (FitsFrame response.now → ⊥) (λ body. FitsFrame response.now × (body ≡ body_of response.now))) }
{
    if !has_word(response) {
        return Ok(None);
    }
    let body = encoded(alloc, response)?;
    if body.as_slice().len() > MOST_BODY {
        return Ok(None);
    }
    Ok(Some(body))
}

/// The bytes of the frame of a response, whose body this is.
fn framed(alloc: Global, stream: i16, response: &Response, body: Bytes) -> Result<Bytes, AllocError>
    requires body { body ≡ body_of response.now }
    requires short { length body < 2 ^ 31 }
    ensures { IfOk result (λ bytes. bytes ≡ response_bytes (frame_of stream response.now)) }
{
    let frame = Frame {
        flags: 0,
        stream,
        opcode: response.opcode(),
        body,
    };
    write_frame(alloc, &frame)
}

/// The bytes of what is sent in the place of a response that no frame can hold.
fn wordless_bytes(alloc: Global, stream: i16) -> Result<Bytes, AllocError>
    ensures { IfOk result (λ bytes. bytes ≡ response_bytes (frame_of stream wordless_response)) }
{
    let response = wordless(alloc)?;
    let body = encode_response(alloc, &response)?;
    framed(alloc, stream, &response, body)
}

/// The bytes of what is sent where this response is due on a stream.
fn response_frame(alloc: Global, stream: i16, response: &Response) -> Result<Bytes, AllocError>
    ensures { IfOk result (AreBytesOf stream response.now) }
{
    match fitting_body(alloc, response)? {
        Some(body) => framed(alloc, stream, response, body),
        None => wordless_bytes(alloc, stream),
    }
}

/// Writes the bytes whole. Of bytes that are not, a front is written.
fn write_whole<L: Link>(link: &mut L, bytes: &[u8]) -> Result<(), Failed>
    ensures ok { OnOk result (Writes (L.written link.old) (L.written link.new) bytes.now) }
    ensures err { OnErr result (WritesFront (L.written link.old) (L.written link.new) bytes.now) }
    ensures unread { L.remaining link.new ≡ L.remaining link.old }
    ensures counted { L.faults link.old ≤ L.faults link.new }
    ensures failed { OnErr result (HasRisen (L.faults link.old) (L.faults link.new)) }
{
    let mut rest = bytes;
    while !rest.is_empty() {
        let count = link.write(rest)?;
        if count == 0 {
            return Err(Failed);
        }
        let (_, behind) = rest.split_at(count);
        rest = behind;
    }
    Ok(())
}

/// Sends what is due on a stream. An `Err` by the link leaves a front of it sent, and one for want of memory nothing.
pub(crate) fn send<L: Link>(
    alloc: Global,
    link: &mut L,
    stream: i16,
    response: &Response,
) -> Result<(), Unsent>
    ensures ok { OnOk result (SendsAll (L.written link.old) (L.written link.new) stream response.now) }
    ensures link { IsErrOf result Unsent.Link → SendsFront (L.written link.old) (L.written link.new) stream response.now }
    ensures memory { IsErrOf result Unsent.Memory → L.written link.new ≡ L.written link.old }
    ensures unread { L.remaining link.new ≡ L.remaining link.old }
    ensures counted { L.faults link.old ≤ L.faults link.new }
    ensures failed { IsErrOf result Unsent.Link → HasRisen (L.faults link.old) (L.faults link.new) }
{
    let bytes = response_frame(alloc, stream, response)?;
    write_whole(link, bytes.as_slice())?;
    Ok(())
}
