//! What has come of a frame that is not whole.

ghost use Rattle.std.specs.Prelude.{◌≡◌, ◌+◌, ◌<◌, ◌≤◌, List, [], ◌∷◌, ◌++◌, length, take, vec_len, IfOk, OnOk, OnErr, IsSome};
ghost use Rattle.frame_v4.specs.Spelling.{header_bytes};
ghost use Rattle.frame_v4.specs.Stream.{IsPartial, Reads};
ghost use Rattle.frame_v4.specs.Reading.{Passes, header_fields, frame_of, held_bytes, IsHeld, HoldsSame, CompletesFrame};

use crate::error::FrameError;
use crate::frame::{Decoded, Frames};
use crate::header::{HEADER_LEN, RequestHeader, request_header};
use crate::reading::push_frames;
use cs_base::Bytes;
use std::alloc::{AllocError, Global};
use std::mem;

/// The bytes that have come of the next frame. The body is collected apart from the header, in the memory that it
/// keeps in the frame, and that memory grows with what comes.
#[derive(Debug, Drop)]
pub struct Held {
    header: [u8; HEADER_LEN],
    header_len: usize,
    body: Vec<u8>,
}

/// The header with these bytes behind its first `len`.
fn extended(header: [u8; HEADER_LEN], len: usize, bytes: &[u8]) -> [u8; HEADER_LEN]
    requires { len + length bytes.now ≤ 9 }
    ensures bytes { take (len + length bytes.now) result ≡ take len header ++ bytes.now }
    ensures len { length result ≡ 9 }
{
    let mut header = header;
    let end = len + bytes.len();
    header[len..end].copy_from_slice(bytes);
    header
}

impl Held {
    /// Nothing, without an allocation.
    pub fn new(alloc: Global) -> Held
        ensures bytes { held_bytes result ≡ [] }
        ensures held { IsHeld result }
    {
        Held {
            header: [0; HEADER_LEN],
            header_len: 0,
            body: Vec::new(alloc),
        }
    }

    /// The bytes, which are less than a whole frame.
    fn from_slice(alloc: Global, bytes: &[u8]) -> Result<Held, AllocError>
        requires { IsPartial bytes.now }
        ensures bytes { IfOk result (λ held. held_bytes held ≡ bytes.now) }
        ensures held { IfOk result IsHeld }
    {
        let header_len = bytes.len().min(HEADER_LEN);
        let (front, body) = bytes.split_at(header_len);
        let header = extended([0; HEADER_LEN], 0, front);
        let body = Vec::from_slice(alloc, body)?;
        Ok(Held {
            header,
            header_len,
            body,
        })
    }

    /// Takes the next piece of the stream. What is held afterwards is less than a whole frame, and nothing behind a
    /// refusal. An `Err` leaves the bytes that are held.
    pub fn advance(&mut self, alloc: Global, piece: &[u8]) -> Result<Decoded, AllocError>
        requires { IsHeld self.old }
        ensures reads { IfOk result (λ decoded.
            Reads (held_bytes self.old ++ piece.now) decoded.frames (held_bytes self.new) decoded.refusal) }
        ensures refused { IfOk result (λ decoded. IsSome decoded.refusal → held_bytes self.new ≡ []) }
        ensures held { IsHeld self.new }
        ensures err { OnErr result (held_bytes self.new ≡ held_bytes self.old) }
    {
        // What can fail comes before any change of `self`. A header that was whole already is read once more.
        let lacking = HEADER_LEN - self.header_len;
        let (front, after) = piece.split_at(piece.len().min(lacking));
        let bytes = extended(self.header, self.header_len, front);
        let header_len = self.header_len + front.len();
        match request_header(&bytes[..header_len]) {
            Err(refusal) => {
                *self = Held::new(alloc);
                Ok(Decoded::nothing(alloc, Some(refusal)))
            }
            Ok(None) => {
                self.header = bytes;
                self.header_len = header_len;
                Ok(Decoded::nothing(alloc, None))
            }
            Ok(Some(header)) => self.advance_body(alloc, bytes, header, after),
        }
    }

    /// The same behind the header that these bytes are.
    fn advance_body(
        &mut self,
        alloc: Global,
        bytes: [u8; HEADER_LEN],
        header: RequestHeader,
        piece: &[u8],
    ) -> Result<Decoded, AllocError>
        requires passes { Passes header }
        requires spelled { bytes ≡ header_bytes 4 (header_fields header) }
        requires less { vec_len self.old.body ≤ header.body_len }
        ensures reads { IfOk result (λ decoded.
            Reads (bytes ++ self.old.body.items ++ piece.now) decoded.frames (held_bytes self.new) decoded.refusal) }
        ensures refused { IfOk result (λ decoded. IsSome decoded.refusal → held_bytes self.new ≡ []) }
        ensures held { OnOk result (IsHeld self.new) }
        ensures err { OnErr result (HoldsSame self.old self.new) }
    {
        let missing = header.body_len - self.body.len();
        if piece.len() < missing {
            self.body.extend_from_slice(piece)?;
            self.header = bytes;
            self.header_len = HEADER_LEN;
            return Ok(Decoded::nothing(alloc, None));
        }
        let (last, after) = piece.split_at(missing);
        let (decoded, next) = complete(alloc, header, &mut self.body, last, after)?;
        *self = next;
        Ok(decoded)
    }
}

/// The frame of this body and its last bytes, the frames behind it, and what is held then. An `Err` leaves the body.
fn complete(
    alloc: Global,
    header: RequestHeader,
    body: &mut Vec<u8>,
    last: &[u8],
    after: &[u8],
) -> Result<(Decoded, Held), AllocError>
    ensures reads { IfOk result (λ x.
        CompletesFrame (frame_of header (body.old.items ++ last.now)) after.now x.0.frames (held_bytes x.1) x.0.refusal) }
    ensures refused { IfOk result (λ x. IsSome x.0.refusal → held_bytes x.1 ≡ []) }
    ensures held { IfOk result (λ x. IsHeld x.1) }
    ensures err { OnErr result (body.new.items ≡ body.old.items) }
{
    body.reserve_exact(last.len())?;
    // The frame gets its body when nothing can fail any more, so that the body is still held if something does.
    let mut frames = Vec::new(alloc);
    frames.push(header.frame(Bytes::new(alloc)))?;
    let (rest, refusal) = push_frames(alloc, &mut frames, after)?;
    let next = match refusal {
        None => Held::from_slice(alloc, rest)?,
        Some(_) => Held::new(alloc),
    };
    body.extend_from_slice(last).unwrap();
    let whole = mem::replace(body, Vec::new(alloc));
    frames[0].body = Bytes::from_vec(whole);
    let frames = Frames::from_vec(frames);
    Ok((Decoded { frames, refusal }, next))
}
