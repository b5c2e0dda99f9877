//! A whole stream.

ghost use Rattle.std.specs.Prelude.{◌≡◌, ℕ, List, Option, IfOk};
ghost use Rattle.std.specs.List.{concat};
ghost use Rattle.frame_v4.specs.Stream.{Reads};

use crate::error::FrameError;
use crate::frame::{Decoded, Frame, Frames};
use crate::framer::Framer;
use cs_base::Bytes;
use std::alloc::{AllocError, Global};

/// The frames of a stream of requests that comes in these pieces, up to its refusal if it has one.
pub fn decode(alloc: Global, pieces: &[Bytes]) -> Result<Decoded, AllocError>
    // The stream is these frames, and then less than a whole frame, or the fault.
    ensures reads { IfOk result (λ decoded. (rest : List ℕ) × Reads (concat pieces.now) decoded.frames rest decoded.refusal) }
    // It is no others, so it does not matter how the stream was cut into pieces.
    ensures only { IfOk result (λ decoded. (frames : List Frame) (rest : List ℕ) (refusal : Option FrameError) →
        Reads (concat pieces.now) frames rest refusal → (decoded.frames ≡ frames) × (decoded.refusal ≡ refusal)) }
{
    let mut framer = Framer::new(alloc);
    let mut frames = Vec::new(alloc);
    for piece in pieces {
        match framer.feed(piece.as_slice()) {
            Ok(given) => frames.append(&mut given.into_vec())?,
            Err(error) => match error {
                FrameError::NoMemory => return Err(AllocError),
                refusal => {
                    frames.append(&mut framer.taken().into_vec())?;
                    return Ok(Decoded {
                        frames: Frames::from_vec(frames),
                        refusal: Some(refusal),
                    });
                }
            },
        }
    }
    Ok(Decoded {
        frames: Frames::from_vec(frames),
        refusal: None,
    })
}
