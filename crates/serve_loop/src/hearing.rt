//! What comes of a peer.

ghost use Rattle.std.specs.Prelude.{◌≡◌, ◌≢◌, ◌≤◌, ◌<◌, ℕ, List, ◌++◌, IfOk, OnErr, IsErrOf, Option};
ghost use Rattle.std.specs.List.{All};
ghost use Rattle.cs_base.specs.Faults.{HasRisen};
ghost use Rattle.frame_v4.specs.Stream.{Reads};
ghost use Rattle.frame_v4.specs.declared.error.FrameError.TheVariants.{NoMemory};
ghost use Rattle.serve_loop.specs.Conversations.{IsHeard};
ghost use Rattle.serve_loop.specs.Steps.{IsInput};

use crate::served::Served;
use cs_base::Failed;
use cs_io::{Heard, Link};
use frame_v4::{Decoded, FrameError, Framer};
use std::alloc::AllocError;

/// What came of a peer.
#[derive(Drop)]
pub(crate) enum Input {
    /// The frames that became whole, and the fault behind them if there is one.
    Frames(Decoded),
    Idle,
    End,
}

/// The frames that become whole with a piece, and the fault behind them if there is one. An `Err` leaves the piece out.
fn frames_of(framer: &mut Framer, piece: &[u8]) -> Result<Decoded, AllocError>
    requires { framer.old.refusal ≡ None }
    ensures reads { IfOk result (λ d. Reads (framer.old.held ++ piece.now) d.frames framer.new.held d.refusal) }
    ensures goes_on { IfOk result (λ d. d.refusal ≡ None → framer.new.refusal ≡ None) }
    ensures fault { IfOk result (λ d. d.refusal ≢ Some NoMemory) }
    ensures no_memory { OnErr result (framer.new ≡ framer.old) }
{
    match framer.feed(piece) {
        Ok(frames) => Ok(Decoded {
            frames,
            refusal: None,
        }),
        Err(error) => match error {
            FrameError::NoMemory => Err(AllocError),
            fault => {
                let frames = framer.taken();
                Ok(Decoded {
                    frames,
                    refusal: Some(fault),
                })
            }
        },
    }
}

/// What came of a peer with this piece.
fn input_of(framer: &mut Framer, piece: &[u8]) -> Result<Input, Served>
    requires { framer.old.refusal ≡ None }
    ensures input { (left left' : Option (List ℕ)) → IsInput result piece.now left left' framer.old framer.new }
    ensures bytes { All (λ byte. byte < 256) piece.now }
    ensures memory { IsErrOf result Served.LinkFault → ⊥ }
{
    match frames_of(framer, piece) {
        Ok(decoded) => Ok(Input::Frames(decoded)),
        Err(AllocError) => Err(Served::NoMemory),
    }
}

/// Reads once. An `Err` is how the connection ends.
pub(crate) fn hear<L: Link>(
    link: &mut L,
    framer: &mut Framer,
    buffer: &mut [u8],
) -> Result<Input, Served>
    requires { framer.old.refusal ≡ None }
    ensures input { (piece : List ℕ) × All (λ byte. byte < 256) piece
        × IsHeard (L.remaining link.old) piece (L.remaining link.new)
        × IsInput result piece (L.remaining link.old) (L.remaining link.new) framer.old framer.new }
    ensures unwritten { L.written link.new ≡ L.written link.old }
    ensures counted { L.faults link.old ≤ L.faults link.new }
    ensures failed { IsErrOf result Served.LinkFault → HasRisen (L.faults link.old) (L.faults link.new) }
{
    match link.read(buffer) {
        Ok(Heard::Bytes(count)) => input_of(framer, &buffer[..count]),
        Ok(Heard::Idle) => Ok(Input::Idle),
        Ok(Heard::End) => Ok(Input::End),
        Err(Failed) => Err(Served::LinkFault),
    }
}
