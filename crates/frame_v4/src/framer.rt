//! Frames of a stream that comes in pieces.

ghost use Rattle.std.specs.Prelude.{◌≡◌, ◌≢◌, ◌⊎◌, ℕ, List, [], ◌++◌, Some, None, IsSome, IfSome, IfOk, IfErr, OnOk};
ghost use Rattle.frame_v4.specs.Stream.{Splits, Breaks};
ghost use Rattle.frame_v4.specs.Framer.{State, fresh};

use crate::error::FrameError;
use crate::frame::{Frame, Frames};
use crate::held::Held;
use std::alloc::Global;
use std::marker::Model;
use std::mem;

/// Makes frames of the pieces of a stream of requests.
///
/// Contracts see the bytes that are held of the next frame, the refusal if there was one, and the frames before it
/// that were not taken yet. Until there is a refusal no frame is kept, since `feed` gives each frame with the piece
/// that completes it.
#[derive(Debug, Drop)]
pub struct Framer {
    alloc: Global,
    held: Held,
    refusal: Option<FrameError>,
    kept: Frames,
}

impl Model for Framer {
    ghost use Rattle.frame_v4.specs.Reading.{held_bytes};
    ghost use Rattle.frame_v4.specs.Framer.{State, IsFramer};

    ghost Value = { State };

    ghost view = { λ a. record { held = held_bytes a.held; refusal = a.refusal; kept = a.kept } };

    ghost invariant = { λ a. IsFramer a.held a.refusal a.kept };
}

impl Framer {
    /// A framer at the beginning of a stream, without an allocation.
    pub fn new(alloc: Global) -> Framer
        ensures { result ≡ fresh }
    {
        Framer {
            alloc,
            held: Held::new(alloc),
            refusal: None,
            kept: Frames::new(alloc),
        }
    }

    /// Takes the next piece of the stream, and gives the frames that became whole with it.
    ///
    /// The version of a frame is tested as its first byte comes, and the rest of its header when nine bytes are
    /// there: the flag of compression first, then a negative length, then a length above 16 MiB. A fault is refused
    /// with the piece that shows it, and from then on each piece is. The frames that became whole with that piece,
    /// before the fault, wait in `taken`. After `NoMemory` the piece was not taken and no frame is lost: it may be fed
    /// again.
    pub fn feed(&mut self, piece: &[u8]) -> Result<Frames, FrameError>
        // The bytes that were held and the piece are these frames, and then the bytes that are held now.
        ensures given { IfOk result (λ frames. Splits (self.old.held ++ piece.now) frames self.new.held) }
        ensures reading { OnOk result ((self.old.refusal ≡ None) × (self.new.refusal ≡ None) × (self.new.kept ≡ [])) }

        // The bytes that were held and the piece are the frames that are kept now, and then the fault.
        ensures refused { IfErr result (λ error. self.old.refusal ≡ None → error ≢ FrameError.NoMemory →
            Breaks (self.old.held ++ piece.now) self.new.kept error) }
        ensures remembered { IfErr result (λ error. self.old.refusal ≡ None → error ≢ FrameError.NoMemory →
            (self.new.held ≡ []) × (self.new.refusal ≡ Some error)) }
        ensures exact { (frames : List Frame) (error : FrameError) → self.old.refusal ≡ None →
            Breaks (self.old.held ++ piece.now) frames error → (result ≡ Err error) ⊎ (result ≡ Err FrameError.NoMemory) }

        // The same refusal ever after.
        ensures again { IfSome self.old.refusal (λ error. (result ≡ Err error) × (self.new ≡ self.old)) }
        ensures no_memory { result ≡ Err FrameError.NoMemory → self.new ≡ self.old }

        // Over any pieces: the frames so far and the bytes held, or the fault, are the stream so far.
        ensures stream { IfOk result (λ frames. (stream : List ℕ) (before : List Frame) →
            Splits stream before self.old.held → Splits (stream ++ piece.now) (before ++ frames) self.new.held) }
        ensures stream_refused { IfErr result (λ error. (stream : List ℕ) (before : List Frame) →
            self.old.refusal ≡ None → error ≢ FrameError.NoMemory →
            Splits stream before self.old.held → Breaks (stream ++ piece.now) (before ++ self.new.kept) error) }
    {
        if let Some(refusal) = self.refusal {
            return Err(refusal);
        }
        let decoded = self.held.advance(self.alloc, piece)?;
        match decoded.refusal {
            None => Ok(decoded.frames),
            Some(refusal) => {
                self.refusal = Some(refusal);
                self.kept = decoded.frames;
                Err(refusal)
            }
        }
    }

    /// Takes the frames that stood before the refusal and were not taken yet, without an allocation. There are none
    /// while nothing was refused.
    pub fn taken(&mut self) -> Frames
        ensures frames { result ≡ self.old.kept }
        ensures after { self.new ≡ record self.old { kept = [] } }
        ensures before_refusal { self.old.refusal ≡ None → result ≡ [] }
    {
        let none = Frames::new(self.alloc);
        mem::replace(&mut self.kept, none)
    }
}
