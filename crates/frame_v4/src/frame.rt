//! Frames.

ghost use Rattle.std.specs.Prelude.{◌≡◌, []};

use crate::error::FrameError;
use cs_base::{Bytes, Items};
use std::alloc::Global;

/// A frame, behind its version: the same for requests and responses.
#[derive(Debug, Drop)]
pub struct Frame {
    /// 01 compression, 02 tracing, 04 custom payload, 08 warning.
    pub flags: u8,
    /// The number that a response has from its request.
    pub stream: i16,
    pub opcode: u8,
    pub body: Bytes,
}

/// A list of frames.
pub type Frames = Items<Frame>;

/// The frames of a stream, and the refusal that stands behind them, if there is one.
#[derive(Debug, Drop)]
pub struct Decoded {
    pub frames: Frames,
    pub refusal: Option<FrameError>,
}

impl Decoded {
    /// No frame, without an allocation.
    pub(crate) fn nothing(alloc: Global, refusal: Option<FrameError>) -> Decoded
        ensures frames { result.frames ≡ [] }
        ensures refusal { result.refusal ≡ refusal }
    {
        Decoded {
            frames: Frames::new(alloc),
            refusal,
        }
    }
}
