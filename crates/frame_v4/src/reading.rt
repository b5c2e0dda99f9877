//! Frames of bytes that begin where a frame begins.

ghost use Rattle.std.specs.Prelude.{IfOk, IfErr, IfSome, IfNone};
ghost use Rattle.frame_v4.specs.Stream.{IsPartial, IsFault};
ghost use Rattle.frame_v4.specs.Reading.{IsFrameAndRest, AddsFrames};

use crate::error::FrameError;
use crate::frame::Frame;
use crate::header::{HEADER_LEN, RequestHeader, request_header};
use cs_base::Bytes;
use std::alloc::{AllocError, Global};

/// The header and the body of the frame at the front and the bytes behind it, or `None` while it has not come whole.
fn whole_frame(bytes: &[u8]) -> Result<Option<(RequestHeader, &[u8], &[u8])>, FrameError>
    ensures whole { IfOk result (λ found. IfSome found (λ x. IsFrameAndRest bytes.now x.0 x.1.now x.2.now)) }
    ensures partial { IfOk result (λ found. IfNone found (IsPartial bytes.now)) }
    ensures fault { IfErr result (IsFault bytes.now) }
{
    let Some(header) = request_header(bytes)? else {
        return Ok(None);
    };
    let after = &bytes[HEADER_LEN..];
    if after.len() < header.body_len {
        return Ok(None);
    }
    let (body, rest) = after.split_at(header.body_len);
    Ok(Some((header, body, rest)))
}

/// Adds the whole frames at the front of the bytes, and gives the bytes behind them and the refusal that stands there.
pub fn push_frames<'a>(
    alloc: Global,
    frames: &mut Vec<Frame>,
    bytes: &'a [u8],
) -> Result<(&'a [u8], Option<FrameError>), AllocError>
    ensures { IfOk result (λ x. AddsFrames frames.old.items frames.new.items bytes.now x.0.now x.1) }
{
    let mut rest = bytes;
    'frames: loop {
        match whole_frame(rest) {
            Ok(Some((header, body, after))) => {
                let body = Bytes::from_slice(alloc, body)?;
                frames.push(header.frame(body))?;
                rest = after;
            }
            Ok(None) => return Ok((rest, None)),
            Err(refusal) => return Ok((rest, Some(refusal))),
        }
    }
}
