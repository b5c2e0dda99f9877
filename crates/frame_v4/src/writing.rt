//! Frames as bytes.

ghost use Rattle.std.specs.Prelude.{◌≡◌, ◌<◌, ◌^◌, length, IfOk};
ghost use Rattle.frame_v4.specs.Spelling.{frame_bytes, request_bytes, response_bytes};

use crate::frame::Frame;
use crate::header::{HEADER_LEN, REQUEST, RESPONSE};
use cs_base::Bytes;
use std::alloc::{AllocError, Global};

fn write_with_version(alloc: Global, version: u8, frame: &Frame) -> Result<Bytes, AllocError>
    requires { length frame.now.body < 2 ^ 31 }
    ensures { IfOk result (λ bytes. bytes ≡ frame_bytes version frame.now) }
{
    let body = frame.body.as_slice();
    let [s0, s1] = frame.stream.to_be_bytes();
    let [n0, n1, n2, n3] = (body.len() as u32).to_be_bytes();
    let header = [version, frame.flags, s0, s1, frame.opcode, n0, n1, n2, n3];
    let mut bytes = Vec::with_capacity(alloc, HEADER_LEN + body.len())?;
    bytes.extend_from_slice(&header)?;
    bytes.extend_from_slice(body)?;
    Ok(Bytes::from_vec(bytes))
}

/// A response, as a server writes it.
pub fn write_frame(alloc: Global, frame: &Frame) -> Result<Bytes, AllocError>
    requires { length frame.now.body < 2 ^ 31 }
    ensures { IfOk result (λ bytes. bytes ≡ response_bytes frame.now) }
{
    write_with_version(alloc, RESPONSE, frame)
}

/// A request, as a client writes it.
pub fn write_request(alloc: Global, frame: &Frame) -> Result<Bytes, AllocError>
    requires { length frame.now.body < 2 ^ 31 }
    ensures { IfOk result (λ bytes. bytes ≡ request_bytes frame.now) }
{
    write_with_version(alloc, REQUEST, frame)
}
