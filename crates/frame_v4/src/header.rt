//! The nine bytes before a frame's body.

ghost use Rattle.std.specs.Prelude.{◌≡◌};
ghost use Rattle.frame_v4.specs.Reading.{ChecksHeader, ReadsHeader, frame_of};

use crate::error::FrameError;
use crate::frame::Frame;
use cs_base::Bytes;

/// How many bytes come before a body.
pub const HEADER_LEN: usize = 9;

/// The version byte of a request.
pub const REQUEST: u8 = 0x04;

/// The version byte of a response.
pub const RESPONSE: u8 = 0x84;

/// The flag of a compressed body.
const COMPRESSION: u8 = 0x01;

/// The longest body, of 16 MiB.
const LONGEST_BODY: i32 = 16 * 1024 * 1024;

/// The header of a request in which no fault is.
#[derive(Clone, Copy)]
pub struct RequestHeader {
    pub flags: u8,
    pub stream: i16,
    pub opcode: u8,
    pub body_len: usize,
}

impl RequestHeader {
    pub fn frame(self, body: Bytes) -> Frame
        ensures { result ≡ frame_of self body }
    {
        Frame {
            flags: self.flags,
            stream: self.stream,
            opcode: self.opcode,
            body,
        }
    }
}

/// Tests the flag before the length, and a negative length before the limit.
fn checked_header(
    flags: u8,
    stream: i16,
    opcode: u8,
    body_len: i32,
) -> Result<RequestHeader, FrameError>
    ensures { ChecksHeader (record { flags = flags; stream = stream; opcode = opcode; body_length = body_len }) result }
{
    if flags & COMPRESSION != 0 {
        return Err(FrameError::Compressed(stream));
    }
    if body_len < 0 {
        return Err(FrameError::NegativeLength(stream, body_len));
    }
    if body_len > LONGEST_BODY {
        return Err(FrameError::TooLong(stream, body_len as u32));
    }
    Ok(RequestHeader {
        flags,
        stream,
        opcode,
        body_len: body_len as usize,
    })
}

/// The header at the front of the bytes, or `None` while it has not come whole.
pub fn request_header(bytes: &[u8]) -> Result<Option<RequestHeader>, FrameError>
    ensures { ReadsHeader bytes.now result }
{
    if bytes.is_empty() {
        return Ok(None);
    }
    if bytes[0] != REQUEST {
        return Err(FrameError::Version(bytes[0]));
    }
    if bytes.len() < HEADER_LEN {
        return Ok(None);
    }
    let stream = i16::from_be_bytes([bytes[2], bytes[3]]);
    let body_len = i32::from_be_bytes([bytes[5], bytes[6], bytes[7], bytes[8]]);
    let header = checked_header(bytes[1], stream, bytes[4], body_len)?;
    Ok(Some(header))
}
