//! Conversations as the tests write them down.
//!
//! A row has what comes, an arrow, and what goes out: hexadecimal digits, in which spaces don't count, and texts in backquotes. A
//! text behind an `s` begins with its length in two bytes, one behind an `l` with its length in four. A text behind a `k` is that of
//! a statement that was prepared with the keyspace `ks` in use, and stands for its id, which begins with its length in two bytes.

use std::alloc::{AllocError, Global};

/// What comes in a conversation, and what goes out.
#[derive(Drop)]
pub(crate) struct Talk {
    pub input: Vec<u8>,
    pub output: Vec<u8>,
}

fn digit(byte: u8) -> Option<u8> {
    match byte {
        b'0'..=b'9' => Some(byte - b'0'),
        b'a'..=b'f' => Some(byte - b'a' + 10),
        b'A'..=b'F' => Some(byte - b'A' + 10),
        _ => None,
    }
}

/// Adds the bytes of hexadecimal digits. What is no digit doesn't count.
pub(crate) fn push_hex(bytes: &mut Vec<u8>, text: &str) -> Result<(), AllocError> {
    let mut high = None;
    for digit in text.bytes().filter_map(digit) {
        match high {
            None => high = Some(digit),
            Some(first) => {
                bytes.push(u8::wrapping_mul(first, 16).wrapping_add(digit))?;
                high = None;
            }
        }
    }
    Ok(())
}

/// Adds a length in two bytes.
fn push_short(bytes: &mut Vec<u8>, length: usize) -> Result<(), AllocError> {
    let length = u16::try_from(length).unwrap_or(u16::MAX);
    bytes.extend_from_slice(&length.to_be_bytes())
}

/// Adds a length in four bytes.
fn push_int(bytes: &mut Vec<u8>, length: usize) -> Result<(), AllocError> {
    let length = u32::try_from(length).unwrap_or(u32::MAX);
    bytes.extend_from_slice(&length.to_be_bytes())
}

/// Adds a text, with what `sign` asks for before it.
fn push_text(bytes: &mut Vec<u8>, sign: Option<u8>, text: &str) -> Result<(), AllocError> {
    match sign {
        Some(b's') => push_short(bytes, text.len())?,
        Some(b'l') => push_int(bytes, text.len())?,
        Some(b'k') => {
            push_short(bytes, text.len().saturating_add(3))?;
            bytes.extend_from_slice(b"ks\0")?;
        }
        _ => {}
    }
    bytes.extend_from_slice(text.as_bytes())
}

/// Adds what a side of a row stands for.
pub(crate) fn push_side(bytes: &mut Vec<u8>, side: &str) -> Result<(), AllocError> {
    let mut is_text = false;
    let mut sign = None;
    for part in side.split('`') {
        if is_text {
            push_text(bytes, sign, part)?;
        } else {
            push_hex(bytes, part)?;
            sign = part.bytes().last();
        }
        is_text = !is_text;
    }
    Ok(())
}

/// The two sides of a row.
pub(crate) fn sides(row: &str) -> (&str, &str) {
    row.split_once(" => ").unwrap_or((row, ""))
}

/// Adds a frame of this version and stream. A side has its opcode and its body.
pub(crate) fn push_frame(
    alloc: Global,
    bytes: &mut Vec<u8>,
    version: u8,
    stream: u16,
    side: &str,
) -> Result<(), AllocError> {
    let mut content = Vec::new(alloc);
    push_side(&mut content, side)?;
    let Some((opcode, body)) = content.split_first() else {
        return Ok(());
    };
    bytes.extend_from_slice(&[version, 0])?;
    bytes.extend_from_slice(&stream.to_be_bytes())?;
    bytes.push(*opcode)?;
    push_int(bytes, body.len())?;
    bytes.extend_from_slice(body)
}

impl Talk {
    pub(crate) fn new(alloc: Global) -> Talk {
        Talk {
            input: Vec::new(alloc),
            output: Vec::new(alloc),
        }
    }

    /// Adds rows of whole frames.
    pub(crate) fn add_frames(&mut self, rows: &str) -> Result<(), AllocError> {
        for row in rows.lines() {
            let (input, output) = sides(row);
            push_side(&mut self.input, input)?;
            push_side(&mut self.output, output)?;
        }
        Ok(())
    }

    /// Adds rows of requests and their responses, each on a stream of its own, from this one on.
    pub(crate) fn add_requests(
        &mut self,
        alloc: Global,
        first: u16,
        rows: &str,
    ) -> Result<(), AllocError> {
        let mut stream = first;
        for row in rows.lines() {
            let (input, output) = sides(row);
            push_frame(alloc, &mut self.input, 4, stream, input)?;
            push_frame(alloc, &mut self.output, 0x84, stream, output)?;
            stream = u16::wrapping_add(stream, 1);
        }
        Ok(())
    }
}

/// A conversation of whole frames.
pub(crate) fn frames(alloc: Global, rows: &str) -> Result<Talk, AllocError> {
    let mut talk = Talk::new(alloc);
    talk.add_frames(rows)?;
    Ok(talk)
}

/// A conversation of requests and their responses.
pub(crate) fn requests(alloc: Global, rows: &str) -> Result<Talk, AllocError> {
    let mut talk = Talk::new(alloc);
    talk.add_requests(alloc, 0, rows)?;
    Ok(talk)
}
