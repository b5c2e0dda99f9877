//! Frames of the native protocol, as bytes.

use changes::{ShownCell, ShownRow};
use peer_messages::Entry;
use std::alloc::{AllocError, Global};

pub(crate) const STARTUP: &[u8] =
    b"\x04\x00\x00\x00\x01\x00\x00\x00\x16\x00\x01\x00\x0bCQL_VERSION\x00\x053.0.0";

/// What a client is sent first.
pub(crate) const READY: &[u8] = b"\x84\x00\x00\x00\x02\x00\x00\x00\x00";

/// How the frame of a query begins, and that of a result.
const QUERY: [u8; 3] = [0x04, 0x00, 0x07];

const RESULT: [u8; 3] = [0x84, 0x00, 0x08];

/// The body of a result without rows.
const VOID: &[u8] = b"\x00\x00\x00\x01";

/// How the body of a result begins that has rows of the column `v`.
const ROWS: &[u8] =
    b"\x00\x00\x00\x02\x00\x00\x00\x01\x00\x00\x00\x01\x00\x06script\x00\x02kv\x00\x01v\x00\x0d";

/// Puts a count behind what is there, as four bytes.
fn push_count(out: &mut Vec<u8>, count: usize) -> Result<(), AllocError> {
    match u32::try_from(count) {
        Ok(count) => out.extend_from_slice(&count.to_be_bytes()),
        Err(_) => Err(AllocError),
    }
}

/// Puts a frame behind what is there: its version, its flags and its opcode, its stream, and its body.
fn push_frame(out: &mut Vec<u8>, kind: [u8; 3], stream: u8, body: &[u8]) -> Result<(), AllocError> {
    let [version, flags, opcode] = kind;
    out.extend_from_slice(&[version, flags, 0, stream, opcode])?;
    push_count(out, body.len())?;
    out.extend_from_slice(body)
}

/// Puts the query of a statement behind what is there, at the level of this code.
pub(crate) fn push_query(
    alloc: Global,
    out: &mut Vec<u8>,
    stream: u8,
    text: &str,
    level: u8,
) -> Result<(), AllocError> {
    let mut body = Vec::new(alloc);
    push_count(&mut body, text.len())?;
    body.extend_from_slice(text.as_bytes())?;
    body.extend_from_slice(&[0, level, 0])?;
    push_frame(out, QUERY, stream, &body)
}

fn push_cells(out: &mut Vec<u8>, cells: &[ShownCell]) -> Result<(), AllocError> {
    for cell in cells {
        push_count(out, cell.value.as_slice().len())?;
        out.extend_from_slice(cell.value.as_slice())?;
    }
    Ok(())
}

/// Puts the result of a read of the column `v` behind what is there.
pub(crate) fn push_rows(
    alloc: Global,
    out: &mut Vec<u8>,
    stream: u8,
    rows: &[ShownRow],
) -> Result<(), AllocError> {
    let mut body = Vec::from_slice(alloc, ROWS)?;
    push_count(&mut body, rows.len())?;
    for row in rows {
        push_cells(&mut body, row.cells.as_slice())?;
    }
    push_frame(out, RESULT, stream, &body)
}

/// Puts what a client is to be sent for an entry behind what is there: nothing where it is a refusal.
pub(crate) fn push_told(
    alloc: Global,
    out: &mut Vec<u8>,
    stream: u8,
    entry: &Entry,
) -> Result<(), AllocError> {
    match entry {
        Entry::Acked(..) => push_frame(out, RESULT, stream, VOID),
        Entry::Rows(_, rows, ..) => push_rows(alloc, out, stream, rows.as_slice()),
        _ => Ok(()),
    }
}
