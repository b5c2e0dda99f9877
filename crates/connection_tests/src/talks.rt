//! Conversations with a node that has just begun, and how they went.

ghost use Rattle.std.specs.Prelude.{◌≡◌, false};

use crate::node::Node;
use crate::rows::Talk;
use cs_base::Bytes;
use cs_io::{Gate, MemLink, NeverStop, OpenGate, StopSign};
use serve_loop::Served;
use std::alloc::{AllocError, Global};
use std::fmt::Write;
use std::sync::Wait;
use std::test::Fail;

/// The pieces of these bytes, each so long, with an idle behind each.
pub(crate) fn cut(alloc: Global, bytes: &[u8], len: usize) -> Result<Vec<Bytes>, AllocError> {
    let mut pieces = Vec::new(alloc);
    for piece in bytes.chunks(len.max(1)) {
        pieces.push(Bytes::from_slice(alloc, piece)?)?;
        pieces.push(Bytes::new(alloc))?;
    }
    Ok(pieces)
}

/// How a connection ended, and what was written.
pub(crate) fn print_went(alloc: Global, served: Served, written: &[u8]) -> Result<String, Fail> {
    let mut out = format!(in alloc; "{served:?} ")?;
    for byte in written {
        write!(out, "{byte:02X}")?;
    }
    Ok(out)
}

/// How a connection went, unless it is as it should be.
pub(crate) fn difference(
    alloc: Global,
    len: usize,
    served: Served,
    link: &MemLink,
    end: Served,
    output: &[u8],
) -> Result<Option<String>, Fail> {
    if served == end && link.written() == output && link.faults().count() == 0 {
        return Ok(None);
    }
    let went = print_went(alloc, served, link.written())?;
    Ok(Some(format!(in alloc; "in pieces of {len}: {went}")?))
}

/// A conversation with a node that has just begun, over a link whose pieces have this length; writes take so much too.
pub(crate) fn in_pieces_of<R: Wait>(
    rt: &R,
    alloc: Global,
    talk: &Talk,
    len: usize,
    end: Served,
) -> Result<Option<String>, Fail> {
    let mut link = MemLink::new(alloc, cut(alloc, &talk.input, len)?, len, Vec::new(alloc));
    let mut node = Node::new(alloc)?;
    let served = node.serve(rt, alloc, &mut link, &OpenGate, &mut NeverStop);
    difference(alloc, len, served, &link, end, &talk.output)
}

/// How the conversation went first in another way than it should, in pieces of every length from 1 to the whole.
pub(crate) fn in_all_pieces<R: Wait>(
    rt: &R,
    alloc: Global,
    talk: &Talk,
    end: Served,
) -> Result<Option<String>, Fail> {
    for len in 1..=talk.input.len() {
        let went = in_pieces_of(rt, alloc, talk, len, end)?;
        if went.is_some() {
            return Ok(went);
        }
    }
    Ok(None)
}

/// Lengths of pieces for longer conversations, of which the last is more than the whole.
pub(crate) const LENGTHS: [usize; 24] = [
    1, 2, 3, 4, 5, 6, 7, 8, 9, 10, 11, 13, 17, 23, 31, 47, 64, 99, 128, 255, 512, 1000, 4096,
    1_000_000,
];

/// The same in pieces of these lengths.
pub(crate) fn in_pieces<R: Wait>(
    rt: &R,
    alloc: Global,
    talk: &Talk,
    end: Served,
) -> Result<Option<String>, Fail> {
    for len in &LENGTHS {
        let went = in_pieces_of(rt, alloc, talk, *len, end)?;
        if went.is_some() {
            return Ok(went);
        }
    }
    Ok(None)
}

/// How a connection ended, what was written, and how many faults its link had.
#[derive(Drop)]
pub(crate) struct Went {
    pub served: Served,
    pub written: Vec<u8>,
    pub faults: u64,
}

/// Serves the client of a link.
pub(crate) fn serve<R: Wait, G: Gate, Q: StopSign>(
    rt: &R,
    alloc: Global,
    node: &mut Node,
    link: &mut MemLink,
    gate: &G,
    stop: &mut Q,
) -> Result<Went, AllocError>
    requires { Q.has_answered stop.old ≡ false }
{
    let served = node.serve(rt, alloc, link, gate, stop);
    Ok(Went {
        served,
        written: Vec::from_slice(alloc, link.written())?,
        faults: link.faults().count(),
    })
}

/// A conversation with a node that has just begun.
pub(crate) fn talk_once<R: Wait, Q: StopSign>(
    rt: &R,
    alloc: Global,
    link: &mut MemLink,
    stop: &mut Q,
) -> Result<Went, Fail>
    requires { Q.has_answered stop.old ≡ false }
{
    let mut node = Node::new(alloc)?;
    Ok(serve(rt, alloc, &mut node, link, &OpenGate, stop)?)
}
