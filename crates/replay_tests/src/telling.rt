//! What clients are told, by a chronicle in pieces.

use crate::frames::{READY, push_told};
use chronicle_pieces::Piece;
use cs_base::{NodeId, ReqId};
use peer_messages::Entry;
use std::alloc::{AllocError, Global};

/// Of whose request an entry is the answer.
fn answered_by(entry: &Entry) -> Option<ReqId> {
    match entry {
        Entry::Acked(request, ..)
        | Entry::Rows(request, ..)
        | Entry::Used(request, _)
        | Entry::Refused(request, _) => Some(*request),
        _ => None,
    }
}

/// How many answers there are.
pub(crate) fn count_answers(pieces: &[Piece]) -> usize {
    let mut count: usize = 0;
    for piece in pieces {
        for entry in piece.own() {
            if answered_by(entry).is_some() {
                count = count.wrapping_add(1);
            }
        }
    }
    count
}

/// The requests of a node's clients, in order.
pub(crate) fn requests(
    alloc: Global,
    pieces: &[Piece],
    node: NodeId,
) -> Result<Vec<ReqId>, AllocError> {
    let mut requests = Vec::new(alloc);
    for piece in pieces {
        if let Piece::Stepped(step) = piece
            && step.node == node
            && let Some(request) = step.started
        {
            requests.push(request)?;
        }
    }
    Ok(requests)
}

/// Puts what the client is to be sent by an entry behind what is there, if it answers the request.
fn push_answer(
    alloc: Global,
    out: &mut Vec<u8>,
    stream: u8,
    entry: &Entry,
    request: &ReqId,
) -> Result<(), AllocError> {
    if answered_by(entry) == Some(*request) {
        return push_told(alloc, out, stream, entry);
    }
    Ok(())
}

/// Puts what the client is to be sent for a request by these entries behind what is there.
fn push_answers(
    alloc: Global,
    out: &mut Vec<u8>,
    stream: u8,
    entries: &[Entry],
    request: &ReqId,
) -> Result<(), AllocError> {
    for entry in entries {
        push_answer(alloc, out, stream, entry, request)?;
    }
    Ok(())
}

/// Puts what the client is to be sent for a request behind what is there.
fn push_request(
    alloc: Global,
    out: &mut Vec<u8>,
    stream: u8,
    pieces: &[Piece],
    request: &ReqId,
) -> Result<(), AllocError> {
    for piece in pieces {
        push_answers(alloc, out, stream, piece.own(), request)?;
    }
    Ok(())
}

/// What the client of a node is to be sent: for each of its requests, on the stream of its number, what the chronicle tells of it.
pub(crate) fn told_to(
    alloc: Global,
    pieces: &[Piece],
    node: NodeId,
) -> Result<Vec<u8>, AllocError> {
    let mut out = Vec::from_slice(alloc, READY)?;
    let mut stream: u8 = 0;
    for request in requests(alloc, pieces, node)? {
        stream = stream.wrapping_add(1);
        push_request(alloc, &mut out, stream, pieces, &request)?;
    }
    Ok(out)
}
