//! What a chronicle in pieces has of a request, the newest entry first.

ghost use Rattle.std.specs.Prelude.{◌≡◌, find, reverse, option_and_then, option_copied};
ghost use Rattle.chronicle_pieces.specs.Pieces.{entries_of, joined};
ghost use Rattle.step_desk.specs.Tellings.{answer_by as answer_by_entry, is_about as is_about_request, is_named as is_named_so, told as told_in_chronicle, TellsAs, Tells};
ghost use Rattle.step_desk.specs.Headings.{heading_outcome as heading_outcome_of, is_asked as is_asked_in, unanswered_if};
ghost use Rattle.step_desk.specs.Outcomes.{begun_as, is_outcome as is_outcome_entry, outcome as outcome_in_chronicle, outcome_by as outcome_by_entry};

use crate::copies::copy_rows;
use chronicle_pieces::Piece;
use client_desk::Answer;
use cs_base::ReqId;
use peer_messages::{Entry, Refusal};
use std::alloc::{AllocError, Global};

/// What some entries tell of a request.
#[derive(Drop)]
pub(crate) enum News {
    Nothing,
    /// That it was asked, and nothing since.
    Asked,
    Answered(Answer),
}

// ---- what came of the request that was asked last

/// The name of a request that began, or why one was turned away.
fn outcome_by(entry: &Entry) -> Option<Result<ReqId, Refusal>>
    ensures { result ≡ outcome_by_entry entry.now }
{
    match entry {
        Entry::Asked(Some(request)) => Some(Ok(*request)),
        Entry::Turned(_, refusal) => Some(Err(*refusal)),
        Entry::Asked(None)
        | Entry::Submitted(..)
        | Entry::Acked(..)
        | Entry::Refused(..)
        | Entry::Used(..)
        | Entry::Began(..)
        | Entry::Rows(..)
        | Entry::Time(..)
        | Entry::Marks(..)
        | Entry::Tables(..)
        | Entry::Stopped(_) => None,
    }
}

fn is_outcome(entry: &Entry) -> bool
    ensures { result ≡ is_outcome_entry entry.now }
{
    outcome_by(entry).is_some()
}

fn outcome_entry(entries: &[Entry]) -> Option<&Entry>
    ensures { option_copied result ≡ find is_outcome_entry (reverse entries.now) }
{
    entries.iter().rev().find(|entry| is_outcome(entry))
}

fn own_outcome(entries: &[Entry]) -> Option<Result<ReqId, Refusal>>
    ensures { result ≡ outcome_in_chronicle (reverse entries.now) }
{
    match outcome_entry(entries) {
        Some(entry) => outcome_by(entry),
        None => None,
    }
}

fn begun(started: &Option<ReqId>) -> Option<Result<ReqId, Refusal>>
    ensures { result ≡ begun_as started.now }
{
    match started {
        Some(request) => Some(Ok(*request)),
        None => None,
    }
}

/// By what stands before the entries of the event itself.
fn heading_outcome(piece: &Piece) -> Option<Result<ReqId, Refusal>>
    ensures { result ≡ heading_outcome_of piece.now }
{
    match piece {
        Piece::Stepped(step) => begun(&step.started),
        Piece::Halted(halt) => begun(&halt.started),
        Piece::Turned(_, refusal) => Some(Err(*refusal)),
        Piece::Failed(_) => None,
    }
}

fn piece_outcome(piece: &Piece) -> Option<Result<ReqId, Refusal>>
    ensures { result ≡ outcome_in_chronicle (reverse (entries_of piece.now)) }
{
    match own_outcome(piece.own()) {
        Some(outcome) => Some(outcome),
        None => heading_outcome(piece),
    }
}

/// What a chronicle tells of the request that was asked last: its name, or why it was turned away.
pub(crate) fn outcome(pieces: &[Piece]) -> Option<Result<ReqId, Refusal>>
    ensures { result ≡ outcome_in_chronicle (reverse (joined pieces.now)) }
{
    let mut left = pieces.len();
    while left > 0 {
        left -= 1;
        match piece_outcome(&pieces[left]) {
            Some(outcome) => return Some(outcome),
            None => {}
        }
    }
    None
}

// ---- what a request was told

fn is_named(name: &Option<ReqId>, request: &ReqId) -> bool
    ensures { result ≡ is_named_so name.now request.now }
{
    match name {
        Some(other) => other == request,
        None => false,
    }
}

fn is_about(entry: &Entry, request: &ReqId) -> bool
    ensures { result ≡ is_about_request request.now entry.now }
{
    match entry {
        Entry::Asked(name) => is_named(name, request),
        Entry::Acked(other, ..)
        | Entry::Refused(other, _)
        | Entry::Used(other, _)
        | Entry::Rows(other, ..) => other == request,
        Entry::Submitted(..)
        | Entry::Began(..)
        | Entry::Time(..)
        | Entry::Marks(..)
        | Entry::Turned(..)
        | Entry::Tables(..)
        | Entry::Stopped(_) => false,
    }
}

fn entry_about<'a>(entries: &'a [Entry], request: &ReqId) -> Option<&'a Entry>
    ensures { option_copied result ≡ find (is_about_request request.now) (reverse entries.now) }
{
    entries.iter().rev().find(|entry| is_about(entry, request))
}

/// What an entry tells.
fn told_by(alloc: Global, entry: &Entry) -> Result<News, AllocError>
    ensures { TellsAs result (Some entry.now) }
{
    match entry {
        Entry::Acked(..) | Entry::Used(..) => Ok(News::Answered(Answer::Acknowledged)),
        Entry::Refused(_, refusal) => Ok(News::Answered(Answer::Refused(*refusal))),
        Entry::Rows(_, rows, more, _) => {
            Ok(News::Answered(Answer::Rows(copy_rows(alloc, rows)?, *more)))
        }
        Entry::Asked(_)
        | Entry::Submitted(..)
        | Entry::Began(..)
        | Entry::Time(..)
        | Entry::Marks(..)
        | Entry::Turned(..)
        | Entry::Tables(..)
        | Entry::Stopped(_) => Ok(News::Asked),
    }
}

/// Whether the event of a piece was that the request was asked.
fn is_asked(piece: &Piece, request: &ReqId) -> bool
    ensures { result ≡ is_asked_in piece.now request.now }
{
    match piece {
        Piece::Stepped(step) => is_named(&step.started, request),
        Piece::Halted(halt) => is_named(&halt.started, request),
        Piece::Turned(..) | Piece::Failed(_) => false,
    }
}

/// What entries tell that have no answer.
fn unanswered(is_asked: bool) -> News
    ensures { result ≡ unanswered_if is_asked }
{
    if is_asked { News::Asked } else { News::Nothing }
}

fn piece_told(alloc: Global, piece: &Piece, request: &ReqId) -> Result<News, AllocError>
    ensures { TellsAs result (find (is_about_request request.now) (reverse (entries_of piece.now))) }
{
    match entry_about(piece.own(), request) {
        Some(entry) => told_by(alloc, entry),
        None => Ok(unanswered(is_asked(piece, request))),
    }
}

/// What a chronicle tells of a request since it was asked.
pub(crate) fn told(
    alloc: Global,
    pieces: &[Piece],
    request: &ReqId,
) -> Result<Option<Answer>, AllocError>
    ensures { Tells result (told_in_chronicle (reverse (joined pieces.now)) request.now) }
{
    let mut left = pieces.len();
    while left > 0 {
        left -= 1;
        match piece_told(alloc, &pieces[left], request) {
            Ok(News::Nothing) => {}
            Ok(News::Asked) => return Ok(None),
            Ok(News::Answered(answer)) => return Ok(Some(answer)),
            Err(AllocError) => return Err(AllocError),
        }
    }
    Ok(None)
}
