//! The answers that a node has told and that were not collected yet.

ghost use Rattle.std.specs.Prelude.{◌≡◌, ◌<◌, ◌++◌, [], List, vec_len, vec_capacity, filter, find, option_and_then, position};
ghost use Rattle.std.specs.List.{list_any};
ghost use Rattle.peer_messages.specs.declared.chronicle.Entry.{Entry as entry_value};
ghost use Rattle.wired_node.specs.Answers.{joined, has_some, is_answer as is_answer_entry, is_answer_to as is_answer_to_request, answer_of as answer_of_entry, without_first, collected_by, answer_for, left_behind};

use client_desk::Answer;
use cs_base::{Items, ReqId};
use peer_messages::{Entries, Entry, What};
use std::alloc::Global;
use std::mem;

fn is_answer(entry: &Entry) -> bool
    ensures { result ≡ is_answer_entry entry.now }
{
    matches!(
        entry,
        Entry::Acked(..) | Entry::Used(..) | Entry::Rows(..) | Entry::Refused(..)
    )
}

fn is_answer_to(entry: &Entry, request: &ReqId) -> bool
    ensures { result ≡ is_answer_to_request request.now entry.now }
{
    match entry {
        Entry::Acked(other, ..)
        | Entry::Used(other, _)
        | Entry::Rows(other, ..)
        | Entry::Refused(other, _) => other == request,
        Entry::Asked(_)
        | Entry::Submitted(..)
        | Entry::Began(..)
        | Entry::Time(..)
        | Entry::Marks(..)
        | Entry::Turned(..)
        | Entry::Tables(..)
        | Entry::Stopped(_) => false,
    }
}

/// The answer that an entry gives. Rows are moved.
fn answer_of(entry: Entry) -> Option<Answer>
    ensures { result ≡ answer_of_entry entry }
{
    match entry {
        Entry::Acked(..) | Entry::Used(..) => Some(Answer::Acknowledged),
        Entry::Rows(_, rows, more, _) => Some(Answer::Rows(rows, more)),
        Entry::Refused(_, refusal) => Some(Answer::Refused(refusal)),
        Entry::Asked(_)
        | Entry::Submitted(..)
        | Entry::Began(..)
        | Entry::Time(..)
        | Entry::Marks(..)
        | Entry::Turned(..)
        | Entry::Tables(..)
        | Entry::Stopped(_) => None,
    }
}

/// Of entries, those that give an answer.
fn only_answers(entries: Entries) -> Vec<Entry>
    ensures { result.items ≡ filter is_answer_entry entries }
{
    let mut told = entries.into_vec();
    told.retain(|entry| is_answer(entry));
    told
}

/// Keeps what entries answer, in one piece, where they answer something. It takes no memory.
pub(crate) fn keep(pieces: &mut Vec<Entries>, entries: Entries)
    requires { vec_len pieces.old < vec_capacity pieces.old }
    ensures { joined pieces.new.items ≡ joined pieces.old.items ++ filter is_answer_entry entries }
{
    let told = only_answers(entries);
    if !told.is_empty() {
        pieces.push_reserved(Items::from_vec(told));
    }
}

fn is_in(piece: &[Entry], request: &ReqId) -> bool
    ensures { result ≡ list_any (is_answer_to_request request.now) piece.now }
{
    piece.iter().any(|entry| is_answer_to(entry, request))
}

fn piece_of(pieces: &[Entries], request: &ReqId) -> Option<usize>
    ensures { result ≡ position (list_any (is_answer_to_request request.now)) pieces.now }
{
    pieces
        .iter()
        .position(|piece| is_in(piece.as_slice(), request))
}

/// Whether an answer to the request is kept.
pub(crate) fn is_kept(pieces: &[Entries], request: &ReqId) -> bool
    ensures { result ≡ list_any (is_answer_to_request request.now) (joined pieces.now) }
{
    piece_of(pieces, request).is_some()
}

fn place_in(piece: &[Entry], request: &ReqId) -> Option<usize>
    ensures { result ≡ position (is_answer_to_request request.now) piece.now }
{
    piece.iter().position(|entry| is_answer_to(entry, request))
}

/// Takes the first answer to the request out of a piece.
fn take_from(piece: &mut Entries, alloc: Global, request: &ReqId) -> Option<Entry>
    ensures taken { result ≡ find (is_answer_to_request request.now) piece.old }
    ensures left { piece.new ≡ without_first (is_answer_to_request request.now) piece.old }
{
    let place = place_in(piece.as_slice(), request)?;
    let mut entries = mem::replace(piece, Items::new(alloc)).into_vec();
    let taken = entries.remove(place);
    drop(mem::replace(piece, Items::from_vec(entries)));
    Some(taken)
}

/// Takes the first answer to the request out of its piece.
fn take_out(pieces: &mut [Entries], alloc: Global, request: &ReqId) -> Option<Entry>
    ensures taken { result ≡ find (is_answer_to_request request.now) (joined pieces.old) }
    ensures left { joined pieces.new ≡ without_first (is_answer_to_request request.now) (joined pieces.old) }
{
    let place = piece_of(pieces, request)?;
    let piece = &mut pieces[place];
    take_from(piece, alloc, request)
}

fn has_answer(piece: &Entries) -> bool
    ensures { result ≡ has_some piece.now }
{
    !piece.as_slice().is_empty()
}

/// Lets go of pieces of which nothing is left.
fn drop_empty(pieces: &mut Vec<Entries>)
    ensures { joined pieces.new.items ≡ joined pieces.old.items }
{
    pieces.retain(|piece| has_answer(piece));
}

/// Takes the first answer to the request out. There are few pieces: about as many as connections.
fn take(pieces: &mut Vec<Entries>, alloc: Global, request: &ReqId) -> Option<Entry>
    ensures taken { result ≡ find (is_answer_to_request request.now) (joined pieces.old.items) }
    ensures left { joined pieces.new.items ≡ without_first (is_answer_to_request request.now) (joined pieces.old.items) }
{
    let taken = take_out(pieces, alloc, request);
    drop_empty(pieces);
    taken
}

fn collected(what: &What) -> Option<ReqId>
    ensures { result ≡ collected_by what.now }
{
    match what {
        What::Collect(request) => Some(*request),
        What::Client(_) | What::Deliver(_) | What::Alive(..) | What::Flush | What::Tick => None,
    }
}

/// Takes the answer out that an event collects.
pub(crate) fn collect(pieces: &mut Vec<Entries>, alloc: Global, what: &What) -> Option<Answer>
    ensures given { result ≡ answer_for (collected_by what.now) (joined pieces.old.items) }
    ensures left { joined pieces.new.items ≡ left_behind (collected_by what.now) (joined pieces.old.items) }
{
    let request = collected(what)?;
    let taken = take(pieces, alloc, &request)?;
    answer_of(taken)
}
