//! Changes, contents and queries as the tests write them.
//!
//! A change is a word. It begins with its place: `P` is the deletion of the partition, `Ra..b+` that of the rows between two
//! bounds, `Da` that of a row, `Ma` a row's marker, and `2a` a cell of row a in column 2, `*a` one in column 200. Behind a `=`
//! stands the value, if there is one; behind a `@` the timestamp, which is 1 otherwise; and behind a `#` when it was submitted,
//! which is 1 otherwise, and is the request's time too unless that stands behind a `/`. A bound stands before the rows that
//! begin with its bytes, or with a `+` behind them. Each character is a byte.

use cell_merge::Content;
use changes::{Bound, Held, Partition, Place, Query};
use cs_base::{Bytes, Micros, NodeId, ReqId};
use std::alloc::{AllocError, Global};

pub fn bytes(alloc: Global, text: &str) -> Result<Bytes, AllocError> {
    let mut bytes = Vec::new(alloc);
    for sign in text.chars() {
        bytes.push((u32::from(sign) % 256) as u8)?;
    }
    Ok(Bytes::from_vec(bytes))
}

pub fn push_bytes(text: &mut String, bytes: &Bytes) -> Result<(), AllocError> {
    for byte in bytes.as_slice() {
        text.push(char::from(*byte))?;
    }
    Ok(())
}

pub fn bound(alloc: Global, text: &str) -> Result<Bound, AllocError> {
    let at = text.strip_suffix('+');
    Ok(Bound {
        at: bytes(alloc, at.unwrap_or(text))?,
        after: at.is_some(),
    })
}

/// The place of a kind at these bounds, or in the row of the first.
fn place_of(kind: char, from: Bound, upto: Bound) -> Place {
    match kind {
        'P' => Place::PartGone,
        'R' => Place::RangeGone(from, upto),
        'D' => Place::RowGone(from.at),
        'M' => Place::Marker(from.at),
        '*' => Place::Cell(from.at, 200),
        digit => Place::Cell(from.at, (u32::from(digit) % 16) as u8),
    }
}

pub fn place(alloc: Global, text: &str) -> Result<Place, AllocError> {
    let mut signs = text.chars();
    let kind = signs.next().unwrap_or('P');
    let bounds = signs.as_str();
    let (from, upto) = bounds.split_once("..").unwrap_or((bounds, ""));
    let from = bound(alloc, from)?;
    Ok(place_of(kind, from, bound(alloc, upto)?))
}

pub fn change(alloc: Global, word: &str) -> Result<Held, AllocError> {
    let (word, submitted) = word.split_once('#').unwrap_or((word, "1"));
    let (word, timestamp) = word.split_once('@').unwrap_or((word, "1"));
    let (submitted, time) = submitted.split_once('/').unwrap_or((submitted, submitted));
    let (at, text) = word.split_once('=').unwrap_or((word, ""));
    let value = if at.len() < word.len() {
        Some(bytes(alloc, text)?)
    } else {
        None
    };
    Ok(Held {
        place: place(alloc, at)?,
        value,
        timestamp: timestamp.parse().unwrap_or(0),
        submitted: Micros::new(submitted.parse().unwrap_or(0)),
        request: ReqId {
            node: NodeId::FIRST,
            time: Micros::new(time.parse().unwrap_or(0)),
        },
    })
}

pub fn changes(alloc: Global, words: &str) -> Result<Vec<Held>, AllocError> {
    let mut changes = Vec::new(alloc);
    for word in words.split_whitespace() {
        changes.push(change(alloc, word)?)?;
    }
    Ok(changes)
}

/// The content of changes in any order.
pub fn content(alloc: Global, words: &str) -> Result<Content, AllocError> {
    Content::from_changes(alloc, changes(alloc, words)?)
}

/// Whether these changes were found.
pub fn are(alloc: Global, found: &[Held], words: &str) -> Result<bool, AllocError> {
    Ok(found == changes(alloc, words)?.as_slice())
}

pub fn partition(alloc: Global) -> Result<Partition, AllocError> {
    Ok(Partition {
        table: 3,
        token: -7,
        key: bytes(alloc, "k")?,
    })
}

/// A query of the rows between two bounds with a limit behind them, as `a..b+ 5`, in reverse with a `-` before them.
pub fn query(alloc: Global, text: &str) -> Result<Query, AllocError> {
    let (bounds, limit) = text.split_once(' ').unwrap_or((text, "9"));
    let (from, upto) = bounds.split_once("..").unwrap_or((bounds, ""));
    let reversed = from.strip_prefix('-');
    let from = bound(alloc, reversed.unwrap_or(from))?;
    let upto = bound(alloc, upto)?;
    Ok(Query {
        partition: partition(alloc)?,
        from,
        upto,
        reversed: reversed.is_some(),
        limit: limit.parse().unwrap_or(0),
    })
}

/// What the rows that a query asks for ask of the content.
pub fn sliced(alloc: Global, words: &str, asked: &str) -> Result<Content, AllocError> {
    let asked = query(alloc, asked)?;
    content(alloc, words)?.slice(alloc, &asked.from, &asked.upto)
}
