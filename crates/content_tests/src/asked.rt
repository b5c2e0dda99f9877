//! What the worked cases ask of changes and contents, and whether the answer is the right one.

use crate::given::{are, change, changes, content, partition, push_bytes, query, sliced};
use crate::partitions::{arrival, few_of_many, is_loaded, kept_of};
use cell_merge::Content;
use changes::{Draft, DraftMutation, Held, Mutation, Query, ShownRow, encoded_length, in_order};
use cs_base::{Items, Micros, NodeId, ReqId};
use row_select::{first_rows, shown};
use std::alloc::{AllocError, Global};

/// What is asked of one text or two.
pub enum Ask {
    /// What a change does to another one that does nothing to it.
    Does,
    /// The sum of the lengths of changes, and their length as they are stored.
    Long,
    /// Changes put in order.
    Sorted,
    /// The content of five changes in orders of their numbers, given at once and merged one by one.
    Joined,
    /// Two contents merged.
    Merged,
    /// Whether two contents are the same.
    Same,
    /// What of a content meets bounds.
    Sliced,
    /// The rows between bounds, each with its number of changes.
    Walked,
    /// What is shown of the replies of some nodes.
    Shown,
    /// Whether a page of a limit leaves two rows behind it.
    Paged,
    /// A mutation copied, and a query.
    Copied,
    /// What a request of time 9 makes of drafts.
    Made,
    /// When the change at a place came, of changes that came line by line.
    Arrived,
    /// What is left of many rows where a few are deleted.
    Left,
    /// Whether a load of lines keeps what comes one after another.
    Loaded,
}

/// Whether this is the answer.
pub fn is_so(
    alloc: Global,
    ask: &Ask,
    first: &str,
    second: &str,
    answer: &str,
) -> Result<bool, AllocError> {
    match ask {
        Ask::Does => does(alloc, first, second, answer),
        Ask::Long => Ok(lengths(alloc, first)?.as_str() == answer),
        Ask::Sorted => are(alloc, &in_order(changes(alloc, first)?), answer),
        Ask::Joined => are_joined(alloc, first, answer),
        Ask::Merged => is_merged(alloc, first, second, answer),
        Ask::Same => is_same(alloc, first, second, answer == "yes"),
        Ask::Sliced => are(alloc, sliced(alloc, first, second)?.as_slice(), answer),
        Ask::Walked => Ok(walked(alloc, first, second)?.as_str() == answer),
        Ask::Shown => is_shown(alloc, first, second, answer),
        Ask::Paged => is_paged(alloc, first, second),
        Ask::Copied => Ok(
            is_query_copied(alloc, second)? && is_mutation(alloc, &copied(alloc, first)?, answer)?,
        ),
        Ask::Made => is_mutation(alloc, &made_of(alloc, first)?, answer),
        Ask::Arrived => Ok(arrival(alloc, &kept_of(alloc, first)?, second)?.as_str() == answer),
        Ask::Left => Ok(few_of_many(alloc, first)?.as_str() == answer),
        Ask::Loaded => is_loaded(alloc, first),
    }
}

/// A change outranks what it beats, and what it covers and is not.
fn done(x: &Held, y: &Held) -> &'static str {
    match (x.beats(y), x.covers(y), x.outranks(y)) {
        (true, true, true) => "beats and covers",
        (true, false, true) => "beats",
        (false, true, true) => "covers",
        (false, true, false) => "is",
        (false, false, false) => "",
        _ => "unlike",
    }
}

fn does(alloc: Global, first: &str, second: &str, answer: &str) -> Result<bool, AllocError> {
    let x = change(alloc, first)?;
    let y = change(alloc, second)?;
    let back = if answer == "is" { "is" } else { "" };
    Ok(done(&x, &y) == answer && done(&y, &x) == back)
}

fn lengths(alloc: Global, words: &str) -> Result<String, AllocError> {
    let changes = changes(alloc, words)?;
    let mut sum = 0u64;
    for change in &changes {
        sum = sum.saturating_add(change.encoded_length());
    }
    format!(in alloc; "{sum} {}", encoded_length(&changes))
}

fn merged_one_by_one(alloc: Global, words: &str) -> Result<Content, AllocError> {
    let mut whole = Content::new(alloc);
    for word in words.split_whitespace() {
        whole = whole.merge(alloc, content(alloc, word)?)?;
    }
    Ok(whole)
}

/// A cell, a marker, and the deletions of a row, of a range and of the partition, each later than some of the others.
const KINDS: [&str; 5] = ["2b=v@4", "Mc=@2", "Db@3", "Rc..d+@2", "P@1"];

/// The words of changes of these numbers.
fn numbered(alloc: Global, numbers: &str) -> Result<String, AllocError> {
    let mut words = String::new(alloc);
    for number in numbers.bytes() {
        words.push_str(KINDS[usize::from(number % 16) % 5])?;
        words.push(' ')?;
    }
    Ok(words)
}

fn are_joined(alloc: Global, orders: &str, answer: &str) -> Result<bool, AllocError> {
    let mut alike = true;
    for order in orders.split_whitespace() {
        let words = numbered(alloc, order)?;
        alike &= are(alloc, content(alloc, &words)?.as_slice(), answer)?;
        alike &= are(alloc, merged_one_by_one(alloc, &words)?.as_slice(), answer)?;
    }
    Ok(alike)
}

fn is_merged(alloc: Global, first: &str, second: &str, answer: &str) -> Result<bool, AllocError> {
    let first = content(alloc, first)?.copy(alloc)?;
    let both = first.merge(alloc, content(alloc, second)?)?;
    are(alloc, &both.into_changes(), answer)
}

fn is_same(alloc: Global, first: &str, second: &str, same: bool) -> Result<bool, AllocError> {
    let first = content(alloc, first)?;
    Ok(first.is_same(&content(alloc, second)?) == same)
}

fn walked(alloc: Global, words: &str, asked: &str) -> Result<String, AllocError> {
    let content = content(alloc, words)?;
    let asked = query(alloc, asked)?;
    let mut text = String::new(alloc);
    let mut walk = content.rows(&asked.from, &asked.upto, asked.reversed);
    while let Some((row, changes)) = walk.next_row() {
        push_bytes(&mut text, row)?;
        text.push(if changes.len() == 1 { '1' } else { '+' })?;
    }
    Ok(text)
}

/// Writes a row, as `a:3=x,4=y,`.
fn push_row(text: &mut String, row: &ShownRow) -> Result<(), AllocError> {
    push_bytes(text, &row.row)?;
    text.push(':')?;
    for cell in row.cells.as_slice() {
        text.push(char::from(b'0' + cell.column % 10))?;
        text.push('=')?;
        push_bytes(text, &cell.value)?;
        text.push(',')?;
    }
    text.push(' ')
}

/// The rows that are shown, and a `+` where more follow.
fn read(alloc: Global, content: &Content, asked: &Query) -> Result<String, AllocError> {
    let (rows, more) = shown(alloc, content, asked)?;
    let mut text = String::new(alloc);
    for row in rows.as_slice() {
        push_row(&mut text, row)?;
    }
    if more {
        text.push('+')?;
    }
    Ok(text)
}

/// What some nodes reply to a query, merged, where each holds the changes of a line.
fn replies(alloc: Global, nodes: &str, replied: &str) -> Result<Content, AllocError> {
    let mut whole = Content::new(alloc);
    for words in nodes.lines() {
        whole = whole.merge(alloc, sliced(alloc, words, replied)?)?;
    }
    Ok(whole)
}

/// What is shown to a query where each node replies what another one asks for.
fn read_of_replies(
    alloc: Global,
    nodes: &str,
    replied: &str,
    asked: &str,
) -> Result<String, AllocError> {
    let content = replies(alloc, nodes, replied)?;
    let asked = query(alloc, asked)?;
    read(alloc, &content, &asked)
}

/// Whether this is shown of slices of what the nodes hold, and of all of it.
fn is_shown(alloc: Global, nodes: &str, asked: &str, answer: &str) -> Result<bool, AllocError> {
    Ok(
        read_of_replies(alloc, nodes, asked, asked)?.as_str() == answer
            && read_of_replies(alloc, nodes, "..+", asked)?.as_str() == answer,
    )
}

/// Whether a page of the limit is full and tells of more, and the walk stands before the last two rows then.
fn is_paged(alloc: Global, words: &str, asked: &str) -> Result<bool, AllocError> {
    let content = content(alloc, words)?;
    let asked = query(alloc, asked)?;
    let mut walk = content.rows(&asked.from, &asked.upto, asked.reversed);
    let (rows, more) = first_rows(alloc, &mut walk, asked.limit)?;
    let is_full = rows.as_slice().len() == asked.limit as usize;
    let two_are_left = walk.next_row().is_some() && walk.next_row().is_some();
    Ok(is_full && more && two_are_left && walk.next_row().is_none())
}

fn is_query_copied(alloc: Global, text: &str) -> Result<bool, AllocError> {
    let query = query(alloc, text)?;
    Ok(query.copy(alloc)? == query)
}

/// A copy of a mutation of copies.
fn copied(alloc: Global, words: &str) -> Result<Mutation, AllocError> {
    let mut mutation = Mutation {
        partition: partition(alloc)?.copy(alloc)?,
        changes: Items::new(alloc),
    };
    for change in &changes(alloc, words)? {
        mutation.changes.push(change.copy(alloc)?)?;
    }
    mutation.copy(alloc)
}

/// Drafts of changes, without a timestamp where that is 0.
fn drafts(alloc: Global, words: &str) -> Result<Items<Draft>, AllocError> {
    let mut drafts = Items::new(alloc);
    for change in changes(alloc, words)? {
        let Held {
            place,
            value,
            timestamp,
            ..
        } = change;
        drafts.push(Draft {
            place,
            value,
            timestamp: if timestamp == 0 {
                None
            } else {
                Some(timestamp)
            },
        })?;
    }
    Ok(drafts)
}

fn made_of(alloc: Global, words: &str) -> Result<Mutation, AllocError> {
    let partition = partition(alloc)?;
    let draft = DraftMutation {
        partition,
        changes: drafts(alloc, words)?,
    };
    let request = ReqId {
        node: NodeId::FIRST,
        time: Micros::new(9),
    };
    draft.mutation(alloc, request)
}

fn is_mutation(alloc: Global, found: &Mutation, words: &str) -> Result<bool, AllocError> {
    Ok(found.partition == partition(alloc)? && are(alloc, found.changes.as_slice(), words)?)
}
