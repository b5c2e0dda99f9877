//! What coordinators and settings tell, and lists of nodes, in words.

use crate::given::{node, partition};
use cs_base::{Level, NodeId};
use peer_messages::{Body, Entry, Move, Setting, count_up, heard_of, is_in, nodes_up};
use statement_plan::Columns;
use std::alloc::{AllocError, Global};
use std::fmt::Write;

/// Writes the nodes' digits, behind a `>`.
pub fn tell_nodes(out: &mut String, nodes: &[NodeId]) -> Result<(), AllocError> {
    out.push('>')?;
    for node in nodes {
        out.push(char::from(node.number().wrapping_add(b'0')))?;
    }
    Ok(())
}

fn body_name(body: &Body) -> &'static str {
    match body {
        Body::Write(_) => " write",
        Body::Read(_) => " read",
        Body::Mend(mutation) if mutation.changes.as_slice().len() == 2 => " mend",
        _ => " other",
    }
}

/// Writes an entry that the tests ask for, with the replicas on which it rests. A write is acknowledged at QUORUM, a read begins
/// at TWO and counts rows, and no more rows follow those that are told.
fn tell_entry(out: &mut String, entry: &Entry) -> Result<(), AllocError> {
    match entry {
        Entry::Submitted(_, _) => out.push_str(" submitted"),
        Entry::Began(_, _, Level::Two, Columns::Count) => out.push_str(" began"),
        Entry::Acked(_, Level::Quorum, heard) => {
            out.push_str(" acked")?;
            tell_nodes(out, heard.as_slice())
        }
        Entry::Rows(_, rows, false, grounds) => {
            let rows = rows.as_slice();
            write!(out, " {rows:?}")?;
            tell_nodes(out, grounds.heard.as_slice())
        }
        Entry::Refused(_, refusal) => write!(out, " {refusal:?}"),
        _ => out.push_str(" other"),
    }
}

/// Writes what is sent and to whom, what is entered, and whether the request is done with.
pub fn tell_move(out: &mut String, turn: &Move) -> Result<(), AllocError> {
    for sent in turn.sends.as_slice() {
        out.push_str(body_name(&sent.body))?;
        tell_nodes(out, &[sent.upto])?;
    }
    for entry in turn.entries.as_slice() {
        tell_entry(out, entry)?;
    }
    if turn.ended {
        out.push_str(" over")?;
    }
    Ok(())
}

/// Writes a list of nodes, whether the node is among them, how many of nodes 1, 2 and 4 are, how many of these are not, and which
/// are not.
pub fn tell_list(
    alloc: Global,
    out: &mut String,
    list: &[NodeId],
    one: NodeId,
) -> Result<(), AllocError> {
    let replicas = [node(1), node(2), node(4)];
    tell_nodes(out, list)?;
    let among = is_in(list, one);
    let (heard, up) = (heard_of(&replicas, list), count_up(&replicas, list));
    write!(out, " {among} {heard} {up}")?;
    tell_nodes(out, nodes_up(alloc, &replicas, list)?.as_slice())
}

/// Writes how many replicas of a partition of the table a level needs, whether there is the table, and which the replicas are.
pub fn tell_needed(
    alloc: Global,
    out: &mut String,
    setting: &Setting,
    level: Level,
    table: &str,
) -> Result<(), AllocError> {
    let partition = partition(alloc, table.parse().unwrap_or(9), -4)?;
    let needed = setting.needed(level, &partition);
    let has_table = setting.has_table(partition.table);
    let replicas = setting.replicas(&partition);
    drop(partition);
    write!(out, " {needed} {has_table}")?;
    tell_nodes(out, replicas.as_slice())
}
