//! What a step tells, in words.

use changes::ShownRow;
use cs_base::{NodeId, ReqId};
use node_core::{Lost, StepError};
use peer_messages::{Body, Entry, Message, Outputs};
use std::alloc::AllocError;
use std::fmt::Write;

/// Writes the nodes' digits, behind a `>`.
fn tell_nodes(out: &mut String, nodes: &[NodeId]) -> Result<(), AllocError> {
    out.push('>')?;
    for node in nodes {
        out.push(char::from(node.number().wrapping_add(b'0')))?;
    }
    Ok(())
}

fn value_of(rows: &[ShownRow]) -> Option<u8> {
    let cell = rows.first()?.cells.as_slice().first()?;
    Some(*cell.value.as_slice().first()?)
}

/// Writes how many rows are shown, and the first byte of the first value.
fn tell_rows(out: &mut String, rows: &[ShownRow]) -> Result<(), AllocError> {
    write!(out, " {} shown", rows.len())?;
    match value_of(rows) {
        Some(byte) => write!(out, " {}", char::from(byte)),
        None => Ok(()),
    }
}

fn tell_entry(out: &mut String, entry: &Entry) -> Result<(), AllocError> {
    match entry {
        Entry::Submitted(..) => out.push_str(" submitted"),
        Entry::Began(..) => out.push_str(" began"),
        Entry::Acked(_, _, heard) => {
            out.push_str(" acked")?;
            tell_nodes(out, heard.as_slice())
        }
        Entry::Rows(_, rows, ..) => tell_rows(out, rows.as_slice()),
        Entry::Refused(_, refusal) => write!(out, " {refusal:?}"),
        Entry::Used(..) => out.push_str(" used"),
        _ => out.push_str(" other"),
    }
}

/// Writes the last entry.
pub(crate) fn tell_last(out: &mut String, entries: &[Entry]) -> Result<(), AllocError> {
    match entries.last() {
        Some(entry) => tell_entry(out, entry),
        None => Ok(()),
    }
}

fn body_name(body: &Body) -> &'static str {
    match body {
        Body::Write(_) => " write",
        Body::WriteAck => " ack",
        Body::Hint(..) => " hint",
        _ => " other",
    }
}

fn tell_sends(out: &mut String, sends: &[Message]) -> Result<(), AllocError> {
    for message in sends {
        out.push_str(body_name(&message.body))?;
        tell_nodes(out, &[message.upto])?;
    }
    Ok(())
}

/// Writes whether the message that came was taken, the node's time then, and what it sends.
fn tell_taken(out: &mut String, outputs: &Outputs) -> Result<(), AllocError> {
    let taken = if outputs.refused { "refused" } else { "taken" };
    write!(out, " {taken} {}", outputs.time.count())?;
    tell_sends(out, outputs.sends.as_slice())
}

/// Writes what it sends, and its last entry.
fn tell_all(out: &mut String, outputs: &Outputs) -> Result<(), AllocError> {
    tell_sends(out, outputs.sends.as_slice())?;
    tell_last(out, outputs.entries.as_slice())
}

/// Writes what is told of the step of a line with this verb, which is mostly its last entry. Of a mark it is which hints are sent,
/// and which nodes are dead then.
fn tell_outputs(
    out: &mut String,
    verb: &str,
    outputs: &Outputs,
    dead: &[NodeId],
) -> Result<(), AllocError> {
    match verb {
        "tick" => write!(out, " {}", outputs.time.count()),
        "judge" => tell_taken(out, outputs),
        "spread" => tell_all(out, outputs),
        "up" | "down" => {
            tell_all(out, outputs)?;
            tell_nodes(out, dead)
        }
        _ => tell_last(out, outputs.entries.as_slice()),
    }
}

fn tell_request(out: &mut String, id: &ReqId, what: &str) -> Result<(), AllocError> {
    write!(out, " {} {what} at {}", id.node.number(), id.time.count())
}

/// Writes which request was submitted first.
fn tell_submitted(out: &mut String, entries: &[Entry]) -> Result<(), AllocError> {
    match entries.first() {
        Some(Entry::Submitted(id, _)) => tell_request(out, id, "submitted"),
        Some(_) => out.push_str(" other"),
        None => Ok(()),
    }
}

/// Writes which request began in a step that failed, and which was submitted.
fn tell_lost(out: &mut String, lost: &Lost) -> Result<(), AllocError> {
    out.push_str(" failed")?;
    if let Some(id) = &lost.started {
        tell_request(out, id, "began")?;
    }
    tell_submitted(out, lost.entries.as_slice())
}

/// Writes what a step tells, or why there is none.
pub(crate) fn tell(
    out: &mut String,
    verb: &str,
    step: &Result<Outputs, StepError>,
    dead: &[NodeId],
) -> Result<(), AllocError> {
    match step {
        Ok(outputs) => tell_outputs(out, verb, outputs, dead),
        Err(StepError::Failed(lost)) => tell_lost(out, lost),
        Err(StepError::NoRoom) => out.push_str(" no room"),
        Err(StepError::TooLarge(partition)) => write!(out, " too large {partition:?}"),
        Err(StepError::NoMemory) => out.push_str(" no memory"),
    }
}
