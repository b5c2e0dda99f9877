//! The lines of events.

ghost use Rattle.std.specs.Prelude.{◌≡◌, ◌∷◌, ◌++◌, [], OnOk, codes, flat_map, map};
ghost use Rattle.std.specs.Fmt.{decimal, signed_decimal};
ghost use Rattle.script_print.specs.Printed.{spaced, level_name, put_line, get_line, cql_line, message_line, pair_line, mark_line, crash_line, stop_line, event_line, number_line, ended, printed_lines};

use crate::words::{
    push_level, push_node, push_number, push_outcome, push_signed, push_up, push_word,
};
use cs_base::{Level, NodeId};
use cs_store::Outcome;
use fault_script::{CqlRequest, GetRequest, MessagePlace, PutRequest, ScriptEvent};
use std::alloc::{AllocError, Global};

/// The node, the level and the key, with which `put` and `get` begin.
fn push_target(
    alloc: Global,
    out: &mut Vec<u8>,
    node: NodeId,
    level: Level,
    key: &str,
) -> Result<(), AllocError>
    ensures { OnOk result (out.new.items ≡ out.old.items ++ flat_map spaced (decimal node ∷ level_name level ∷ key.now ∷ [])) }
{
    push_node(alloc, out, node)?;
    push_level(out, level)?;
    push_word(out, key)
}

fn push_cell(
    alloc: Global,
    out: &mut Vec<u8>,
    row: &str,
    timestamp: i64,
    value: &str,
) -> Result<(), AllocError>
    ensures { OnOk result (out.new.items ≡ out.old.items ++ flat_map spaced (row.now ∷ signed_decimal timestamp ∷ value.now ∷ [])) }
{
    push_word(out, row)?;
    push_signed(alloc, out, timestamp)?;
    push_word(out, value)
}

fn push_put(alloc: Global, out: &mut Vec<u8>, put: &PutRequest) -> Result<(), AllocError>
    ensures { OnOk result (out.new.items ≡ out.old.items ++ put_line put.now) }
{
    out.extend_from_slice(b"put")?;
    push_target(alloc, out, put.node, put.level, put.key.as_str())?;
    push_cell(
        alloc,
        out,
        put.row.as_str(),
        put.timestamp,
        put.value.as_str(),
    )
}

fn push_get(alloc: Global, out: &mut Vec<u8>, get: &GetRequest) -> Result<(), AllocError>
    ensures { OnOk result (out.new.items ≡ out.old.items ++ get_line get.now) }
{
    out.extend_from_slice(b"get")?;
    push_target(alloc, out, get.node, get.level, get.key.as_str())
}

fn push_cql(alloc: Global, out: &mut Vec<u8>, request: &CqlRequest) -> Result<(), AllocError>
    ensures { OnOk result (out.new.items ≡ out.old.items ++ cql_line request.now) }
{
    out.extend_from_slice(b"cql")?;
    push_node(alloc, out, request.node)?;
    push_level(out, request.level)?;
    push_word(out, request.text.as_str())
}

fn push_message(
    alloc: Global,
    out: &mut Vec<u8>,
    word: &str,
    place: MessagePlace,
) -> Result<(), AllocError>
    ensures { OnOk result (out.new.items ≡ out.old.items ++ message_line word.now place) }
{
    out.extend_from_slice(word.as_bytes())?;
    push_node(alloc, out, place.from)?;
    push_node(alloc, out, place.upto)?;
    push_number(alloc, out, place.number)
}

fn push_settle(alloc: Global, out: &mut Vec<u8>, count: u32) -> Result<(), AllocError>
    ensures { OnOk result (out.new.items ≡ out.old.items ++ number_line (codes "settle") count) }
{
    out.extend_from_slice(b"settle")?;
    push_number(alloc, out, u64::from(count))
}

/// A line that names a node.
fn push_named(alloc: Global, out: &mut Vec<u8>, word: &str, node: NodeId) -> Result<(), AllocError>
    ensures { OnOk result (out.new.items ≡ out.old.items ++ number_line word.now node) }
{
    out.extend_from_slice(word.as_bytes())?;
    push_node(alloc, out, node)
}

/// A line that names a node, and a number.
fn push_pair(
    alloc: Global,
    out: &mut Vec<u8>,
    word: &str,
    node: NodeId,
    number: u64,
) -> Result<(), AllocError>
    ensures { OnOk result (out.new.items ≡ out.old.items ++ pair_line word.now node number) }
{
    out.extend_from_slice(word.as_bytes())?;
    push_node(alloc, out, node)?;
    push_number(alloc, out, number)
}

fn push_mark(
    alloc: Global,
    out: &mut Vec<u8>,
    node: NodeId,
    peer: NodeId,
    up: bool,
) -> Result<(), AllocError>
    ensures { OnOk result (out.new.items ≡ out.old.items ++ mark_line node peer up) }
{
    out.extend_from_slice(b"mark")?;
    push_node(alloc, out, node)?;
    push_node(alloc, out, peer)?;
    push_up(out, up)
}

fn push_crash(
    alloc: Global,
    out: &mut Vec<u8>,
    node: NodeId,
    outcome: Outcome,
) -> Result<(), AllocError>
    ensures { OnOk result (out.new.items ≡ out.old.items ++ crash_line node outcome) }
{
    out.extend_from_slice(b"crash")?;
    push_node(alloc, out, node)?;
    push_outcome(out, outcome)
}

fn push_stop(
    alloc: Global,
    out: &mut Vec<u8>,
    node: NodeId,
    call: u64,
    outcome: Outcome,
) -> Result<(), AllocError>
    ensures { OnOk result (out.new.items ≡ out.old.items ++ stop_line node call outcome) }
{
    out.extend_from_slice(b"stopat")?;
    push_node(alloc, out, node)?;
    push_number(alloc, out, call)?;
    push_outcome(out, outcome)
}

fn push_event(alloc: Global, out: &mut Vec<u8>, event: &ScriptEvent) -> Result<(), AllocError>
    ensures { OnOk result (out.new.items ≡ out.old.items ++ event_line event.now) }
{
    match event {
        ScriptEvent::Put(put) => push_put(alloc, out, put),
        ScriptEvent::Get(get) => push_get(alloc, out, get),
        ScriptEvent::Cql(request) => push_cql(alloc, out, request),
        ScriptEvent::Deliver(place) => push_message(alloc, out, "deliver", *place),
        ScriptEvent::Drop(place) => push_message(alloc, out, "drop", *place),
        ScriptEvent::Settle(count) => push_settle(alloc, out, *count),
        ScriptEvent::Clock(node, micros) => push_pair(alloc, out, "clock", *node, micros.count()),
        ScriptEvent::Mark(node, peer, up) => push_mark(alloc, out, *node, *peer, *up),
        ScriptEvent::Crash(node, outcome) => push_crash(alloc, out, *node, *outcome),
        ScriptEvent::StopAt(node, call, outcome) => {
            push_stop(alloc, out, *node, u64::from(*call), *outcome)
        }
        ScriptEvent::FailAt(node, call) => {
            push_pair(alloc, out, "failat", *node, u64::from(*call))
        }
        ScriptEvent::Restart(node) => push_named(alloc, out, "restart", *node),
        ScriptEvent::Flush(node) => push_named(alloc, out, "flush", *node),
        ScriptEvent::Merge(node) => push_named(alloc, out, "merge", *node),
    }
}

fn push_event_line(alloc: Global, out: &mut Vec<u8>, event: &ScriptEvent) -> Result<(), AllocError>
    ensures { OnOk result (out.new.items ≡ out.old.items ++ ended (event_line event.now)) }
{
    push_event(alloc, out, event)?;
    out.push(b'\n')?;
    Ok(())
}

/// The lines of events, in order.
pub(crate) fn push_events(
    alloc: Global,
    out: &mut Vec<u8>,
    events: &[ScriptEvent],
) -> Result<(), AllocError>
    ensures { OnOk result (out.new.items ≡ out.old.items ++ printed_lines (map event_line events.now)) }
{
    for event in events {
        push_event_line(alloc, out, event)?;
    }
    Ok(())
}
