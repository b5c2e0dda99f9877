//! The lines after `run`.

ghost use Rattle.std.specs.Prelude.{◌≡◌, ◌≤◌, ◌<◌, ◌&&◌, ◌∷◌, [], IfOk, codes, length};
ghost use Rattle.std.specs.Str.{bytes_eq};
ghost use Rattle.script_words.specs.Words.{is_number as is_number_word, is_signed_number as is_signed_word};
ghost use Rattle.fault_script.specs.Lines.{put_line as put_line_of, get_line as get_line_of, message_line as message_line_of, settle_line as settle_line_of, word_line as word_line_of, event_line as event_line_of, cql_line as cql_line_of, event_at as event_at_of};
ghost use Rattle.fault_script.specs.Lines.{named_node as named_node_of, named_pair as named_pair_of, node_line as node_line_of, pair_line as pair_line_of, clock_line as clock_line_of, named_peers as named_peers_of, mark_line as mark_line_of, crash_line as crash_line_of, stop_line as stop_line_of, fail_line as fail_line_of, node_event as node_event_of};
ghost use Rattle.script_words.specs.Texts.{texts_of};
ghost use Rattle.fault_script.specs.Reads.{LineGives};

use crate::script::{
    EventLine, Fault, GetRequest, LineError, MessagePlace, PutRequest, ScriptEvent,
};
use cs_base::{Micros, NodeId, Text};
use script_words::{
    behind, first_word, is_number, is_signed_number, level_of, long_value, node_of, number_within,
    outcome_of, up_of, words,
};
use std::alloc::{AllocError, Global};

/// The most times that a line `settle` delivers a message.
const MOST_DELIVERIES: u64 = 100_000;

/// The last call of a store that a line can name.
const LAST_CALL: u64 = 4_294_967_295;

/// The row and the value of a line `put`.
fn cell_texts(alloc: Global, row: &str, value: &str) -> Result<(Text, Text), AllocError>
    ensures { IfOk result (λ texts. texts ≡ (row.now, value.now)) }
{
    let row = Text::from_str(alloc, row)?;
    let value = Text::from_str(alloc, value)?;
    Ok((row, value))
}

fn put_line(alloc: Global, nodes: u8, words: &[&str]) -> Result<ScriptEvent, LineError>
    requires some { 1 ≤ nodes }
    requires few { nodes ≤ 7 }
    ensures { LineGives result (put_line_of nodes (texts_of words.now)) }
{
    let [node, level, key, row, timestamp, value] = words else {
        return Err(LineError::Fault(Fault::Line));
    };
    if !is_number(node) || !is_signed_number(timestamp) {
        return Err(LineError::Fault(Fault::Line));
    }
    let Some(node) = node_of(nodes, node) else {
        return Err(LineError::Fault(Fault::Number));
    };
    let Some(level) = level_of(level) else {
        return Err(LineError::Fault(Fault::Number));
    };
    let Some(timestamp) = long_value(timestamp) else {
        return Err(LineError::Fault(Fault::Number));
    };
    let key = Text::from_str(alloc, key)?;
    let (row, value) = cell_texts(alloc, row, value)?;
    Ok(ScriptEvent::Put(PutRequest {
        node,
        level,
        key,
        row,
        timestamp,
        value,
    }))
}

fn get_line(alloc: Global, nodes: u8, words: &[&str]) -> Result<ScriptEvent, LineError>
    requires some { 1 ≤ nodes }
    requires few { nodes ≤ 7 }
    ensures { LineGives result (get_line_of nodes (texts_of words.now)) }
{
    let [node, level, key] = words else {
        return Err(LineError::Fault(Fault::Line));
    };
    if !is_number(node) {
        return Err(LineError::Fault(Fault::Line));
    }
    let Some(node) = node_of(nodes, node) else {
        return Err(LineError::Fault(Fault::Number));
    };
    let Some(level) = level_of(level) else {
        return Err(LineError::Fault(Fault::Number));
    };
    let key = Text::from_str(alloc, key)?;
    Ok(ScriptEvent::Get(GetRequest { node, level, key }))
}

/// Whether the words of a message's place are numbers.
fn are_numbers(from: &str, upto: &str, number: &str) -> bool
    ensures { result ≡ (is_number_word from.now && is_number_word upto.now && is_number_word number.now) }
{
    is_number(from) && is_number(upto) && is_number(number)
}

/// The message that the words of a line `deliver` or `drop` name.
fn message_place(nodes: u8, words: &[&str]) -> Result<MessagePlace, Fault>
    requires some { 1 ≤ nodes }
    requires few { nodes ≤ 7 }
    ensures { result ≡ message_line_of nodes (texts_of words.now) }
{
    let [from, upto, number] = words else {
        return Err(Fault::Line);
    };
    if !are_numbers(from, upto, number) {
        return Err(Fault::Line);
    }
    let Some(from) = node_of(nodes, from) else {
        return Err(Fault::Number);
    };
    let Some(upto) = node_of(nodes, upto) else {
        return Err(Fault::Number);
    };
    let Some(number) = number_within(number, 0, u64::MAX) else {
        return Err(Fault::Number);
    };
    Ok(MessagePlace { from, upto, number })
}

fn settle_line(words: &[&str]) -> Result<ScriptEvent, Fault>
    ensures { result ≡ settle_line_of (texts_of words.now) }
{
    let [count] = words else {
        return Err(Fault::Line);
    };
    if !is_number(count) {
        return Err(Fault::Line);
    }
    match number_within(count, 1, MOST_DELIVERIES) {
        Some(count) => Ok(ScriptEvent::Settle(count as u32)),
        None => Err(Fault::Number),
    }
}

/// The node that the word names.
fn named_node(nodes: u8, node: &str) -> Result<NodeId, Fault>
    requires some { 1 ≤ nodes }
    requires few { nodes ≤ 7 }
    ensures { result ≡ named_node_of nodes node.now }
{
    if !is_number(node) {
        return Err(Fault::Line);
    }
    match node_of(nodes, node) {
        Some(node) => Ok(node),
        None => Err(Fault::Number),
    }
}

/// The node that the word names, and the number, from `least` to `most`.
fn named_pair(
    nodes: u8,
    least: u64,
    most: u64,
    node: &str,
    number: &str,
) -> Result<(NodeId, u64), Fault>
    requires some { 1 ≤ nodes }
    requires few { nodes ≤ 7 }
    ensures value { result ≡ named_pair_of nodes least most node.now number.now }
    ensures bound { IfOk result (λ found. found.1 ≤ most) }
{
    if !is_number(node) || !is_number(number) {
        return Err(Fault::Line);
    }
    let Some(node) = node_of(nodes, node) else {
        return Err(Fault::Number);
    };
    let Some(number) = number_within(number, least, most) else {
        return Err(Fault::Number);
    };
    Ok((node, number))
}

/// The node that the words of a line `restart`, `flush` or `merge` name.
fn node_line(nodes: u8, words: &[&str]) -> Result<NodeId, Fault>
    requires some { 1 ≤ nodes }
    requires few { nodes ≤ 7 }
    ensures { result ≡ node_line_of nodes (texts_of words.now) }
{
    let [node] = words else {
        return Err(Fault::Line);
    };
    named_node(nodes, node)
}

/// The node and the number that the words of a line name.
fn pair_line(nodes: u8, least: u64, most: u64, words: &[&str]) -> Result<(NodeId, u64), Fault>
    requires some { 1 ≤ nodes }
    requires few { nodes ≤ 7 }
    ensures value { result ≡ pair_line_of nodes least most (texts_of words.now) }
    ensures bound { IfOk result (λ found. found.1 ≤ most) }
{
    let [node, number] = words else {
        return Err(Fault::Line);
    };
    named_pair(nodes, least, most, node, number)
}

fn clock_line(nodes: u8, words: &[&str]) -> Result<ScriptEvent, Fault>
    requires some { 1 ≤ nodes }
    requires few { nodes ≤ 7 }
    ensures { result ≡ clock_line_of nodes (texts_of words.now) }
{
    let (node, micros) = pair_line(nodes, 0, u64::MAX, words)?;
    Ok(ScriptEvent::Clock(node, Micros::new(micros)))
}

/// The node that the first word names, and the other one that the second names.
fn named_peers(nodes: u8, node: &str, peer: &str) -> Result<(NodeId, NodeId), Fault>
    requires some { 1 ≤ nodes }
    requires few { nodes ≤ 7 }
    ensures { result ≡ named_peers_of nodes node.now peer.now }
{
    if !is_number(node) || !is_number(peer) {
        return Err(Fault::Line);
    }
    let Some(node) = node_of(nodes, node) else {
        return Err(Fault::Number);
    };
    let Some(peer) = node_of(nodes, peer) else {
        return Err(Fault::Number);
    };
    if node == peer {
        return Err(Fault::Number);
    }
    Ok((node, peer))
}

fn mark_line(nodes: u8, words: &[&str]) -> Result<ScriptEvent, Fault>
    requires some { 1 ≤ nodes }
    requires few { nodes ≤ 7 }
    ensures { result ≡ mark_line_of nodes (texts_of words.now) }
{
    let [node, peer, state] = words else {
        return Err(Fault::Line);
    };
    let Some(up) = up_of(state) else {
        return Err(Fault::Line);
    };
    let (node, peer) = named_peers(nodes, node, peer)?;
    Ok(ScriptEvent::Mark(node, peer, up))
}

fn crash_line(nodes: u8, words: &[&str]) -> Result<ScriptEvent, Fault>
    requires some { 1 ≤ nodes }
    requires few { nodes ≤ 7 }
    ensures { result ≡ crash_line_of nodes (texts_of words.now) }
{
    let [node, outcome] = words else {
        return Err(Fault::Line);
    };
    let Some(outcome) = outcome_of(outcome) else {
        return Err(Fault::Line);
    };
    let node = named_node(nodes, node)?;
    Ok(ScriptEvent::Crash(node, outcome))
}

fn stop_line(nodes: u8, words: &[&str]) -> Result<ScriptEvent, Fault>
    requires some { 1 ≤ nodes }
    requires few { nodes ≤ 7 }
    ensures { result ≡ stop_line_of nodes (texts_of words.now) }
{
    let [node, call, outcome] = words else {
        return Err(Fault::Line);
    };
    let Some(outcome) = outcome_of(outcome) else {
        return Err(Fault::Line);
    };
    let (node, call) = named_pair(nodes, 1, LAST_CALL, node, call)?;
    Ok(ScriptEvent::StopAt(node, call as u32, outcome))
}

fn fail_line(nodes: u8, words: &[&str]) -> Result<ScriptEvent, Fault>
    requires some { 1 ≤ nodes }
    requires few { nodes ≤ 7 }
    ensures { result ≡ fail_line_of nodes (texts_of words.now) }
{
    let (node, call) = pair_line(nodes, 1, LAST_CALL, words)?;
    Ok(ScriptEvent::FailAt(node, call as u32))
}

/// What a line does that begins with this word and names a node: to the node, its clock, its marks or its store.
fn node_event(nodes: u8, word: &str, words: &[&str]) -> Result<ScriptEvent, Fault>
    requires some { 1 ≤ nodes }
    requires few { nodes ≤ 7 }
    ensures { result ≡ node_event_of nodes word.now (texts_of words.now) }
{
    match word {
        "clock" => clock_line(nodes, words),
        "mark" => mark_line(nodes, words),
        "crash" => crash_line(nodes, words),
        "stopat" => stop_line(nodes, words),
        "failat" => fail_line(nodes, words),
        "restart" => Ok(ScriptEvent::Restart(node_line(nodes, words)?)),
        "flush" => Ok(ScriptEvent::Flush(node_line(nodes, words)?)),
        "merge" => Ok(ScriptEvent::Merge(node_line(nodes, words)?)),
        _ => Err(Fault::Line),
    }
}

/// What a line does that begins with this word, at so many nodes.
fn word_line(alloc: Global, nodes: u8, word: &str, words: &[&str]) -> Result<ScriptEvent, LineError>
    requires some { 1 ≤ nodes }
    requires few { nodes ≤ 7 }
    ensures { LineGives result (word_line_of nodes word.now (texts_of words.now)) }
{
    match word {
        "put" => put_line(alloc, nodes, words),
        "get" => get_line(alloc, nodes, words),
        "deliver" => Ok(ScriptEvent::Deliver(message_place(nodes, words)?)),
        "drop" => Ok(ScriptEvent::Drop(message_place(nodes, words)?)),
        "settle" => Ok(settle_line(words)?),
        _ => Ok(node_event(nodes, word, words)?),
    }
}

/// What a line of these words does, at so many nodes.
fn event_line(alloc: Global, nodes: u8, words: &[&str]) -> Result<ScriptEvent, LineError>
    requires some { 1 ≤ nodes }
    requires few { nodes ≤ 7 }
    ensures { LineGives result (event_line_of nodes (texts_of words.now)) }
{
    match words {
        [word, words @ ..] => word_line(alloc, nodes, word, words),
        [] => Err(LineError::Fault(Fault::Line)),
    }
}

/// What a line `cql` says, of which the node, the level and the statement are left.
fn cql_line(alloc: Global, nodes: u8, text: &str) -> Result<EventLine, LineError>
    requires some { 1 ≤ nodes }
    requires few { nodes ≤ 7 }
    ensures { LineGives result (cql_line_of nodes text.now) }
{
    let Some((node, rest)) = first_word(text) else {
        return Err(LineError::Fault(Fault::Line));
    };
    let Some((level, statement)) = first_word(rest) else {
        return Err(LineError::Fault(Fault::Line));
    };
    if !is_number(node) {
        return Err(LineError::Fault(Fault::Line));
    }
    let Some(node) = node_of(nodes, node) else {
        return Err(LineError::Fault(Fault::Number));
    };
    let Some(level) = level_of(level) else {
        return Err(LineError::Fault(Fault::Number));
    };
    let text = Text::from_str(alloc, statement)?;
    Ok(EventLine::Cql(node, level, text))
}

/// What a line says, at so many nodes.
pub fn event_at(alloc: Global, nodes: u8, line: &[u8]) -> Result<EventLine, LineError>
    requires line { 0 < length line.now }
    requires some { 1 ≤ nodes }
    requires few { nodes ≤ 7 }
    ensures { LineGives result (event_at_of nodes line.now) }
{
    if let Some(text) = behind(line, b"cql ") {
        return cql_line(alloc, nodes, text);
    }
    match words(alloc, line)? {
        Some(words) => Ok(EventLine::Event(event_line(alloc, nodes, &words)?)),
        None => Err(LineError::Fault(Fault::Line)),
    }
}
