//! How a line is read.

ghost use Rattle.std.specs.Prelude.{◌≡◌, ◌≤◌, None, Some, MatchOption};
ghost use Rattle.script_words.specs.Words.{words_in, up_of as up_of_word};
ghost use Rattle.node_console.specs.Console.{named_node as named_node_of, one_of, with_node, node_command as node_command_of, three_of, marked as marked_of, mark_of, mark_command as mark_command_of, lone_command as lone_command_of, command_named, command_in, command_of};
ghost use Rattle.node_console.specs.declared.command.Command.TheVariants as command_value;

use crate::command::{Command, ConsoleError};
use cs_base::NodeId;
use script_words::{is_number, next_word, node_of, up_of, well_formed};

/// A longer line is not understood.
pub const LONGEST_LINE: usize = 4096;

/// The node that the word names.
fn named_node(nodes: u8, word: &str) -> Result<NodeId, ConsoleError>
    requires some { 1 ≤ nodes }
    requires few { nodes ≤ 7 }
    ensures { result ≡ named_node_of nodes word.now }
{
    if !is_number(word) {
        return Err(ConsoleError::Unknown);
    }
    match node_of(nodes, word) {
        Some(node) => Ok(node),
        None => Err(ConsoleError::Number),
    }
}

/// The word of a text that has one.
fn only_word(text: &str) -> Option<&str>
    ensures { MatchOption result (one_of (words_in text.now) ≡ None) (λ word. one_of (words_in text.now) ≡ Some word.now) }
{
    let (word, rest) = next_word(text)?;
    match next_word(rest) {
        Some(_) => None,
        None => Some(word),
    }
}

/// The words of a text that has three.
fn three_words(text: &str) -> Option<(&str, &str, &str)>
    ensures { MatchOption result (three_of (words_in text.now) ≡ None) (λ words. three_of (words_in text.now) ≡ Some (words.0.now, words.1.now, words.2.now)) }
{
    let (first, rest) = next_word(text)?;
    let (second, rest) = next_word(rest)?;
    let third = only_word(rest)?;
    Some((first, second, third))
}

fn flush(nodes: u8, text: &str) -> Result<Command, ConsoleError>
    requires some { 1 ≤ nodes }
    requires few { nodes ≤ 7 }
    ensures { result ≡ node_command_of command_value.Flush nodes (words_in text.now) }
{
    match only_word(text) {
        Some(word) => Ok(Command::Flush(named_node(nodes, word)?)),
        None => Err(ConsoleError::Unknown),
    }
}

fn merge(nodes: u8, text: &str) -> Result<Command, ConsoleError>
    requires some { 1 ≤ nodes }
    requires few { nodes ≤ 7 }
    ensures { result ≡ node_command_of command_value.Merge nodes (words_in text.now) }
{
    match only_word(text) {
        Some(word) => Ok(Command::Merge(named_node(nodes, word)?)),
        None => Err(ConsoleError::Unknown),
    }
}

fn marked(node: Option<NodeId>, peer: Option<NodeId>, up: bool) -> Result<Command, ConsoleError>
    ensures { result ≡ marked_of node peer up }
{
    let (Some(node), Some(peer)) = (node, peer) else {
        return Err(ConsoleError::Number);
    };
    if node == peer {
        return Err(ConsoleError::Number);
    }
    Ok(Command::Mark(node, peer, up))
}

fn mark_at(nodes: u8, node: &str, peer: &str, state: &str) -> Result<Command, ConsoleError>
    requires some { 1 ≤ nodes }
    requires few { nodes ≤ 7 }
    ensures { result ≡ mark_of nodes node.now peer.now (up_of_word state.now) }
{
    let Some(up) = up_of(state) else {
        return Err(ConsoleError::Unknown);
    };
    if !is_number(node) || !is_number(peer) {
        return Err(ConsoleError::Unknown);
    }
    marked(node_of(nodes, node), node_of(nodes, peer), up)
}

fn mark(nodes: u8, text: &str) -> Result<Command, ConsoleError>
    requires some { 1 ≤ nodes }
    requires few { nodes ≤ 7 }
    ensures { result ≡ mark_command_of nodes (words_in text.now) }
{
    match three_words(text) {
        Some((node, peer, state)) => mark_at(nodes, node, peer, state),
        None => Err(ConsoleError::Unknown),
    }
}

/// A command of one word, where no other stands behind it.
fn alone(command: Command, text: &str) -> Result<Command, ConsoleError>
    ensures { result ≡ lone_command_of command (words_in text.now) }
{
    match next_word(text) {
        Some(_) => Err(ConsoleError::Unknown),
        None => Ok(command),
    }
}

fn named(nodes: u8, word: &str, text: &str) -> Result<Command, ConsoleError>
    requires some { 1 ≤ nodes }
    requires few { nodes ≤ 7 }
    ensures { result ≡ command_named nodes word.now (words_in text.now) }
{
    match word {
        "mark" => mark(nodes, text),
        "flush" => flush(nodes, text),
        "merge" => merge(nodes, text),
        "status" => alone(Command::Status, text),
        "stop" => alone(Command::Stop, text),
        _ => Err(ConsoleError::Unknown),
    }
}

fn command(nodes: u8, text: &str) -> Result<Command, ConsoleError>
    requires some { 1 ≤ nodes }
    requires few { nodes ≤ 7 }
    ensures { result ≡ command_in nodes (words_in text.now) }
{
    match next_word(text) {
        Some((word, rest)) => named(nodes, word, rest),
        None => Err(ConsoleError::Unknown),
    }
}

/// The command that a line says at so many nodes, without its line feed. It takes no memory.
pub fn read_line(line: &[u8], nodes: u8) -> Result<Command, ConsoleError>
    requires some { 1 ≤ nodes }
    requires few { nodes ≤ 7 }
    ensures { result ≡ command_of nodes line.now }
{
    if line.is_empty() || line.len() > LONGEST_LINE {
        return Err(ConsoleError::Unknown);
    }
    match well_formed(line) {
        Some(text) => command(nodes, text),
        None => Err(ConsoleError::Unknown),
    }
}
