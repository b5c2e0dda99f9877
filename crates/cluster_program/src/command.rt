//! What the words of the command line ask of the program.

ghost use Rattle.std.specs.Prelude.{◌≡◌, map};
ghost use Rattle.std.specs.String.{string_bytes};
ghost use Rattle.cluster_program.specs.Commands.{begins_with_zero as begins_with_zero_word, command_of_name, command_named, port_of as port_of_word, serve_command as serve_command_of};

use script_words::{is_number, number_within};

/// What the words ask of the program.
#[derive(Clone, Copy, Debug, PartialEq, Eq)]
pub enum Command {
    Script,
    /// Serves at this port and those that follow it.
    Serve(u16),
    Help,
    Version,
}

fn command_of_word(word: &str) -> Option<Command>
    ensures { result ≡ command_of_name word.now }
{
    if word == "script" {
        return Some(Command::Script);
    }
    if word == "--help" {
        return Some(Command::Help);
    }
    if word == "--version" {
        return Some(Command::Version);
    }
    None
}

fn begins_with_zero(word: &[u8]) -> bool
    ensures { result ≡ begins_with_zero_word word.now }
{
    match word {
        [] => false,
        [first, ..] => *first == b'0',
    }
}

/// The port that a word names.
fn port_of(word: &str) -> Option<u16>
    ensures { result ≡ port_of_word word.now }
{
    if !is_number(word) {
        return None;
    }
    if begins_with_zero(word.as_bytes()) {
        return None;
    }
    match number_within(word, 1024, 65_529) {
        Some(number) => Some(number as u16),
        None => None,
    }
}

/// The command that this word names with a folder and a port.
fn serve_command(word: &str, port: &str) -> Option<Command>
    ensures { result ≡ serve_command_of word.now port.now }
{
    if word != "serve" {
        return None;
    }
    match port_of(port) {
        Some(port) => Some(Command::Serve(port)),
        None => None,
    }
}

/// The command that the words name.
pub(crate) fn command_of(words: &[String]) -> Option<Command>
    ensures { result ≡ command_named (map string_bytes words.now) }
{
    match words {
        [word] => command_of_word(word.as_str()),
        [word, _, port] => serve_command(word.as_str(), port.as_str()),
        _ => None,
    }
}
