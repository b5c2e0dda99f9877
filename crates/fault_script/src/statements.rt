//! The statements of a script.

ghost use Rattle.std.specs.Prelude.{◌≡◌, IfOk, IfErr, MatchResult, ℕ};
ghost use Rattle.fault_script.specs.Script.{IsOneStatement, offset_of as offset_in, IsRefusedAt, IsRefusedCql};
ghost use Rattle.fault_script.specs.Reads.{Fails, IsRefusal};

use crate::error::ParseError;
use crate::script::ScriptError;
use cql_parser::ParseError as CqlError;
use cql_statement::Statement;
use std::alloc::Global;

/// Why a text is no statement.
#[derive(Drop)]
pub enum StatementError {
    /// It stops to be one at this offset, in bytes.
    At(usize),
    NoMemory,
}

/// Where a text is refused for this, in bytes.
fn offset_of(text: &str, error: CqlError) -> Option<usize>
    ensures { result ≡ offset_in text.now error }
{
    match error {
        CqlError::Char(at) | CqlError::Unexpected(at) | CqlError::Unclosed(at) => Some(at),
        CqlError::TooLong => Some(text.len()),
        CqlError::NoMemory => None,
    }
}

/// The statement of a text.
pub fn read_statement(alloc: Global, text: &str) -> Result<Statement, StatementError>
    ensures { MatchResult result (IsOneStatement text.now) (IsRefusal text.now) }
{
    match cql_parser::parse(alloc, text) {
        Ok(statement) => Ok(statement),
        Err(error) => match offset_of(text, error) {
            Some(at) => Err(StatementError::At(at)),
            None => Err(StatementError::NoMemory),
        },
    }
}

/// The statement of a text, or the refusal of the line of this number, in which it stands.
pub fn line_statement(alloc: Global, text: &str, line: u64) -> Result<Statement, ParseError>
    ensures ok { IfOk result (IsOneStatement text.now) }
    ensures err { IfErr result (Fails (IsRefusedCql line text.now)) }
{
    match read_statement(alloc, text) {
        Ok(statement) => Ok(statement),
        Err(StatementError::At(at)) => Err(ParseError::Script(ScriptError::Cql(line, at))),
        Err(StatementError::NoMemory) => Err(ParseError::NoMemory),
    }
}
