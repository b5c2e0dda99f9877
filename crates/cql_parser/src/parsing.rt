//! Texts as tokens and as statements.

ghost use Rattle.std.specs.Prelude.{◌≡◌, ◌≤◌, ◌<◌, All, List, Ok, IfOk, IfErr, length, drop, ◌-◌};
ghost use Rattle.cql_tokens.specs.Tokens.{IsScan, IsSlice};
ghost use Rattle.cql_tokens.specs.declared.token.Token.{Token as SpecToken};
ghost use Rattle.cql_tokens.specs.declared.token.Scanned.{Scanned as SpecScanned};
ghost use Rattle.cql_statement.specs.declared.statement.Statement.{Statement as SpecStatement};
ghost use Rattle.cql_parser.specs.Parsing.{Answers, IsRefused, IsStatement, IsTokens, answer_of, end_of, ended_of, fault_at, halted_of, most_tokens, tokens_of};

use crate::cursor::{Cursor, Halt};
use crate::error::ParseError;
use crate::statements::statement;
use cql_statement::Statement;
use cql_tokens::{Scanned, Stop, Token, TokenList, one_scan, scan};
use std::alloc::Global;

/// The most tokens that a statement may have.
pub const MOST_TOKENS: usize = 65_535;

/// What is wrong where so many tokens are left.
fn fault(text: &str, tokens: &[Token], stop: Option<Stop>, left: usize) -> ParseError
    ensures { result ≡ fault_at text.now stop (drop (length tokens.now - left) tokens.now) }
{
    let rest = &tokens[tokens.len().saturating_sub(left)..];
    match rest {
        [token, ..] => ParseError::Unexpected(token.start),
        [] => match stop {
            None => ParseError::Unexpected(text.len()),
            Some(Stop::Char(at)) => ParseError::Char(at),
            Some(Stop::Unclosed(at)) => ParseError::Unclosed(at),
        },
    }
}

fn halted(text: &str, scanned: &Scanned, halt: Halt) -> ParseError
    ensures { result ≡ halted_of text.now scanned.now halt }
{
    match halt {
        Halt::Memory => ParseError::NoMemory,
        Halt::Left(left) => fault(text, scanned.tokens.as_slice(), scanned.stop, left),
    }
}

/// What refuses a statement behind which so many tokens are left.
fn check_end(text: &str, scanned: &Scanned, left: usize) -> Result<(), ParseError>
    ensures { result ≡ end_of text.now scanned.now left }
{
    let tokens = scanned.tokens.as_slice();
    if left > 0 || scanned.stop.is_some() {
        return Err(fault(text, tokens, scanned.stop, left));
    }
    if tokens.len() > MOST_TOKENS {
        return Err(ParseError::TooLong);
    }
    Ok(())
}

/// The statement behind which so many tokens are left.
fn ended(
    text: &str,
    scanned: &Scanned,
    left: usize,
    statement: Statement,
) -> Result<Statement, ParseError>
    ensures { result ≡ ended_of text.now scanned.now left statement }
{
    check_end(text, scanned, left).and(Ok(statement))
}

/// The statement of a text with these tokens.
fn statement_of(alloc: Global, text: &str, scanned: &Scanned) -> Result<Statement, ParseError>
    requires { All (IsSlice text.now) scanned.now.tokens }
    ensures { Answers result (answer_of text.now scanned.now) }
{
    let mut cursor = Cursor::new(text, scanned.tokens.as_slice());
    match statement(&mut cursor, alloc) {
        Ok(statement) => ended(text, scanned, cursor.left(), statement),
        Err(halt) => Err(halted(text, scanned, halt)),
    }
}

/// The tokens, if nothing else stands in the text and they are not too many.
fn only_tokens(scanned: Scanned) -> Result<TokenList, ParseError>
    ensures { result ≡ tokens_of scanned }
{
    match scanned.stop {
        Some(Stop::Char(at)) => Err(ParseError::Char(at)),
        Some(Stop::Unclosed(at)) => Err(ParseError::Unclosed(at)),
        None => {
            if scanned.tokens.as_slice().len() > MOST_TOKENS {
                return Err(ParseError::TooLong);
            }
            Ok(scanned.tokens)
        }
    }
}

/// The tokens of a text that is nothing but tokens, blanks and comments.
pub fn tokens(alloc: Global, text: &str) -> Result<TokenList, ParseError>
    ensures ok { IfOk result (λ tokens. IsTokens text.now tokens × (length tokens ≤ most_tokens)) }
    // Which answer it is: a text has one list of tokens.
    ensures exact { (scanned : SpecScanned) → IsScan text.now scanned → Answers result (tokens_of scanned) }
{
    one_scan();
    let scanned = scan(alloc, text)?;
    only_tokens(scanned)
}

/// The statement of a text.
pub fn parse(alloc: Global, text: &str) -> Result<Statement, ParseError>
    // What is read is a statement of the grammar.
    ensures found { IfOk result (λ s. (tokens : List SpecToken) × IsStatement text.now tokens s × (length tokens ≤ most_tokens)) }
    // Each statement of the grammar is read, unless memory runs out.
    ensures only { (tokens : List SpecToken) (s : SpecStatement) → IsStatement text.now tokens s → length tokens ≤ most_tokens → Answers result (Ok s) }
    // Which refusal it is: the first place with which no statement goes on.
    ensures refused { IfErr result (λ e. IsRefused text.now e) }
{
    one_scan();
    let scanned = scan(alloc, text)?;
    statement_of(alloc, text, &scanned)
}
