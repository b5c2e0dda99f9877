//! What a text begins with.

ghost use Rattle.std.specs.Prelude.{◌≡◌, false};
ghost use Rattle.cql_tokens.specs.Scanning.{comment_found, comment_len, quoted_len, found_of, is_blank, mark_found, minus_found, number_found, quoted_found, single_found, slash_found, symbol_found};
ghost use Rattle.cql_tokens.specs.declared.token.TokenKind.TheVariants as kinds;

use crate::token::TokenKind;
use crate::words::{Class, UUID_LEN, begins_with_uuid, comment_len, quoted_len, run};

/// What stands at the front of a text, and its length in bytes.
#[derive(Clone, Copy, Debug)]
pub(crate) enum Found {
    /// A blank or a comment.
    Gap(usize),
    Token(TokenKind, usize),
    /// A string, a quoted name or a comment that isn't closed.
    Unclosed,
    /// A byte that begins none of these, or no byte.
    Nothing,
}

/// What stands behind a digit: the digits of a blob, or further ones.
fn number(first: u8, behind: &[u8]) -> Found
    ensures { result ≡ number_found first behind.now }
{
    match behind {
        [b'x' | b'X', digits @ ..] if first == b'0' => {
            let digits = run(Class::Hexadecimal, digits);
            Found::Token(TokenKind::Blob, 2 + (digits - digits % 2))
        }
        digits => Found::Token(TokenKind::Whole, 1 + run(Class::Digit, digits)),
    }
}

/// What stands behind a minus.
fn minus(behind: &[u8]) -> Found
    ensures { result ≡ minus_found behind.now }
{
    match behind {
        [b'-', line @ ..] => Found::Gap(2 + run(Class::Line, line)),
        [digit, ..] if digit.is_ascii_digit() => {
            Found::Token(TokenKind::Whole, 1 + run(Class::Digit, behind))
        }
        _ => Found::Nothing,
    }
}

/// What stands behind `/*`.
fn block(behind: &[u8]) -> Found
    ensures { result ≡ comment_found (comment_len false behind.now) }
{
    match comment_len(behind) {
        Some(len) => Found::Gap(2 + len),
        None => Found::Unclosed,
    }
}

/// What stands behind a slash.
fn slash(behind: &[u8]) -> Found
    ensures { result ≡ slash_found behind.now }
{
    match behind {
        [b'/', line @ ..] => Found::Gap(2 + run(Class::Line, line)),
        [b'*', comment @ ..] => block(comment),
        _ => Found::Nothing,
    }
}

/// What stands behind a quote.
fn quoted(kind: TokenKind, quote: u8, behind: &[u8]) -> Found
    ensures { result ≡ quoted_found kind (quoted_len quote false behind.now) }
{
    match quoted_len(quote, behind) {
        Some(len) => Found::Token(kind, 1 + len),
        None => Found::Unclosed,
    }
}

/// A symbol that is another one with a `=` behind it.
fn symbol(behind: &[u8], alone: Found, with_equal: TokenKind) -> Found
    ensures { result ≡ symbol_found behind.now alone with_equal }
{
    match behind {
        [b'=', ..] => Found::Token(with_equal, 2),
        _ => alone,
    }
}

/// A symbol of one byte.
fn single(byte: u8) -> Found
    ensures { result ≡ single_found byte }
{
    let kind = match byte {
        b'(' => TokenKind::OpenParenthesis,
        b')' => TokenKind::CloseParenthesis,
        b'{' => TokenKind::OpenBrace,
        b'}' => TokenKind::CloseBrace,
        b',' => TokenKind::Comma,
        b'.' => TokenKind::Dot,
        b';' => TokenKind::Semicolon,
        b':' => TokenKind::Colon,
        b'?' => TokenKind::QuestionMark,
        b'*' => TokenKind::Star,
        b'=' => TokenKind::Equal,
        _ => return Found::Nothing,
    };
    Found::Token(kind, 1)
}

/// What begins with a byte that is neither a letter nor a digit.
fn mark(first: u8, behind: &[u8]) -> Found
    ensures { result ≡ mark_found first behind.now }
{
    match first {
        b' ' | b'\t' | b'\r' | b'\n' => Found::Gap(1),
        b'-' => minus(behind),
        b'/' => slash(behind),
        b'\'' => quoted(TokenKind::Str, b'\'', behind),
        b'"' => quoted(TokenKind::QuotedName, b'"', behind),
        b'<' => symbol(
            behind,
            Found::Token(TokenKind::Less, 1),
            TokenKind::LessOrEqual,
        ),
        b'>' => symbol(
            behind,
            Found::Token(TokenKind::Greater, 1),
            TokenKind::GreaterOrEqual,
        ),
        b'!' => symbol(behind, Found::Nothing, TokenKind::NotEqual),
        _ => single(first),
    }
}

/// What a text begins with. A uuid comes first, since it begins as a number or a word does.
pub(crate) fn front_of(text: &[u8]) -> Found
    ensures { result ≡ found_of text.now }
{
    let [first, behind @ ..] = text else {
        return Found::Nothing;
    };
    if begins_with_uuid(text) {
        return Found::Token(TokenKind::Uuid, UUID_LEN);
    }
    if first.is_ascii_alphabetic() {
        return Found::Token(TokenKind::Word, 1 + run(Class::Word, behind));
    }
    if first.is_ascii_digit() {
        return number(*first, behind);
    }
    mark(*first, behind)
}
