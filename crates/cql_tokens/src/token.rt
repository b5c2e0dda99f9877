//! The tokens of a statement.

use cs_base::Items;

/// What a token is.
#[derive(Clone, Copy, Debug, PartialEq, Eq)]
pub enum TokenKind {
    /// A word without quotes: a letter, then letters, digits and `_`. Keywords are words too.
    Word,
    /// A name in double quotes, in which `""` stands for one.
    QuotedName,
    /// A string in single quotes, in which `''` stands for one.
    Str,
    /// A whole number: an optional `-`, and digits.
    Whole,
    /// `0x` and an even number of hexadecimal digits.
    Blob,
    /// A uuid in its hyphenated form.
    Uuid,
    OpenParenthesis,
    CloseParenthesis,
    OpenBrace,
    CloseBrace,
    Comma,
    Dot,
    Semicolon,
    Colon,
    QuestionMark,
    Star,
    Equal,
    NotEqual,
    Less,
    LessOrEqual,
    Greater,
    GreaterOrEqual,
}

/// A token: what it is, and the offsets in the statement's text, in bytes, at which it begins and behind which it ends.
#[derive(Clone, Copy, Debug, PartialEq, Eq)]
pub struct Token {
    pub kind: TokenKind,
    pub start: usize,
    pub end: usize,
}

pub type TokenList = Items<Token>;

/// Why no further token stands in a text, and at which offset.
#[derive(Clone, Copy, Debug, PartialEq, Eq)]
pub enum Stop {
    /// A character that begins no token.
    Char(usize),
    /// A string, a quoted name or a comment that isn't closed, by its beginning.
    Unclosed(usize),
}

/// The tokens of a text, and what stands behind them if that is no token.
#[derive(Debug, Drop)]
pub struct Scanned {
    pub tokens: TokenList,
    pub stop: Option<Stop>,
}
