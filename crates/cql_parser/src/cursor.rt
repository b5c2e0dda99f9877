//! A place among the tokens of a text.

ghost use Rattle.std.specs.Prelude.{◌≡◌, List, [], ◌∷◌, All, MatchOption, IfOk, true, false, Some, length, map, drop, string_bytes};
ghost use Rattle.std.specs.Char.{to_ascii_lowercase};
ghost use Rattle.cql_tokens.specs.Tokens.{Meaning, meaning_of, IsSlice};
ghost use Rattle.cql_parser.specs.Forms.{is_kind, is_word, is_name, is_among, reserved, same_word, type_named, accepts};
ghost use Rattle.cql_parser.specs.Forms as forms;
ghost use Rattle.cql_parser.specs.Forms.{Terminal as terminals};
ghost use Rattle.cql_parser.specs.Reading.{next_is, read, token_at};
ghost use Rattle.cql_parser.specs.Gives.{Reads, Takes, seen};
ghost use Rattle.cql_tokens.specs.declared.token.TokenKind.TheVariants as kinds;
ghost use Rattle.cql_parser.specs.declared.cursor.Halt.TheVariants as halts;

use cql_tokens::{Token, TokenKind, text_of};
use cql_values::CqlType;
use std::alloc::{AllocError, AllocFailed};
use std::marker::Model;

/// Why reading stopped.
#[derive(Clone, Copy, Debug)]
pub(crate) enum Halt {
    Memory,
    /// How many tokens are left, the first of which can't stand there.
    Left(usize),
}

impl From<AllocError> for Halt {
    ghost from_gives = { λ _ e. e ≡ halts.Memory };

    fn from(_e: AllocError) -> Halt {
        Halt::Memory
    }
}

impl<T: Drop> From<AllocFailed<T>> for Halt {
    ghost from_gives = { λ _ e. e ≡ halts.Memory };

    fn from(_e: AllocFailed<T>) -> Halt {
        Halt::Memory
    }
}

/// Tokens of a text that are still to be read.
#[derive(Drop)]
pub(crate) struct Cursor<'a> {
    text: &'a str,
    tokens: &'a [Token],
}

impl<'a> Model for Cursor<'a> {
    ghost use Rattle.std.specs.Prelude.{List, map, All};
    ghost use Rattle.cql_tokens.specs.Tokens.{Meaning, meaning_of, IsSlice};

    ghost Value = { List Meaning };

    ghost view = { λ a. map (meaning_of a.text.now) a.tokens.now };

    ghost invariant = { λ a. All (IsSlice a.text.now) a.tokens.now };
}

/// A word in either case.
fn is_same_word(word: &str, other: &str) -> bool
    ensures { result ≡ same_word word.now other.now }
{
    word.eq_ignore_ascii_case(other)
}

fn is_same_kind(kind: TokenKind, other: TokenKind) -> bool
    ensures { result ≡ is_kind kind other }
{
    kind == other
}

/// The words that are no names without quotes.
const RESERVED: [&str; 28] = [
    "ADD", "AND", "APPLY", "BATCH", "BEGIN", "BY", "CREATE", "DELETE", "FROM", "IF", "IN",
    "INSERT", "INTO", "KEYSPACE", "LIMIT", "NOT", "NULL", "ORDER", "PRIMARY", "SELECT", "SET",
    "TABLE", "UNLOGGED", "UPDATE", "USE", "USING", "WHERE", "WITH",
];

fn is_among(word: &str, words: &[&str]) -> bool
    ensures { result ≡ is_among word.now (map (λ w. w.now) words.now) }
{
    for other in words {
        if is_same_word(word, other) {
            return true;
        }
    }
    false
}

#[tactic(auto, unfolding(crate::specs::Forms::reserved))]
fn is_reserved(word: &str) -> bool
    ensures { result ≡ is_among word.now reserved }
{
    is_among(word, &RESERVED)
}

/// The type of this name, in either case.
fn type_named(word: &str) -> Option<CqlType>
    ensures { result ≡ type_named word.now }
{
    if is_same_word(word, "ascii") {
        Some(CqlType::Ascii)
    } else if is_same_word(word, "bigint") {
        Some(CqlType::Bigint)
    } else if is_same_word(word, "blob") {
        Some(CqlType::Blob)
    } else if is_same_word(word, "boolean") {
        Some(CqlType::Boolean)
    } else if is_same_word(word, "int") {
        Some(CqlType::Int)
    } else if is_same_word(word, "timestamp") {
        Some(CqlType::Timestamp)
    } else if is_same_word(word, "uuid") {
        Some(CqlType::Uuid)
    } else if is_same_word(word, "text") || is_same_word(word, "varchar") {
        Some(CqlType::Text)
    } else if is_same_word(word, "timeuuid") {
        Some(CqlType::Timeuuid)
    } else if is_same_word(word, "smallint") {
        Some(CqlType::Smallint)
    } else if is_same_word(word, "tinyint") {
        Some(CqlType::Tinyint)
    } else {
        None
    }
}

/// A token, with its text.
#[derive(Clone, Copy, Debug)]
pub(crate) struct Lexeme<'a> {
    pub(crate) kind: TokenKind,
    pub(crate) word: &'a str,
}

impl<'a> Lexeme<'a> {
    fn is_word(&self, word: &str) -> bool
        ensures { result ≡ is_word (seen self.now) word.now }
    {
        is_same_kind(self.kind, TokenKind::Word) && is_same_word(self.word, word)
    }

    pub(crate) fn is_quoted(&self) -> bool
        ensures { result ≡ is_kind self.now.kind kinds.QuotedName }
    {
        is_same_kind(self.kind, TokenKind::QuotedName)
    }

    fn is_name(&self) -> bool
        ensures { result ≡ is_name (seen self.now) }
    {
        self.is_quoted() || (is_same_kind(self.kind, TokenKind::Word) && !is_reserved(self.word))
    }
}

impl<'a> Cursor<'a> {
    pub(crate) fn new(text: &'a str, tokens: &'a [Token]) -> Cursor<'a>
        requires { All (IsSlice text.now) tokens.now }
        ensures { result ≡ map (meaning_of text.now) tokens.now }
    {
        Cursor { text, tokens }
    }

    /// How many tokens are left.
    pub(crate) fn left(&self) -> usize
        ensures { result ≡ length self.now }
    {
        self.tokens.len()
    }

    /// The next token.
    pub(crate) fn next(&self) -> Option<Lexeme<'a>>
        ensures { MatchOption result (self.now ≡ []) (λ t. self.now ≡ seen t ∷ drop 1 self.now) }
    {
        match self.tokens {
            [] => None,
            [token, ..] => {
                let word = text_of(self.text, token)?;
                Some(Lexeme {
                    kind: token.kind,
                    word,
                })
            }
        }
    }

    /// Passes the next token.
    pub(crate) fn advance(&mut self)
        ensures { self.new ≡ drop 1 self.old }
    {
        if let [_, rest @ ..] = self.tokens {
            self.tokens = rest;
        }
    }

    pub(crate) fn next_is_word(&self, word: &str) -> bool
        ensures { result ≡ next_is (terminals.Word word.now) self.now }
    {
        match self.next() {
            Some(next) => next.is_word(word),
            None => false,
        }
    }

    pub(crate) fn next_is_symbol(&self, symbol: TokenKind) -> bool
        ensures { result ≡ next_is (terminals.Symbol symbol) self.now }
    {
        match self.next() {
            Some(next) => is_same_kind(next.kind, symbol),
            None => false,
        }
    }

    /// Passes this word.
    pub(crate) fn word(&mut self, word: &str) -> Result<(), Halt>
        ensures { Reads (read (forms.word word.now) self.old) result self.new }
    {
        if !self.next_is_word(word) {
            return Err(Halt::Left(self.left()));
        }
        self.advance();
        Ok(())
    }

    /// Passes this symbol.
    pub(crate) fn symbol(&mut self, symbol: TokenKind) -> Result<(), Halt>
        ensures { Reads (read (forms.symbol symbol) self.old) result self.new }
    {
        if !self.next_is_symbol(symbol) {
            return Err(Halt::Left(self.left()));
        }
        self.advance();
        Ok(())
    }

    /// Passes this word where it stands, and says whether it did.
    pub(crate) fn take_word(&mut self, word: &str) -> bool
        ensures { Takes (forms.word word.now) result self.old self.new }
    {
        let stands = self.next_is_word(word);
        if stands {
            self.advance();
        }
        stands
    }

    /// Passes this symbol where it stands, and says whether it did.
    pub(crate) fn take_symbol(&mut self, symbol: TokenKind) -> bool
        ensures { Takes (forms.symbol symbol) result self.old self.new }
    {
        let stands = self.next_is_symbol(symbol);
        if stands {
            self.advance();
        }
        stands
    }

    /// The next token, where it is a name.
    pub(crate) fn next_name(&self) -> Option<Lexeme<'a>>
        ensures { MatchOption result (next_is terminals.Name self.now ≡ false)
            (λ t. (self.now ≡ seen t ∷ drop 1 self.now) × (is_name (seen t) ≡ true)) }
    {
        let next = self.next()?;
        if next.is_name() { Some(next) } else { None }
    }

    /// The next token, where it is a name, and not this word without quotes.
    pub(crate) fn next_other_name(&self, word: &str) -> Option<Lexeme<'a>>
        ensures { MatchOption result (next_is (terminals.NameBut word.now) self.now ≡ false)
            (λ t. (self.now ≡ seen t ∷ drop 1 self.now) × (accepts (terminals.NameBut word.now) (seen t) ≡ true)) }
    {
        let next = self.next()?;
        if next.is_name() && !next.is_word(word) {
            Some(next)
        } else {
            None
        }
    }

    /// The next token, where it is this word.
    pub(crate) fn next_word(&self, word: &str) -> Option<Lexeme<'a>>
        ensures { MatchOption result (next_is (terminals.Word word.now) self.now ≡ false)
            (λ t. (self.now ≡ seen t ∷ drop 1 self.now) × (is_word (seen t) word.now ≡ true)) }
    {
        let next = self.next()?;
        if next.is_word(word) { Some(next) } else { None }
    }

    /// The next token, where it is of this kind.
    pub(crate) fn next_symbol(&self, symbol: TokenKind) -> Option<Lexeme<'a>>
        ensures { MatchOption result (next_is (terminals.Symbol symbol) self.now ≡ false)
            (λ t. (self.now ≡ seen t ∷ drop 1 self.now) × (is_kind t.kind symbol ≡ true)) }
    {
        let next = self.next()?;
        if is_same_kind(next.kind, symbol) {
            Some(next)
        } else {
            None
        }
    }

    /// The type that the next token names.
    pub(crate) fn next_type(&self) -> Option<CqlType>
        ensures { MatchOption result (next_is terminals.TypeWord self.now ≡ false)
            (λ ty. (t : Meaning) × (self.now ≡ t ∷ drop 1 self.now) × (is_kind t.kind kinds.Word ≡ true) × (type_named t.word ≡ Some ty)) }
    {
        let next = self.next()?;
        if is_same_kind(next.kind, TokenKind::Word) {
            type_named(next.word)
        } else {
            None
        }
    }
}
