//! Names and terms.

ghost use Rattle.std.specs.Prelude.{◌≡◌, IfOk, codes, string_bytes};
ghost use Rattle.std.specs.Str.{chars, encode_utf8_all};
ghost use Rattle.cql_parser.specs.Grammar as grammar;
ghost use Rattle.cql_parser.specs.Grammar.{unquoted, name_of, literal_as};
ghost use Rattle.cql_parser.specs.Forms.{word as forms_word, ◌▹◌};
ghost use Rattle.cql_parser.specs.Forms.{Form as forms, Terminal as terminals};
ghost use Rattle.cql_parser.specs.Gives.{Reads, seen};
ghost use Rattle.cql_parser.specs.Reading.{read};

use crate::cursor::{Cursor, Halt, Lexeme};
use crate::lists::{Part, Separator, more, separated};
use cql_statement::{Names, Relation, RelationOperator, Relations, TableName, Term};
use cql_tokens::TokenKind;
use cql_values::{Literal, LiteralKind};
use cs_base::Text;
use std::alloc::{AllocError, Global};

/// What stands in the quotes of a name, where two of them stand for one.
fn unquoted(alloc: Global, word: &str) -> Result<String, AllocError>
    ensures { IfOk result (λ name. string_bytes name ≡ encode_utf8_all (unquoted (chars word.now))) }
{
    let mut name = String::new(alloc);
    let mut characters = word.chars();
    characters.next();
    let mut after_quote = false;
    for c in characters {
        if c == '"' && !after_quote {
            after_quote = true;
        } else {
            name.push(c)?;
            after_quote = false;
        }
    }
    Ok(name)
}

fn text_of_name(alloc: Global, name: &Lexeme<'_>) -> Result<Text, AllocError>
    ensures { IfOk result (λ text. text ≡ name_of (seen name.now)) }
{
    let text = if name.is_quoted() {
        unquoted(alloc, name.word)?
    } else {
        name.word.to_ascii_lowercase(alloc)?
    };
    Ok(Text::from_string(text))
}

#[tactic(auto, unfolding(crate::specs::Grammar::name))]
pub(crate) fn name(cursor: &mut Cursor<'_>, alloc: Global) -> Result<Text, Halt>
    ensures { Reads (read grammar.name cursor.old) result cursor.new }
{
    let Some(next) = cursor.next_name() else {
        return Err(Halt::Left(cursor.left()));
    };
    let name = text_of_name(alloc, &next)?;
    cursor.advance();
    Ok(name)
}

impl Part for Text {
    ghost reads = { read grammar.name };

    fn read(cursor: &mut Cursor<'_>, alloc: Global) -> Result<Text, Halt> {
        name(cursor, alloc)
    }
}

/// This word, as a name.
pub(crate) fn word_as_name(cursor: &mut Cursor<'_>, alloc: Global, word: &str) -> Result<Text, Halt>
    ensures { Reads (read (grammar.word_as_name word.now) cursor.old) result cursor.new }
{
    let Some(next) = cursor.next_word(word) else {
        return Err(Halt::Left(cursor.left()));
    };
    let name = text_of_name(alloc, &next)?;
    cursor.advance();
    Ok(name)
}

/// A name that is not this word without quotes.
pub(crate) fn other_name(cursor: &mut Cursor<'_>, alloc: Global, word: &str) -> Result<Text, Halt>
    ensures { Reads (read (grammar.other_name word.now) cursor.old) result cursor.new }
{
    let Some(next) = cursor.next_other_name(word) else {
        return Err(Halt::Left(cursor.left()));
    };
    let name = text_of_name(alloc, &next)?;
    cursor.advance();
    Ok(name)
}

/// `name {, name}`.
#[tactic(auto, unfolding(crate::specs::Grammar::names))]
pub(crate) fn names(cursor: &mut Cursor<'_>, alloc: Global) -> Result<Names, Halt>
    ensures { Reads (read grammar.names cursor.old) result cursor.new }
{
    separated(cursor, alloc, Separator::Comma)
}

/// `{, name}`.
#[tactic(auto, unfolding(crate::specs::Grammar::more_names))]
pub(crate) fn more_names(cursor: &mut Cursor<'_>, alloc: Global) -> Result<Names, Halt>
    ensures { Reads (read grammar.more_names cursor.old) result cursor.new }
{
    more(cursor, alloc, Separator::Comma)
}

/// `[name .] name`.
#[tactic(auto, unfolding(crate::specs::Grammar::table_name))]
pub(crate) fn table_name(cursor: &mut Cursor<'_>, alloc: Global) -> Result<TableName, Halt>
    ensures { Reads (read grammar.table_name cursor.old) result cursor.new }
{
    let front = name(cursor, alloc)?;
    if !cursor.take_symbol(TokenKind::Dot) {
        return Ok(TableName {
            keyspace: None,
            name: front,
        });
    }
    let name = name(cursor, alloc)?;
    Ok(TableName {
        keyspace: Some(front),
        name,
    })
}

/// A word and the name of a table.
pub(crate) fn table_behind(
    cursor: &mut Cursor<'_>,
    alloc: Global,
    word: &str,
) -> Result<TableName, Halt>
    ensures { Reads (read (forms_word word.now ▹ grammar.table_name) cursor.old) result cursor.new }
{
    cursor.word(word)?;
    table_name(cursor, alloc)
}

/// A token of this kind as a literal.
pub(crate) fn literal(
    cursor: &mut Cursor<'_>,
    alloc: Global,
    symbol: TokenKind,
    kind: LiteralKind,
) -> Result<Literal, Halt>
    ensures { Reads (read (forms.Made (literal_as kind) (forms.Token (terminals.Symbol symbol))) cursor.old) result cursor.new }
{
    let Some(next) = cursor.next_symbol(symbol) else {
        return Err(Halt::Left(cursor.left()));
    };
    let text = Text::from_str(alloc, next.word)?;
    cursor.advance();
    Ok(Literal { kind, text })
}

/// This word as a literal.
fn boolean(cursor: &mut Cursor<'_>, alloc: Global, word: &str) -> Result<Literal, Halt>
    ensures { Reads (read (grammar.boolean word.now) cursor.old) result cursor.new }
{
    let Some(next) = cursor.next_word(word) else {
        return Err(Halt::Left(cursor.left()));
    };
    let text = Text::from_str(alloc, next.word)?;
    cursor.advance();
    Ok(Literal {
        kind: LiteralKind::Bool,
        text,
    })
}

/// A constant, NULL, `?`, or `:` and a name.
#[tactic(auto, unfolding(crate::specs::Grammar::term))]
pub(crate) fn term(cursor: &mut Cursor<'_>, alloc: Global) -> Result<Term, Halt>
    ensures { Reads (read grammar.term cursor.old) result cursor.new }
{
    if cursor.next_is_symbol(TokenKind::Str) {
        return literal(cursor, alloc, TokenKind::Str, LiteralKind::Str).map(Term::Constant);
    }
    if cursor.next_is_symbol(TokenKind::Whole) {
        return literal(cursor, alloc, TokenKind::Whole, LiteralKind::Whole).map(Term::Constant);
    }
    if cursor.next_is_symbol(TokenKind::Blob) {
        return literal(cursor, alloc, TokenKind::Blob, LiteralKind::Blob).map(Term::Constant);
    }
    if cursor.next_is_symbol(TokenKind::Uuid) {
        return literal(cursor, alloc, TokenKind::Uuid, LiteralKind::Uuid).map(Term::Constant);
    }
    if cursor.next_is_word("TRUE") {
        return boolean(cursor, alloc, "TRUE").map(Term::Constant);
    }
    if cursor.next_is_word("FALSE") {
        return boolean(cursor, alloc, "FALSE").map(Term::Constant);
    }
    if cursor.take_word("NULL") {
        return Ok(Term::Null);
    }
    if cursor.take_symbol(TokenKind::QuestionMark) {
        return Ok(Term::Marker);
    }
    cursor.symbol(TokenKind::Colon)?;
    name(cursor, alloc).map(Term::NamedMarker)
}

impl Part for Term {
    ghost reads = { read grammar.term };

    fn read(cursor: &mut Cursor<'_>, alloc: Global) -> Result<Term, Halt> {
        term(cursor, alloc)
    }
}

/// `= < <= > >=`.
#[tactic(auto, unfolding(crate::specs::Grammar::relation_operator))]
fn relation_operator(cursor: &mut Cursor<'_>) -> Result<RelationOperator, Halt>
    ensures { Reads (read grammar.relation_operator cursor.old) result cursor.new }
{
    if cursor.take_symbol(TokenKind::Equal) {
        return Ok(RelationOperator::Equal);
    }
    if cursor.take_symbol(TokenKind::Less) {
        return Ok(RelationOperator::Less);
    }
    if cursor.take_symbol(TokenKind::LessOrEqual) {
        return Ok(RelationOperator::LessOrEqual);
    }
    if cursor.take_symbol(TokenKind::Greater) {
        return Ok(RelationOperator::Greater);
    }
    cursor.symbol(TokenKind::GreaterOrEqual)?;
    Ok(RelationOperator::GreaterOrEqual)
}

impl Part for Relation {
    ghost reads = { read grammar.relation };

    #[tactic(auto, unfolding(crate::specs::Grammar::relation))]
    fn read(cursor: &mut Cursor<'_>, alloc: Global) -> Result<Relation, Halt> {
        let column = name(cursor, alloc)?;
        let operator = relation_operator(cursor)?;
        let term = term(cursor, alloc)?;
        Ok(Relation {
            column,
            operator,
            term,
        })
    }
}

/// `relation {AND relation}`.
#[tactic(auto, unfolding(crate::specs::Grammar::relations))]
fn relations(cursor: &mut Cursor<'_>, alloc: Global) -> Result<Relations, Halt>
    ensures { Reads (read grammar.relations cursor.old) result cursor.new }
{
    separated(cursor, alloc, Separator::And)
}

/// `WHERE relation {AND relation}`.
pub(crate) fn relations_behind_where(
    cursor: &mut Cursor<'_>,
    alloc: Global,
) -> Result<Relations, Halt>
    ensures { Reads (read (forms_word (codes "WHERE") ▹ grammar.relations) cursor.old) result cursor.new }
{
    cursor.word("WHERE")?;
    relations(cursor, alloc)
}
