//! INSERT, UPDATE, DELETE and batches of them.

ghost use Rattle.std.specs.Prelude.{◌≡◌, Ok, codes, length};
ghost use Rattle.cql_parser.specs.Forms.{flag, option, optional_list, listed, many, word, ◌▹◌, ◌◃◌, ◌&◌};
ghost use Rattle.cql_parser.specs.Gives.{Reads};
ghost use Rattle.cql_parser.specs.Grammar as grammar;
ghost use Rattle.cql_parser.specs.Reading.{read, starts, firsts};

use crate::conditions::{condition, if_not_exists, stamp};
use crate::cursor::{Cursor, Halt};
use crate::lists::{Part, Separator, separated};
use crate::schema::names_in_parentheses;
use crate::terms::{name, names, relations_behind_where, table_behind, table_name, term};
use cql_statement::{
    Assignment, Assignments, Batch, Condition, Delete, Insert, Modification, Modifications, Names,
    Relations, Stamp, Terms, Update,
};
use cql_tokens::TokenKind;
use cs_base::Items;
use std::alloc::Global;

#[tactic(auto, unfolding(crate::specs::Grammar::terms_in_parentheses))]
fn terms_in_parentheses(cursor: &mut Cursor<'_>, alloc: Global) -> Result<Terms, Halt>
    ensures { Reads (read grammar.terms_in_parentheses cursor.old) result cursor.new }
{
    cursor.symbol(TokenKind::OpenParenthesis)?;
    let terms = separated(cursor, alloc, Separator::Comma)?;
    cursor.symbol(TokenKind::CloseParenthesis).and(Ok(terms))
}

/// `VALUES ( term {, term} )`.
fn inserted_values(cursor: &mut Cursor<'_>, alloc: Global) -> Result<Terms, Halt>
    ensures { Reads (read (word (codes "VALUES") ▹ grammar.terms_in_parentheses) cursor.old) result cursor.new }
{
    cursor.word("VALUES")?;
    terms_in_parentheses(cursor, alloc)
}

/// `[IF NOT EXISTS] [USING TIMESTAMP term]`.
fn exists_and_stamp(cursor: &mut Cursor<'_>, alloc: Global) -> Result<(bool, Option<Stamp>), Halt>
    ensures { Reads (read (flag grammar.if_not_exists & option grammar.stamp) cursor.old) result cursor.new }
{
    let if_not_exists = if_not_exists(cursor)?;
    let stamp = stamp(cursor, alloc)?;
    Ok((if_not_exists, stamp))
}

#[tactic(auto, unfolding(crate::specs::Grammar::insert_body))]
fn insert_body(cursor: &mut Cursor<'_>, alloc: Global) -> Result<Insert, Halt>
    ensures { Reads (read grammar.insert_body cursor.old) result cursor.new }
{
    let table = table_behind(cursor, alloc, "INTO")?;
    let columns = names_in_parentheses(cursor, alloc)?;
    let values = inserted_values(cursor, alloc)?;
    let (if_not_exists, stamp) = exists_and_stamp(cursor, alloc)?;
    Ok(Insert {
        table,
        columns,
        values,
        if_not_exists,
        stamp,
    })
}

pub(crate) fn insert(cursor: &mut Cursor<'_>, alloc: Global) -> Result<Insert, Halt>
    ensures { Reads (read grammar.insert cursor.old) result cursor.new }
{
    cursor.word("INSERT")?;
    insert_body(cursor, alloc)
}

impl Part for Assignment {
    ghost reads = { read grammar.assignment };

    #[tactic(auto, unfolding(crate::specs::Grammar::assignment))]
    fn read(cursor: &mut Cursor<'_>, alloc: Global) -> Result<Assignment, Halt> {
        let column = name(cursor, alloc)?;
        cursor.symbol(TokenKind::Equal)?;
        let term = term(cursor, alloc)?;
        Ok(Assignment { column, term })
    }
}

/// `SET assignment {, assignment}`.
fn assignments(cursor: &mut Cursor<'_>, alloc: Global) -> Result<Assignments, Halt>
    ensures { Reads (read (word (codes "SET") ▹ listed grammar.assignment) cursor.old) result cursor.new }
{
    cursor.word("SET")?;
    separated(cursor, alloc, Separator::Comma)
}

/// `WHERE relation {AND relation} [IF condition]`.
fn where_and_if(
    cursor: &mut Cursor<'_>,
    alloc: Global,
) -> Result<(Relations, Option<Condition>), Halt>
    ensures { Reads (read (word (codes "WHERE") ▹ grammar.relations & option grammar.condition) cursor.old) result cursor.new }
{
    let relations = relations_behind_where(cursor, alloc)?;
    let condition = condition(cursor, alloc)?;
    Ok((relations, condition))
}

#[tactic(auto, unfolding(crate::specs::Grammar::update_body))]
fn update_body(cursor: &mut Cursor<'_>, alloc: Global) -> Result<Update, Halt>
    ensures { Reads (read grammar.update_body cursor.old) result cursor.new }
{
    let table = table_name(cursor, alloc)?;
    let stamp = stamp(cursor, alloc)?;
    let assignments = assignments(cursor, alloc)?;
    let (relations, condition) = where_and_if(cursor, alloc)?;
    Ok(Update {
        table,
        stamp,
        assignments,
        relations,
        condition,
    })
}

pub(crate) fn update(cursor: &mut Cursor<'_>, alloc: Global) -> Result<Update, Halt>
    ensures { Reads (read grammar.update cursor.old) result cursor.new }
{
    cursor.word("UPDATE")?;
    update_body(cursor, alloc)
}

/// The columns of a DELETE, none where FROM stands.
#[tactic(auto, unfolding(crate::specs::Grammar::names, crate::specs::Grammar::name))]
fn deleted_columns(cursor: &mut Cursor<'_>, alloc: Global) -> Result<Names, Halt>
    ensures { Reads (read (optional_list grammar.names) cursor.old) result cursor.new }
{
    if cursor.next_name().is_none() {
        return Ok(Items::new(alloc));
    }
    names(cursor, alloc)
}

#[tactic(auto, unfolding(crate::specs::Grammar::delete_body))]
fn delete_body(cursor: &mut Cursor<'_>, alloc: Global) -> Result<Delete, Halt>
    ensures { Reads (read grammar.delete_body cursor.old) result cursor.new }
{
    let columns = deleted_columns(cursor, alloc)?;
    let table = table_behind(cursor, alloc, "FROM")?;
    let stamp = stamp(cursor, alloc)?;
    let (relations, condition) = where_and_if(cursor, alloc)?;
    Ok(Delete {
        columns,
        table,
        stamp,
        relations,
        condition,
    })
}

pub(crate) fn delete(cursor: &mut Cursor<'_>, alloc: Global) -> Result<Delete, Halt>
    ensures { Reads (read grammar.delete cursor.old) result cursor.new }
{
    cursor.word("DELETE")?;
    delete_body(cursor, alloc)
}

/// `[;]`.
#[tactic(auto, unfolding(crate::specs::Grammar::semicolon))]
pub(crate) fn pass_semicolon(cursor: &mut Cursor<'_>)
    ensures { read grammar.semicolon cursor.old ≡ Ok (tt, cursor.new) }
{
    cursor.take_symbol(TokenKind::Semicolon);
}

/// Whether a statement that a batch may hold is next.
fn next_is_modification(cursor: &Cursor<'_>) -> bool
    ensures { result ≡ starts (firsts grammar.modification) cursor.now }
{
    cursor.next_is_word("INSERT") || cursor.next_is_word("UPDATE") || cursor.next_is_word("DELETE")
}

fn modification(cursor: &mut Cursor<'_>, alloc: Global) -> Result<Modification, Halt>
    ensures { Reads (read (grammar.modification ◃ grammar.semicolon) cursor.old) result cursor.new }
{
    let modification = if cursor.next_is_word("INSERT") {
        Modification::Insert(insert(cursor, alloc)?)
    } else if cursor.next_is_word("UPDATE") {
        Modification::Update(update(cursor, alloc)?)
    } else {
        Modification::Delete(delete(cursor, alloc)?)
    };
    pass_semicolon(cursor);
    Ok(modification)
}

/// The statements of a batch.
#[tactic(auto, unfolding(crate::specs::Grammar::modifications_form))]
fn modifications(cursor: &mut Cursor<'_>, alloc: Global) -> Result<Modifications, Halt>
    ensures { Reads (read grammar.modifications_form cursor.old) result cursor.new }
{
    let mut modifications = Items::new(alloc);
    let most = cursor.left();
    for _ in 0..most {
        if !next_is_modification(cursor) {
            return Ok(modifications);
        }
        modifications.push(modification(cursor, alloc)?)?;
    }
    Ok(modifications)
}

fn apply_batch(cursor: &mut Cursor<'_>) -> Result<(), Halt>
    ensures { Reads (read (word (codes "APPLY") ▹ word (codes "BATCH")) cursor.old) result cursor.new }
{
    cursor.word("APPLY")?;
    cursor.word("BATCH")
}

#[tactic(auto, unfolding(crate::specs::Grammar::batch_body))]
fn batch_body(cursor: &mut Cursor<'_>, alloc: Global) -> Result<Batch, Halt>
    ensures { Reads (read grammar.batch_body cursor.old) result cursor.new }
{
    let is_unlogged = cursor.take_word("UNLOGGED");
    cursor.word("BATCH")?;
    let stamp = stamp(cursor, alloc)?;
    let statements = modifications(cursor, alloc)?;
    let batch = Batch {
        is_unlogged,
        stamp,
        statements,
    };
    apply_batch(cursor).and(Ok(batch))
}

pub(crate) fn batch(cursor: &mut Cursor<'_>, alloc: Global) -> Result<Batch, Halt>
    ensures { Reads (read grammar.batch cursor.old) result cursor.new }
{
    cursor.word("BEGIN")?;
    batch_body(cursor, alloc)
}
