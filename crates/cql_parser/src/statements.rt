//! Statements.

ghost use Rattle.std.specs.Prelude.{◌≡◌};
ghost use Rattle.cql_parser.specs.Gives.{Reads};
ghost use Rattle.cql_parser.specs.Grammar as grammar;
ghost use Rattle.cql_parser.specs.Reading.{read};

use crate::cursor::{Cursor, Halt};
use crate::rows::{batch, delete, insert, pass_semicolon, update};
use crate::schema::{create, use_keyspace};
use crate::selects::select;
use cql_statement::Statement;
use std::alloc::Global;

#[tactic(auto, unfolding(crate::specs::Grammar::statement_body))]
fn statement_body(cursor: &mut Cursor<'_>, alloc: Global) -> Result<Statement, Halt>
    ensures { Reads (read grammar.statement_body cursor.old) result cursor.new }
{
    if cursor.next_is_word("CREATE") {
        return create(cursor, alloc);
    }
    if cursor.next_is_word("USE") {
        return use_keyspace(cursor, alloc).map(Statement::Use);
    }
    if cursor.next_is_word("INSERT") {
        return insert(cursor, alloc).map(Statement::Insert);
    }
    if cursor.next_is_word("UPDATE") {
        return update(cursor, alloc).map(Statement::Update);
    }
    if cursor.next_is_word("DELETE") {
        return delete(cursor, alloc).map(Statement::Delete);
    }
    if cursor.next_is_word("SELECT") {
        return select(cursor, alloc).map(Statement::Select);
    }
    batch(cursor, alloc).map(Statement::Batch)
}

/// A statement, and the semicolon behind it if one stands there.
#[tactic(auto, unfolding(crate::specs::Grammar::statement))]
pub(crate) fn statement(cursor: &mut Cursor<'_>, alloc: Global) -> Result<Statement, Halt>
    ensures { Reads (read grammar.statement cursor.old) result cursor.new }
{
    let statement = statement_body(cursor, alloc)?;
    pass_semicolon(cursor);
    Ok(statement)
}
