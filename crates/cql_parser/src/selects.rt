//! SELECT.

ghost use Rattle.std.specs.Prelude.{◌≡◌, ◌∷◌, codes};
ghost use Rattle.cql_parser.specs.Forms.{option, optional_list, listed, word, ◌▹◌};
ghost use Rattle.cql_parser.specs.Gives.{Reads};
ghost use Rattle.cql_parser.specs.Grammar as grammar;
ghost use Rattle.cql_parser.specs.Reading.{read, mapped};
ghost use Rattle.cql_statement.specs.declared.select.Selection.TheVariants as selections;

use crate::cursor::{Cursor, Halt};
use crate::lists::{Part, Separator, more_of, separated};
use crate::schema::direction;
use crate::terms::{name, other_name, relations_behind_where, table_behind, term, word_as_name};
use cql_statement::{ColumnOrder, ColumnOrders, Select, Selection, Term};
use cql_tokens::TokenKind;
use cs_base::{Items, Text};
use std::alloc::Global;

/// This column and those behind it.
#[tactic(auto, unfolding(crate::specs::Grammar::more_names))]
fn columns_from(cursor: &mut Cursor<'_>, alloc: Global, first: Text) -> Result<Selection, Halt>
    ensures { Reads (mapped (λ more. selections.Columns (first ∷ more)) (read grammar.more_names cursor.old)) result cursor.new }
{
    let mut columns = Items::new(alloc);
    columns.push(first)?;
    let columns = more_of(cursor, alloc, Separator::Comma, columns)?;
    Ok(Selection::Columns(columns))
}

#[tactic(auto, unfolding(crate::specs::Grammar::selection))]
fn selection(cursor: &mut Cursor<'_>, alloc: Global) -> Result<Selection, Halt>
    ensures { Reads (read grammar.selection cursor.old) result cursor.new }
{
    if cursor.take_symbol(TokenKind::Star) {
        return Ok(Selection::All);
    }
    if !cursor.next_is_word("COUNT") {
        let first = other_name(cursor, alloc, "COUNT")?;
        return columns_from(cursor, alloc, first);
    }
    let count = word_as_name(cursor, alloc, "COUNT")?;
    if !cursor.take_symbol(TokenKind::OpenParenthesis) {
        return columns_from(cursor, alloc, count);
    }
    cursor.symbol(TokenKind::Star)?;
    cursor.symbol(TokenKind::CloseParenthesis)?;
    Ok(Selection::Count)
}

impl Part for ColumnOrder {
    ghost reads = { read grammar.order };

    #[tactic(auto, unfolding(crate::specs::Grammar::order, crate::specs::Grammar::direction))]
    fn read(cursor: &mut Cursor<'_>, alloc: Global) -> Result<ColumnOrder, Halt> {
        let column = name(cursor, alloc)?;
        let stands = cursor.next_is_word("ASC") || cursor.next_is_word("DESC");
        let is_descending = if stands { direction(cursor)? } else { false };
        Ok(ColumnOrder {
            column,
            is_descending,
        })
    }
}

/// `[ORDER BY name [ASC | DESC] {, name [ASC | DESC]}]`.
fn orders(cursor: &mut Cursor<'_>, alloc: Global) -> Result<ColumnOrders, Halt>
    ensures { Reads (read (optional_list (word (codes "ORDER") ▹ word (codes "BY") ▹ listed grammar.order)) cursor.old) result cursor.new }
{
    if !cursor.take_word("ORDER") {
        return Ok(Items::new(alloc));
    }
    cursor.word("BY")?;
    separated(cursor, alloc, Separator::Comma)
}

/// `[LIMIT term]`.
fn limit(cursor: &mut Cursor<'_>, alloc: Global) -> Result<Option<Term>, Halt>
    ensures { Reads (read (option (word (codes "LIMIT") ▹ grammar.term)) cursor.old) result cursor.new }
{
    if !cursor.take_word("LIMIT") {
        return Ok(None);
    }
    term(cursor, alloc).map(Some)
}

#[tactic(auto, unfolding(crate::specs::Grammar::select_body))]
fn select_body(cursor: &mut Cursor<'_>, alloc: Global) -> Result<Select, Halt>
    ensures { Reads (read grammar.select_body cursor.old) result cursor.new }
{
    let selection = selection(cursor, alloc)?;
    let table = table_behind(cursor, alloc, "FROM")?;
    let relations = relations_behind_where(cursor, alloc)?;
    let orders = orders(cursor, alloc)?;
    let limit = limit(cursor, alloc)?;
    Ok(Select {
        selection,
        table,
        relations,
        orders,
        limit,
    })
}

pub(crate) fn select(cursor: &mut Cursor<'_>, alloc: Global) -> Result<Select, Halt>
    ensures { Reads (read grammar.select cursor.old) result cursor.new }
{
    cursor.word("SELECT")?;
    select_body(cursor, alloc)
}
