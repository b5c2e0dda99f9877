//! CREATE KEYSPACE, CREATE TABLE and USE.

ghost use Rattle.std.specs.Prelude.{◌≡◌, Ok, codes, length};
ghost use Rattle.cql_parser.specs.Forms.{flag, symbol, listed, word, ◌▹◌, ◌&◌};
ghost use Rattle.cql_parser.specs.Gives.{Reads};
ghost use Rattle.cql_parser.specs.Grammar as grammar;
ghost use Rattle.cql_parser.specs.Reading.{read, prefixed, more_at};
ghost use Rattle.cql_tokens.specs.declared.token.TokenKind.TheVariants as kinds;

use crate::conditions::if_not_exists;
use crate::cursor::{Cursor, Halt};
use crate::lists::{Part, Separator, separated};
use crate::terms::{literal, more_names, name, names, other_name, table_name, word_as_name};
use cql_statement::{
    ColumnItem, ColumnOrder, ColumnOrders, CreateKeyspace, CreateTable, KeyItem, Names, OptionItem,
    Replication, ReplicationEntry, Statement, TableItem, TableItems, TableOption, TableOptions,
    Use,
};
use cql_tokens::TokenKind;
use cql_values::{CqlType, Literal, LiteralKind};
use cs_base::Items;
use std::alloc::Global;

/// `:` and a string or a whole number.
#[tactic(auto, unfolding(crate::specs::Grammar::entry_value))]
fn entry_value(cursor: &mut Cursor<'_>, alloc: Global) -> Result<Literal, Halt>
    ensures { Reads (read (symbol kinds.Colon ▹ grammar.entry_value) cursor.old) result cursor.new }
{
    cursor.symbol(TokenKind::Colon)?;
    if cursor.next_is_symbol(TokenKind::Str) {
        literal(cursor, alloc, TokenKind::Str, LiteralKind::Str)
    } else {
        literal(cursor, alloc, TokenKind::Whole, LiteralKind::Whole)
    }
}

impl Part for ReplicationEntry {
    ghost reads = { read grammar.entry };

    #[tactic(auto, unfolding(crate::specs::Grammar::entry))]
    fn read(cursor: &mut Cursor<'_>, alloc: Global) -> Result<ReplicationEntry, Halt> {
        let key = literal(cursor, alloc, TokenKind::Str, LiteralKind::Str)?;
        let value = entry_value(cursor, alloc)?;
        Ok(ReplicationEntry { key, value })
    }
}

#[tactic(auto, unfolding(crate::specs::Grammar::replication))]
fn replication(cursor: &mut Cursor<'_>, alloc: Global) -> Result<Replication, Halt>
    ensures { Reads (read grammar.replication cursor.old) result cursor.new }
{
    cursor.symbol(TokenKind::OpenBrace)?;
    let entries = separated(cursor, alloc, Separator::Comma)?;
    cursor.symbol(TokenKind::CloseBrace).and(Ok(entries))
}

/// `WITH REPLICATION = { entry {, entry} }`.
fn stated_replication(cursor: &mut Cursor<'_>, alloc: Global) -> Result<Replication, Halt>
    ensures { Reads (read (word (codes "WITH") ▹ word (codes "REPLICATION") ▹ symbol kinds.Equal ▹ grammar.replication) cursor.old) result cursor.new }
{
    cursor.word("WITH")?;
    cursor.word("REPLICATION")?;
    cursor.symbol(TokenKind::Equal)?;
    replication(cursor, alloc)
}

/// `[AND DURABLE_WRITES = TRUE]`.
#[tactic(auto, unfolding(crate::specs::Grammar::durable_writes))]
fn durable_writes(cursor: &mut Cursor<'_>) -> Result<(), Halt>
    ensures { Reads (read grammar.durable_writes cursor.old) result cursor.new }
{
    if !cursor.take_word("AND") {
        return Ok(());
    }
    cursor.word("DURABLE_WRITES")?;
    cursor.symbol(TokenKind::Equal)?;
    cursor.word("TRUE")
}

#[tactic(auto, unfolding(crate::specs::Grammar::keyspace_body))]
fn keyspace_body(cursor: &mut Cursor<'_>, alloc: Global) -> Result<CreateKeyspace, Halt>
    ensures { Reads (read grammar.keyspace_body cursor.old) result cursor.new }
{
    let if_not_exists = if_not_exists(cursor)?;
    let name = name(cursor, alloc)?;
    let replication = stated_replication(cursor, alloc)?;
    let create = CreateKeyspace {
        if_not_exists,
        name,
        replication,
    };
    durable_writes(cursor).and(Ok(create))
}

#[tactic(auto, unfolding(crate::specs::Grammar::type_word))]
fn type_word(cursor: &mut Cursor<'_>) -> Result<CqlType, Halt>
    ensures { Reads (read grammar.type_word cursor.old) result cursor.new }
{
    let Some(ty) = cursor.next_type() else {
        return Err(Halt::Left(cursor.left()));
    };
    cursor.advance();
    Ok(ty)
}

/// `[PRIMARY KEY]`, and whether it stands there.
fn is_primary_key(cursor: &mut Cursor<'_>) -> Result<bool, Halt>
    ensures { Reads (read (flag grammar.primary_key) cursor.old) result cursor.new }
{
    if !cursor.take_word("PRIMARY") {
        return Ok(false);
    }
    cursor.word("KEY")?;
    Ok(true)
}

/// `( name {, name} )`.
pub(crate) fn names_in_parentheses(cursor: &mut Cursor<'_>, alloc: Global) -> Result<Names, Halt>
    ensures { Reads (read (grammar.parenthesized grammar.names) cursor.old) result cursor.new }
{
    cursor.symbol(TokenKind::OpenParenthesis)?;
    let names = names(cursor, alloc)?;
    cursor.symbol(TokenKind::CloseParenthesis).and(Ok(names))
}

#[tactic(auto, unfolding(crate::specs::Grammar::partition_key))]
fn partition_key(cursor: &mut Cursor<'_>, alloc: Global) -> Result<Names, Halt>
    ensures { Reads (read grammar.partition_key cursor.old) result cursor.new }
{
    if cursor.next_is_symbol(TokenKind::OpenParenthesis) {
        return names_in_parentheses(cursor, alloc);
    }
    let column = name(cursor, alloc)?;
    let mut columns = Items::new(alloc);
    columns.push(column)?;
    Ok(columns)
}

#[tactic(auto, unfolding(crate::specs::Grammar::key))]
fn key(cursor: &mut Cursor<'_>, alloc: Global) -> Result<TableItem, Halt>
    ensures { Reads (read grammar.key cursor.old) result cursor.new }
{
    let partition = partition_key(cursor, alloc)?;
    let clustering = more_names(cursor, alloc)?;
    Ok(TableItem::PrimaryKey(KeyItem {
        partition,
        clustering,
    }))
}

impl Part for TableItem {
    ghost reads = { read grammar.item };

    #[tactic(auto, unfolding(crate::specs::Grammar::item))]
    fn read(cursor: &mut Cursor<'_>, alloc: Global) -> Result<TableItem, Halt> {
        if cursor.take_word("PRIMARY") {
            cursor.word("KEY")?;
            cursor.symbol(TokenKind::OpenParenthesis)?;
            let key = key(cursor, alloc)?;
            return cursor.symbol(TokenKind::CloseParenthesis).and(Ok(key));
        }
        let name = name(cursor, alloc)?;
        let ty = type_word(cursor)?;
        let is_primary_key = is_primary_key(cursor)?;
        Ok(TableItem::Column(ColumnItem {
            name,
            ty,
            is_primary_key,
        }))
    }
}

/// `ASC | DESC`, and whether it is DESC.
#[tactic(auto, unfolding(crate::specs::Grammar::direction))]
pub(crate) fn direction(cursor: &mut Cursor<'_>) -> Result<bool, Halt>
    ensures { Reads (read grammar.direction cursor.old) result cursor.new }
{
    if cursor.take_word("ASC") {
        return Ok(false);
    }
    cursor.word("DESC")?;
    Ok(true)
}

/// `name (ASC | DESC)`.
#[tactic(auto, unfolding(crate::specs::Grammar::stated_order))]
fn stated_order(cursor: &mut Cursor<'_>, alloc: Global) -> Result<ColumnOrder, Halt>
    ensures { Reads (read grammar.stated_order cursor.old) result cursor.new }
{
    let column = name(cursor, alloc)?;
    let is_descending = direction(cursor)?;
    Ok(ColumnOrder {
        column,
        is_descending,
    })
}

/// Further orders behind those that were read.
fn more_orders(
    cursor: &mut Cursor<'_>,
    alloc: Global,
    first: ColumnOrders,
) -> Result<ColumnOrders, Halt>
    ensures { Reads (prefixed first (more_at (symbol kinds.Comma) (read grammar.stated_order) (length cursor.old) cursor.old)) result cursor.new }
{
    let mut orders = first;
    let most = cursor.left();
    for _ in 0..most {
        if !cursor.take_symbol(TokenKind::Comma) {
            return Ok(orders);
        }
        orders.push(stated_order(cursor, alloc)?)?;
    }
    Ok(orders)
}

fn stated_orders(cursor: &mut Cursor<'_>, alloc: Global) -> Result<ColumnOrders, Halt>
    ensures { Reads (read (listed grammar.stated_order) cursor.old) result cursor.new }
{
    let mut orders = Items::new(alloc);
    orders.push(stated_order(cursor, alloc)?)?;
    more_orders(cursor, alloc, orders)
}

#[tactic(auto, unfolding(crate::specs::Grammar::clustering_order))]
fn clustering_order(cursor: &mut Cursor<'_>, alloc: Global) -> Result<ColumnOrders, Halt>
    ensures { Reads (read grammar.clustering_order cursor.old) result cursor.new }
{
    cursor.word("ORDER")?;
    cursor.word("BY")?;
    cursor.symbol(TokenKind::OpenParenthesis)?;
    let orders = stated_orders(cursor, alloc)?;
    cursor.symbol(TokenKind::CloseParenthesis).and(Ok(orders))
}

#[tactic(auto, unfolding(crate::specs::Grammar::option_value))]
fn option_value(cursor: &mut Cursor<'_>, alloc: Global) -> Result<Literal, Halt>
    ensures { Reads (read grammar.option_value cursor.old) result cursor.new }
{
    cursor.symbol(TokenKind::Equal)?;
    if cursor.next_is_symbol(TokenKind::Whole) {
        return literal(cursor, alloc, TokenKind::Whole, LiteralKind::Whole);
    }
    literal(cursor, alloc, TokenKind::Str, LiteralKind::Str)
}

impl Part for TableOption {
    ghost reads = { read grammar.table_option };

    #[tactic(auto, unfolding(crate::specs::Grammar::table_option, crate::specs::Grammar::clustering_order))]
    fn read(cursor: &mut Cursor<'_>, alloc: Global) -> Result<TableOption, Halt> {
        if !cursor.next_is_word("CLUSTERING") {
            let name = other_name(cursor, alloc, "CLUSTERING")?;
            let value = option_value(cursor, alloc)?;
            return Ok(TableOption::Named(OptionItem { name, value }));
        }
        let name = word_as_name(cursor, alloc, "CLUSTERING")?;
        if cursor.next_is_word("ORDER") {
            let orders = clustering_order(cursor, alloc)?;
            return Ok(TableOption::ClusteringOrder(orders));
        }
        let value = option_value(cursor, alloc)?;
        Ok(TableOption::Named(OptionItem { name, value }))
    }
}

#[tactic(auto, unfolding(crate::specs::Grammar::table_options))]
fn table_options(cursor: &mut Cursor<'_>, alloc: Global) -> Result<TableOptions, Halt>
    ensures { Reads (read grammar.table_options cursor.old) result cursor.new }
{
    if !cursor.take_word("WITH") {
        return Ok(Items::new(alloc));
    }
    separated(cursor, alloc, Separator::And)
}

fn table_items(cursor: &mut Cursor<'_>, alloc: Global) -> Result<TableItems, Halt>
    ensures { Reads (read (grammar.parenthesized (listed grammar.item)) cursor.old) result cursor.new }
{
    cursor.symbol(TokenKind::OpenParenthesis)?;
    let items = separated(cursor, alloc, Separator::Comma)?;
    cursor.symbol(TokenKind::CloseParenthesis).and(Ok(items))
}

/// `( item {, item} ) [WITH option {AND option}]`.
fn items_and_options(
    cursor: &mut Cursor<'_>,
    alloc: Global,
) -> Result<(TableItems, TableOptions), Halt>
    ensures { Reads (read (grammar.parenthesized (listed grammar.item) & grammar.table_options) cursor.old) result cursor.new }
{
    let items = table_items(cursor, alloc)?;
    let options = table_options(cursor, alloc)?;
    Ok((items, options))
}

#[tactic(auto, unfolding(crate::specs::Grammar::table_body))]
fn table_body(cursor: &mut Cursor<'_>, alloc: Global) -> Result<CreateTable, Halt>
    ensures { Reads (read grammar.table_body cursor.old) result cursor.new }
{
    let if_not_exists = if_not_exists(cursor)?;
    let table = table_name(cursor, alloc)?;
    let (items, options) = items_and_options(cursor, alloc)?;
    Ok(CreateTable {
        if_not_exists,
        table,
        items,
        options,
    })
}

/// CREATE KEYSPACE or CREATE TABLE.
pub(crate) fn create(cursor: &mut Cursor<'_>, alloc: Global) -> Result<Statement, Halt>
    ensures { Reads (read grammar.create cursor.old) result cursor.new }
{
    cursor.word("CREATE")?;
    if cursor.take_word("KEYSPACE") {
        return keyspace_body(cursor, alloc).map(Statement::CreateKeyspace);
    }
    cursor.word("TABLE")?;
    table_body(cursor, alloc).map(Statement::CreateTable)
}

pub(crate) fn use_keyspace(cursor: &mut Cursor<'_>, alloc: Global) -> Result<Use, Halt>
    ensures { Reads (read grammar.use_keyspace cursor.old) result cursor.new }
{
    cursor.word("USE")?;
    let keyspace = name(cursor, alloc)?;
    Ok(Use { keyspace })
}
