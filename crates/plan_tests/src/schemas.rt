//! Statements of texts, and schemas of tables as CQL statements, each in a line.

use cql_parser::parse;
use cql_statement::Statements;
use cs_base::Items;
use schema_book::Schema;
use std::alloc::Global;
use std::test::Fail;

fn add_statement(statements: &mut Statements, alloc: Global, line: &str) -> Result<(), Fail> {
    statements.push(parse(alloc, line)?)?;
    Ok(())
}

/// The statement of a text, alone in a list.
pub fn statement_of(alloc: Global, text: &str) -> Result<Statements, Fail> {
    let mut statements = Items::new(alloc);
    add_statement(&mut statements, alloc, text)?;
    Ok(statements)
}

fn statements_of(alloc: Global, lines: &str) -> Result<Statements, Fail> {
    let mut statements = Items::new(alloc);
    for line in lines.lines() {
        add_statement(&mut statements, alloc, line)?;
    }
    Ok(statements)
}

pub fn schema_of(alloc: Global, lines: &str) -> Result<Schema, Fail> {
    let statements = statements_of(alloc, lines)?;
    Ok(Schema::from_statements(alloc, &statements, 3, 1, 864_000)?)
}
