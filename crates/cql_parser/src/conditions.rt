//! What stands behind the IF, the USING and the IF NOT of statements that change rows.

ghost use Rattle.std.specs.Prelude.{◌≡◌, ◌∷◌, Ok};
ghost use Rattle.cql_parser.specs.Forms.{option, flag};
ghost use Rattle.cql_parser.specs.Gives.{Reads};
ghost use Rattle.cql_parser.specs.Grammar as grammar;
ghost use Rattle.cql_parser.specs.Reading.{read, mapped, starts, firsts};
ghost use Rattle.cql_statement.specs.declared.modification.Condition.TheVariants as conditions;

use crate::cursor::{Cursor, Halt};
use crate::lists::{Part, Separator, more_of};
use crate::terms::{name, other_name, term, word_as_name};
use cql_statement::{Condition, Stamp, Test, TestOperator};
use cql_tokens::TokenKind;
use cs_base::Items;
use std::alloc::Global;

/// Whether an operator of a test is next.
fn next_is_test_operator(cursor: &Cursor<'_>) -> bool
    ensures { result ≡ starts (firsts grammar.test_operator) cursor.now }
{
    cursor.next_is_symbol(TokenKind::Equal)
        || cursor.next_is_symbol(TokenKind::NotEqual)
        || cursor.next_is_symbol(TokenKind::Less)
        || cursor.next_is_symbol(TokenKind::LessOrEqual)
        || cursor.next_is_symbol(TokenKind::Greater)
        || cursor.next_is_symbol(TokenKind::GreaterOrEqual)
}

/// `= != < <= > >=`.
fn test_operator(cursor: &mut Cursor<'_>) -> Result<TestOperator, Halt>
    ensures { Reads (read grammar.test_operator cursor.old) result cursor.new }
{
    if cursor.take_symbol(TokenKind::Equal) {
        return Ok(TestOperator::Equal);
    }
    if cursor.take_symbol(TokenKind::NotEqual) {
        return Ok(TestOperator::NotEqual);
    }
    if cursor.take_symbol(TokenKind::Less) {
        return Ok(TestOperator::Less);
    }
    if cursor.take_symbol(TokenKind::LessOrEqual) {
        return Ok(TestOperator::LessOrEqual);
    }
    if cursor.take_symbol(TokenKind::Greater) {
        return Ok(TestOperator::Greater);
    }
    cursor.symbol(TokenKind::GreaterOrEqual)?;
    Ok(TestOperator::GreaterOrEqual)
}

impl Part for Test {
    ghost reads = { read grammar.column_test };

    #[tactic(auto, unfolding(crate::specs::Grammar::column_test))]
    fn read(cursor: &mut Cursor<'_>, alloc: Global) -> Result<Test, Halt> {
        let column = name(cursor, alloc)?;
        let operator = test_operator(cursor)?;
        let term = term(cursor, alloc)?;
        Ok(Test {
            column,
            operator,
            term,
        })
    }
}

/// This test and those behind it.
#[tactic(auto, unfolding(crate::specs::Grammar::more_tests))]
fn tests_from(cursor: &mut Cursor<'_>, alloc: Global, first: Test) -> Result<Condition, Halt>
    ensures { Reads (mapped (λ more. conditions.Tests (first ∷ more)) (read grammar.more_tests cursor.old)) result cursor.new }
{
    let mut tests = Items::new(alloc);
    tests.push(first)?;
    let tests = more_of(cursor, alloc, Separator::And, tests)?;
    Ok(Condition::Tests(tests))
}

#[tactic(auto, unfolding(crate::specs::Grammar::condition_body))]
fn condition_body(cursor: &mut Cursor<'_>, alloc: Global) -> Result<Condition, Halt>
    ensures { Reads (read grammar.condition_body cursor.old) result cursor.new }
{
    if !cursor.next_is_word("EXISTS") {
        let column = other_name(cursor, alloc, "EXISTS")?;
        let operator = test_operator(cursor)?;
        let term = term(cursor, alloc)?;
        let first = Test {
            column,
            operator,
            term,
        };
        return tests_from(cursor, alloc, first);
    }
    let column = word_as_name(cursor, alloc, "EXISTS")?;
    if !next_is_test_operator(cursor) {
        return Ok(Condition::Exists);
    }
    let operator = test_operator(cursor)?;
    let term = term(cursor, alloc)?;
    let first = Test {
        column,
        operator,
        term,
    };
    tests_from(cursor, alloc, first)
}

/// `[IF EXISTS | IF test {AND test}]`.
pub(crate) fn condition(cursor: &mut Cursor<'_>, alloc: Global) -> Result<Option<Condition>, Halt>
    ensures { Reads (read (option grammar.condition) cursor.old) result cursor.new }
{
    if !cursor.take_word("IF") {
        return Ok(None);
    }
    condition_body(cursor, alloc).map(Some)
}

/// `[IF NOT EXISTS]`, and whether it stands there.
pub(crate) fn if_not_exists(cursor: &mut Cursor<'_>) -> Result<bool, Halt>
    ensures { Reads (read (flag grammar.if_not_exists) cursor.old) result cursor.new }
{
    if !cursor.take_word("IF") {
        return Ok(false);
    }
    cursor.word("NOT")?;
    cursor.word("EXISTS")?;
    Ok(true)
}

/// `[USING TIMESTAMP term]`.
pub(crate) fn stamp(cursor: &mut Cursor<'_>, alloc: Global) -> Result<Option<Stamp>, Halt>
    ensures { Reads (read (option grammar.stamp) cursor.old) result cursor.new }
{
    if !cursor.take_word("USING") {
        return Ok(None);
    }
    cursor.word("TIMESTAMP")?;
    let timestamp = term(cursor, alloc)?;
    Ok(Some(Stamp { timestamp }))
}
