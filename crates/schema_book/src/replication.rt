//! The map behind REPLICATION.

ghost use Rattle.std.specs.Prelude.{◌≡◌, IfOk};
ghost use Rattle.cql_values.specs.declared.value.LiteralKind.TheVariants as kinds;
ghost use Rattle.cql_values.specs.Literals.{unquoted};
ghost use Rattle.schema_book.specs.Options.{within};
ghost use Rattle.schema_book.specs.Replication.{is_strategy as is_strategy_of, number_inside as number_inside_of, literal_number as literal_number_of, entry_factor as entry_factor_of, pair_factor as pair_factor_of, factor_in as factor_in_of};

use crate::options::number_in;
use cql_statement::ReplicationEntry;
use cql_values::{CqlType, CqlValue, Literal, LiteralError, LiteralKind, read_literal};
use std::alloc::{AllocError, Global};

fn is_strategy(entry: &ReplicationEntry) -> bool
    ensures { result ≡ is_strategy_of entry.now }
{
    entry.key.text.as_str() == "'class'" && entry.value.text.as_str() == "'SimpleStrategy'"
}

/// The number that a string holds.
fn number_inside(alloc: Global, literal: &Literal) -> Result<Option<u64>, AllocError>
    requires { literal.now.kind ≡ kinds.Str }
    ensures { IfOk result (λ number. number ≡ number_inside_of (unquoted literal.now.text)) }
{
    match read_literal(alloc, CqlType::Text, literal) {
        Ok(CqlValue::Text(inside)) => Ok(number_in(inside.as_str())),
        Err(LiteralError::NoMemory) => Err(AllocError),
        _ => Ok(None),
    }
}

/// The number that a literal writes, with quotes round it or without them.
fn literal_number(alloc: Global, literal: &Literal) -> Result<Option<u64>, AllocError>
    ensures { IfOk result (λ number. number ≡ literal_number_of literal.now) }
{
    match literal.kind {
        LiteralKind::Str => number_inside(alloc, literal),
        LiteralKind::Whole | LiteralKind::Blob | LiteralKind::Uuid | LiteralKind::Bool => {
            Ok(number_in(literal.text.as_str()))
        }
    }
}

/// The number as a factor, if there are so many nodes.
fn factor_within(nodes: u8, number: Option<u64>) -> Option<u8>
    ensures { result ≡ within 1 nodes number }
{
    let factor = number?;
    if factor < 1 || factor > u64::from(nodes) {
        return None;
    }
    Some(factor as u8)
}

fn entry_factor(
    alloc: Global,
    nodes: u8,
    entry: &ReplicationEntry,
) -> Result<Option<u8>, AllocError>
    ensures { IfOk result (λ factor. factor ≡ entry_factor_of nodes entry.now) }
{
    if entry.key.text.as_str() != "'replication_factor'" {
        return Ok(None);
    }
    let number = literal_number(alloc, &entry.value)?;
    Ok(factor_within(nodes, number))
}

fn pair_factor(
    alloc: Global,
    nodes: u8,
    first: &ReplicationEntry,
    second: &ReplicationEntry,
) -> Result<Option<u8>, AllocError>
    ensures { IfOk result (λ factor. factor ≡ pair_factor_of nodes first.now second.now) }
{
    if is_strategy(first) {
        return entry_factor(alloc, nodes, second);
    }
    if is_strategy(second) {
        return entry_factor(alloc, nodes, first);
    }
    Ok(None)
}

/// How many replicas the map asks for, if it is one of SimpleStrategy and they are no more than the nodes.
pub(crate) fn factor_in(
    alloc: Global,
    nodes: u8,
    entries: &[ReplicationEntry],
) -> Result<Option<u8>, AllocError>
    ensures { IfOk result (λ factor. factor ≡ factor_in_of nodes entries.now) }
{
    match entries {
        [first, second] => pair_factor(alloc, nodes, first, second),
        _ => Ok(None),
    }
}
