//! What stands for a value.

ghost use Rattle.std.specs.Prelude.{◌≡◌, IfOk};
ghost use Rattle.prepared_statement.specs.Slots.{constant as constant_of, stands_for as stands_for_of, slot_name as slot_name_of, slot_of};

use crate::slot::{Role, Slot, Stands};
use cql_statement::Term;
use cql_values::{CqlType, Literal, LiteralError, encode, read_literal};
use cs_base::Text;
use statement_values::Param;
use std::alloc::{AllocError, Global};

fn constant(alloc: Global, ty: CqlType, literal: &Literal) -> Result<Stands, AllocError>
    ensures { IfOk result (λ stands. stands ≡ constant_of ty literal.now) }
{
    match read_literal(alloc, ty, literal) {
        Ok(value) => Ok(Stands::Own(Param::Given(encode(alloc, &value)?))),
        Err(LiteralError::NoMemory) => Err(AllocError),
        Err(_) => Ok(Stands::Mismatched),
    }
}

fn stands_for(alloc: Global, ty: CqlType, term: &Term) -> Result<Stands, AllocError>
    ensures { IfOk result (λ stands. stands ≡ stands_for_of ty term.now) }
{
    match term {
        Term::Constant(literal) => constant(alloc, ty, literal),
        Term::Null => Ok(Stands::Own(Param::Null)),
        Term::Marker | Term::NamedMarker(_) => Ok(Stands::Marker),
    }
}

fn slot_name<'a>(name: &'a str, term: &'a Term) -> &'a str
    ensures { result.now ≡ slot_name_of name.now term.now }
{
    match term {
        Term::NamedMarker(own) => own.as_str(),
        Term::Constant(_) | Term::Null | Term::Marker => name,
    }
}

/// The slot of a term.
pub(crate) fn slot(
    alloc: Global,
    name: &str,
    ty: CqlType,
    role: Role,
    term: &Term,
) -> Result<Slot, AllocError>
    ensures { IfOk result (λ slot. slot ≡ slot_of name.now ty role term.now) }
{
    let name = Text::from_str(alloc, slot_name(name, term))?;
    let stands = stands_for(alloc, ty, term)?;
    Ok(Slot {
        name,
        ty,
        role,
        stands,
    })
}
