//! Lists of parts with one kind of separator between them.

ghost use Rattle.std.specs.Prelude.{◌≡◌, List, Ok, length};
ghost use Rattle.cql_tokens.specs.Tokens.{Meaning};
ghost use Rattle.cql_parser.specs.Gives.{Reads, separator_form};
ghost use Rattle.cql_parser.specs.Reading.{Read, read, starts, firsts, behind, more_at, prefixed, separated_at};

use crate::cursor::{Cursor, Halt};
use cql_tokens::TokenKind;
use cs_base::Items;
use std::alloc::Global;

/// What stands between the parts of a list.
#[derive(Clone, Copy, Debug)]
pub(crate) enum Separator {
    Comma,
    And,
}

/// What lists are made of.
pub(crate) trait Part: Sized + Drop {
    ghost reads: { List Meaning → Read Self };

    fn read(cursor: &mut Cursor<'_>, alloc: Global) -> Result<Self, Halt>
        ensures { Reads (reads cursor.old) result cursor.new };
}

impl Separator {
    fn is_next(self, cursor: &Cursor<'_>) -> bool
        ensures { result ≡ starts (firsts (separator_form self)) cursor.now }
    {
        match self {
            Separator::Comma => cursor.next_is_symbol(TokenKind::Comma),
            Separator::And => cursor.next_is_word("AND"),
        }
    }

    fn pass(self, cursor: &mut Cursor<'_>) -> Result<(), Halt>
        ensures { Reads (read (separator_form self) cursor.old) result cursor.new }
    {
        match self {
            Separator::Comma => cursor.symbol(TokenKind::Comma),
            Separator::And => cursor.word("AND"),
        }
    }
}

/// A separator and a part.
fn behind<P: Part>(cursor: &mut Cursor<'_>, alloc: Global, separator: Separator) -> Result<P, Halt>
    ensures { Reads (behind (separator_form separator) P.reads cursor.old) result cursor.new }
{
    separator.pass(cursor)?;
    P::read(cursor, alloc)
}

/// Further parts behind those that were read, each behind a separator.
pub(crate) fn more_of<P: Part>(
    cursor: &mut Cursor<'_>,
    alloc: Global,
    separator: Separator,
    first: Items<P>,
) -> Result<Items<P>, Halt>
    ensures { Reads (prefixed first (more_at (separator_form separator) P.reads (length cursor.old) cursor.old)) result cursor.new }
{
    let mut parts = first;
    let most = cursor.left();
    for _ in 0..most {
        if !separator.is_next(cursor) {
            return Ok(parts);
        }
        parts.push(behind(cursor, alloc, separator)?)?;
    }
    Ok(parts)
}

/// Any number of parts, each behind a separator.
pub(crate) fn more<P: Part>(
    cursor: &mut Cursor<'_>,
    alloc: Global,
    separator: Separator,
) -> Result<Items<P>, Halt>
    ensures { Reads (more_at (separator_form separator) P.reads (length cursor.old) cursor.old) result cursor.new }
{
    more_of(cursor, alloc, separator, Items::new(alloc))
}

/// One or more parts, with separators between them.
pub(crate) fn separated<P: Part>(
    cursor: &mut Cursor<'_>,
    alloc: Global,
    separator: Separator,
) -> Result<Items<P>, Halt>
    ensures { Reads (separated_at (separator_form separator) P.reads cursor.old) result cursor.new }
{
    let mut parts = Items::new(alloc);
    parts.push(P::read(cursor, alloc)?)?;
    more_of(cursor, alloc, separator, parts)
}
