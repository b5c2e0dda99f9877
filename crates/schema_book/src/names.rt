//! Lists of names.

ghost use Rattle.std.specs.Prelude.{◌≡◌, ◌++◌, IfOk, OnOk};
ghost use Rattle.schema_book.specs.Names.{is_among as is_among_of, has_twice as has_twice_of};
ghost use Rattle.schema_book.specs.Places.{AddsNew};

use crate::index::Names as Places;
use cql_statement::Names;
use cs_base::{Items, Text};
use std::alloc::{AllocError, Global};

/// Whether a name is among these.
pub(crate) fn is_among(name: &Text, names: &[Text]) -> bool
    ensures { result ≡ is_among_of name.now names.now }
{
    names.iter().any(|other| other.as_str() == name.as_str())
}

/// Adds a name to those before. Nothing where it is among them.
fn add_new(seen: Places, alloc: Global, name: &Text) -> Result<Option<Places>, AllocError>
    ensures { IfOk result (AddsNew seen name.now) }
{
    if seen.place(name.as_str()).is_some() {
        return Ok(None);
    }
    Ok(Some(seen.enter(alloc, name, 0)?))
}

/// Whether some name stands twice.
pub(crate) fn has_twice(alloc: Global, names: &[Text]) -> Result<bool, AllocError>
    ensures { IfOk result (λ twice. twice ≡ has_twice_of names.now) }
{
    let mut seen = Places::new(alloc);
    for name in names {
        match add_new(seen, alloc, name)? {
            Some(more) => seen = more,
            None => return Ok(true),
        }
    }
    Ok(false)
}

/// Adds names to others.
pub(crate) fn push_names(names: &mut Names, alloc: Global, more: &[Text]) -> Result<(), AllocError>
    ensures { OnOk result (names.new ≡ names.old ++ more.now) }
{
    for name in more {
        names.push(name.copy(alloc)?)?;
    }
    Ok(())
}

/// Equal names in memory of their own.
pub(crate) fn copy_names(alloc: Global, names: &[Text]) -> Result<Names, AllocError>
    ensures { IfOk result (λ copy. copy ≡ names.now) }
{
    let mut copy = Items::new(alloc);
    push_names(&mut copy, alloc, names)?;
    Ok(copy)
}
