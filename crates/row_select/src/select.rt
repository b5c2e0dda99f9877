//! The rows that a query shows.

ghost use Rattle.std.specs.Prelude.{IfOk, Contains};
ghost use Rattle.changes.specs.Shown.{IsShown};

use crate::page::first_rows;
use cell_merge::Content;
use changes::{Query, ShownRows};
use std::alloc::{AllocError, Global};

/// The rows that the query shows of the content, in its order and up to its limit, and whether a further one follows, after
/// the CQL reference (SELECT: ORDER BY, LIMIT). The walk starts at the bound that the order begins with, found by binary
/// search; `first_rows` says how far it goes.
pub fn shown(
    alloc: Global,
    content: &Content,
    query: &Query,
) -> Result<(ShownRows, bool), AllocError>
    ensures { IfOk result (λ page. IsShown (Contains content.now) query.now page.0 page.1) }
{
    let mut walk = content.rows(&query.from, &query.upto, query.reversed);
    let page = first_rows(alloc, &mut walk, query.limit)?;
    Ok(page)
}
