//! The first rows that a walk shows.

ghost use Rattle.std.specs.Prelude.{◌≡◌, ◌≤◌, ◌++◌, false, [], IfOk, OnOk, OnErr, length, take, nat_lt};
ghost use Rattle.row_select.specs.Rows.{row_if, rows_with, IsPageOf, StopsAt};

use crate::rows::{has_sign, row_of};
use cell_merge::RowWalk;
use changes::{Held, ShownRow, ShownRows};
use cs_base::{Bytes, Items};
use std::alloc::{AllocError, Global};

/// The rows that are shown so far, up to a limit, and whether a further one was seen.
#[derive(Drop)]
struct Page {
    rows: Vec<ShownRow>,
    limit: usize,
    more: bool,
}

impl Page {
    /// No rows yet.
    fn new(alloc: Global, limit: u32) -> Page
        ensures rows { result.rows.items ≡ [] }
        ensures limit { result.limit ≡ limit }
        ensures more { result.more ≡ false }
    {
        Page {
            rows: Vec::new(alloc),
            limit: limit as usize,
            more: false,
        }
    }

    /// Puts the row behind the others, if it is shown and the page has room for it; a shown one that finds no room is not
    /// copied.
    fn add(&mut self, alloc: Global, row: &Bytes, changes: &[Held]) -> Result<(), AllocError>
        requires within { length self.old.rows.items ≤ self.old.limit }
        requires more { self.old.more ≡ false }
        ensures rows { OnOk result (self.new.rows.items ≡ take self.old.limit (self.old.rows.items ++ row_if row.now changes.now)) }
        ensures more { OnOk result (self.new.more ≡ nat_lt self.old.limit (length (self.old.rows.items ++ row_if row.now changes.now))) }
        ensures limit { self.new.limit ≡ self.old.limit }
        ensures err { OnErr result ((self.new.rows.items ≡ self.old.rows.items) × (self.new.more ≡ self.old.more)) }
    {
        if !has_sign(changes) {
            return Ok(());
        }
        if self.rows.len() < self.limit {
            self.rows.push(row_of(alloc, row, changes)?)?;
        } else {
            self.more = true;
        }
        Ok(())
    }
}

/// The first page of a walk, which goes no further than to the first shown row behind the limit.
fn page_of(alloc: Global, walk: &mut RowWalk<'_>, limit: u32) -> Result<Page, AllocError>
    ensures page { IfOk result (λ page. IsPageOf limit (rows_with walk.old) page.rows.items page.more) }
    ensures no_further { StopsAt limit walk.old walk.new }
{
    let mut page = Page::new(alloc, limit);
    while let Some((row, changes)) = walk.next_row() {
        page.add(alloc, row, changes)?;
        if page.more {
            break;
        }
    }
    Ok(page)
}

/// The first rows that the walk shows, up to the limit, and whether a further one follows. It costs the changes of the rows
/// walked: those that are given, the one that stops the walk, and the rows before it that have changes and show none.
pub fn first_rows(
    alloc: Global,
    walk: &mut RowWalk<'_>,
    limit: u32,
) -> Result<(ShownRows, bool), AllocError>
    ensures page { IfOk result (λ page. IsPageOf limit (rows_with walk.old) page.0 page.1) }

    // Each row that is looked at has at most as many shown rows before it, also where memory fails.
    ensures no_further { StopsAt limit walk.old walk.new }
{
    let page = page_of(alloc, walk, limit)?;
    Ok((Items::from_vec(page.rows), page.more))
}
