//! A walk over rows of a content, from either end.

ghost use Rattle.std.specs.Prelude.{◌≡◌, ◌↔◌, ◌∷◌, ◌<◌, ◌≤◌, ◌-◌, [], Some, IsTrue, IfSome, IfNone, length};
ghost use Rattle.changes.specs.Order.{row_of};
ghost use Rattle.cell_merge.specs.Walks.{AllOf, AreOfRows, IsFirstRow, IsLastRow, IsNextRow, IsNotOf, by_rows, in_direction};

use changes::Held;
use cs_base::Bytes;
use std::marker::Model;

fn is_in_row(x: &Held, row: &Bytes) -> bool
    ensures { IsTrue result ↔ (row_of x.now.place ≡ Some row.now) }
{
    match x.place.row() {
        Some(own) => own == row,
        None => false,
    }
}

/// How many changes from the first on are in the row.
fn row_end(changes: &[Held], row: &Bytes) -> usize
    ensures bound { result ≤ length changes.now }
    ensures front { AllOf row.now changes.now 0 result }
    ensures next { result < length changes.now → IsNotOf row.now changes.now result }
{
    for (i, x) in changes.iter().enumerate() {
        if !is_in_row(x, row) {
            return i;
        }
    }
    changes.len()
}

/// Where the changes begin that are in the row up to the last.
fn row_start(changes: &[Held], row: &Bytes) -> usize
    ensures bound { result ≤ length changes.now }
    ensures back { AllOf row.now changes.now result (length changes.now) }
    ensures before { 0 < result → IsNotOf row.now changes.now (result - 1) }
{
    let mut start = changes.len();
    while 0 < start {
        let x = &changes[start - 1];
        if !is_in_row(x, row) {
            break;
        }
        start -= 1;
    }
    start
}

/// The first row, its changes, and the changes of the other rows.
fn first_row(changes: &[Held]) -> Option<(&Bytes, &[Held], &[Held])>
    requires { AreOfRows changes.now }
    ensures none { IfNone result (changes.now ≡ []) }
    ensures some { IfSome result (λ r. IsFirstRow changes.now r.0.now r.1.now r.2.now) }
{
    let first = changes.first()?;
    let row = first.place.row()?;
    let (front, rest) = changes.split_at(row_end(changes, row));
    Some((row, front, rest))
}

/// The last row, its changes, and the changes of the other rows.
fn last_row(changes: &[Held]) -> Option<(&Bytes, &[Held], &[Held])>
    requires { AreOfRows changes.now }
    ensures none { IfNone result (changes.now ≡ []) }
    ensures some { IfSome result (λ r. IsLastRow changes.now r.0.now r.1.now r.2.now) }
{
    let last = changes.last()?;
    let row = last.place.row()?;
    let (rest, back) = changes.split_at(row_start(changes, row));
    Some((row, back, rest))
}

/// The next row in the direction, its changes, and the changes of the other rows.
fn split_row(changes: &[Held], reversed: bool) -> Option<(&Bytes, &[Held], &[Held])>
    requires { AreOfRows changes.now }
    ensures none { IfNone result (changes.now ≡ []) }
    ensures some { IfSome result (λ r. IsNextRow reversed changes.now r.0.now r.1.now r.2.now) }
{
    if reversed {
        last_row(changes)
    } else {
        first_row(changes)
    }
}

/// A walk over rows, each with its bytes and its changes in order, in clustering order or in reverse. A step costs the changes
/// of the row that it gives.
#[derive(Drop)]
pub struct RowWalk<'a> {
    rest: &'a [Held],
    reversed: bool,
}

impl<'a> Model for RowWalk<'a> {
    ghost use Rattle.std.specs.Prelude.{ℕ, List};
    ghost use Rattle.changes.specs.declared.Held.{Held};
    ghost use Rattle.cell_merge.specs.Walks.{by_rows, in_direction, AreOfRows};

    ghost Value = { List (List ℕ × List Held) };

    ghost view = { λ a. in_direction a.reversed (by_rows a.rest.now) };

    ghost invariant = { λ a. AreOfRows a.rest.now };
}

impl<'a> RowWalk<'a> {
    /// A walk over the rows of these changes.
    pub(crate) fn new(changes: &'a [Held], reversed: bool) -> RowWalk<'a>
        requires { AreOfRows changes.now }
        ensures { result ≡ in_direction reversed (by_rows changes.now) }
    {
        RowWalk {
            rest: changes,
            reversed,
        }
    }

    /// The next row, with its changes.
    pub fn next_row(&mut self) -> Option<(&'a Bytes, &'a [Held])>
        ensures none { IfNone result ((self.old ≡ []) × (self.new ≡ [])) }
        ensures some { IfSome result (λ r. self.old ≡ (r.0.now, r.1.now) ∷ self.new) }
    {
        let (row, changes, rest) = split_row(self.rest, self.reversed)?;
        self.rest = rest;
        Some((row, changes))
    }
}
