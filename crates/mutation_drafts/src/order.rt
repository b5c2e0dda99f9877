//! The order of drafts: by their places, and of those of one place the one that beats the others first.

ghost use Rattle.std.specs.Prelude.{◌≡◌};
ghost use Rattle.mutation_drafts.specs.Kept.{best_first as best_first_of, clock_cmp, draft_order as draft_order_of, sorting_cmp};

use changes::{Draft, value_order};
use std::cmp::Ordering;

fn clock_order(a: Option<i64>, b: Option<i64>) -> Ordering
    ensures { result ≡ clock_cmp a b }
{
    a.is_none().cmp(&b.is_none())
}

/// By place, and then those with a timestamp of their own before the others.
pub(crate) fn draft_order(a: &Draft, b: &Draft) -> Ordering
    ensures { result ≡ draft_order_of a.now b.now }
{
    match a.place.cmp(&b.place) {
        Ordering::Equal => clock_order(a.timestamp, b.timestamp),
        order => order,
    }
}

fn best_first(a: &Draft, b: &Draft) -> Ordering
    ensures { result ≡ best_first_of a.now b.now }
{
    b.timestamp
        .cmp(&a.timestamp)
        .then(value_order(&b.value, &a.value))
}

/// In order, and of one place and clock the one that beats the others first.
pub(crate) fn sorting_order(a: &Draft, b: &Draft) -> Ordering
    ensures { result ≡ sorting_cmp a.now b.now }
{
    match draft_order(a, b) {
        Ordering::Equal => best_first(a, b),
        order => order,
    }
}
