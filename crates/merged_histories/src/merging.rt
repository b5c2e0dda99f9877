//! Events of some nodes and of others, in one order.

ghost use Rattle.std.specs.Prelude.{◌≡◌, ◌∷◌, [], IfOk, MatchOption};
ghost use Rattle.merged_histories.specs.Merging.{is_first as is_first_of, is_left_next as is_left_next_of, merged, key_of};

use crate::timed::Timed;
use std::alloc::{AllocError, Global};
use std::collections::VecDeque;

/// By node time, and then by node.
fn is_first(a: &Timed, b: &Timed) -> bool
    ensures { result ≡ is_first_of (key_of a.now) (key_of b.now) }
{
    a.time < b.time || (a.time == b.time && a.placed.node <= b.placed.node)
}

fn is_left_next(left: &VecDeque<Timed>, right: &VecDeque<Timed>) -> bool
    ensures { result ≡ is_left_next_of key_of left.now.items right.now.items }
{
    match (left.front(), right.front()) {
        (Some(a), Some(b)) => is_first(a, b),
        (Some(_), None) => true,
        (None, _) => false,
    }
}

/// Takes the first of both.
fn take_next(left: &mut VecDeque<Timed>, right: &mut VecDeque<Timed>) -> Option<Timed>
    ensures { MatchOption result (merged key_of left.old.items right.old.items ≡ []) (λ next. merged key_of left.old.items right.old.items ≡ next ∷ merged key_of left.new.items right.new.items) }
{
    if is_left_next(left, right) {
        left.pop_front()
    } else {
        right.pop_front()
    }
}

/// Both in one order, if each is in order.
pub(crate) fn merge(
    alloc: Global,
    mut left: VecDeque<Timed>,
    mut right: VecDeque<Timed>,
) -> Result<VecDeque<Timed>, AllocError>
    ensures { IfOk result (λ both. both.items ≡ merged key_of left.items right.items) }
{
    let mut both = VecDeque::with_capacity(alloc, left.len() + right.len())?;
    while let Some(next) = take_next(&mut left, &mut right) {
        both.push_back(next)?;
    }
    Ok(both)
}
