//! Changes as they are stored: in the order of places, one of each place.

ghost use Rattle.std.specs.Prelude.{◌≡◌, ◌↔◌, IsTrue};
ghost use Rattle.changes.specs.Drafts.{one_of_each_place};
ghost use Rattle.changes.specs.Places.{AreInOrder};
ghost use Rattle.changes.specs.Tests.{storing_cmp};

use crate::Held;
use std::cmp::Ordering;

/// By place, and of one place the one that beats the others first.
fn storing_order(a: &Held, b: &Held) -> Ordering
    ensures { result ≡ storing_cmp a.now b.now }
{
    match a.place.cmp(&b.place) {
        Ordering::Equal => b.rank(a),
        order => order,
    }
}

/// Whether the changes are in the order of their places, each place once.
pub fn are_in_order(changes: &[Held]) -> bool
    ensures { IsTrue result ↔ AreInOrder changes.now }
{
    changes.is_sorted_by(|before, after| before.place < after.place)
}

/// Sorted by place, and of several of one place the first.
fn sorted_best(mut changes: Vec<Held>) -> Vec<Held>
    ensures { result.items ≡ one_of_each_place changes.items }
{
    changes.sort_unstable_by(storing_order);
    changes.dedup_by(|next, kept| next.place.cmp(&kept.place).is_eq());
    changes
}

/// In the order of places, and of several changes of one place the one that beats the others. Takes no memory; changes that
/// are in order already are looked at once.
pub fn in_order(changes: Vec<Held>) -> Vec<Held>
    ensures { result.items ≡ one_of_each_place changes.items }
{
    if are_in_order(&changes) {
        return changes;
    }
    sorted_best(changes)
}
