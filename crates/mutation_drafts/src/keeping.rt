//! Which changes are kept.

ghost use Rattle.std.specs.Prelude.{◌↔◌, IsTrue};
ghost use Rattle.std.specs.List.Sorted.{IsStrictlySortedBy};
ghost use Rattle.mutation_drafts.specs.Kept.{IsKept, draft_order as draft_order_of};

use crate::order::{draft_order, sorting_order};
use changes::{Draft, Drafts};
use cs_base::Items;

/// Whether each place has one draft of each clock, and they are in order.
fn are_in_order(drafts: &[Draft]) -> bool
    ensures { IsTrue result ↔ IsStrictlySortedBy draft_order_of drafts.now }
{
    drafts.is_sorted_by(|before, after| draft_order(before, after).is_lt())
}

/// Sorted, and of several of one place and clock the first.
fn sorted_best(mut drafts: Vec<Draft>) -> Vec<Draft>
    ensures { IsKept result.items drafts.items }
{
    drafts.sort_unstable_by(sorting_order);
    drafts.dedup_by(|next, kept| draft_order(next, kept).is_eq());
    drafts
}

/// The drafts in the order of their places, and of several of one place the one that beats the others. Drafts that are in
/// order already are looked at once.
///
/// Where some of them have a timestamp of their own and others get the start time of their request, the one that beats of
/// each kind.
pub fn kept(drafts: Drafts) -> Drafts
    ensures { IsKept result drafts }
{
    if are_in_order(drafts.as_slice()) {
        return drafts;
    }
    Items::from_vec(sorted_best(drafts.into_vec()))
}
