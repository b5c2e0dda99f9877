//! Laws of changes and of contents: what outranks what is a strict order, a set has one content however it was merged, one
//! list in the order of places, and what slices and purges leave of it.
#![tactic(auto)]

ghost use Rattle.std.specs.Prelude.{Bool};
ghost use Rattle.changes.specs.declared.Held.{Held as held_value};
ghost use Rattle.change_laws.specs.Laws.{OutranksIsStrict};
ghost use Rattle.change_laws.specs.Kept.{In, ContentIsOne, ContentIsTops, MergeIsOfBoth, MergeCommutes, MergeRepeats, MergeAssociates, MergeKeeps, ContentInOrderIsOne, SameInOrderAreEqual, MergeInOrderIsOne, SliceInOrderIsOne, BoundsAreMetAbove, SliceIsContent, ContentStands, StandsForSame, StandsForOnto, StandsForMerge, StandsForSlice, StandsForPurged};

/// Outranking is a strict order: nothing outranks itself, and what a change outranks falls with it.
pub fn outranking_is_strict()
    ensures { OutranksIsStrict }
{}

/// A set has one content, which has just what nothing in the set outranks: the order in which its changes came, and how
/// often each came, don't matter.
pub fn content_is_one()
    ensures one { (S : held_value → Bool) → ContentIsOne (In S) }
    ensures tops { (S : held_value → Bool) → ContentIsTops (In S) }
{}

/// Merging gives the content of both sets, and does not depend on order, repetition or grouping.
pub fn merging_is_free_of_order()
    ensures both { (S T : held_value → Bool) → MergeIsOfBoth (In S) (In T) }
    ensures commutes { MergeCommutes }
    ensures repeats { MergeRepeats }
    ensures associates { MergeAssociates }
{}

/// Merging two contents keeps of each just the changes that nothing of the other outranks.
pub fn merge_keeps_what_stands()
    ensures { MergeKeeps }
{}

/// In the order of places a set of changes has one content, two contents one merge and a content one slice: contents in order
/// have the same changes exactly where their lists are equal.
pub fn content_in_order_is_one()
    ensures one { (S : held_value → Bool) → ContentInOrderIsOne (In S) }
    ensures same { SameInOrderAreEqual }
    ensures merge { MergeInOrderIsOne }
    ensures slice { SliceInOrderIsOne }
{}

/// The slice of a content is the content of the slice, since what outranks a change of the slice is in the slice.
pub fn slice_is_content()
    ensures upward { BoundsAreMetAbove }
    ensures slice { (S : held_value → Bool) → SliceIsContent (In S) }
{}

/// What stands for a set, but for changes that are gone, is merged and sliced as a content is; a deletion that is purged
/// takes with it what it covers.
pub fn purged_content_stands()
    ensures content { (S : held_value → Bool) → ContentStands (In S) }
    ensures same { (S T gone more : held_value → Bool) → StandsForSame (In S) (In T) (In gone) (In more) }
    ensures onto { (S T gone : held_value → Bool) → StandsForOnto (In S) (In T) (In gone) }
    ensures merge { (S T gone : held_value → Bool) → StandsForMerge (In S) (In T) (In gone) }
    ensures slice { (S gone : held_value → Bool) → StandsForSlice (In S) (In gone) }
    ensures purged { (S gone more : held_value → Bool) → StandsForPurged (In S) (In gone) (In more) }
{}
