//! How a deletion takes out what it outranks: by the keys in its place, which were found when memory was taken.

ghost use Rattle.std.specs.Prelude.{◌≡◌, ◌⊎◌, None};
ghost use Rattle.std.specs.List.Sorted.{IsStrictlySortedBy};
ghost use Rattle.partition_content.specs.declared.spots.Spot.TheVariants.{At};
ghost use Rattle.partition_content.specs.Spots.{spot_cmp};
ghost use Rattle.partition_content.specs.Inside.{IsInside};
ghost use Rattle.partition_content.specs.Slots.{held_in, helds_in, helds_of, spots_in, IsGood, IsCleared, IsClearedAt, AreCleared, AreLeft, AreOutrankedAmong};

use crate::Arrived;
use crate::slots::Slots;
use crate::spots::Spot;
use changes::Held;

/// Takes out the change in a slot, if x outranks it.
fn clear(slot: &mut Option<Arrived>, x: &Held)
    ensures cleared { IsCleared x.now (held_in slot.old) (held_in slot.new) }
    ensures left { (slot.new ≡ slot.old) ⊎ (slot.new ≡ None) }
{
    if let Some(there) = slot {
        if x.outranks(&there.held) {
            drop(slot.take());
        }
    }
}

/// Takes out the change at a key, if x outranks it.
fn clear_at(slots: &mut Slots, at: &Spot, x: &Held)
    ensures { IsClearedAt x.now at.now slots.old.entries slots.new.entries }
{
    if let Some(slot) = slots.get_mut(at) {
        clear(slot, x);
    }
}

/// Takes out the changes that x outranks, all of which are at these keys.
fn clear_each(slots: &mut Slots, keys: &[Spot], x: &Held)
    requires sorted { IsStrictlySortedBy spot_cmp (spots_in (helds_of slots.old)) }
    requires among { AreOutrankedAmong x.now (helds_in slots.old.entries) keys.now }
    ensures cleared { AreCleared x.now (helds_in slots.old.entries) (helds_in slots.new.entries) }
    ensures left { AreLeft slots.old.entries slots.new.entries }
    ensures keys { spots_in (helds_of slots.new) ≡ spots_in (helds_of slots.old) }
{
    for at in keys {
        clear_at(slots, at, x);
    }
}

/// Takes out the changes that x outranks, all of which are at its own key or at these, which lie in its place.
pub(crate) fn clear_inside(slots: &mut Slots, at: &Spot, inside: &[Spot], x: &Held)
    requires at { at.now ≡ At x.now.place }
    requires good { IsGood (helds_of slots.old) }
    requires inside { IsInside (spots_in (helds_of slots.old)) x.now.place inside.now }
    ensures cleared { AreCleared x.now (helds_in slots.old.entries) (helds_in slots.new.entries) }
    ensures left { AreLeft slots.old.entries slots.new.entries }
    ensures keys { spots_in (helds_of slots.new) ≡ spots_in (helds_of slots.old) }
{
    clear_at(slots, at, x);
    clear_each(slots, inside, x);
}
