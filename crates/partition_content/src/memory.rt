//! Memory for changes, taken before they come.

ghost use Rattle.std.specs.Prelude.{◌≡◌, ◌∷◌, ◌++◌, ℕ, List, [], map, ◌&&◌, IfOk, OnOk, Contains};
ghost use Rattle.changes.specs.declared.Place.{Place as place_value};
ghost use Rattle.partition_content.specs.Slots.{stored_of, helds_of, spots_in, HasSlot, IsGood};
ghost use Rattle.partition_content.specs.Keys.{keys_for};
ghost use Rattle.partition_content.specs.Inside.{AreNoted};
ghost use Rattle.partition_content.specs.Partition.{place_of, AreSlotsFor, is_narrow as is_narrow_change};
ghost use Rattle.std.specs.List.{list_all};

use crate::inside::inside_each;
use crate::keys::Keys;
use crate::slots::{Slots, drop_unused, make_slot};
use crate::spots::Spot;
use changes::{Held, Place};
use std::alloc::{AllocError, Global};

/// Memory that is taken for changes: the keys of their places, for each of these the keys of the tree that lie in it, unless no
/// deletion of rows is among them, and whether none is among these changes and those that are there.
#[derive(Drop)]
pub(crate) struct Ready {
    pub(crate) bare: bool,
    pub(crate) keys: Vec<Keys>,
    pub(crate) inside: Vec<Vec<Spot>>,
}

/// Whether it is no deletion of rows.
fn is_narrow(x: &Held) -> bool
    ensures { result ≡ is_narrow_change x.now }
{
    matches!(x.place, Place::Cell(_, _) | Place::Marker(_))
}

/// Whether no deletion of rows is among the changes.
pub(crate) fn are_narrow(changes: &[Held]) -> bool
    ensures { result ≡ list_all is_narrow_change changes.now }
{
    changes.iter().all(|x| is_narrow(x))
}

/// Whether no deletion of rows is among the changes, nor among others, of which that is told.
pub(crate) fn stays_bare(bare: bool, changes: &[Held]) -> bool
    ensures { result ≡ (bare && list_all is_narrow_change changes.now) }
{
    bare && are_narrow(changes)
}

/// Gives back the memory that is taken at these keys and that no change has.
pub(crate) fn give_back(slots: &mut Slots, keys: &[Keys])
    requires { IsGood (helds_of slots.old) }
    ensures stored { stored_of slots.new.entries ≡ stored_of slots.old.entries }
    ensures good { IsGood (helds_of slots.new) }
{
    for own in keys {
        drop_unused(slots, &own.at);
    }
}

/// Gives back the memory at keys that no change has.
fn give_back_at(slots: &mut Slots, keys: &[Spot])
    requires { IsGood (helds_of slots.old) }
    ensures stored { stored_of slots.new.entries ≡ stored_of slots.old.entries }
    ensures good { IsGood (helds_of slots.new) }
{
    for at in keys {
        drop_unused(slots, at);
    }
}

/// Gives back the memory of what was in places and has gone.
fn give_back_inside(slots: &mut Slots, inside: &[Vec<Spot>])
    requires { IsGood (helds_of slots.old) }
    ensures stored { stored_of slots.new.entries ≡ stored_of slots.old.entries }
    ensures good { IsGood (helds_of slots.new) }
{
    for keys in inside {
        give_back_at(slots, keys);
    }
}

/// Gives back the memory that no change has, once the changes for which it was taken were put in. Each of them has its own where
/// no deletion of rows is among them.
pub(crate) fn give_back_unused(slots: &mut Slots, ready: &Ready)
    requires { IsGood (helds_of slots.old) }
    ensures stored { stored_of slots.new.entries ≡ stored_of slots.old.entries }
    ensures good { IsGood (helds_of slots.new) }
{
    if !ready.bare {
        give_back(slots, &ready.keys);
        give_back_inside(slots, &ready.inside);
    }
}

/// Takes memory for a change, and puts the keys of its place behind those that are there.
fn take_one(
    slots: &mut Slots,
    alloc: Global,
    bare: bool,
    x: &Held,
    keys: &mut Vec<Keys>,
) -> Result<(), AllocError>
    requires { IsGood (helds_of slots.old) }
    ensures stored { stored_of slots.new.entries ≡ stored_of slots.old.entries }
    ensures good { IsGood (helds_of slots.new) }
    ensures others { (spot : _) → Contains (spots_in (helds_of slots.old)) spot → Contains (spots_in (helds_of slots.new)) spot }
    ensures there { OnOk result (HasSlot (helds_of slots.new) x.now.place) }
    ensures keys { OnOk result (keys.new.items ≡ keys.old.items ++ (keys_for bare x.now.place ∷ [])) }
{
    keys.push(Keys::of(alloc, bare, &x.place)?)?;
    make_slot(slots, alloc, &x.place)
}

/// Takes memory for changes, and puts the keys of their places behind those that are there.
fn take_each(
    slots: &mut Slots,
    alloc: Global,
    bare: bool,
    changes: &[Held],
    keys: &mut Vec<Keys>,
) -> Result<(), AllocError>
    requires good { IsGood (helds_of slots.old) }
    requires none { keys.old.items ≡ [] }
    ensures stored { stored_of slots.new.entries ≡ stored_of slots.old.entries }
    ensures good { IsGood (helds_of slots.new) }
    ensures keys { OnOk result (keys.new.items ≡ map (keys_for bare) (map place_of changes.now)) }
    ensures there { OnOk result (AreSlotsFor (helds_of slots.new) changes.now) }
{
    for x in changes {
        take_one(slots, alloc, bare, x, keys)?;
    }
    Ok(())
}

/// Takes memory for changes, puts the keys of their places behind those that are there, and gives those that lie in each.
fn take_all(
    slots: &mut Slots,
    alloc: Global,
    bare: bool,
    changes: &[Held],
    keys: &mut Vec<Keys>,
) -> Result<Vec<Vec<Spot>>, AllocError>
    requires good { IsGood (helds_of slots.old) }
    requires none { keys.old.items ≡ [] }
    ensures stored { stored_of slots.new.entries ≡ stored_of slots.old.entries }
    ensures good { IsGood (helds_of slots.new) }
    ensures keys { OnOk result (keys.new.items ≡ map (keys_for bare) (map place_of changes.now)) }
    ensures there { OnOk result (AreSlotsFor (helds_of slots.new) changes.now) }
    ensures inside { IfOk result (λ inside. AreNoted (spots_in (helds_of slots.new)) (map place_of changes.now) inside.items) }
{
    take_each(slots, alloc, bare, changes, keys)?;
    if are_narrow(changes) {
        return Ok(Vec::new(alloc));
    }
    inside_each(alloc, slots, keys)
}

/// Takes memory for changes.
pub(crate) fn take_memory(
    slots: &mut Slots,
    alloc: Global,
    bare: bool,
    changes: &[Held],
) -> Result<Ready, AllocError>
    requires { IsGood (helds_of slots.old) }
    ensures stored { stored_of slots.new.entries ≡ stored_of slots.old.entries }
    ensures good { IsGood (helds_of slots.new) }
    ensures bare { IfOk result (λ ready. ready.bare ≡ bare) }
    ensures keys { IfOk result (λ ready. ready.keys.items ≡ map (keys_for bare) (map place_of changes.now)) }
    ensures there { OnOk result (AreSlotsFor (helds_of slots.new) changes.now) }
    ensures inside { IfOk result (λ ready. AreNoted (spots_in (helds_of slots.new)) (map place_of changes.now) ready.inside.items) }
{
    let mut keys = Vec::with_capacity(alloc, changes.len())?;
    match take_all(slots, alloc, bare, changes, &mut keys) {
        Ok(inside) => Ok(Ready { bare, keys, inside }),
        Err(error) => {
            give_back(slots, &keys);
            Err(error)
        }
    }
}
