//! How the tree takes in a change: what is there stays exactly where the change doesn't outrank it, and the change is put in
//! exactly where nothing that is there is it or outranks it.

ghost use Rattle.std.specs.Prelude.{◌≡◌, ◌≢◌, ◌⊎◌, ◌↔◌, ◌+◌, ◌<◌, ◌≤◌, ◌^◌, ℕ, List, [], true, false, Some, None, IsTrue, IsSome, IfSome, Contains, map, slice_get};
ghost use Rattle.std.specs.List.{sum_by};
ghost use Rattle.changes.specs.declared.Held.{Held as held_value};
ghost use Rattle.cell_merge.specs.Parts.{IsInnermost};
ghost use Rattle.changes.specs.Contents.{Either, IsContent, IsReachedBy};
ghost use Rattle.changes.specs.Lengths.{held_length, changes_length};
ghost use Rattle.changes.specs.Order.{Outranks};
ghost use Rattle.partition_content.specs.declared.spots.Spot.TheVariants.{At};
ghost use Rattle.partition_content.specs.Arrivals.{ComeAt};
ghost use Rattle.partition_content.specs.Slots.{AreCleared, AreLeft, ComesAlone, IsLengthOf, IsNewlyOutranked, stored_of, held_in, helds_in, helds_of, spots_in, slot_at, changes_of, change_in, AreFiled, HasSlot, IsReachedAt, IsOutrankedAt, IsOutrankedFrom, IsOutrankedUnder, IsGood};
ghost use Rattle.partition_content.specs.Inside.{IsInside, AreNoted};
ghost use Rattle.partition_content.specs.Keys.{AreKeysOf, keys_for};
ghost use Rattle.partition_content.specs.Partition.{place_of, AreSlotsFor, AreBare, IsTakenIn};

use crate::Arrived;
use crate::clearing::clear_inside;
use crate::keys::{Keys, Span};
use crate::losing::{before_rows, lost_by};
use crate::slots::{Slots, begins_wide, change_at, put_at, put_own};
use crate::spots::Spot;
use cell_merge::Rivals;
use changes::Held;
use cs_base::Micros;
use std::alloc::Global;
use std::cmp::Ordering;

/// Whether the change at the key is this one or beats it, where both are of one place.
pub(crate) fn is_reached_at(slots: &Slots, at: &Spot, x: &Held) -> bool
    ensures { IsTrue result ↔ IsReachedAt (change_in (slot_at (helds_of slots.now) at.now)) x.now }
{
    match change_at(slots, at) {
        Some(held) => held.rank(x) != Ordering::Less,
        None => false,
    }
}

/// Whether the change at the key outranks this one.
fn is_outranked_at(slots: &Slots, at: &Spot, x: &Held) -> bool
    ensures { IsTrue result ↔ IsOutrankedAt (change_in (slot_at (helds_of slots.now) at.now)) x.now }
{
    match change_at(slots, at) {
        Some(held) => held.outranks(x),
        None => false,
    }
}

fn is_outranked_in(slot: &Option<Arrived>, x: &Held) -> bool
    ensures { IsTrue result ↔ IsOutrankedAt (held_in slot.now) x.now }
{
    match slot {
        Some(there) => there.held.outranks(x),
        None => false,
    }
}

/// Whether a deletion of a range or of the partition outranks the change.
fn is_outranked_by_wide(slots: &Slots, alloc: Global, x: &Held) -> bool
    requires { IsGood (helds_of slots.now) }
    ensures told { IsTrue result → IsReachedBy (changes_of (helds_in slots.now.entries)) x.now }
    ensures missed { result ≡ false → IsOutrankedFrom (helds_in slots.now.entries) x.now → ⊥ }
{
    if !begins_wide(slots) {
        return false;
    }
    for (_, slot) in before_rows(slots, alloc) {
        if is_outranked_in(slot, x) {
            return true;
        }
    }
    false
}

/// Whether the deletion of its row outranks the change.
fn is_outranked_under(slots: &Slots, span: &Span, x: &Held) -> bool
    ensures { IsTrue result ↔ IsOutrankedUnder (helds_of slots.now) span.now x.now }
{
    match span {
        Span::Under(row) => is_outranked_at(slots, row, x),
        Span::Alone | Span::Row(_) | Span::Rows(_, _) | Span::All => false,
    }
}

/// Whether a deletion of rows outranks the change. Whatever else is it or outranks it is at its own place.
pub(crate) fn is_outranked_over(
    slots: &Slots,
    alloc: Global,
    bare: bool,
    own: &Keys,
    x: &Held,
) -> bool
    requires keys { own.now ≡ keys_for bare x.now.place }
    requires good { IsGood (helds_of slots.now) }
    requires bare { bare ≡ true → AreBare (changes_of (helds_in slots.now.entries)) }
    ensures told { IsTrue result → IsReachedBy (changes_of (helds_in slots.now.entries)) x.now }
    ensures missed { result ≡ false → IsReachedBy (changes_of (helds_in slots.now.entries)) x.now → IsReachedAt (change_in (slot_at (helds_of slots.now) (At x.now.place))) x.now }
{
    if bare {
        return false;
    }
    if is_outranked_under(slots, &own.span, x) {
        return true;
    }
    is_outranked_by_wide(slots, alloc, x)
}

/// Takes out the changes that x outranks, which have this length together and are at its own key or inside its place.
fn clear(slots: &mut Slots, at: &Spot, inside: &[Spot], x: &Held, lost: u64)
    requires at { at.now ≡ At x.now.place }
    requires good { IsGood (helds_of slots.old) }
    requires inside { IsInside (spots_in (helds_of slots.old)) x.now.place inside.now }
    requires lost { IsLengthOf (IsNewlyOutranked [] x.now) (helds_in slots.old.entries) lost }
    ensures cleared { AreCleared x.now (helds_in slots.old.entries) (helds_in slots.new.entries) }
    ensures left { AreLeft slots.old.entries slots.new.entries }
    ensures keys { spots_in (helds_of slots.new) ≡ spots_in (helds_of slots.old) }
{
    if lost != 0 {
        clear_inside(slots, at, inside, x);
    }
}

/// The length of the changes that x outranks.
fn lost_alone(slots: &Slots, alloc: Global, own: &Keys, x: &Held) -> u64
    requires keys { AreKeysOf own.now x.now.place }
    requires good { IsGood (helds_of slots.now) }
    requires fits { sum_by held_length (changes_of (helds_in slots.now.entries)) < 2 ^ 64 }
    ensures { IsLengthOf (IsNewlyOutranked [] x.now) (helds_in slots.now.entries) result }
{
    let none = Rivals::new(&[]);
    lost_by(slots, alloc, own, &none, x)
}

/// Takes in a deletion of rows for which there is memory, and gives the length that the changes then have.
fn put_deletion(
    slots: &mut Slots,
    length: u64,
    alloc: Global,
    own: &Keys,
    inside: &[Spot],
    x: Held,
    time: Micros,
) -> u64
    requires keys { AreKeysOf own.now x.place }
    requires inside { IsInside (spots_in (helds_of slots.old)) x.place inside.now }
    requires slot { HasSlot (helds_of slots.old) x.place }
    requires good { IsGood (helds_of slots.old) }
    requires length { length ≡ changes_length (changes_of (helds_in slots.old.entries)) }
    requires fits { length + held_length x < 2 ^ 64 }
    requires reached { IsReachedBy (changes_of (helds_in slots.old.entries)) x → IsReachedAt (change_in (slot_at (helds_of slots.old) (At x.place))) x }
    ensures taken { IsTakenIn (helds_of slots.old) (helds_of slots.new) x length result }
    ensures comes { ComesAlone time x slots.old.entries slots.new.entries }
{
    if is_reached_at(slots, &own.at, &x) {
        drop(x);
        return length;
    }
    let lost = lost_alone(slots, alloc, own, &x);
    let gained = x.encoded_length();
    clear(slots, &own.at, inside, &x, lost);
    put_at(slots, &own.at, x, time);
    length - lost + gained
}

/// Takes in a cell or a marker for which there is memory, and gives the length that the changes then have.
fn put_cell(slots: &mut Slots, length: u64, own: &Keys, x: Held, time: Micros) -> u64
    requires at { own.now.at ≡ At x.place }
    requires narrow { IsInnermost x.place }
    requires slot { HasSlot (helds_of slots.old) x.place }
    requires good { IsGood (helds_of slots.old) }
    requires length { length ≡ changes_length (changes_of (helds_in slots.old.entries)) }
    requires fits { length + held_length x < 2 ^ 64 }
    requires reached { IsReachedBy (changes_of (helds_in slots.old.entries)) x → IsReachedAt (change_in (slot_at (helds_of slots.old) (At x.place))) x }
    ensures taken { IsTakenIn (helds_of slots.old) (helds_of slots.new) x length result }
    ensures comes { ComesAlone time x slots.old.entries slots.new.entries }
{
    put_own(slots, length, &own.at, x, time)
}

/// Takes in a change for which there is memory, and gives the length that the changes then have.
pub(crate) fn put(
    slots: &mut Slots,
    length: u64,
    alloc: Global,
    bare: bool,
    own: &Keys,
    inside: &[Spot],
    x: Held,
    time: Micros,
) -> u64
    requires keys { own.now ≡ keys_for bare x.place }
    requires inside { IsInside (spots_in (helds_of slots.old)) x.place inside.now }
    requires slot { HasSlot (helds_of slots.old) x.place }
    requires good { IsGood (helds_of slots.old) }
    requires length { length ≡ changes_length (changes_of (helds_in slots.old.entries)) }
    requires fits { length + held_length x < 2 ^ 64 }
    requires bare { bare ≡ true → AreBare (changes_of (helds_in slots.old.entries)) }
    requires narrow { bare ≡ true → IsInnermost x.place }
    ensures taken { IsTakenIn (helds_of slots.old) (helds_of slots.new) x length result }
    ensures comes { ComesAlone time x slots.old.entries slots.new.entries }
{
    if is_outranked_over(slots, alloc, bare, own, &x) {
        drop(x);
        return length;
    }
    match &own.span {
        Span::Alone | Span::Under(_) => put_cell(slots, length, own, x, time),
        Span::Row(_) | Span::Rows(_, _) | Span::All => {
            put_deletion(slots, length, alloc, own, inside, x, time)
        }
    }
}

/// The keys that were noted for one of the places.
fn noted_at(inside: &[Vec<Spot>], at: usize) -> &[Spot]
    ensures { IfSome (slice_get inside.now at) (λ keys. result.now ≡ keys.items) }
{
    match inside.get(at) {
        Some(keys) => keys.as_slice(),
        None => &[],
    }
}

/// Takes in changes for which there is memory, at a node time, and gives the length that the changes then have.
pub(crate) fn put_all(
    slots: &mut Slots,
    length: u64,
    alloc: Global,
    bare: bool,
    keys: &[Keys],
    inside: &[Vec<Spot>],
    changes: Vec<Held>,
    time: Micros,
) -> u64
    requires keys { keys.now ≡ map (keys_for bare) (map place_of changes.items) }
    requires inside { AreNoted (spots_in (helds_of slots.old)) (map place_of changes.items) inside.now }
    requires slots { AreSlotsFor (helds_of slots.old) changes.items }
    requires good { IsGood (helds_of slots.old) }
    requires length { length ≡ changes_length (changes_of (helds_in slots.old.entries)) }
    requires fits { changes_length (changes_of (helds_in slots.old.entries)) + changes_length changes.items < 2 ^ 64 }
    requires bare { bare ≡ true → AreBare (changes_of (helds_in slots.old.entries)) }
    requires narrow { bare ≡ true → AreBare changes.items }
    ensures content { IsContent (changes_of (helds_in slots.new.entries)) (Either (Contains (changes_of (helds_in slots.old.entries))) (Contains changes.items)) }
    ensures arrivals { ComeAt time (stored_of slots.old.entries) (stored_of slots.new.entries) }
    ensures good { IsGood (helds_of slots.new) }
    ensures length { result ≡ changes_length (changes_of (helds_in slots.new.entries)) }
{
    let mut length = length;
    let mut at = 0;
    for x in changes {
        length = put(
            slots,
            length,
            alloc,
            bare,
            &keys[at],
            noted_at(inside, at),
            x,
            time,
        );
        at += 1;
    }
    length
}
