//! Hints that are past their age.

ghost use Rattle.std.specs.Prelude.{◌≡◌, ◌↔◌, ◌<◌, ℕ, false, not, nat_lt, None, IfOk, Contains};
ghost use Rattle.std.specs.List.{list_any};
ghost use Rattle.row_change.specs.declared.entry.Hint as hint;
ghost use Rattle.hint_store.specs.Stores.{is_added, hints_now};
ghost use Rattle.hint_store.specs.Expiry.{expired_at, is_last, expired_in};

use crate::gone::{Gone, is_among};
use crate::index::{AgeKey, ByAge};
use crate::table::HintTable;
use cs_base::{Items, Micros, NodeId};
use std::alloc::{AllocError, Global};
use std::collections::btree_set::Range;
use std::ops::Bound;

/// A hint that is past its age.
#[derive(Clone, Copy, Debug, PartialEq, Eq)]
pub struct Expired {
    pub born: Micros,
    pub peer: NodeId,
    pub number: u64,
}

/// Whether one of these is of a hint that was born before a time: the first one tells.
fn begins_before(ages: &ByAge, time: Micros) -> bool
    ensures { result ≡ list_any (λ k. nat_lt k.0 time) ages.now.keys }
{
    match ages.first() {
        Some(key) => key.0 < time,
        None => false,
    }
}

/// Whether one of these is left.
fn is_any_left(walk: Range<'_, AgeKey>, gone: &Gone) -> bool
    ensures { result ≡ list_any (λ k. not (is_added gone.now.keys (k.1, k.2))) walk.entry }
{
    for key in walk {
        if !is_among(gone, key.1, key.2) {
            return true;
        }
    }
    false
}

/// The hint of a key.
fn expired_by(key: &AgeKey) -> Expired
    ensures { result ≡ expired_at key.now }
{
    Expired {
        born: key.0,
        peer: key.1,
        number: key.2,
    }
}

/// Whether the key is one of the hint that was met last.
fn repeats(last: &Option<Expired>, key: &AgeKey) -> bool
    ensures { result ≡ is_last last.now key.now }
{
    match last {
        Some(last) => last.born == key.0 && last.peer == key.1 && last.number == key.2,
        None => false,
    }
}

/// Those of these that are left, each once.
fn collect_left(
    alloc: Global,
    walk: Range<'_, AgeKey>,
    gone: &Gone,
) -> Result<Vec<Expired>, AllocError>
    ensures { IfOk result (λ all. all.items ≡ expired_in gone.now.keys None walk.entry) }
{
    let mut all = Vec::new(alloc);
    let mut last = None;
    for key in walk {
        if !is_among(gone, key.1, key.2) && !repeats(&last, key) {
            all.push(expired_by(key))?;
            last = Some(expired_by(key));
        }
    }
    Ok(all)
}

impl HintTable {
    ghost use Rattle.hint_store.specs.Expiry.{AreOldestFirst, expired_of};
    ghost use Rattle.hint_store.specs.declared.aging.Expired as expired;

    /// Whether a hint that was born before a time is left.
    pub(crate) fn has_older(&self, gone: &Gone, time: Micros) -> bool
        ensures { result ≡ list_any (λ h. nat_lt h.born time) (hints_now gone.now.keys self.now.entries) }
    {
        // It is asked at each step, and seldom is there one.
        if !begins_before(&self.by_age, time) {
            return false;
        }
        let upto = (time, NodeId::FIRST, 0, 0);
        is_any_left(
            self.by_age
                .range((Bound::Unbounded, Bound::Excluded(&upto))),
            gone,
        )
    }

    /// The hints left that were born before a time, the oldest first.
    pub(crate) fn older(
        &self,
        alloc: Global,
        gone: &Gone,
        time: Micros,
    ) -> Result<Items<Expired>, AllocError>
        ensures ordered { IfOk result (λ all. AreOldestFirst all) }
        ensures each { IfOk result (λ all. (x : expired.Expired) → Contains all x ↔ ((h : hint.Hint) × Contains (hints_now gone.now.keys self.now.entries) h × (h.born < time) × (x ≡ expired_of h))) }
    {
        let upto = (time, NodeId::FIRST, 0, 0);
        let walk = self
            .by_age
            .range((Bound::Unbounded, Bound::Excluded(&upto)));
        Ok(Items::from_vec(collect_left(alloc, walk, gone)?))
    }
}
