//! Copies of a table's hints that are not gone.

ghost use Rattle.std.specs.Prelude.{◌≡◌, ◌++◌, [], ◌∷◌, not, filter, take, IfOk, OnOk};
ghost use Rattle.std.specs.Map.{values_of};
ghost use Rattle.hint_store.specs.Staged.{first_of};
ghost use Rattle.hint_store.specs.Stores.{is_gone, is_sent, hints_now};

use crate::gone::{Gone, is_gone};
use crate::table::{HintTable, Place};
use cs_base::{Items, NodeId};
use peer_messages::Setting;
use row_change::Hint;
use std::alloc::{AllocError, Global};
use std::collections::btree_map::Range;
use std::ops::Bound;

/// So many hints are sent at a time.
const SENT: usize = 64;

fn copy_hint(alloc: Global, hint: &Hint) -> Result<Hint, AllocError>
    ensures { IfOk result (λ copy. copy ≡ hint.now) }
{
    Ok(Hint {
        peer: hint.peer,
        number: hint.number,
        born: hint.born,
        mutation: hint.mutation.copy(alloc)?,
    })
}

/// Puts a copy of a hint behind those that are there, if it is not gone.
fn copy_left(
    onto: &mut Vec<Hint>,
    alloc: Global,
    gone: &Gone,
    hint: &Hint,
) -> Result<(), AllocError>
    ensures { OnOk result (onto.new.items ≡ onto.old.items ++ filter (λ h. not (is_gone gone.now.keys h)) (hint.now ∷ [])) }
{
    if !is_gone(gone, hint) {
        onto.push(copy_hint(alloc, hint)?)?;
    }
    Ok(())
}

/// The same, if its table is there.
fn copy_sent(
    onto: &mut Vec<Hint>,
    alloc: Global,
    setting: &Setting,
    gone: &Gone,
    hint: &Hint,
) -> Result<(), AllocError>
    ensures { OnOk result (onto.new.items ≡ onto.old.items ++ filter (is_sent setting.now gone.now.keys) (hint.now ∷ [])) }
{
    if setting.has_table(hint.mutation.partition.table) {
        copy_left(onto, alloc, gone, hint)?;
    }
    Ok(())
}

/// Copies of the first ones on a walk that are sent.
fn copy_first(
    alloc: Global,
    setting: &Setting,
    gone: &Gone,
    walk: Range<'_, Place, Hint>,
) -> Result<Vec<Hint>, AllocError>
    ensures { IfOk result (λ first. first.items ≡ take 64 (filter (is_sent setting.now gone.now.keys) (values_of walk.entry))) }
{
    let mut first = Vec::new(alloc);
    for (_, hint) in walk {
        if first.len() >= SENT {
            return Ok(first);
        }
        copy_sent(&mut first, alloc, setting, gone, hint)?;
    }
    Ok(first)
}

impl HintTable {
    /// Copies of a peer's first hints whose tables are there.
    pub fn first(
        &self,
        alloc: Global,
        setting: &Setting,
        gone: &Gone,
        peer: NodeId,
    ) -> Result<Items<Hint>, AllocError>
        ensures { IfOk result (λ first. first ≡ first_of setting.now (hints_now gone.now.keys self.now.entries) peer) }
    {
        let from = (peer, 0);
        let upto = (peer, self.next);
        let walk = self
            .by_place
            .range((Bound::Included(&from), Bound::Excluded(&upto)));
        Ok(Items::from_vec(copy_first(alloc, setting, gone, walk)?))
    }

    /// Copies of all hints.
    pub fn hints(&self, alloc: Global, gone: &Gone) -> Result<Items<Hint>, AllocError>
        ensures { IfOk result (λ hints. hints ≡ hints_now gone.now.keys self.now.entries) }
    {
        let mut hints = Vec::new(alloc);
        for (_, hint) in &self.by_place {
            copy_left(&mut hints, alloc, gone, hint)?;
        }
        Ok(Items::from_vec(hints))
    }
}
