//! Deletions of rows by where they begin and how far they reach, so that those around a place are found without a look
//! through all of them.

ghost use Rattle.std.specs.Prelude.{◌≡◌, ◌↔◌, ◌<◌, ◌≤◌, IsTrue, true, false, IfOk, length};
ghost use Rattle.std.specs.List.Sorted.{IsPartitionPoint};
ghost use Rattle.std.specs.Ordering.{is_lt};
ghost use Rattle.changes.specs.Order.{bound_signs, row_signs, signs_cmp};
ghost use Rattle.changes.specs.Places.{AreInOrder};
ghost use Rattle.cell_merge.specs.Parts.{IsOutrankedBy};
ghost use Rattle.cell_merge.specs.Tests.{is_behind_bound, is_before_bound, begins_by, reaches_to};
ghost use Rattle.cell_merge.specs.Ranges.{AllWide, AreBlocks, IsBlockAt, IsIndexOf, IsJoined};

use changes::{Bound, Held, Place};
use cs_base::Bytes;
use std::alloc::{AllocError, Global};

fn stands_before(bound: &Bound, row: &Bytes) -> bool
    ensures { result ≡ is_lt (signs_cmp (bound_signs bound.now) (row_signs row.now)) }
{
    bound.is_before(row.as_slice())
}

fn stands_behind(bound: &Bound, row: &Bytes) -> bool
    ensures { result ≡ is_lt (signs_cmp (row_signs row.now) (bound_signs bound.now)) }
{
    bound.is_behind(row.as_slice())
}

/// Whether the place is in a row behind the bound.
pub(crate) fn is_behind(bound: &Bound, place: &Place) -> bool
    ensures { result ≡ is_behind_bound bound.now place.now }
{
    match place {
        Place::Cell(row, _) | Place::Marker(row) | Place::RowGone(row) => {
            stands_before(bound, row)
        }
        Place::RangeGone(_, _) | Place::PartGone => false,
    }
}

/// Whether the place is in a row before the bound, or in none.
pub(crate) fn is_before(bound: &Bound, place: &Place) -> bool
    ensures { result ≡ is_before_bound bound.now place.now }
{
    match place {
        Place::Cell(row, _) | Place::Marker(row) | Place::RowGone(row) => {
            stands_behind(bound, row)
        }
        Place::RangeGone(_, _) | Place::PartGone => true,
    }
}

/// Whether the first is a deletion of rows that begins no later than the second.
fn begins_before(outer: &Place, inner: &Place) -> bool
    ensures { result ≡ begins_by outer.now inner.now }
{
    match (outer, inner) {
        (Place::PartGone, _) => true,
        (Place::RangeGone(from, _), Place::RangeGone(start, _)) => { from <= start }
        (Place::RangeGone(from, _), _) => is_behind(from, inner),
        _ => false,
    }
}

/// Whether the first is a deletion of rows that reaches as far as the second.
fn reaches_to_end(outer: &Place, inner: &Place) -> bool
    ensures { result ≡ reaches_to outer.now inner.now }
{
    match (outer, inner) {
        (Place::PartGone, _) => true,
        (Place::RangeGone(_, upto), Place::RangeGone(_, end)) => { end <= upto }
        (Place::RangeGone(_, _), Place::PartGone) => false,
        (Place::RangeGone(_, upto), _) => is_before(upto, inner),
        _ => false,
    }
}

/// Deletions of rows that end with one of a list and begin at `start`, and the place of one that reaches as far as each.
#[derive(Clone, Copy, Debug)]
struct Block {
    start: usize,
    furthest: usize,
}

/// For each of a list of deletions of rows, in order, a block that ends with it. The blocks have the sizes of a binary
/// counter, so that those that can't reach a place are passed over many at once.
#[derive(Debug, Drop)]
pub struct RangeIndex {
    blocks: Vec<Block>,
}

/// Two blocks, the second of which begins where the first ends, as one.
fn joined(wide: &[Held], first: Block, second: Block) -> Block
    requires wide { AllWide wide.now }
    requires first { first.furthest < length wide.now }
    requires second { second.furthest < length wide.now }
    ensures { IsJoined wide.now first second result }
{
    let further = &wide[second.furthest];
    let other = &wide[first.furthest];
    let reaches = reaches_to_end(&further.place, &other.place);
    Block {
        start: first.start,
        furthest: if reaches {
            second.furthest
        } else {
            first.furthest
        },
    }
}

/// The block that ends with the last of these, of whose others the blocks are known.
fn block_at(wide: &[Held], blocks: &[Block], last: usize) -> Block
    requires wide { AllWide wide.now }
    requires last { (length blocks.now ≡ last) × (last < length wide.now) }
    requires blocks { AreBlocks wide.now last blocks.now }
    ensures { IsBlockAt wide.now last result }
{
    let mut block = Block {
        start: last,
        furthest: last,
    };
    while 0 < block.start {
        let before = blocks[block.start - 1];
        if block.start - before.start != last + 1 - block.start {
            break;
        }
        block = joined(wide, before, block);
    }
    block
}

/// How many of these deletions of rows begin no later than the place.
fn beginnings(wide: &[Held], place: &Place) -> usize
    requires { AreInOrder wide.now }
    ensures bound { result ≤ length wide.now }
    ensures point { IsPartitionPoint (λ y. begins_by y.place place.now ≡ true) (λ y. begins_by y.place place.now ≡ false) wide.now result }
{
    wide.partition_point(|y| begins_before(&y.place, place))
}

impl RangeIndex {
    /// The index of these deletions of rows: ranges, and that of the partition.
    pub fn new(alloc: Global, wide: &[Held]) -> Result<RangeIndex, AllocError>
        requires { AllWide wide.now }
        ensures { IfOk result (IsIndexOf wide.now) }
    {
        let mut blocks = Vec::new(alloc);
        for last in 0..wide.len() {
            let block = block_at(wide, &blocks, last);
            blocks.push(block)?;
        }
        Ok(RangeIndex { blocks })
    }

    /// Whether one of these deletions of rows outranks the change. It costs the logarithm of their number, and again for each
    /// that lies around the change's place.
    pub fn outranks(&self, wide: &[Held], x: &Held) -> bool
        requires index { IsIndexOf wide.now self.now }
        requires wide { AllWide wide.now }
        requires ordered { AreInOrder wide.now }
        ensures { IsTrue result ↔ IsOutrankedBy wide.now x.now }
    {
        let mut end = beginnings(wide, &x.place);
        while 0 < end {
            let block = self.blocks[end - 1];
            let furthest = &wide[block.furthest];
            if !reaches_to_end(&furthest.place, &x.place) {
                end = block.start;
                continue;
            }
            end -= 1;
            let y = &wide[end];
            if y.outranks(x) {
                return true;
            }
        }
        false
    }
}
