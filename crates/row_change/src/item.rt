//! Items, in the order of their kinds.

ghost use Rattle.std.specs.Prelude.{◌≡◌, ◌++◌, List, [], IfOk, OnOk};
ghost use Rattle.std.specs.List.{AllByRecursion, flat_map};
ghost use Rattle.stored_fields.specs.Reading.{Gives};
ghost use Rattle.row_change.specs.Reading.{counted_items_at, data_item_at, gone_item_at, hint_at, item_at, item_fields_of, kind_in, mark_at, paxos_item_at, purge_item_at};
ghost use Rattle.row_change.specs.Spelling.{HintInRange, ItemFits, ItemInRange, MarkInRange, hint as hint_bytes, item as item_bytes, item_fields, mark_bytes};
ghost use Rattle.stored_changes.specs.Spelling.{MutationFits};

use crate::entry::{Hint, LogItem, Mark};
use crate::paxos::{read_row, write_row};
use changes::Change;
use cs_base::{Items, Micros, Range};
use std::alloc::{AllocError, Global};
use stored_changes::{
    read_change, read_mutation, read_partition, write_change, write_mutation, write_partition,
};
use stored_fields::{Fault, Reader, write_i64, write_node, write_u8, write_u64};

/// For how many items there is room before any is read. The count alone, which no byte behind it bears out yet, takes no more.
const FIRST_ROOM: usize = 4;

#[tactic(auto, unfolding(crate::specs::Reading::hint_at))]
fn read_hint(alloc: Global, reader: &mut Reader<'_>) -> Result<Hint, Fault>
    ensures { Gives (λ h. (h, reader.new.rest.now)) result (hint_at reader.old.rest.now) }
{
    let peer = reader.node()?;
    let number = reader.u64()?;
    let born = Micros::new(reader.u64()?);
    let mutation = read_mutation(alloc, reader)?;
    Ok(Hint {
        peer,
        number,
        born,
        mutation,
    })
}

#[tactic(auto, unfolding(crate::specs::Reading::mark_at))]
fn read_mark(reader: &mut Reader<'_>) -> Result<Mark, Fault>
    ensures { Gives (λ m. (m, reader.new.rest.now)) result (mark_at reader.old.rest.now) }
{
    let after = reader.i64()?;
    let upto = reader.i64()?;
    let snapshot = Micros::new(reader.u64()?);
    let sent = Micros::new(reader.u64()?);
    Ok(Mark {
        range: Range { after, upto },
        snapshot,
        sent,
    })
}

#[tactic(auto, unfolding(crate::specs::Reading::data_item_at))]
fn read_data(alloc: Global, reader: &mut Reader<'_>) -> Result<LogItem, Fault>
    ensures { Gives (λ i. (i, reader.new.rest.now)) result (data_item_at reader.old.rest.now) }
{
    let arrival = Micros::new(reader.u64()?);
    let mutation = read_mutation(alloc, reader)?;
    Ok(LogItem::Data(arrival, mutation))
}

#[tactic(auto, unfolding(crate::specs::Reading::paxos_item_at))]
fn read_paxos(alloc: Global, reader: &mut Reader<'_>) -> Result<LogItem, Fault>
    ensures { Gives (λ i. (i, reader.new.rest.now)) result (paxos_item_at reader.old.rest.now) }
{
    let partition = read_partition(alloc, reader)?;
    let row = read_row(alloc, reader)?;
    Ok(LogItem::Paxos(partition, row))
}

#[tactic(auto, unfolding(crate::specs::Reading::gone_item_at))]
fn read_gone(reader: &mut Reader<'_>) -> Result<LogItem, Fault>
    ensures { Gives (λ i. (i, reader.new.rest.now)) result (gone_item_at reader.old.rest.now) }
{
    let peer = reader.node()?;
    let number = reader.u64()?;
    Ok(LogItem::HintGone(peer, number))
}

#[tactic(auto, unfolding(crate::specs::Reading::purge_item_at))]
fn read_purge(alloc: Global, reader: &mut Reader<'_>) -> Result<LogItem, Fault>
    ensures { Gives (λ i. (i, reader.new.rest.now)) result (purge_item_at reader.old.rest.now) }
{
    let partition = read_partition(alloc, reader)?;
    let held = read_change(alloc, None, reader)?;
    Ok(LogItem::Purge(Change { partition, held }))
}

/// The fields of an item of the kind, whose byte stood where `left` were left.
fn read_fields(
    alloc: Global,
    left: usize,
    kind: u8,
    reader: &mut Reader<'_>,
) -> Result<LogItem, Fault>
    ensures { Gives (λ i. (i, reader.new.rest.now)) result (item_fields_of left kind reader.old.rest.now) }
{
    match kind {
        1 => read_data(alloc, reader),
        2 => read_paxos(alloc, reader),
        3 => Ok(LogItem::HintAdd(read_hint(alloc, reader)?)),
        4 => read_gone(reader),
        5 => Ok(LogItem::Ceiling(Micros::new(reader.u64()?))),
        6 => Ok(LogItem::Mark(read_mark(reader)?)),
        7 => read_purge(alloc, reader),
        _ => Err(Fault::Tag(left)),
    }
}

/// The kind, if it is one and doesn't fall behind the kind before it.
fn kind_from(before: u8, left: usize, kind: u8) -> Result<u8, Fault>
    ensures { result ≡ kind_in before left kind }
{
    if !(1 <= kind && kind <= 7) {
        return Err(Fault::Tag(left));
    }
    if kind < before {
        return Err(Fault::Order(left));
    }
    Ok(kind)
}

/// An item behind one of the kind `before`.
#[tactic(auto, unfolding(crate::specs::Reading::item_at))]
fn read_item(alloc: Global, before: u8, reader: &mut Reader<'_>) -> Result<LogItem, Fault>
    ensures { Gives (λ i. (i, reader.new.rest.now)) result (item_at before reader.old.rest.now) }
{
    let left = reader.left();
    let byte = reader.u8()?;
    let kind = kind_from(before, left, byte)?;
    read_fields(alloc, left, kind, reader)
}

/// Room for the first of so many items: mostly an entry has one.
fn make_room(alloc: Global, count: u32) -> Result<Vec<LogItem>, AllocError>
    ensures { IfOk result (λ room. room.items ≡ []) }
{
    Vec::with_capacity(alloc, (count as usize).min(FIRST_ROOM))
}

/// So many items in the order of their kinds.
pub(crate) fn read_items(
    alloc: Global,
    count: u32,
    reader: &mut Reader<'_>,
) -> Result<Items<LogItem>, Fault>
    ensures { Gives (λ items. (items, reader.new.rest.now)) result (counted_items_at count reader.old.rest.now) }
{
    let mut items = make_room(alloc, count)?;
    let mut before = 0;
    for _ in 0..count {
        let item = read_item(alloc, before, reader)?;
        before = item.kind();
        items.push(item)?;
    }
    Ok(Items::from_vec(items))
}

fn write_hint(out: &mut Vec<u8>, hint: &Hint) -> Result<(), AllocError>
    requires { MutationFits hint.now.mutation }
    ensures written { OnOk result (out.new.items ≡ out.old.items ++ hint_bytes hint.now) }
    ensures in_range { OnOk result (HintInRange hint.now) }
{
    let number = hint.number;
    write_node(out, hint.peer)?;
    write_u64(out, number)?;
    write_u64(out, hint.born.count())?;
    write_mutation(out, &hint.mutation)
}

fn write_mark(out: &mut Vec<u8>, mark: &Mark) -> Result<(), AllocError>
    ensures written { OnOk result (out.new.items ≡ out.old.items ++ mark_bytes mark.now) }
    ensures in_range { OnOk result (MarkInRange mark.now) }
{
    write_i64(out, mark.range.after)?;
    write_i64(out, mark.range.upto)?;
    write_u64(out, mark.snapshot.count())?;
    write_u64(out, mark.sent.count())
}

fn write_fields(out: &mut Vec<u8>, item: &LogItem) -> Result<(), AllocError>
    requires { ItemFits item.now }
    ensures written { OnOk result (out.new.items ≡ out.old.items ++ item_fields item.now) }
    ensures in_range { OnOk result (ItemInRange item.now) }
{
    match item {
        LogItem::Data(arrival, mutation) => {
            write_u64(out, arrival.count())?;
            write_mutation(out, mutation)
        }
        LogItem::Paxos(partition, row) => {
            write_partition(out, partition)?;
            write_row(out, row)
        }
        LogItem::HintAdd(hint) => write_hint(out, hint),
        LogItem::HintGone(peer, number) => {
            write_node(out, *peer)?;
            write_u64(out, *number)
        }
        LogItem::Ceiling(time) => write_u64(out, time.count()),
        LogItem::Mark(mark) => write_mark(out, mark),
        LogItem::Purge(change) => {
            write_partition(out, &change.partition)?;
            write_change(out, &change.held)
        }
    }
}

fn write_item(out: &mut Vec<u8>, item: &LogItem) -> Result<(), AllocError>
    requires { ItemFits item.now }
    ensures written { OnOk result (out.new.items ≡ out.old.items ++ item_bytes item.now) }
    ensures in_range { OnOk result (ItemInRange item.now) }
{
    write_u8(out, item.kind())?;
    write_fields(out, item)
}

/// The items, one after another.
pub(crate) fn write_items(out: &mut Vec<u8>, items: &[LogItem]) -> Result<(), AllocError>
    requires { AllByRecursion ItemFits items.now }
    ensures written { OnOk result (out.new.items ≡ out.old.items ++ flat_map item_bytes items.now) }
    ensures in_range { OnOk result (AllByRecursion ItemInRange items.now) }
{
    for item in items {
        write_item(out, item)?;
    }
    Ok(())
}
