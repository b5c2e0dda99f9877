//! Changes, in the order of their places.

ghost use Rattle.std.specs.Prelude.{◌≡◌, [], ◌++◌, IfOk, OnOk};
ghost use Rattle.std.specs.List.{AllByRecursion, flat_map};
ghost use Rattle.std.specs.Option.{option_copied};
ghost use Rattle.stored_fields.specs.Reading.{Gives, field_at, optional_at};
ghost use Rattle.stored_changes.specs.Reading.{ascends as ascends_from, behind_place_at, change_at, changes_at, counted_at, last_place as last_place_of, stamped_at, value_at};
ghost use Rattle.stored_changes.specs.Spelling.{ChangeFits, ChangeInRange, ChangesFit, ChangesInRange, ValueFits, change as change_bytes, changes as changes_bytes, value as value_bytes};

use crate::place::{read_place, write_place};
use changes::{Held, Helds, Place};
use cs_base::{Bytes, Items, Micros, ReqId};
use std::alloc::{AllocError, Global};
use stored_fields::{Fault, Reader, write_flag, write_stamps, write_tagged_field, write_u32};

/// For how many changes room is made before they are read. A count alone makes no more.
const FIRST_ROOM: usize = 32;

#[tactic(auto, unfolding(stored_fields::specs::Reading::optional_at))]
fn read_cell_value(alloc: Global, reader: &mut Reader<'_>) -> Result<Option<Bytes>, Fault>
    ensures { Gives (λ v. (v, reader.new.rest.now)) result (optional_at field_at reader.old.rest.now) }
{
    if reader.flag()? {
        Ok(Some(reader.field(alloc)?))
    } else {
        Ok(None)
    }
}

/// The value of a change at the place.
fn read_value(alloc: Global, place: &Place, reader: &mut Reader<'_>) -> Result<Option<Bytes>, Fault>
    ensures { Gives (λ v. (v, reader.new.rest.now)) result (value_at place.now reader.old.rest.now) }
{
    match place {
        Place::Cell(_, _) => read_cell_value(alloc, reader),
        Place::Marker(_) => Ok(Some(Bytes::new(alloc))),
        Place::RowGone(_) | Place::RangeGone(_, _) | Place::PartGone => Ok(None),
    }
}

/// The numbers of a change.
#[derive(Clone, Copy)]
struct Stamps {
    timestamp: i64,
    submitted: Micros,
    request: ReqId,
}

fn read_stamps(reader: &mut Reader<'_>) -> Result<Stamps, Fault>
    ensures { (place : _) (value : _) → Gives (λ s. (record { place = place; value = value; timestamp = s.timestamp; submitted = s.submitted; request = s.request }, reader.new.rest.now)) result (stamped_at place value reader.old.rest.now) }
{
    let timestamp = reader.i64()?;
    let submitted = Micros::new(reader.u64()?);
    let request = reader.request()?;
    Ok(Stamps {
        timestamp,
        submitted,
        request,
    })
}

/// A change of the place, with the value, whose numbers follow.
fn read_stamped(place: Place, value: Option<Bytes>, reader: &mut Reader<'_>) -> Result<Held, Fault>
    ensures { Gives (λ x. (x, reader.new.rest.now)) result (stamped_at place value reader.old.rest.now) }
{
    match read_stamps(reader) {
        Ok(stamps) => Ok(Held {
            place,
            value,
            timestamp: stamps.timestamp,
            submitted: stamps.submitted,
            request: stamps.request,
        }),
        Err(fault) => {
            drop(value);
            drop(place);
            Err(fault)
        }
    }
}

#[tactic(auto, unfolding(crate::specs::Reading::behind_place_at))]
fn read_behind_place(alloc: Global, place: Place, reader: &mut Reader<'_>) -> Result<Held, Fault>
    ensures { Gives (λ x. (x, reader.new.rest.now)) result (behind_place_at place reader.old.rest.now) }
{
    match read_value(alloc, &place, reader) {
        Ok(value) => read_stamped(place, value, reader),
        Err(fault) => {
            drop(place);
            Err(fault)
        }
    }
}

/// Whether the place stands behind the one before it, if there is one.
fn ascends(before: Option<&Place>, place: &Place) -> bool
    ensures { result ≡ ascends_from (option_copied before.entry) place.now }
{
    match before {
        None => true,
        Some(before) => before.cmp(place).is_lt(),
    }
}

/// A change behind one at the place `before`, if one stands there.
#[tactic(auto, unfolding(crate::specs::Reading::change_at))]
pub fn read_change(
    alloc: Global,
    before: Option<&Place>,
    reader: &mut Reader<'_>,
) -> Result<Held, Fault>
    ensures { Gives (λ x. (x, reader.new.rest.now)) result (change_at (option_copied before.entry) reader.old.rest.now) }
{
    let left = reader.left();
    let place = read_place(alloc, reader)?;
    if !ascends(before, &place) {
        drop(place);
        return Err(Fault::Order(left));
    }
    read_behind_place(alloc, place, reader)
}

fn last_place(changes: &[Held]) -> Option<&Place>
    ensures { option_copied result ≡ last_place_of changes.now }
{
    match changes.last() {
        Some(change) => Some(&change.place),
        None => None,
    }
}

/// Room for the first of so many changes.
fn make_room(alloc: Global, count: u32) -> Result<Vec<Held>, AllocError>
    ensures { IfOk result (λ room. room.items ≡ []) }
{
    Vec::with_capacity(alloc, (count as usize).min(FIRST_ROOM))
}

/// So many changes in order.
fn read_counted(alloc: Global, count: u32, reader: &mut Reader<'_>) -> Result<Helds, Fault>
    ensures { Gives (λ xs. (xs, reader.new.rest.now)) result (counted_at count reader.old.rest.now) }
{
    let mut changes = make_room(alloc, count)?;
    for _ in 0..count {
        let change = read_change(alloc, last_place(&changes), reader)?;
        changes.push(change)?;
    }
    Ok(Items::from_vec(changes))
}

/// A count, and that many changes in the order of their places, each place once.
#[tactic(auto, unfolding(crate::specs::Reading::changes_at))]
pub fn read_changes(alloc: Global, reader: &mut Reader<'_>) -> Result<Helds, Fault>
    ensures { Gives (λ xs. (xs, reader.new.rest.now)) result (changes_at reader.old.rest.now) }
{
    let count = reader.u32()?;
    read_counted(alloc, count, reader)
}

fn write_value(out: &mut Vec<u8>, place: &Place, value: &Option<Bytes>) -> Result<(), AllocError>
    requires { ValueFits place.now value.now }
    ensures { OnOk result (out.new.items ≡ out.old.items ++ value_bytes place.now value.now) }
{
    match (place, value) {
        (Place::Cell(_, _), Some(content)) => write_tagged_field(out, 1, content),
        (Place::Cell(_, _), None) => write_flag(out, false),
        _ => Ok(()),
    }
}

/// A change.
pub fn write_change(out: &mut Vec<u8>, change: &Held) -> Result<(), AllocError>
    requires { ChangeFits change.now }
    ensures written { OnOk result (out.new.items ≡ out.old.items ++ change_bytes change.now) }
    ensures in_range { OnOk result (ChangeInRange change.now) }
{
    write_place(out, &change.place)?;
    write_value(out, &change.place, &change.value)?;
    write_stamps(out, change.timestamp, change.submitted, change.request)
}

/// The changes, one after another.
fn write_each(out: &mut Vec<u8>, changes: &[Held]) -> Result<(), AllocError>
    requires { AllByRecursion ChangeFits changes.now }
    ensures written { OnOk result (out.new.items ≡ out.old.items ++ flat_map change_bytes changes.now) }
    ensures in_range { OnOk result (ChangesInRange changes.now) }
{
    for change in changes {
        write_change(out, change)?;
    }
    Ok(())
}

/// A count and the changes.
pub fn write_changes(out: &mut Vec<u8>, changes: &[Held]) -> Result<(), AllocError>
    requires { ChangesFit changes.now }
    ensures written { OnOk result (out.new.items ≡ out.old.items ++ changes_bytes changes.now) }
    ensures in_range { OnOk result (ChangesInRange changes.now) }
{
    write_u32(out, changes.len() as u32)?;
    write_each(out, changes)
}
