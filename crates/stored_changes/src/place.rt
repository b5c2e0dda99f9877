//! Bounds and places.

ghost use Rattle.std.specs.Prelude.{◌≡◌, ◌++◌, OnOk};
ghost use Rattle.stored_fields.specs.Reading.{Gives};
ghost use Rattle.stored_fields.specs.Spelling.{FitsField, field, u8 as u8_bytes};
ghost use Rattle.stored_changes.specs.Reading.{bound_at, cell_at, place_at, range_gone_at};
ghost use Rattle.stored_changes.specs.Spelling.{ColumnInRange, PlaceFits, bound as bound_bytes, place as place_bytes};

use changes::{Bound, Place};
use cs_base::Bytes;
use std::alloc::{AllocError, Global};
use stored_fields::{Fault, Reader, write_tagged_field, write_u8};

#[tactic(auto, unfolding(crate::specs::Reading::bound_at))]
fn read_bound(alloc: Global, reader: &mut Reader<'_>) -> Result<Bound, Fault>
    ensures { Gives (λ b. (b, reader.new.rest.now)) result (bound_at reader.old.rest.now) }
{
    let after = reader.flag()?;
    let at = reader.field(alloc)?;
    Ok(Bound { at, after })
}

#[tactic(auto, unfolding(crate::specs::Reading::cell_at))]
fn read_cell(alloc: Global, reader: &mut Reader<'_>) -> Result<Place, Fault>
    ensures { Gives (λ p. (p, reader.new.rest.now)) result (cell_at reader.old.rest.now) }
{
    let row = reader.field(alloc)?;
    let column = reader.u8()?;
    Ok(Place::Cell(row, column))
}

#[tactic(auto, unfolding(crate::specs::Reading::range_gone_at))]
fn read_range_gone(alloc: Global, reader: &mut Reader<'_>) -> Result<Place, Fault>
    ensures { Gives (λ p. (p, reader.new.rest.now)) result (range_gone_at reader.old.rest.now) }
{
    let from = read_bound(alloc, reader)?;
    let upto = read_bound(alloc, reader)?;
    Ok(Place::RangeGone(from, upto))
}

/// A change's tag, and its place.
#[tactic(auto, unfolding(crate::specs::Reading::place_at))]
pub(crate) fn read_place(alloc: Global, reader: &mut Reader<'_>) -> Result<Place, Fault>
    ensures { Gives (λ p. (p, reader.new.rest.now)) result (place_at reader.old.rest.now) }
{
    let left = reader.left();
    match reader.u8()? {
        1 => read_cell(alloc, reader),
        2 => Ok(Place::Marker(reader.field(alloc)?)),
        3 => Ok(Place::RowGone(reader.field(alloc)?)),
        4 => read_range_gone(alloc, reader),
        5 => Ok(Place::PartGone),
        _ => Err(Fault::Tag(left)),
    }
}

fn write_bound(out: &mut Vec<u8>, bound: &Bound) -> Result<(), AllocError>
    requires { FitsField bound.now.at }
    ensures { OnOk result (out.new.items ≡ out.old.items ++ bound_bytes bound.now) }
{
    write_tagged_field(out, u8::from(bound.after), &bound.at)
}

fn write_cell_place(out: &mut Vec<u8>, row: &Bytes, column: u8) -> Result<(), AllocError>
    requires { FitsField row.now }
    ensures { OnOk result (out.new.items ≡ out.old.items ++ u8_bytes 1 ++ field row.now ++ u8_bytes column) }
{
    write_tagged_field(out, 1, row)?;
    write_u8(out, column)
}

fn write_range_gone(out: &mut Vec<u8>, from: &Bound, upto: &Bound) -> Result<(), AllocError>
    requires from { FitsField from.now.at }
    requires upto { FitsField upto.now.at }
    ensures { OnOk result (out.new.items ≡ out.old.items ++ u8_bytes 4 ++ bound_bytes from.now ++ bound_bytes upto.now) }
{
    write_u8(out, 4)?;
    write_bound(out, from)?;
    write_bound(out, upto)
}

/// A change's tag, and its place.
pub(crate) fn write_place(out: &mut Vec<u8>, place: &Place) -> Result<(), AllocError>
    requires { PlaceFits place.now }
    ensures written { OnOk result (out.new.items ≡ out.old.items ++ place_bytes place.now) }
    ensures in_range { OnOk result (ColumnInRange place.now) }
{
    match place {
        Place::Cell(row, column) => write_cell_place(out, row, *column),
        Place::Marker(row) => write_tagged_field(out, 2, row),
        Place::RowGone(row) => write_tagged_field(out, 3, row),
        Place::RangeGone(from, upto) => write_range_gone(out, from, upto),
        Place::PartGone => write_u8(out, 5),
    }
}
