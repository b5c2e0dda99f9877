//! The rows of an acceptor.

ghost use Rattle.std.specs.Prelude.{◌≡◌, ◌++◌, List, OnOk, length};
ghost use Rattle.std.specs.List.{AllByRecursion};
ghost use Rattle.stored_fields.specs.Reading.{Gives, optional_at};
ghost use Rattle.stored_fields.specs.Spelling.{optional};
ghost use Rattle.stored_changes.specs.Spelling.{ChangesFit};
ghost use Rattle.row_change.specs.Reading.{row_at, seven_at, stamped_at};
ghost use Rattle.row_change.specs.Spelling.{IsWide, OptionInRange, RowFits, RowInRange, StampedFits, StampedInRange, numbers, row as row_bytes, stamped as stamped_bytes};

use crate::entry::{PaxosRow, Stamped, Update};
use cs_base::Ballot;
use std::alloc::{AllocError, Global};
use stored_changes::{read_changes, write_changes};
use stored_fields::{Fault, Reader, write_flag, write_request, write_u64};

#[tactic(auto, unfolding(crate::specs::Reading::stamped_at))]
fn read_stamped(alloc: Global, reader: &mut Reader<'_>) -> Result<Stamped, Fault>
    ensures { Gives (λ s. (s, reader.new.rest.now)) result (stamped_at reader.old.rest.now) }
{
    let ballot = Ballot::new(reader.u64()?);
    let request = reader.request()?;
    let base = Ballot::new(reader.u64()?);
    let changes = read_changes(alloc, reader)?;
    let update = Update {
        request,
        base,
        changes,
    };
    Ok(Stamped { ballot, update })
}

#[tactic(auto, unfolding(stored_fields::specs::Reading::optional_at))]
fn read_optional(alloc: Global, reader: &mut Reader<'_>) -> Result<Option<Stamped>, Fault>
    ensures { Gives (λ s. (s, reader.new.rest.now)) result (optional_at stamped_at reader.old.rest.now) }
{
    if reader.flag()? {
        Ok(Some(read_stamped(alloc, reader)?))
    } else {
        Ok(None)
    }
}

/// A ballot of each proposer.
#[tactic(auto, unfolding(crate::specs::Reading::seven_at))]
fn read_took(reader: &mut Reader<'_>) -> Result<[Ballot; 7], Fault>
    ensures { Gives (λ took. (took, reader.new.rest.now)) result (seven_at reader.old.rest.now) }
{
    let first = Ballot::new(reader.u64()?);
    let second = Ballot::new(reader.u64()?);
    let third = Ballot::new(reader.u64()?);
    let fourth = Ballot::new(reader.u64()?);
    let fifth = Ballot::new(reader.u64()?);
    let sixth = Ballot::new(reader.u64()?);
    let seventh = Ballot::new(reader.u64()?);
    Ok([first, second, third, fourth, fifth, sixth, seventh])
}

/// The row of a partition.
#[tactic(auto, unfolding(crate::specs::Reading::row_at))]
pub(crate) fn read_row(alloc: Global, reader: &mut Reader<'_>) -> Result<PaxosRow, Fault>
    ensures { Gives (λ r. (r, reader.new.rest.now)) result (row_at reader.old.rest.now) }
{
    let promised = Ballot::new(reader.u64()?);
    let took = read_took(reader)?;
    let accepted = read_optional(alloc, reader)?;
    let commit = read_optional(alloc, reader)?;
    Ok(PaxosRow {
        promised,
        took,
        accepted,
        commit,
    })
}

fn write_stamped(out: &mut Vec<u8>, stamped: &Stamped) -> Result<(), AllocError>
    requires { ChangesFit stamped.now.update.changes }
    ensures written { OnOk result (out.new.items ≡ out.old.items ++ stamped_bytes stamped.now) }
    ensures in_range { OnOk result (StampedInRange stamped.now) }
{
    write_u64(out, stamped.ballot.number())?;
    write_request(out, stamped.update.request)?;
    write_u64(out, stamped.update.base.number())?;
    write_changes(out, stamped.update.changes.as_slice())
}

fn write_optional(out: &mut Vec<u8>, stamped: &Option<Stamped>) -> Result<(), AllocError>
    requires { StampedFits stamped.now }
    ensures written { OnOk result (out.new.items ≡ out.old.items ++ optional stamped_bytes stamped.now) }
    ensures in_range { OnOk result (OptionInRange stamped.now) }
{
    match stamped {
        None => write_flag(out, false),
        Some(stamped) => {
            write_flag(out, true)?;
            write_stamped(out, stamped)
        }
    }
}

fn write_took(out: &mut Vec<u8>, took: &[Ballot]) -> Result<(), AllocError>
    ensures written { OnOk result (out.new.items ≡ out.old.items ++ numbers took.now) }
    ensures in_range { OnOk result (AllByRecursion IsWide took.now) }
{
    for ballot in took {
        write_u64(out, ballot.number())?;
    }
    Ok(())
}

/// The row of a partition.
pub(crate) fn write_row(out: &mut Vec<u8>, row: &PaxosRow) -> Result<(), AllocError>
    requires { RowFits row.now }
    ensures written { OnOk result (out.new.items ≡ out.old.items ++ row_bytes row.now) }
    ensures in_range { OnOk result (RowInRange row.now) }
{
    write_u64(out, row.promised.number())?;
    write_took(out, &row.took)?;
    write_optional(out, &row.accepted)?;
    write_optional(out, &row.commit)
}
