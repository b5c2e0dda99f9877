//! What a request is to give for the markers of a statement (native_protocol_v4.spec, section 4.2.5.4).

ghost use Rattle.std.specs.Prelude.{◌≡◌, ◌++◌, IfOk, OnOk};
ghost use Rattle.prepared_statement.specs.Markers.{marker_by, markers_of, number_behind as number_behind_of, numbers_behind as numbers_behind_of, is_fixing as is_fixing_of, gives as gives_of, numbered as numbered_of, key_marker as key_marker_of, key_of as key_of_slots, markers_at as markers_at_of, changes_markers, batch_markers as batch_markers_of};

use crate::change::{Batch, Change};
use crate::faults::is_marker;
use crate::prepared::Prepared;
use crate::slot::{Role, Slot, Stands};
use cql_statement::RelationOperator;
use cql_values::CqlType;
use cs_base::{Items, Text};
use key_restrictions::is_partition;
use schema_book::ColumnDef;
use std::alloc::{AllocError, Global};

/// A marker of a statement.
#[derive(Debug, Drop)]
pub struct Marker {
    /// Its own name, or that of its slot.
    pub name: Text,
    pub ty: CqlType,
}

pub type MarkerList = Items<Marker>;

/// Markers by their numbers, from 0 on.
pub type MarkerNumbers = Items<u16>;

/// The markers of a statement.
#[derive(Debug, Drop)]
pub struct Markers {
    /// The table of the statement, or of a batch's first, if there is one.
    pub table: Option<u16>,
    /// In the order of the text.
    pub list: MarkerList,
    /// Those that give the columns of the partition key, in the key's order. None where one of these columns has no marker.
    pub key: MarkerNumbers,
}

/// Adds the marker of a slot, if it has one.
fn add_marker(list: &mut MarkerList, alloc: Global, slot: &Slot) -> Result<(), AllocError>
    ensures { OnOk result (list.new ≡ list.old ++ marker_by slot.now) }
{
    if is_marker(&slot.stands) {
        list.push(Marker {
            name: slot.name.copy(alloc)?,
            ty: slot.ty,
        })?;
    }
    Ok(())
}

/// Adds the markers of slots.
fn push_markers(list: &mut MarkerList, alloc: Global, slots: &[Slot]) -> Result<(), AllocError>
    ensures { OnOk result (list.new ≡ list.old ++ markers_of slots.now) }
{
    for slot in slots {
        add_marker(list, alloc, slot)?;
    }
    Ok(())
}

fn push_changes(list: &mut MarkerList, alloc: Global, changes: &[Change]) -> Result<(), AllocError>
    ensures { OnOk result (list.new ≡ list.old ++ changes_markers changes.now) }
{
    for change in changes {
        push_markers(list, alloc, change.slots.as_slice())?;
    }
    Ok(())
}

/// The number of a marker behind a slot: a text has fewer than 65,536 tokens.
fn number_behind(number: u16, slot: &Slot) -> u16
    ensures { result ≡ number_behind_of number slot.now }
{
    if is_marker(&slot.stands) {
        number.wrapping_add(1)
    } else {
        number
    }
}

fn numbers_behind(slots: &[Slot]) -> u16
    ensures { result ≡ numbers_behind_of 0 slots.now }
{
    let mut number = 0;
    for slot in slots {
        number = number_behind(number, slot);
    }
    number
}

fn is_fixing(operator: RelationOperator) -> bool
    ensures { result ≡ is_fixing_of operator }
{
    match operator {
        RelationOperator::Equal => true,
        RelationOperator::Less
        | RelationOperator::LessOrEqual
        | RelationOperator::Greater
        | RelationOperator::GreaterOrEqual => false,
    }
}

/// Whether a value is what the column of the key at this place equals.
fn gives(place: usize, role: Role) -> bool
    ensures { result ≡ gives_of place role }
{
    match role {
        Role::Key(column, operator) => is_fixing(operator) && column == place,
        _ => false,
    }
}

fn numbered(number: u16, stands: &Stands) -> Option<u16>
    ensures { result ≡ numbered_of number stands.now }
{
    match stands {
        Stands::Marker => Some(number),
        Stands::Own(_) | Stands::Mismatched => None,
    }
}

/// The marker that gives the column at this place, where the first marker has this number.
fn key_marker(place: usize, first: u16, slots: &[Slot]) -> Option<u16>
    ensures { result ≡ key_marker_of place first slots.now }
{
    let mut number = first;
    for slot in slots {
        if gives(place, slot.role) {
            return numbered(number, &slot.stands);
        }
        number = number_behind(number, slot);
    }
    None
}

/// The markers of the columns of the partition key, if each has one.
fn key_of(
    alloc: Global,
    first: u16,
    slots: &[Slot],
    columns: &[ColumnDef],
) -> Result<MarkerNumbers, AllocError>
    ensures { IfOk result (λ numbers. numbers ≡ key_of_slots first slots.now columns.now) }
{
    let mut numbers = Items::new(alloc);
    for (place, column) in columns.iter().enumerate() {
        if is_partition(column.kind) {
            match key_marker(place, first, slots) {
                Some(number) => numbers.push(number)?,
                None => return Ok(Items::new(alloc)),
            }
        }
    }
    Ok(numbers)
}

fn markers_at(
    alloc: Global,
    table: u16,
    slots: &[Slot],
    columns: &[ColumnDef],
) -> Result<Markers, AllocError>
    ensures { IfOk result (λ markers. markers ≡ markers_at_of table slots.now columns.now) }
{
    let mut list = Items::new(alloc);
    push_markers(&mut list, alloc, slots)?;
    let key = key_of(alloc, 0, slots, columns)?;
    Ok(Markers {
        table: Some(table),
        list,
        key,
    })
}

fn batch_markers(alloc: Global, batch: &Batch) -> Result<Markers, AllocError>
    ensures { IfOk result (λ markers. markers ≡ batch_markers_of batch.now.slots batch.now.changes) }
{
    let front = batch.slots.as_slice();
    let mut list = Items::new(alloc);
    push_markers(&mut list, alloc, front)?;
    match batch.changes.as_slice() {
        [] => Ok(Markers {
            table: None,
            list,
            key: Items::new(alloc),
        }),
        [first, ..] => {
            push_changes(&mut list, alloc, batch.changes.as_slice())?;
            let slots = first.slots.as_slice();
            let columns = first.columns.as_slice();
            let key = key_of(alloc, numbers_behind(front), slots, columns)?;
            Ok(Markers {
                table: Some(first.table),
                list,
                key,
            })
        }
    }
}

impl Prepared {
    ghost use Rattle.prepared_statement.specs.Markers.{markers_in};

    /// What a request is to give for the markers of the statement.
    pub fn markers(&self, alloc: Global) -> Result<Markers, AllocError>
        ensures { IfOk result (λ markers. markers ≡ markers_in self.now) }
    {
        match self {
            Prepared::Create | Prepared::Use(_) => Ok(Markers {
                table: None,
                list: Items::new(alloc),
                key: Items::new(alloc),
            }),
            Prepared::Change(change) => markers_at(
                alloc,
                change.table,
                change.slots.as_slice(),
                change.columns.as_slice(),
            ),
            Prepared::Read(read) => markers_at(
                alloc,
                read.table,
                read.slots.as_slice(),
                read.columns.as_slice(),
            ),
            Prepared::Batch(statement) => batch_markers(alloc, statement),
        }
    }
}
