//! Statements with all done that needs no value.

ghost use Rattle.std.specs.Prelude.{◌≡◌, [], ◌∷◌, ◌++◌, IfOk, OnOk, None, fold, map, option_copied};
ghost use Rattle.prepared_statement.specs.Changing.{modification_in};
ghost use Rattle.prepared_statement.specs.Prepared.{change_with, change_in, change_of, read_with, read_in, batch_of, use_in, outline_of, change_refusal as change_refusal_of, condition_fault as condition_fault_of, lower_change, empty_fault as empty_fault_of, batch_refusal as batch_refusal_of};
ghost use Rattle.prepared_statement.specs.Slots.{slots_of as slots_of_modification, select_slots};
ghost use Rattle.prepared_statement.specs.Structure.{keys_of as keys_of_slots, shown_places as shown_places_of, shown_of as shown_of_selection};

use crate::change::{Batch, Change, Changes, Guard, Read};
use crate::changing::Changing;
use crate::columns::{all_numbers, copied_columns};
use crate::faults::{lower, own_fault};
use crate::names::{numbers_of, places_of, table_named};
use crate::orders::reverses;
use crate::slots::{push_stamp, slots_of, slots_of_select};
use crate::structure::{
    action_of, change_fault, guard_of, is_conditional, keys_of, select_fault, shown_by,
};
use cql_statement::{Modification, Select, Selection, Statement, Use};
use cs_base::{Items, Text};
use schema_book::{ColumnDefs, Schema, Table};
use statement_plan::{Columns, Fault, Feature};
use std::alloc::{AllocError, Global};

/// USE.
#[derive(Debug, Drop)]
pub struct UseKeyspace {
    pub name: Text,
    pub is_there: bool,
}

/// A statement with its tables and columns looked up and its constants read.
#[derive(Debug, Drop)]
pub enum Prepared {
    /// CREATE, which a schema that stands refuses.
    Create,
    Use(UseKeyspace),
    Change(Change),
    Read(Read),
    Batch(Batch),
}

fn change_at(
    alloc: Global,
    number: u16,
    missing: Option<Fault>,
    columns: &ColumnDefs,
    changing: Changing,
) -> Result<Change, AllocError>
    ensures { IfOk result (λ change. change ≡ change_with number missing columns.now (modification_in changing.entry) (slots_of_modification columns.now (modification_in changing.entry)) (keys_of_slots (slots_of_modification columns.now (modification_in changing.entry)))) }
{
    let slots = slots_of(alloc, columns, changing)?;
    let keys = keys_of(alloc, slots.as_slice())?;
    let keys = keys.as_slice();
    let defs = columns.as_slice();
    let guard = guard_of(changing);
    let shown = shown_by(alloc, defs, slots.as_slice(), guard)?;
    Ok(Change {
        fault: lower(
            missing,
            change_fault(defs, changing, slots.as_slice(), keys),
        ),
        table: number,
        columns: copied_columns(alloc, defs)?,
        action: action_of(defs, keys, changing),
        guard,
        shown,
        slots,
    })
}

fn change_of_table(
    alloc: Global,
    table: Option<&Table>,
    changing: Changing,
) -> Result<Change, AllocError>
    ensures { IfOk result (λ change. change ≡ change_in (option_copied table.entry) (modification_in changing.entry)) }
{
    match table {
        Some(table) => change_at(alloc, table.number, None, &table.columns, changing),
        None => {
            let none = ColumnDefs::of(alloc, Items::new(alloc))?;
            change_at(alloc, 0, Some(Fault::UnknownTable), &none, changing)
        }
    }
}

fn change(
    alloc: Global,
    schema: &Schema,
    keyspace: Option<&str>,
    changing: Changing,
) -> Result<Change, AllocError>
    ensures { IfOk result (λ change. change ≡ change_of schema.now (option_copied keyspace.entry) (modification_in changing.entry)) }
{
    let table = table_named(schema, keyspace, changing.table());
    change_of_table(alloc, table, changing)
}

/// The places of the columns that a SELECT names to show.
fn shown_places(
    alloc: Global,
    columns: &ColumnDefs,
    selection: &Selection,
) -> Result<Items<usize>, AllocError>
    ensures { IfOk result (λ places. places ≡ shown_places_of columns.now selection.now) }
{
    match selection {
        Selection::All | Selection::Count => Ok(Items::new(alloc)),
        Selection::Columns(names) => places_of(alloc, columns, names.as_slice()),
    }
}

fn shown(
    alloc: Global,
    columns: &ColumnDefs,
    places: &[usize],
    selection: &Selection,
) -> Result<Columns, AllocError>
    ensures { IfOk result (λ shown. shown ≡ shown_of_selection columns.now places.now selection.now) }
{
    match selection {
        Selection::All => Ok(Columns::Listed(all_numbers(alloc, columns.as_slice())?)),
        Selection::Columns(_) => Ok(Columns::Listed(numbers_of(alloc, places)?)),
        Selection::Count => Ok(Columns::Count),
    }
}

fn read_at(
    alloc: Global,
    number: u16,
    missing: Option<Fault>,
    columns: &ColumnDefs,
    select: &Select,
) -> Result<Read, AllocError>
    ensures { IfOk result (λ read. read ≡ read_with number missing columns.now select.now (select_slots columns.now select.now) (keys_of_slots (select_slots columns.now select.now)) (shown_places_of columns.now select.now.selection)) }
{
    let slots = slots_of_select(alloc, columns, select)?;
    let keys = keys_of(alloc, slots.as_slice())?;
    let places = shown_places(alloc, columns, &select.selection)?;
    let places = places.as_slice();
    let orders = select.orders.as_slice();
    let fault = select_fault(columns, slots.as_slice(), keys.as_slice(), places, orders);
    let shown = shown(alloc, columns, places, &select.selection)?;
    Ok(Read {
        fault: lower(missing, fault),
        table: number,
        columns: copied_columns(alloc, columns.as_slice())?,
        reversed: reverses(columns.as_slice(), orders),
        shown,
        slots,
    })
}

fn read_of_table(alloc: Global, table: Option<&Table>, select: &Select) -> Result<Read, AllocError>
    ensures { IfOk result (λ read. read ≡ read_in (option_copied table.entry) select.now) }
{
    match table {
        Some(table) => read_at(alloc, table.number, None, &table.columns, select),
        None => {
            let none = ColumnDefs::of(alloc, Items::new(alloc))?;
            read_at(alloc, 0, Some(Fault::UnknownTable), &none, select)
        }
    }
}

fn add_change(
    changes: &mut Changes,
    alloc: Global,
    schema: &Schema,
    keyspace: Option<&str>,
    statement: &Modification,
) -> Result<(), AllocError>
    ensures { OnOk result (changes.new ≡ changes.old ++ change_of schema.now (option_copied keyspace.entry) statement.now ∷ []) }
{
    changes.push(change(alloc, schema, keyspace, Changing::of(statement))?)?;
    Ok(())
}

fn changes(
    alloc: Global,
    schema: &Schema,
    keyspace: Option<&str>,
    statements: &[Modification],
) -> Result<Changes, AllocError>
    ensures { IfOk result (λ changes. changes ≡ map (change_of schema.now (option_copied keyspace.entry)) statements.now) }
{
    let mut changes = Items::new(alloc);
    for statement in statements {
        add_change(&mut changes, alloc, schema, keyspace, statement)?;
    }
    Ok(changes)
}

fn batch(
    alloc: Global,
    schema: &Schema,
    keyspace: Option<&str>,
    batch: &cql_statement::Batch,
) -> Result<Batch, AllocError>
    ensures { IfOk result (λ x. x ≡ batch_of schema.now (option_copied keyspace.entry) batch.now) }
{
    let mut slots = Items::new(alloc);
    push_stamp(&mut slots, alloc, &batch.stamp)?;
    let changes = changes(alloc, schema, keyspace, batch.statements.as_slice())?;
    Ok(Batch { slots, changes })
}

fn use_of(alloc: Global, schema: &Schema, statement: &Use) -> Result<UseKeyspace, AllocError>
    ensures { IfOk result (λ named. named ≡ use_in schema.now statement.now.keyspace) }
{
    Ok(UseKeyspace {
        name: statement.keyspace.copy(alloc)?,
        is_there: schema.keyspace(statement.keyspace.as_str()).is_some(),
    })
}

/// A statement with its tables and columns looked up in a schema and with a keyspace in use, and its constants read. What is
/// refused of it whatever its values are is told by [`Prepared::refusal`].
pub fn outline(
    alloc: Global,
    schema: &Schema,
    keyspace: Option<&str>,
    statement: &Statement,
) -> Result<Prepared, AllocError>
    ensures { IfOk result (λ prepared. prepared ≡ outline_of schema.now (option_copied keyspace.entry) statement.now) }
{
    match statement {
        Statement::CreateKeyspace(_) | Statement::CreateTable(_) => Ok(Prepared::Create),
        Statement::Use(statement) => use_of(alloc, schema, statement).map(Prepared::Use),
        Statement::Insert(insert) => {
            change(alloc, schema, keyspace, Changing::Insert(insert)).map(Prepared::Change)
        }
        Statement::Update(update) => {
            change(alloc, schema, keyspace, Changing::Update(update)).map(Prepared::Change)
        }
        Statement::Delete(delete) => {
            change(alloc, schema, keyspace, Changing::Delete(delete)).map(Prepared::Change)
        }
        Statement::Select(select) => {
            let table = table_named(schema, keyspace, &select.table);
            read_of_table(alloc, table, select).map(Prepared::Read)
        }
        Statement::Batch(statement) => {
            batch(alloc, schema, keyspace, statement).map(Prepared::Batch)
        }
    }
}

fn change_refusal(change: &Change) -> Option<Fault>
    ensures { result ≡ change_refusal_of change.now }
{
    lower(change.fault, own_fault(change.slots.as_slice()))
}

/// A statement whose changes stand with others in a mutation wants no condition.
pub fn condition_fault(guard: Guard) -> Option<Fault>
    ensures { result ≡ condition_fault_of guard }
{
    if is_conditional(guard) {
        Some(Fault::NotSupported(Feature::Condition))
    } else {
        None
    }
}

fn changes_refusal(changes: &[Change]) -> Option<Fault>
    ensures { result ≡ fold lower_change None changes.now }
{
    let mut fault = None;
    for change in changes {
        let own = lower(condition_fault(change.guard), change_refusal(change));
        fault = lower(fault, own);
    }
    fault
}

/// A batch without statements.
pub fn empty_fault(changes: &[Change]) -> Option<Fault>
    ensures { result ≡ empty_fault_of changes.now }
{
    if changes.is_empty() {
        Some(Fault::NotSupported(Feature::Batch))
    } else {
        None
    }
}

fn batch_refusal(batch: &Batch) -> Option<Fault>
    ensures { result ≡ batch_refusal_of batch.now }
{
    let changes = batch.changes.as_slice();
    lower(
        own_fault(batch.slots.as_slice()),
        lower(changes_refusal(changes), empty_fault(changes)),
    )
}

impl Prepared {
    ghost use Rattle.prepared_statement.specs.Prepared.{refusal_of};

    /// The lowest refusal that holds whatever a request gives.
    pub fn refusal(&self) -> Option<Fault>
        ensures { result ≡ refusal_of self.now }
    {
        match self {
            Prepared::Create => Some(Fault::NotSupported(Feature::Create)),
            Prepared::Use(named) => {
                if named.is_there {
                    None
                } else {
                    Some(Fault::UnknownKeyspace)
                }
            }
            Prepared::Change(change) => change_refusal(change),
            Prepared::Read(read) => lower(read.fault, own_fault(read.slots.as_slice())),
            Prepared::Batch(batch) => batch_refusal(batch),
        }
    }
}
