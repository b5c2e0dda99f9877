//! The entries of a batch.

ghost use Rattle.std.specs.Prelude.{◌≡◌, ◌≢◌, map, IfOk};
ghost use Rattle.cql_parser.specs.declared.error.ParseError.TheVariants as parsing;
ghost use Rattle.prepared_statement.specs.Prepared.{outline_of};
ghost use Rattle.session_v4.specs.Sessions.{change_in as change_in_prepared, entry_in, entry_misread, state_in, with_last as with_last_change, list_of, AreEntriesAs, IsEntryAs};

use crate::given::params_by_place;
use crate::kept::kept_at;
use crate::refusals::{syntax, unprepared};
use crate::session::Session;
use cql_parser::{ParseError, parse};
use cql_statement::Statement;
use cs_base::{Bytes, Items, Text};
use frame_bodies::{BatchEntry, BatchStatement, Response};
use prepared_statement::{Change, Changes, Prepared, Slot, Slots, Stands, outline};
use schema_book::ColumnDef;
use statement_values::{Param, Params};
use std::alloc::{AllocError, Global};

/// What an entry is: an INSERT, an UPDATE or a DELETE, another statement, or none.
#[derive(Drop)]
pub(crate) enum Entry {
    Refused(Response),
    Found(Option<Change>),
}

/// What all entries are.
#[derive(Drop)]
pub(crate) enum Entries {
    Refused(Response),
    Found(Option<Changes>),
}

fn change_in(prepared: Prepared) -> Option<Change>
    ensures { result ≡ change_in_prepared prepared }
{
    match prepared {
        Prepared::Change(change) => Some(change),
        Prepared::Create | Prepared::Use(_) | Prepared::Read(_) | Prepared::Batch(_) => None,
    }
}

fn copied_param(alloc: Global, param: &Param) -> Result<Param, AllocError>
    ensures { IfOk result (λ copy. copy ≡ param.now) }
{
    match param {
        Param::Null => Ok(Param::Null),
        Param::NotSet => Ok(Param::NotSet),
        Param::Given(bytes) => Ok(Param::Given(bytes.copy(alloc)?)),
    }
}

fn copied_stands(alloc: Global, stands: &Stands) -> Result<Stands, AllocError>
    ensures { IfOk result (λ copy. copy ≡ stands.now) }
{
    match stands {
        Stands::Own(param) => Ok(Stands::Own(copied_param(alloc, param)?)),
        Stands::Mismatched => Ok(Stands::Mismatched),
        Stands::Marker => Ok(Stands::Marker),
    }
}

fn copied_slot(alloc: Global, slot: &Slot) -> Result<Slot, AllocError>
    ensures { IfOk result (λ copy. copy ≡ slot.now) }
{
    Ok(Slot {
        name: slot.name.copy(alloc)?,
        ty: slot.ty,
        role: slot.role,
        stands: copied_stands(alloc, &slot.stands)?,
    })
}

fn copied_slots(alloc: Global, slots: &[Slot]) -> Result<Slots, AllocError>
    ensures { IfOk result (λ copies. copies ≡ slots.now) }
{
    let mut copies = Items::new(alloc);
    for slot in slots {
        copies.push(copied_slot(alloc, slot)?)?;
    }
    Ok(copies)
}

fn copied_column(alloc: Global, column: &ColumnDef) -> Result<ColumnDef, AllocError>
    ensures { IfOk result (λ copy. copy ≡ column.now) }
{
    Ok(ColumnDef {
        name: column.name.copy(alloc)?,
        ty: column.ty,
        kind: column.kind,
        is_descending: column.is_descending,
    })
}

fn copied_columns(alloc: Global, columns: &[ColumnDef]) -> Result<Items<ColumnDef>, AllocError>
    ensures { IfOk result (λ copies. copies ≡ columns.now) }
{
    let mut copies = Items::new(alloc);
    for column in columns {
        copies.push(copied_column(alloc, column)?)?;
    }
    Ok(copies)
}

/// An equal change.
fn copied_change(alloc: Global, change: &Change) -> Result<Change, AllocError>
    ensures { IfOk result (λ copy. copy ≡ change.now) }
{
    Ok(Change {
        fault: change.fault,
        table: change.table,
        columns: copied_columns(alloc, change.columns.as_slice())?,
        slots: copied_slots(alloc, change.slots.as_slice())?,
        action: change.action,
        guard: change.guard,
        shown: Items::from_vec(Vec::from_slice(alloc, change.shown.as_slice())?),
    })
}

fn copied_change_in(alloc: Global, prepared: &Prepared) -> Result<Option<Change>, AllocError>
    ensures { IfOk result (λ change. change ≡ change_in_prepared prepared.now) }
{
    match prepared {
        Prepared::Change(change) => Ok(Some(copied_change(alloc, change)?)),
        Prepared::Create | Prepared::Use(_) | Prepared::Read(_) | Prepared::Batch(_) => Ok(None),
    }
}

/// The entry that is this statement.
fn stated(session: &Session, statement: &Statement) -> Result<Entry, AllocError>
    ensures { IfOk result (λ entry. entry ≡ entry_in (outline_of (state_in session.now).book (state_in session.now).used statement.now)) }
{
    let prepared = outline(session.alloc, session.schema, session.used(), statement)?;
    Ok(Entry::Found(change_in(prepared)))
}

/// The entry of a text that is no statement.
fn misread(session: &Session, text: &str, error: ParseError) -> Result<Entry, AllocError>
    ensures response { IfOk result (λ entry. entry ≡ entry_misread text.now error) }
    ensures cause { IfOk result (λ entry. error ≢ parsing.NoMemory) }
{
    let response = syntax(session.alloc, text, error)?;
    Ok(Entry::Refused(response))
}

/// The entry of a text.
fn read_entry(session: &Session, text: &Text) -> Result<Entry, AllocError>
    ensures { IfOk result (IsEntryAs (state_in session.now) (BatchStatement.Query text.now)) }
{
    let read = parse(session.alloc, text.as_str());
    match &read {
        Ok(statement) => {
            let entry = stated(session, statement);
            drop(read);
            entry
        }
        Err(error) => {
            let error = *error;
            drop(read);
            misread(session, text.as_str(), error)
        }
    }
}

/// The entry of a prepared statement.
fn kept_entry(session: &Session, id: &Bytes) -> Result<Entry, AllocError>
    ensures { IfOk result (IsEntryAs (state_in session.now) (BatchStatement.Prepared id.now)) }
{
    match kept_at(session.kept.as_slice(), id.as_slice()) {
        Some(kept) => Ok(Entry::Found(copied_change_in(session.alloc, &kept.prepared)?)),
        None => Ok(Entry::Refused(unprepared(session.alloc, id)?)),
    }
}

fn entry_of(session: &Session, statement: &BatchStatement) -> Result<Entry, AllocError>
    ensures { IfOk result (IsEntryAs (state_in session.now) statement.now) }
{
    match statement {
        BatchStatement::Query(text) => read_entry(session, text),
        BatchStatement::Prepared(id) => kept_entry(session, id),
    }
}

/// A change behind the others.
fn with_last(
    changes: Option<Changes>,
    change: Option<Change>,
) -> Result<Option<Changes>, AllocError>
    ensures { IfOk result (λ all. all ≡ with_last_change changes change) }
{
    let Some(changes) = changes else {
        return Ok(None);
    };
    let Some(change) = change else {
        return Ok(None);
    };
    let mut changes = changes;
    changes.push(change)?;
    Ok(Some(changes))
}

/// The statements of all entries, up to the first that has none.
pub(crate) fn entries_of(session: &Session, entries: &[BatchEntry]) -> Result<Entries, AllocError>
    ensures { IfOk result (AreEntriesAs (state_in session.now) entries.now) }
{
    let mut changes = Some(Items::new(session.alloc));
    for entry in entries {
        match entry_of(session, &entry.statement)? {
            Entry::Refused(response) => return Ok(Entries::Refused(response)),
            Entry::Found(change) => changes = with_last(changes, change)?,
        }
    }
    Ok(Entries::Found(changes))
}

/// The values of the entries, a list for each.
pub(crate) fn lists_of(alloc: Global, entries: Items<BatchEntry>) -> Result<Vec<Params>, AllocError>
    ensures { IfOk result (λ lists. lists.items ≡ map list_of entries) }
{
    let mut lists = Vec::with_capacity(alloc, entries.as_slice().len())?;
    for entry in entries.into_vec() {
        let BatchEntry {
            statement: _,
            values,
        } = entry;
        lists.push(Params::ByPlace(params_by_place(alloc, values)?))?;
    }
    Ok(lists)
}
