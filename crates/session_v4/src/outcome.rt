//! What a request with a statement comes to.

ghost use Rattle.std.specs.Prelude.{◌≡◌, Ok, Err, Some, None, IfOk};
ghost use Rattle.statement_binder.specs.Plans.{plan_of};
ghost use Rattle.statement_binder.specs.Supplies.{values_in};
ghost use Rattle.session_v4.specs.Outcomes.{admission as admission_on, batch_terms as batch_terms_of, is_serial_consistency as is_serial_consistency_of, level_in as level_in_consistency, level_of as level_of_terms, outcome_of, plan_fault as plan_fault_of, planned, read_outcome, shown_of as shown_of_read, write_outcome, ComesTo};
ghost use Rattle.session_v4.specs.Paging.{row_before as row_before_page, RowAnswers};

use crate::paging::{page_query, page_size};
use crate::reason::Reason;
use changes::{DraftMutation, Query};
use cs_base::{Bytes, Items, Level, Text};
use frame_bodies::{Batch, Consistency};
use page_state::{PagingError, read_paging};
use peer_messages::{Ask, Invalid};
use prepared_statement::Prepared;
use statement_binder::{BindError, Values, fill};
use statement_plan::{Columns, Fault, Feature, Plan};
use std::alloc::{AllocError, Global};

/// On which terms a request asks.
#[derive(Drop)]
pub(crate) struct Terms {
    pub consistency: Consistency,
    pub serial_consistency: Option<Consistency>,
    /// The client knows the columns.
    pub skip_metadata: bool,
    pub page_size: Option<i32>,
    pub paging_state: Option<Bytes>,
}

/// A batch has no pages.
pub(crate) fn batch_terms(batch: &Batch) -> Terms
    ensures { result ≡ batch_terms_of batch.now }
{
    Terms {
        consistency: batch.consistency,
        serial_consistency: batch.serial_consistency,
        skip_metadata: false,
        page_size: None,
        paging_state: None,
    }
}

/// Terms that were taken: the row behind which the page begins, and the level.
#[derive(Drop)]
pub(crate) struct Admitted {
    pub row: Option<Bytes>,
    pub level: Level,
}

/// What the rows of a read are to show.
#[derive(Drop)]
pub(crate) struct Shown {
    pub table: u16,
    /// The partition key.
    pub key: Bytes,
    pub columns: Columns,
    /// The client knows the columns.
    pub skip_metadata: bool,
    /// Rows may be left for a further page.
    pub is_paged: bool,
}

/// What the answer to a request is to show.
#[derive(Drop)]
pub(crate) struct Wanted {
    pub consistency: Consistency,
    /// Of a read.
    pub shown: Option<Shown>,
}

/// What a request with a statement comes to.
#[derive(Drop)]
pub(crate) enum Outcome {
    Refused(Reason),
    /// This keyspace is in use from now on.
    Use(Text),
    /// A node is asked.
    Submit(Ask, Wanted),
}

fn is_serial_consistency(consistency: Option<Consistency>) -> bool
    ensures { result ≡ is_serial_consistency_of consistency }
{
    match consistency {
        None => true,
        Some(Consistency::Level(Level::Serial)) => true,
        Some(Consistency::Level(Level::LocalSerial)) => true,
        Some(_) => false,
    }
}

fn level_in(consistency: Consistency) -> Option<Level>
    ensures { result ≡ level_in_consistency consistency }
{
    match consistency {
        Consistency::Any => None,
        Consistency::EachQuorum => None,
        Consistency::Level(level) => Some(level),
    }
}

fn level_of(terms: &Terms) -> Option<Level>
    ensures { result ≡ level_of_terms terms.now }
{
    if is_serial_consistency(terms.serial_consistency) {
        level_in(terms.consistency)
    } else {
        None
    }
}

/// The row behind which a page begins, if its state names one.
fn row_before(alloc: Global, state: &Option<Bytes>) -> Result<Option<Bytes>, PagingError>
    ensures { RowAnswers result (row_before_page state.now) }
{
    match state {
        None => Ok(None),
        Some(state) => Ok(Some(read_paging(alloc, state.as_slice())?)),
    }
}

/// The terms, if they are taken: the paging state is looked at first, and then the consistencies.
fn admission(alloc: Global, terms: &Terms) -> Result<Result<Admitted, Reason>, AllocError>
    ensures { IfOk result (λ taken. taken ≡ admission_on terms.now) }
{
    match row_before(alloc, &terms.paging_state) {
        Ok(row) => match level_of(terms) {
            Some(level) => Ok(Ok(Admitted { row, level })),
            None => Ok(Err(Reason::Invalid(Invalid::Level))),
        },
        Err(PagingError::BadPaging) => Ok(Err(Reason::BadPaging)),
        Err(PagingError::NoMemory) => Err(AllocError),
    }
}

fn copied_columns(alloc: Global, columns: &Columns) -> Result<Columns, AllocError>
    ensures { IfOk result (λ copy. copy ≡ columns.now) }
{
    match columns {
        Columns::Listed(numbers) => {
            let copy = Vec::from_slice(alloc, numbers.as_slice())?;
            Ok(Columns::Listed(Items::from_vec(copy)))
        }
        Columns::Count => Ok(Columns::Count),
    }
}

/// What the rows of a read are to show.
fn shown_of(
    alloc: Global,
    terms: &Terms,
    query: &Query,
    columns: &Columns,
) -> Result<Shown, AllocError>
    ensures { IfOk result (λ shown. shown ≡ shown_of_read terms.now query.now columns.now) }
{
    Ok(Shown {
        table: query.partition.table,
        key: query.partition.key.copy(alloc)?,
        columns: copied_columns(alloc, columns)?,
        skip_metadata: terms.skip_metadata,
        is_paged: page_size(columns, terms.page_size, query.limit).is_some(),
    })
}

fn written(terms: &Terms, level: Level, mutation: DraftMutation) -> Outcome
    ensures { result ≡ write_outcome terms.now level mutation }
{
    if level.is_serial() {
        return Outcome::Refused(Reason::Invalid(Invalid::SerialWrite));
    }
    let ask = Ask {
        plan: peer_messages::Plan::Write(mutation),
        level,
    };
    let wanted = Wanted {
        consistency: terms.consistency,
        shown: None,
    };
    Outcome::Submit(ask, wanted)
}

fn read(
    alloc: Global,
    terms: &Terms,
    admitted: Admitted,
    query: Query,
    columns: Columns,
) -> Result<Outcome, AllocError>
    ensures { IfOk result (λ o. o ≡ read_outcome terms.now admitted query columns) }
{
    let Admitted { row, level } = admitted;
    if level.is_serial() {
        return Ok(Outcome::Refused(Reason::Invalid(Invalid::Level)));
    }
    let shown = shown_of(alloc, terms, &query, &columns)?;
    let size = page_size(&columns, terms.page_size, query.limit);
    let page = page_query(alloc, &columns, row, size, query)?;
    let ask = Ask {
        plan: peer_messages::Plan::Read(page, columns),
        level,
    };
    let wanted = Wanted {
        consistency: terms.consistency,
        shown: Some(shown),
    };
    Ok(Outcome::Submit(ask, wanted))
}

/// There are no conditional operations yet.
fn plan_fault(plan: &Plan) -> Option<Fault>
    ensures { result ≡ plan_fault_of plan.now }
{
    match plan {
        Plan::Conditional(_) => Some(Fault::NotSupported(Feature::Condition)),
        Plan::Write(_) | Plan::Read(_, _) | Plan::Use(_) => None,
    }
}

/// A plan on terms that were taken.
fn on_terms(
    alloc: Global,
    terms: &Terms,
    admitted: Admitted,
    plan: Plan,
) -> Result<Outcome, AllocError>
    ensures { IfOk result (λ o. o ≡ planned terms.now (Ok admitted) plan) }
{
    match plan {
        Plan::Write(mutation) => Ok(written(terms, admitted.level, mutation)),
        Plan::Read(query, columns) => read(alloc, terms, admitted, query, columns),
        Plan::Conditional(_) => Ok(Outcome::Refused(Reason::Invalid(Invalid::Statement(
            Fault::NotSupported(Feature::Condition),
        )))),
        Plan::Use(name) => Ok(Outcome::Use(name)),
    }
}

/// The terms, if they and the plan are taken.
fn taken(alloc: Global, terms: &Terms, plan: &Plan) -> Result<Result<Admitted, Reason>, AllocError>
    ensures { IfOk result (λ taken. planned terms.now taken plan.now ≡ outcome_of terms.now (Ok plan.now)) }
{
    match plan_fault(plan) {
        Some(fault) => Ok(Err(Reason::Invalid(Invalid::Statement(fault)))),
        None => admission(alloc, terms),
    }
}

fn plan_outcome(alloc: Global, terms: &Terms, plan: Plan) -> Result<Outcome, AllocError>
    ensures { IfOk result (λ o. o ≡ outcome_of terms.now (Ok plan)) }
{
    match taken(alloc, terms, &plan) {
        Ok(Ok(admitted)) => on_terms(alloc, terms, admitted, plan),
        Ok(Err(reason)) => {
            drop(plan);
            Ok(Outcome::Refused(reason))
        }
        Err(error) => {
            drop(plan);
            Err(error)
        }
    }
}

/// What a prepared statement comes to, with these values and this timestamp of the protocol.
pub(crate) fn filled_outcome(
    alloc: Global,
    terms: &Terms,
    prepared: &Prepared,
    values: Values,
    timestamp: Option<i64>,
) -> Result<Outcome, AllocError>
    ensures { IfOk result (ComesTo terms.now (plan_of prepared.now (values_in values.entry) timestamp)) }
{
    match fill(alloc, prepared, values, timestamp) {
        Ok(plan) => plan_outcome(alloc, terms, plan),
        Err(BindError::Refused(fault)) => {
            Ok(Outcome::Refused(Reason::Invalid(Invalid::Statement(fault))))
        }
        Err(BindError::NoMemory) => Err(AllocError),
    }
}
