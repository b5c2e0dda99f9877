//! What a statement asks for.

ghost use Rattle.std.specs.Prelude.{◌≡◌, Ok, None, IfOk, option_copied};
ghost use Rattle.prepared_statement.specs.Prepared.{outline_of};
ghost use Rattle.prepared_statement.specs.declared.prepared.Prepared.TheVariants as prepareds;
ghost use Rattle.statement_binder.specs.Answers.{Gives};
ghost use Rattle.statement_binder.specs.Meanings.{Answers, IsPreparedAs, meaning_of};
ghost use Rattle.statement_binder.specs.Plans.{idle_fault as idle_fault_of, use_fault as use_fault_of, use_plan, refused_before, plan_of};
ghost use Rattle.statement_binder.specs.Supplies.{left_for, values_in};
ghost use Rattle.statement_binder.specs.declared.error.BindError.TheVariants as errors;
ghost use Rattle.statement_plan.specs.declared.plan.Plan.TheVariants as plans;

use crate::error::BindError;
use crate::reads::read;
use crate::supply::{Supply, Values};
use crate::writes::{batch, change};
use changes::DraftMutation;
use cql_statement::Statement;
use mutation_drafts::{is_long, kept};
use prepared_statement::{Prepared, UseKeyspace, lower, outline};
use schema_book::Schema;
use statement_plan::{ConditionalOperation, Fault, Feature, Plan};
use statement_values::Params;
use std::alloc::{AllocError, Global};

fn settle_write(mutation: DraftMutation) -> Result<Plan, BindError>
    ensures { Answers result (Ok (plans.Write mutation)) }
{
    let DraftMutation { partition, changes } = mutation;
    let changes = kept(changes);
    let mutation = DraftMutation { partition, changes };
    if is_long(&mutation) {
        return Err(BindError::Refused(Fault::MutationTooLong));
    }
    Ok(Plan::Write(mutation))
}

fn settle_operation(operation: ConditionalOperation) -> Result<Plan, BindError>
    ensures { Answers result (Ok (plans.Conditional operation)) }
{
    let ConditionalOperation {
        partition,
        row,
        test,
        changes,
        shown,
    } = operation;
    let changes = kept(changes);
    let written = DraftMutation { partition, changes };
    if is_long(&written) {
        return Err(BindError::Refused(Fault::MutationTooLong));
    }
    Ok(Plan::Conditional(ConditionalOperation {
        partition: written.partition,
        row,
        test,
        changes: written.changes,
        shown,
    }))
}

/// A plan with one change of each place.
fn settle(plan: Plan) -> Result<Plan, BindError>
    ensures { Answers result (Ok plan) }
{
    match plan {
        Plan::Write(mutation) => settle_write(mutation),
        Plan::Conditional(operation) => settle_operation(operation),
        Plan::Read(query, columns) => Ok(Plan::Read(query, columns)),
        Plan::Use(keyspace) => Ok(Plan::Use(keyspace)),
    }
}

/// A refusal of a statement that has no markers.
fn refused(excess: Option<Fault>, fault: Fault) -> BindError
    ensures { result ≡ errors.Refused (refused_before excess fault) }
{
    match excess {
        Some(excess) => BindError::Refused(excess.lower(fault)),
        None => BindError::Refused(fault),
    }
}

/// What is wrong with the values for a statement that has no markers.
fn idle_fault(alloc: Global, supply: Supply) -> Result<Option<Fault>, AllocError>
    ensures { IfOk result (λ fault. fault ≡ idle_fault_of (left_for supply.entry)) }
{
    let mut supply = supply;
    let filled = supply.fill(alloc, &[])?;
    let fault = lower(filled.fault, supply.excess());
    drop(filled);
    Ok(fault)
}

fn use_fault(named: &UseKeyspace) -> Option<Fault>
    ensures { result ≡ use_fault_of named.now }
{
    if named.is_there {
        None
    } else {
        Some(Fault::UnknownKeyspace)
    }
}

fn use_of(alloc: Global, named: &UseKeyspace, supply: Supply) -> Result<Plan, BindError>
    ensures { Gives result (use_plan named.now (left_for supply.entry)) }
{
    let fault = idle_fault(alloc, supply)?;
    match lower(use_fault(named), fault) {
        Some(fault) => Err(BindError::Refused(fault)),
        None => Ok(Plan::Use(named.name.copy(alloc)?)),
    }
}

fn create(alloc: Global, supply: Supply) -> Result<Plan, BindError>
    ensures { Gives result (plan_of prepareds.Create (left_for supply.entry) None) }
{
    let fault = idle_fault(alloc, supply)?;
    Err(refused(fault, Fault::NotSupported(Feature::Create)))
}

/// The plan of a statement, with all changes that it asks for.
fn meaning(
    alloc: Global,
    prepared: &Prepared,
    supply: Supply,
    timestamp: Option<i64>,
) -> Result<Plan, BindError>
    ensures { Gives result (plan_of prepared.now (left_for supply.entry) timestamp) }
{
    match prepared {
        Prepared::Create => create(alloc, supply),
        Prepared::Use(named) => use_of(alloc, named, supply),
        Prepared::Change(statement) => change(alloc, timestamp, statement, supply),
        Prepared::Read(statement) => read(alloc, statement, supply),
        Prepared::Batch(statement) => batch(alloc, timestamp, statement, supply),
    }
}

/// A statement with all done that needs no value, in a schema and with a keyspace in use, or the lowest refusal of it that
/// holds whatever its values are.
pub fn prepare(
    alloc: Global,
    schema: &Schema,
    keyspace: Option<&str>,
    statement: &Statement,
) -> Result<Prepared, BindError>
    ensures { IsPreparedAs result (outline_of schema.now (option_copied keyspace.entry) statement.now) }
{
    let prepared = outline(alloc, schema, keyspace, statement)?;
    match prepared.refusal() {
        Some(fault) => Err(BindError::Refused(fault)),
        None => Ok(prepared),
    }
}

/// What a prepared statement asks for with these values, or why it asks for nothing: of several refusals the one that stands
/// first in [`Fault`].
///
/// `timestamp` is the one that the protocol gives, in microseconds. A statement's own USING TIMESTAMP counts before that
/// of its batch, and that before the protocol's; a conditional statement has none (CQL reference, "USING TIMESTAMP").
/// Of two changes of one place the one that beats the other stays.
pub fn fill(
    alloc: Global,
    prepared: &Prepared,
    values: Values,
    timestamp: Option<i64>,
) -> Result<Plan, BindError>
    ensures { Answers result (plan_of prepared.now (values_in values.entry) timestamp) }
{
    let plan = meaning(alloc, prepared, Supply::new(values), timestamp)?;
    settle(plan)
}

/// What a statement asks for, in a schema and with a keyspace in use, or why it asks for nothing: [`prepare`] and [`fill`] in
/// one, of whose refusals the lowest is told.
pub fn bind(
    alloc: Global,
    schema: &Schema,
    keyspace: Option<&str>,
    statement: &Statement,
    values: &Params,
    timestamp: Option<i64>,
) -> Result<Plan, BindError>
    ensures { Answers result (meaning_of schema.now (option_copied keyspace.entry) values.now timestamp statement.now) }
{
    let prepared = outline(alloc, schema, keyspace, statement)?;
    let plan = fill(alloc, &prepared, Values::Whole(values), timestamp);
    drop(prepared);
    plan
}
