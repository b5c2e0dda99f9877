//! What the lines of a script ask of a cluster.

ghost use Rattle.std.specs.Prelude.{◌≡◌, ◌≤◌, map, IfOk, option_copied};
ghost use Rattle.fault_script.specs.Script.{IsSaid};
ghost use Rattle.script_program.specs.Requests.{table_setting, setting_of as setting_of_script, asked_of, IsAskedBy, AsksAt, AsksBy, IsEventOf};
ghost use Rattle.script_program.specs.Lines.{ArePrepared, HasKv, IsEventBy};

use crate::statements::{LineStatements, get_values, put_values, text_is_read, timestamp_is_read};
use cluster_model::ClusterEvent;
use cql_statement::Statement;
use cs_base::{Items, Level, Micros, NodeId};
use fault_script::{CqlRequest, GetRequest, PutRequest, Script, ScriptEvent};
use peer_messages::{Ask, Plan, Setting, TableSetting, TableSettings};
use schema_book::{Schema, Table};
use statement_binder::{BindError, Values, bind, fill};
use statement_plan::{Fault, Feature};
use statement_values::Params;
use std::alloc::{AllocError, Global};

/// A second, in microseconds.
const SECOND: u64 = 1_000_000;

fn table_settings(alloc: Global, tables: &[Table]) -> Result<TableSettings, AllocError>
    ensures { IfOk result (λ settings. settings ≡ map table_setting tables.now) }
{
    let mut settings = Items::new(alloc);
    for table in tables {
        settings.push(TableSetting {
            factor: table.factor,
        })?;
    }
    Ok(settings)
}

/// The cluster that a script runs on.
pub fn setting_of(alloc: Global, script: &Script) -> Result<Setting, AllocError>
    requires { script.now.expiry ≤ 100000 }
    ensures { IfOk result (λ setting. setting ≡ setting_of_script script.now) }
{
    Ok(Setting {
        ring: script.ring,
        tables: table_settings(alloc, script.schema.tables())?,
        expiry: Micros::new(script.expiry * SECOND),
    })
}

/// What a node is asked for a plan.
fn asked(plan: statement_plan::Plan) -> Plan
    ensures { result ≡ asked_of plan }
{
    match plan {
        statement_plan::Plan::Write(mutation) => Plan::Write(mutation),
        statement_plan::Plan::Read(query, columns) => Plan::Read(query, columns),
        statement_plan::Plan::Conditional(_) => {
            Plan::Invalid(Fault::NotSupported(Feature::Condition))
        }
        statement_plan::Plan::Use(keyspace) => Plan::Use(keyspace),
    }
}

/// What a node is asked for a statement that was bound.
fn asked_by(bound: Result<statement_plan::Plan, BindError>) -> Result<Plan, AllocError>
    ensures { IfOk result (IsAskedBy bound) }
{
    match bound {
        Ok(plan) => Ok(asked(plan)),
        Err(BindError::Refused(fault)) => Ok(Plan::Invalid(fault)),
        Err(BindError::NoMemory) => Err(AllocError),
    }
}

/// What is asked of a node, at a level.
fn ask_by(
    bound: Result<statement_plan::Plan, BindError>,
    node: NodeId,
    level: Level,
) -> Result<ClusterEvent, AllocError>
    ensures { IfOk result (AsksBy bound node level) }
{
    let plan = asked_by(bound)?;
    Ok(ClusterEvent::Ask(node, Ask { plan, level }))
}

/// What a node is asked for a statement, at a level.
fn ask_for(
    alloc: Global,
    schema: &Schema,
    keyspace: Option<&str>,
    node: NodeId,
    level: Level,
    statement: &Statement,
) -> Result<ClusterEvent, AllocError>
    ensures { IfOk result (AsksAt schema.now (option_copied keyspace.entry) node level statement.now) }
{
    let no_values = Params::ByPlace(Items::new(alloc));
    let bound = bind(alloc, schema, keyspace, statement, &no_values, None);
    ask_by(bound, node, level)
}

fn cql_event(
    alloc: Global,
    schema: &Schema,
    keyspace: Option<&str>,
    request: &CqlRequest,
) -> Result<ClusterEvent, AllocError>
    requires { IsSaid (ScriptEvent.Cql request.now) }
    ensures { IfOk result (IsEventOf schema.now (option_copied keyspace.entry) (ScriptEvent.Cql request.now)) }
{
    ask_for(
        alloc,
        schema,
        keyspace,
        request.node,
        request.level,
        &request.statement,
    )
}

fn put_event(
    alloc: Global,
    lines: &LineStatements,
    put: &PutRequest,
) -> Result<ClusterEvent, AllocError>
    ensures { IfOk result (IsEventBy lines.now (ScriptEvent.Put put.now)) }
{
    timestamp_is_read(put);
    text_is_read(put.value.as_str());
    text_is_read(put.key.as_str());
    text_is_read(put.row.as_str());
    let values = put_values(alloc, put)?;
    let bound = fill(alloc, &lines.put, Values::Whole(&values), None);
    ask_by(bound, put.node, put.level)
}

fn get_event(
    alloc: Global,
    lines: &LineStatements,
    get: &GetRequest,
) -> Result<ClusterEvent, AllocError>
    ensures { IfOk result (IsEventBy lines.now (ScriptEvent.Get get.now)) }
{
    text_is_read(get.key.as_str());
    let values = get_values(alloc, get)?;
    let bound = fill(alloc, &lines.get, Values::Whole(&values), None);
    ask_by(bound, get.node, get.level)
}

/// What a line does to the cluster, in a schema and with a keyspace in use. `lines` are the statements of `put` and `get`,
/// prepared in this schema.
pub fn event_of(
    alloc: Global,
    schema: &Schema,
    lines: &LineStatements,
    keyspace: Option<&str>,
    line: &ScriptEvent,
) -> Result<ClusterEvent, AllocError>
    requires said { IsSaid line.now }
    requires kv { HasKv schema.now }
    requires prepared { ArePrepared schema.now lines.now }
    ensures { IfOk result (IsEventOf schema.now (option_copied keyspace.entry) line.now) }
{
    match line {
        ScriptEvent::Put(put) => put_event(alloc, lines, put),
        ScriptEvent::Get(get) => get_event(alloc, lines, get),
        ScriptEvent::Cql(request) => cql_event(alloc, schema, keyspace, request),
        ScriptEvent::Deliver(place) => Ok(ClusterEvent::Deliver(
            place.from,
            place.upto,
            place.number,
        )),
        ScriptEvent::Drop(place) => Ok(ClusterEvent::Lose(place.from, place.upto, place.number)),
        ScriptEvent::Settle(count) => Ok(ClusterEvent::Settle(*count)),
        ScriptEvent::Clock(node, micros) => Ok(ClusterEvent::Clock(*node, *micros)),
        ScriptEvent::Mark(node, peer, up) => Ok(ClusterEvent::Alive(*node, *peer, *up)),
        ScriptEvent::Crash(node, outcome) => Ok(ClusterEvent::Crash(*node, *outcome)),
        ScriptEvent::StopAt(node, call, outcome) => {
            Ok(ClusterEvent::StopAt(*node, *call, *outcome))
        }
        ScriptEvent::FailAt(node, call) => Ok(ClusterEvent::FailAt(*node, *call)),
        ScriptEvent::Restart(node) => Ok(ClusterEvent::Restart(*node)),
        ScriptEvent::Flush(node) => Ok(ClusterEvent::Flush(*node)),
        ScriptEvent::Merge(node) => Ok(ClusterEvent::Merge(*node)),
    }
}
