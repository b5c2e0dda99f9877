//! The run of a script, in print.

ghost use Rattle.std.specs.Prelude.{◌≡◌, ◌≤◌, None, All, length, IfOk, OnOk, option_copied};
ghost use Rattle.fault_script.specs.Script.{IsSaid};
ghost use Rattle.peer_messages.specs.declared.setting.Setting.{Setting as setting_value};
ghost use Rattle.cluster_model.specs.Beginning.{AreFormatted};
ghost use Rattle.cluster_model.specs.State.{KeepsOn};
ghost use Rattle.script_program.specs.Lines.{ArePrepared, HasKv};
ghost use Rattle.script_program.specs.Runs.{IsFresh, IsRunInPrint, Plays};

use crate::keyspace::keyspace_after;
use crate::requests::{event_of, setting_of};
use crate::statements::LineStatements;
use chronicle_print::print_chronicle;
use cluster_model::{Cluster, ClusterError};
use cs_base::Text;
use cs_store::MemStore;
use fault_script::{Script, ScriptEvent};
use peer_messages::Setting;
use replica::MemReplica;
use schema_book::Schema;
use std::alloc::{AllocError, Global};
use std::mem;

fn name_of(keyspace: &Option<Text>) -> Option<&str>
    ensures { option_copied result ≡ keyspace.now }
{
    match keyspace {
        Some(name) => Some(name.as_str()),
        None => None,
    }
}

/// A formatted store for each of so many nodes.
fn formatted_stores(alloc: Global, nodes: u8) -> Result<Vec<MemStore>, AllocError>
    ensures count { IfOk result (λ stores. length stores.items ≡ nodes) }
    ensures formatted { IfOk result (λ stores. AreFormatted stores.items) }
{
    let mut stores = Vec::new(alloc);
    for _ in 0..nodes {
        stores.push(MemStore::formatted(alloc)?)?;
    }
    Ok(stores)
}

/// The cluster before the first event.
fn begin<R: MemReplica>(alloc: Global, setting: Setting) -> Result<Cluster<R>, AllocError>
    ensures { IfOk result (IsFresh setting) }
{
    let stores = formatted_stores(alloc, setting.ring.nodes())?;
    match Cluster::new(alloc, setting, stores) {
        Ok(cluster) => Ok(cluster),
        Err(ClusterError::NoMemory) => Err(AllocError),
        // a formatted store is not damaged
        Err(ClusterError::Damaged(..)) => unreachable!(),
    }
}

/// The cluster takes the events one after another.
fn play<R: MemReplica>(
    alloc: Global,
    schema: &Schema,
    lines: &LineStatements,
    cluster: &mut Cluster<R>,
    events: &[ScriptEvent],
) -> Result<(), AllocError>
    requires said { All IsSaid events.now }
    requires kv { HasKv schema.now }
    requires prepared { ArePrepared schema.now lines.now }
    ensures plays { OnOk result (Plays schema.now None cluster.old events.now cluster.new) }
    ensures keeps { OnOk result (KeepsOn cluster.old cluster.new) }
{
    let mut keyspace = None;
    for event in events {
        let event = event_of(alloc, schema, lines, name_of(&keyspace), event)?;
        cluster.step(alloc, event)?;
        keyspace = keyspace_after(alloc, keyspace, cluster.chronicle())?;
    }
    Ok(())
}

/// The printed chronicle of the run of a script.
pub fn run<R: MemReplica>(alloc: Global, script: &Script) -> Result<Vec<u8>, AllocError>
    requires said { All IsSaid script.now.events }
    requires kv { HasKv script.now.schema }
    requires expiry { script.now.expiry ≤ 100000 }
    ensures { IfOk result (λ text. IsRunInPrint script.now text.items) }
{
    let mut cluster = begin::<R>(alloc, setting_of(alloc, script)?)?;
    let lines = LineStatements::prepare(alloc, &script.schema)?;
    play(
        alloc,
        &script.schema,
        &lines,
        &mut cluster,
        script.events.as_slice(),
    )?;
    let text = print_chronicle(alloc, script.schema.tables(), cluster.chronicle())?;
    // The process ends behind its run: to let go of each message and entry alone would take longer than to print them.
    mem::forget(cluster);
    Ok(text)
}
