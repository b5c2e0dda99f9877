//! A node on a store in memory, and connections to it.

ghost use Rattle.std.specs.Prelude.{◌≡◌, false, length, vec_len, IfOk};

use cluster_model::{Cluster, ClusterError, ClusterEvent};
use cql_parser::parse;
use cql_statement::Statements;
use cs_base::{Items, Micros, NodeId};
use cs_io::{Gate, MemLink, StopSign};
use cs_store::MemStore;
use list_replica::MemListReplica;
use peer_messages::{Setting, TableSetting, TableSettings};
use replica::MemReplica;
use schema_book::{Schema, Table};
use serve_loop::{Served, serve_connection};
use std::alloc::{AllocError, Global};
use std::marker::Model;
use std::sync::Wait;
use std::test::Fail;
use step_desk::StepDesk;
use token_ring::Ring;

const TABLES: &str =
    "CREATE KEYSPACE ks WITH replication = {'class': 'SimpleStrategy', 'replication_factor': 1}
CREATE KEYSPACE other WITH replication = {'class': 'SimpleStrategy', 'replication_factor': 1}
CREATE TABLE ks.t (k int PRIMARY KEY, v text)
CREATE TABLE ks.u (k int, c int, v text, PRIMARY KEY (k, c))
CREATE TABLE ks.p (a int, b text, c int, PRIMARY KEY ((a, b), c)) WITH CLUSTERING ORDER BY (c DESC)
CREATE TABLE ks.w (k int PRIMARY KEY, a ascii, b blob, c boolean, d timestamp, e uuid, f timeuuid, g smallint, h tinyint, i bigint)
CREATE TABLE other.t (k int PRIMARY KEY, n bigint)";

pub(crate) fn schema(alloc: Global) -> Result<Schema, Fail> {
    let mut statements: Statements = Items::new(alloc);
    for line in TABLES.lines() {
        statements.push(parse(alloc, line)?)?;
    }
    Ok(Schema::from_statements(alloc, &statements, 1, 1, 864_000)?)
}

fn table_settings(alloc: Global, tables: &[Table]) -> Result<TableSettings, AllocError> {
    let mut settings = Items::new(alloc);
    for table in tables {
        settings.push(TableSetting {
            factor: table.factor,
        })?;
    }
    Ok(settings)
}

fn setting(alloc: Global, tokens: &[i64], tables: &[Table]) -> Result<Setting, Fail>
    ensures { IfOk result (λ setting. setting.ring ≡ tokens.now) }
{
    let tables = table_settings(alloc, tables)?;
    Ok(Setting {
        ring: Ring::new(tokens)?,
        tables,
        expiry: Micros::new(10_800_000_000),
    })
}

/// A node over a replica, and the desk at which its clients' requests are submitted, of which nothing is known but that it can be
/// asked.
#[derive(Drop)]
struct Site<R: MemReplica> {
    schema: Schema,
    desk: StepDesk<R>,
}

impl<R: MemReplica> Model for Site<R> {
    ghost Value = { Unit {0} };

    ghost view = { λ _. tt };
}

fn begun<R: MemReplica>(
    alloc: Global,
    setting: Setting,
    stores: Vec<MemStore>,
) -> Result<Cluster<R>, ClusterError>
    requires { vec_len stores ≡ length setting.ring }
{
    Cluster::new(alloc, setting, stores)
}

impl<R: MemReplica> Site<R> {
    fn new(alloc: Global, schema: Schema) -> Result<Site<R>, Fail> {
        let setting = setting(alloc, &[0], schema.tables())?;
        let stores = vec![in alloc; MemStore::formatted(alloc)?]?;
        let cluster = begun::<R>(alloc, setting, stores)?;
        Ok(Site {
            schema,
            desk: StepDesk::new(alloc, cluster),
        })
    }

    fn behind(self, alloc: Global, event: ClusterEvent) -> Result<Site<R>, Fail> {
        let Site { schema, desk } = self;
        let mut cluster = desk.into_cluster();
        cluster.step(alloc, event)?;
        Ok(Site {
            schema,
            desk: StepDesk::new(alloc, cluster),
        })
    }

    fn serve<W: Wait, G: Gate, Q: StopSign>(
        &mut self,
        rt: &W,
        alloc: Global,
        link: &mut MemLink,
        gate: &G,
        stop: &mut Q,
    ) -> Served
        requires { Q.has_answered stop.old ≡ false }
    {
        let node = NodeId::FIRST;
        serve_connection(
            rt,
            alloc,
            link,
            &mut self.desk,
            gate,
            &self.schema,
            node,
            stop,
        )
    }
}

/// A node over a list in memory. That it is one stands here alone: a proof over a type of a replica of its own costs much more.
#[derive(Drop)]
pub(crate) struct Node {
    site: Site<MemListReplica>,
}

impl Node {
    /// A node whose store is formatted.
    pub(crate) fn new(alloc: Global) -> Result<Node, Fail> {
        Ok(Node {
            site: Site::new(alloc, schema(alloc)?)?,
        })
    }

    /// The node, behind an event.
    pub(crate) fn behind(self, alloc: Global, event: ClusterEvent) -> Result<Node, Fail> {
        Ok(Node {
            site: self.site.behind(alloc, event)?,
        })
    }

    /// Serves the client of a link.
    pub(crate) fn serve<W: Wait, G: Gate, Q: StopSign>(
        &mut self,
        rt: &W,
        alloc: Global,
        link: &mut MemLink,
        gate: &G,
        stop: &mut Q,
    ) -> Served
        requires { Q.has_answered stop.old ≡ false }
    {
        self.site.serve(rt, alloc, link, gate, stop)
    }
}
