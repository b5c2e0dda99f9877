//! A conversation of many EXECUTEs of a prepared INSERT with a node, over a link in memory, and beside it the same steps of a node made
//! directly: `conversation [COUNT [TURNS]]`.
//!
//! With a number each is done so often, several times, and the nanoseconds of the fastest turn of both are printed too. With no
//! words a few are done, and what was answered is printed.

use anyhow::{Result, bail};
use cluster_model::{Cluster, ClusterError, ClusterEvent};
use cql_parser::parse;
use cql_statement::Statements;
use cs_base::{Bytes, Items, Level, Micros, NodeId, ReqId};
use cs_io::{MemLink, NeverStop, OpenGate};
use cs_store::MemStore;
use list_replica::MemListReplica;
use peer_messages::{Ask, Entry, Plan, Setting, TableSetting};
use prepared_statement::Prepared;
use schema_book::Schema;
use serve_loop::{Served, serve_connection};
use statement_binder::{Values, fill, prepare};
use statement_values::{Param, Params};
use std::alloc::Global;
use std::rt::Clock;
use std::sync::Wait;
use std::time::Instant;
use step_desk::StepDesk;
use token_ring::Ring;

/// How many requests are made where no time is measured.
const FEW: u32 = 10;

/// How often all is measured, if nothing is said.
const TURNS: u32 = 7;

/// How many rows a partition has.
const PART: u32 = 1000;

const SCHEMA: &str =
    "CREATE KEYSPACE shop WITH REPLICATION = {'class': 'SimpleStrategy', 'replication_factor': 1}
CREATE TABLE shop.orders (customer text, placed int, total bigint, note text, paid boolean, PRIMARY KEY (customer, placed))";

const INSERT: &str =
    "INSERT INTO shop.orders (customer, placed, total, note, paid) VALUES (?, ?, ?, ?, ?)";

/// STARTUP with `CQL_VERSION` 3.0.0.
const STARTUP: &str = "\x00\x01\x00\x0bCQL_VERSION\x00\x053.0.0";

/// What a conversation came to.
#[derive(Clone, Copy)]
struct Tally {
    acknowledged: u64,
    /// How many bytes were written to the client, and a sum over them.
    written: u64,
    mix: u64,
}

fn schema(alloc: Global) -> Result<Schema> {
    let mut statements: Statements = Items::new(alloc);
    for line in SCHEMA.lines() {
        match parse(alloc, line) {
            Ok(statement) => statements.push(statement)?,
            Err(_) => bail!("the schema is no CQL"),
        }
    }
    match Schema::from_statements(alloc, &statements, 1, 1, 864_000) {
        Ok(schema) => Ok(schema),
        Err(_) => bail!("the schema is refused"),
    }
}

/// A node on a formatted store, with the tables of a schema.
fn cluster(alloc: Global, schema: &Schema) -> Result<Cluster<MemListReplica>> {
    let Ok(ring) = Ring::new(&[0]) else {
        bail!("no ring");
    };
    let mut tables = Items::new(alloc);
    for table in schema.tables() {
        tables.push(TableSetting {
            factor: table.factor,
        })?;
    }
    let mut stores = Vec::new(alloc);
    stores.push(MemStore::formatted(alloc)?)?;
    let setting = Setting {
        ring,
        tables,
        expiry: Micros::new(60_000_000),
    };
    match Cluster::new(alloc, setting, stores) {
        Ok(cluster) => Ok(cluster),
        Err(ClusterError::NoMemory) => bail!("no memory"),
        Err(ClusterError::Damaged(..)) => bail!("a store is damaged"),
    }
}

/// The values of a row, in the order of the columns.
fn values(alloc: Global, row: u32) -> Result<Vec<Bytes>> {
    let mut values = Vec::with_capacity(alloc, 5)?;
    let mut customer = Vec::from_slice(alloc, b"customer ")?;
    customer.extend_from_slice(&(row / PART).to_be_bytes())?;
    values.push(Bytes::from_vec(customer))?;
    values.push(Bytes::from_slice(alloc, &row.to_be_bytes())?)?;
    values.push(Bytes::from_slice(alloc, &u64::from(row).to_be_bytes())?)?;
    values.push(Bytes::from_slice(alloc, b"gift: a book of forty short stories")?)?;
    values.push(Bytes::from_slice(alloc, &[1])?)?;
    Ok(values)
}

/// A length in four bytes.
fn int(length: usize) -> [u8; 4] {
    u32::try_from(length).unwrap_or(u32::MAX).to_be_bytes()
}

fn push_frame(bytes: &mut Vec<u8>, opcode: u8, body: &[u8]) -> Result<()> {
    bytes.extend_from_slice(&[4, 0, 0, 1, opcode])?;
    bytes.extend_from_slice(&int(body.len()))?;
    bytes.extend_from_slice(body)?;
    Ok(())
}

/// A long string, as PREPARE has one.
fn prepare_body(alloc: Global) -> Result<Vec<u8>> {
    let mut body = Vec::from_slice(alloc, &int(INSERT.len()))?;
    body.extend_from_slice(INSERT.as_bytes())?;
    Ok(body)
}

/// The statement's id, which is a zero byte and its text where no keyspace is in use; the level ONE; and the values.
fn execute_body(alloc: Global, row: u32) -> Result<Vec<u8>> {
    let length = INSERT.len() as u16;
    let mut body = Vec::from_slice(alloc, &length.wrapping_add(1).to_be_bytes())?;
    body.push(0)?;
    body.extend_from_slice(INSERT.as_bytes())?;
    body.extend_from_slice(&[0, 1, 1, 0, 5])?;
    for value in &values(alloc, row)? {
        let value = value.as_slice();
        body.extend_from_slice(&int(value.len()))?;
        body.extend_from_slice(value)?;
    }
    Ok(body)
}

/// All that a client sends.
fn requests(alloc: Global, count: u32) -> Result<Vec<u8>> {
    let mut bytes = Vec::new(alloc);
    push_frame(&mut bytes, 0x01, STARTUP.as_bytes())?;
    push_frame(&mut bytes, 0x09, &prepare_body(alloc)?)?;
    for row in 0..count {
        push_frame(&mut bytes, 0x0a, &execute_body(alloc, row)?)?;
    }
    Ok(bytes)
}

fn prepared(alloc: Global, schema: &Schema) -> Result<Prepared> {
    let Ok(statement) = parse(alloc, INSERT) else {
        bail!("the statement is no CQL");
    };
    match prepare(alloc, schema, None, &statement) {
        Ok(prepared) => Ok(prepared),
        Err(_) => bail!("the statement is refused"),
    }
}

/// What a node is asked for a row.
fn ask(alloc: Global, prepared: &Prepared, row: u32) -> Result<Ask> {
    let mut params = Items::new(alloc);
    for value in values(alloc, row)? {
        params.push(Param::Given(value))?;
    }
    let params = Params::ByPlace(params);
    match fill(alloc, prepared, Values::Whole(&params), None) {
        Ok(statement_plan::Plan::Write(mutation)) => Ok(Ask {
            plan: Plan::Write(mutation),
            level: Level::One,
        }),
        _ => bail!("the values are refused"),
    }
}

fn asks(alloc: Global, schema: &Schema, count: u32) -> Result<Vec<Ask>> {
    let prepared = prepared(alloc, schema)?;
    let mut asks = Vec::new(alloc);
    for row in 0..count {
        asks.push(ask(alloc, &prepared, row)?)?;
    }
    Ok(asks)
}

fn acknowledged(cluster: &Cluster<MemListReplica>) -> u64 {
    let mut count = 0u64;
    for piece in cluster.chronicle() {
        for entry in piece.own() {
            if matches!(entry, Entry::Acked(..)) {
                count = count.wrapping_add(1);
            }
        }
    }
    count
}

fn mix(bytes: &[u8]) -> u64 {
    let mut mix = 0u64;
    for byte in bytes {
        mix = mix.wrapping_mul(31).wrapping_add(u64::from(*byte));
    }
    mix
}

/// A conversation with a fresh node: what it came to, and its nanoseconds.
fn converse<R: Clock + Wait>(
    rt: &R,
    alloc: Global,
    schema: &Schema,
    count: u32,
) -> Result<(Tally, u128)> {
    let mut pieces = Vec::new(alloc);
    pieces.push(Bytes::from_vec(requests(alloc, count)?))?;
    let mut link = MemLink::new(alloc, pieces, usize::MAX, Vec::new(alloc));
    let mut desk = StepDesk::new(alloc, cluster(alloc, schema)?);
    let mut stop = NeverStop;
    let start = Instant::now(rt)?;
    let served = serve_connection(
        rt,
        alloc,
        &mut link,
        &mut desk,
        &OpenGate,
        schema,
        NodeId::FIRST,
        &mut stop,
    );
    let nanos = start.elapsed(rt)?.as_nanos();
    if served != Served::Ended {
        bail!("the connection did not end by itself");
    }
    let tally = Tally {
        acknowledged: acknowledged(desk.cluster()),
        written: link.written().len() as u64,
        mix: mix(link.written()),
    };
    Ok((tally, nanos))
}

/// The same steps at a fresh node, which is asked and then looked at for an answer: how many requests were acknowledged, and the
/// nanoseconds.
fn step_all<R: Clock>(rt: &R, alloc: Global, schema: &Schema, count: u32) -> Result<(u64, u128)> {
    let asks = asks(alloc, schema, count)?;
    let mut cluster = cluster(alloc, schema)?;
    let start = Instant::now(rt)?;
    let request = ReqId {
        node: NodeId::FIRST,
        time: Micros::new(0),
    };
    for ask in asks {
        cluster.step(alloc, ClusterEvent::Ask(NodeId::FIRST, ask))?;
        cluster.step(alloc, ClusterEvent::Collect(NodeId::FIRST, request))?;
    }
    let nanos = start.elapsed(rt)?.as_nanos();
    Ok((acknowledged(&cluster), nanos))
}

/// Some requests both ways.
fn sample<R: Clock + Print + Wait>(
    rt: &R,
    alloc: Global,
    schema: &Schema,
    count: u32,
) -> Result<()> {
    let (tally, _) = converse(rt, alloc, schema, count)?;
    let (directly, _) = step_all(rt, alloc, schema, count)?;
    let Tally {
        acknowledged,
        written,
        mix,
    } = tally;
    println!(rt;
        "acknowledged {acknowledged}, and directly {directly}; written {written} bytes, mix {mix}"
    )?;
    Ok(())
}

/// The fastest of several turns of both.
fn measure<R: Clock + Print + Wait>(
    rt: &R,
    alloc: Global,
    schema: &Schema,
    count: u32,
    turns: u32,
) -> Result<()> {
    let mut conversing = u128::MAX;
    let mut stepping = u128::MAX;
    for _ in 0..turns {
        let (_, nanos) = converse(rt, alloc, schema, count)?;
        conversing = conversing.min(nanos);
        let (_, nanos) = step_all(rt, alloc, schema, count)?;
        stepping = stepping.min(nanos);
    }
    println!(rt; "requests {count}, nanoseconds {conversing}, and directly {stepping}")?;
    Ok(())
}

fn number(words: &[String], at: usize, default: u32) -> Result<u32> {
    match words.get(at) {
        Some(word) => Ok(word.parse()?),
        None => Ok(default),
    }
}

pub(crate) fn run<R: AllocGlobal + Clock + Print + Wait>(rt: &R, words: &[String]) -> Result<()> {
    let alloc = rt.alloc();
    let schema = schema(alloc)?;
    let count = number(words, 0, FEW)?;
    sample(rt, alloc, &schema, count)?;
    if words.is_empty() {
        return Ok(());
    }
    measure(rt, alloc, &schema, count, number(words, 1, TURNS)?)
}
