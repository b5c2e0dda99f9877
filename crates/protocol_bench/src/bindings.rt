//! Prepares an INSERT of five columns once, fills it with values, and prints what came out: `bindings [ROUNDS]`.
//!
//! With a number it is filled so often, several times, and the nanoseconds of the fastest turn are printed too. The values are
//! those of `bench/statement_binder/plain.rs`, which does the same without contracts.

use cql_parser::parse;
use cql_statement::Statements;
use cs_base::{Bytes, Items};
use prepared_statement::Prepared;
use schema_book::Schema;
use statement_binder::{Values, fill, prepare};
use statement_plan::Plan;
use statement_values::{Param, Params};
use std::alloc::Global;
use std::io;
use std::time::Instant;

/// How often all rounds are made where time is measured.
const TURNS: u32 = 7;

const SCHEMA: &str =
    "CREATE KEYSPACE shop WITH REPLICATION = {'class': 'SimpleStrategy', 'replication_factor': 3}
CREATE TABLE shop.orders (customer text, placed int, total bigint, note text, paid boolean, PRIMARY KEY (customer, placed))";

const INSERT: &str =
    "INSERT INTO shop.orders (customer, placed, total, note, paid) VALUES (?, ?, ?, ?, ?) USING TIMESTAMP ?";

/// What came out, so that two programs can be compared.
#[derive(Clone, Copy)]
struct Tally {
    changes: u64,
    mix: u64,
}

impl Tally {
    fn add(&mut self, plan: &Plan) {
        if let Plan::Write(mutation) = plan {
            let changes = mutation.changes.as_slice().len() as u64;
            self.changes = self.changes.wrapping_add(changes);
            let token = u64::from_be_bytes(mutation.partition.token.to_be_bytes());
            self.mix = self.mix.wrapping_mul(31).wrapping_add(token);
        }
    }
}

fn schema(alloc: Global) -> Option<Schema> {
    let mut statements: Statements = Items::new(alloc);
    for line in SCHEMA.lines() {
        statements.push(parse(alloc, line).ok()?).ok()?;
    }
    Schema::from_statements(alloc, &statements, 3, 1, 864_000).ok()
}

fn given(alloc: Global, bytes: &[u8]) -> Option<Param> {
    Some(Param::Given(Bytes::from_slice(alloc, bytes).ok()?))
}

fn values(alloc: Global) -> Option<Params> {
    let mut values = Items::new(alloc);
    values.push(given(alloc, b"ann.miller@example.com")?).ok()?;
    values.push(given(alloc, &[0, 0, 7, 229])?).ok()?;
    values
        .push(given(alloc, &[0, 0, 0, 0, 0, 0, 7, 207])?)
        .ok()?;
    values
        .push(given(alloc, b"gift: a book of forty short stories")?)
        .ok()?;
    values.push(given(alloc, &[1])?).ok()?;
    values
        .push(given(alloc, &[0, 6, 10, 36, 24, 30, 64, 0])?)
        .ok()?;
    Some(Params::ByPlace(values))
}

fn prepared(alloc: Global) -> Option<Prepared> {
    let schema = schema(alloc)?;
    let statement = parse(alloc, INSERT).ok()?;
    prepare(alloc, &schema, None, &statement).ok()
}

/// Fills the statement so often. Nothing where it is refused or memory runs out.
fn fill_so_often(
    alloc: Global,
    prepared: &Prepared,
    values: &Params,
    rounds: u32,
) -> Option<Tally> {
    let mut tally = Tally { changes: 0, mix: 0 };
    for _ in 0..rounds {
        let plan = fill(alloc, prepared, Values::Whole(values), None).ok()?;
        tally.add(&plan);
    }
    Some(tally)
}

fn fill_all(alloc: Global, rounds: u32) -> Option<Tally> {
    let prepared = prepared(alloc)?;
    let values = values(alloc)?;
    fill_so_often(alloc, &prepared, &values, rounds)
}

fn print_tally(rt: &impl Print, tally: Option<Tally>) -> io::Result<()> {
    match tally {
        Some(Tally { changes, mix }) => println!(rt; "changes {changes}, mix {mix}"),
        None => println!(rt; "refused"),
    }
}

/// The fastest of several turns.
fn run_timed(rt: &HostRuntime, rounds: u32) -> io::Result<()> {
    let mut fastest = u128::MAX;
    for turn in 0..TURNS {
        let start = Instant::now(rt)?;
        let tally = fill_all(rt.alloc(), rounds);
        fastest = fastest.min(start.elapsed(rt)?.as_nanos());
        if turn == 0 {
            print_tally(rt, tally)?;
        }
    }
    println!(rt; "rounds {rounds}, nanoseconds {fastest}")
}

pub(crate) fn run(rt: &HostRuntime, words: &[String]) -> io::Result<()> {
    match words {
        [rounds, ..] => run_timed(rt, rounds.parse().unwrap_or(1)),
        [] => print_tally(rt, fill_all(rt.alloc(), 1)),
    }
}
