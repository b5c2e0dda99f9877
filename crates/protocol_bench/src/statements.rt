//! Parses typical statements, and prints what came out: `statements [ROUNDS]`.
//!
//! With a number it parses them so often, several times, and prints the nanoseconds of the fastest turn too. The statements
//! and the counts are those of `bench/cql_parser/plain.rs`, which does the same without contracts.

use cql_parser::parse;
use cql_statement::Statement;
use std::alloc::Global;
use std::io;
use std::time::Instant;

/// How often all rounds are made where time is measured.
const TURNS: u32 = 7;

/// One statement a line.
const STATEMENTS: &str =
    "CREATE KEYSPACE shop WITH REPLICATION = {'class': 'SimpleStrategy', 'replication_factor': 3};
CREATE TABLE shop.orders (customer uuid, placed timeuuid, total bigint, note text, paid boolean, PRIMARY KEY (customer, placed)) WITH CLUSTERING ORDER BY (placed DESC) AND gc_grace_seconds = 86400;
USE shop;
INSERT INTO orders (customer, placed, total, note, paid) VALUES (123e4567-e89b-12d3-a456-426614174000, ?, 1999, 'gift: it''s a book', false) USING TIMESTAMP 1700000000000000;
INSERT INTO sessions (id, opened) VALUES (0x00ffab12, 1700000000) IF NOT EXISTS
UPDATE orders USING TIMESTAMP ? SET paid = true, note = null WHERE customer = ? AND placed = ?;
UPDATE accounts SET balance = 70 WHERE owner = 'ann' IF balance = 100 AND version <= 5
DELETE note FROM orders WHERE customer = :customer AND placed = :placed
DELETE FROM events WHERE sensor = 17 AND at >= 1000 AND at < 2000
SELECT * FROM orders WHERE customer = 123e4567-e89b-12d3-a456-426614174000
SELECT placed, total, \"Note\" FROM shop.orders WHERE customer = ? AND placed > ? AND placed <= ? ORDER BY placed ASC LIMIT 50;
SELECT COUNT(*) FROM events WHERE sensor = 17 /* one sensor */
BEGIN UNLOGGED BATCH INSERT INTO a (k, v) VALUES (1, 'x'); UPDATE a SET v = 'y' WHERE k = 1; DELETE FROM a WHERE k = 2; APPLY BATCH;";

/// What came out, so that two programs can be compared.
#[derive(Clone, Copy)]
struct Tally {
    statements: u64,
    mix: u64,
}

impl Tally {
    fn add(&mut self, statement: &Statement) {
        self.statements = self.statements.wrapping_add(1);
        self.mix = self.mix.wrapping_mul(31).wrapping_add(weight(statement));
    }
}

/// A number for a statement: its kind, and how many parts it has.
fn weight(statement: &Statement) -> u64 {
    let (kind, parts) = match statement {
        Statement::CreateKeyspace(made) => (1, made.replication.as_slice().len()),
        Statement::CreateTable(made) => (
            2,
            parts(made.items.as_slice().len(), made.options.as_slice().len()),
        ),
        Statement::Use(used) => (3, used.keyspace.as_str().len()),
        Statement::Insert(insert) => (
            4,
            parts(
                insert.columns.as_slice().len(),
                insert.values.as_slice().len(),
            ),
        ),
        Statement::Update(update) => (
            5,
            parts(
                update.assignments.as_slice().len(),
                update.relations.as_slice().len(),
            ),
        ),
        Statement::Delete(delete) => (
            6,
            parts(
                delete.columns.as_slice().len(),
                delete.relations.as_slice().len(),
            ),
        ),
        Statement::Select(select) => (
            7,
            parts(
                select.relations.as_slice().len(),
                select.orders.as_slice().len(),
            ),
        ),
        Statement::Batch(batch) => (8, batch.statements.as_slice().len()),
    };
    (kind as u64 * 100).wrapping_add(parts as u64)
}

fn parts(some: usize, others: usize) -> usize {
    some.wrapping_add(others)
}

fn parse_all(alloc: Global, rounds: u32) -> Tally {
    let mut tally = Tally {
        statements: 0,
        mix: 0,
    };
    for _ in 0..rounds {
        for text in STATEMENTS.lines() {
            if let Ok(statement) = parse(alloc, text) {
                tally.add(&statement);
            }
        }
    }
    tally
}

fn print_tally(rt: &impl Print, tally: Tally) -> io::Result<()> {
    let Tally { statements, mix } = tally;
    println!(rt; "statements {statements}, mix {mix}")
}

/// The fastest of several turns.
fn run_timed(rt: &HostRuntime, rounds: u32) -> io::Result<()> {
    let mut fastest = u128::MAX;
    for turn in 0..TURNS {
        let start = Instant::now(rt)?;
        let tally = parse_all(rt.alloc(), rounds);
        fastest = fastest.min(start.elapsed(rt)?.as_nanos());
        if turn == 0 {
            print_tally(rt, tally)?;
        }
    }
    println!(rt; "rounds {rounds}, nanoseconds {fastest}")
}

pub(crate) fn run(rt: &HostRuntime, words: &[String]) -> io::Result<()> {
    match words {
        [rounds, ..] => run_timed(rt, rounds.parse().unwrap_or(1)),
        [] => print_tally(rt, parse_all(rt.alloc(), 1)),
    }
}
