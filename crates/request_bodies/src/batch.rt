//! Batches (native_protocol_v4.spec, section 4.1.7).

ghost use Rattle.std.specs.Prelude.{◌≡◌, ◌++◌, ◌∷◌, ◌↔◌, [], IsTrue, OnOk, if◌then◌else◌};
ghost use Rattle.body_notations.specs.Reading.{Gives};
ghost use Rattle.request_bodies.specs.Reading.{batch_at, batch_end_at, batch_flags, batch_kind, statement_at, statement_of};
ghost use Rattle.request_bodies.specs.Spelling.{batch, batch_end, batch_flags_of, statement, BatchFits, StatementFits};

use body_notations::{
    Consistency, Fault, INT_LIMIT, Notation, SHORT_LIMIT, Value, list_has_word, read_byte,
    read_consistency, read_list, read_long_string, read_part, read_short_bytes, write_consistency,
    write_list, write_long_string, write_part, write_short_bytes,
};
use cs_base::{Bytes, Items, Text};
use std::alloc::{AllocError, Global};

const SERIAL_CONSISTENCY: u8 = 0x10;

const TIMESTAMP: u8 = 0x20;

/// Batches of counters (2) are none here.
#[derive(Clone, Copy, Debug, PartialEq, Eq)]
pub enum BatchKind {
    /// 0.
    Logged,
    /// 1.
    Unlogged,
}

#[derive(Debug, Drop)]
pub enum BatchStatement {
    /// Kind 0: the text of the statement.
    Query(Text),
    /// Kind 1: the id of a prepared statement.
    Prepared(Bytes),
}

#[derive(Debug, Drop)]
pub struct BatchEntry {
    pub statement: BatchStatement,
    pub values: Items<Value>,
}

#[derive(Debug, Drop)]
pub struct Batch {
    pub kind: BatchKind,
    pub entries: Items<BatchEntry>,
    pub consistency: Consistency,
    pub serial_consistency: Option<Consistency>,
    /// In microseconds.
    pub timestamp: Option<i64>,
}

fn statement_of(alloc: Global, kind: u8, bytes: &[u8]) -> Result<(BatchStatement, &[u8]), Fault>
    ensures { Gives (λ x. (x.0, x.1.now)) result (statement_of kind bytes.now) }
{
    match kind {
        0 => {
            let (query, rest) = read_long_string(alloc, bytes)?;
            Ok((BatchStatement::Query(query), rest))
        }
        1 => {
            let (id, rest) = read_short_bytes(alloc, bytes)?;
            Ok((BatchStatement::Prepared(id), rest))
        }
        _ => Err(Fault::BadFlag),
    }
}

#[tactic(auto, unfolding(crate::specs::Reading::statement_at))]
fn read_statement(alloc: Global, bytes: &[u8]) -> Result<(BatchStatement, &[u8]), Fault>
    ensures { Gives (λ x. (x.0, x.1.now)) result (statement_at bytes.now) }
{
    let (kind, rest) = read_byte(bytes)?;
    statement_of(alloc, kind, rest)
}

fn write_statement(out: &mut Vec<u8>, written: &BatchStatement) -> Result<(), AllocError>
    requires { StatementFits written.now }
    ensures { OnOk result (out.new.items ≡ out.old.items ++ statement written.now) }
{
    match written {
        BatchStatement::Query(query) => {
            out.push(0)?;
            write_long_string(out, query)
        }
        BatchStatement::Prepared(id) => {
            out.push(1)?;
            write_short_bytes(out, id)
        }
    }
}

fn statement_has_word(statement: &BatchStatement) -> bool
    ensures { IsTrue result ↔ StatementFits statement.now }
{
    match statement {
        BatchStatement::Query(query) => query.as_str().len() < INT_LIMIT,
        BatchStatement::Prepared(id) => id.as_slice().len() < SHORT_LIMIT,
    }
}

#[tactic(auto, unfolding(crate::specs::Reading::entry_at))]
impl Notation for BatchEntry {
    ghost use Rattle.request_bodies.specs.Reading.{entry_at};
    ghost use Rattle.request_bodies.specs.Spelling.{entry, EntryFits};

    ghost reading = { entry_at };

    ghost spelling = { entry };

    ghost fits = { EntryFits };

    fn read(alloc: Global, bytes: &[u8]) -> Result<(BatchEntry, &[u8]), Fault> {
        let (statement, rest) = read_statement(alloc, bytes)?;
        let (values, rest) = read_list(alloc, rest)?;
        Ok((BatchEntry { statement, values }, rest))
    }

    fn write(&self, out: &mut Vec<u8>) -> Result<(), AllocError> {
        write_statement(out, &self.statement)?;
        write_list(out, &self.values)
    }

    fn has_word(&self) -> bool {
        statement_has_word(&self.statement) && list_has_word(&self.values)
    }
}

fn batch_kind(code: u8) -> Result<BatchKind, Fault>
    ensures { result ≡ batch_kind code }
{
    match code {
        0 => Ok(BatchKind::Logged),
        1 => Ok(BatchKind::Unlogged),
        _ => Err(Fault::BadFlag),
    }
}

/// Whether a serial consistency and whether a timestamp follow.
fn batch_flags(flags: u8) -> Result<(bool, bool), Fault>
    ensures { result ≡ batch_flags flags }
{
    match flags {
        0x00 => Ok((false, false)),
        SERIAL_CONSISTENCY => Ok((true, false)),
        TIMESTAMP => Ok((false, true)),
        0x30 => Ok((true, true)),
        _ => Err(Fault::BadFlag),
    }
}

/// What stands behind the entries of a batch.
#[derive(Clone, Copy)]
struct BatchEnd {
    consistency: Consistency,
    serial_consistency: Option<Consistency>,
    timestamp: Option<i64>,
}

#[tactic(auto, unfolding(crate::specs::Reading::batch_end_at))]
fn read_batch_end(alloc: Global, bytes: &[u8]) -> Result<(BatchEnd, &[u8]), Fault>
    ensures { Gives (λ x. (x.0, x.1.now)) result (batch_end_at bytes.now) }
{
    let (consistency, rest) = read_consistency(bytes)?;
    let (flags, rest) = read_byte(rest)?;
    let (serial, stamped) = batch_flags(flags)?;
    let (serial_consistency, rest) = read_part(alloc, serial, rest)?;
    let (timestamp, rest) = read_part(alloc, stamped, rest)?;
    let end = BatchEnd {
        consistency,
        serial_consistency,
        timestamp,
    };
    Ok((end, rest))
}

#[tactic(auto, unfolding(crate::specs::Reading::batch_at))]
pub(crate) fn read_batch(alloc: Global, bytes: &[u8]) -> Result<(Batch, &[u8]), Fault>
    ensures { Gives (λ x. (x.0, x.1.now)) result (batch_at bytes.now) }
{
    let (code, rest) = read_byte(bytes)?;
    let kind = batch_kind(code)?;
    let (entries, rest) = read_list(alloc, rest)?;
    let (end, rest) = read_batch_end(alloc, rest)?;
    let batch = Batch {
        kind,
        entries,
        consistency: end.consistency,
        serial_consistency: end.serial_consistency,
        timestamp: end.timestamp,
    };
    Ok((batch, rest))
}

fn batch_flags_of(serial: bool, stamped: bool) -> u8
    ensures { result ≡ batch_flags_of serial stamped }
{
    match (serial, stamped) {
        (false, false) => 0x00,
        (true, false) => SERIAL_CONSISTENCY,
        (false, true) => TIMESTAMP,
        (true, true) => 0x30,
    }
}

fn write_batch_end(out: &mut Vec<u8>, written: &Batch) -> Result<(), AllocError>
    ensures { OnOk result (out.new.items ≡ out.old.items ++ batch_end written.now) }
{
    write_consistency(out, written.consistency)?;
    let serial = written.serial_consistency.is_some();
    out.push(batch_flags_of(serial, written.timestamp.is_some()))?;
    write_part(out, &written.serial_consistency)?;
    write_part(out, &written.timestamp)
}

pub(crate) fn write_batch(out: &mut Vec<u8>, written: &Batch) -> Result<(), AllocError>
    requires { BatchFits written.now }
    ensures { OnOk result (out.new.items ≡ out.old.items ++ batch written.now) }
{
    out.push(match written.kind {
        BatchKind::Logged => 0,
        BatchKind::Unlogged => 1,
    })?;
    write_list(out, &written.entries)?;
    write_batch_end(out, written)
}

pub(crate) fn batch_has_word(batch: &Batch) -> bool
    ensures { IsTrue result ↔ BatchFits batch.now }
{
    list_has_word(&batch.entries)
}
