//! The script of a run, as its lines give it.

ghost use Rattle.std.specs.Prelude.{◌≡◌};
ghost use Rattle.fault_script.specs.declared.script.LineError.TheVariants.{Fault as LineFault, NoMemory as LineMemory};

use cql_statement::Statement;
use cs_base::{Items, Level, Micros, NodeId, Text};
use cs_store::Outcome;
use schema_book::Schema;
use std::alloc::AllocError;
use thiserror::Error;
use token_ring::Ring;

/// The nodes of a run, and what happens to them, in order.
#[derive(Drop)]
pub struct Script {
    /// The nodes' tokens.
    pub ring: Ring,
    /// The replication factor of `script.kv`, from 1 to the number of nodes.
    pub factor: u8,
    /// For how many seconds a deletion is kept in tables that don't say.
    pub grace: u64,
    /// After how many seconds a message is too old.
    pub expiry: u64,
    /// The statements of the schema, as they are written.
    pub statements: Texts,
    /// What they make.
    pub schema: Schema,
    pub events: ScriptEvents,
}

pub type Texts = Items<Text>;

pub type ScriptEvents = Items<ScriptEvent>;

/// A line after `run`.
#[derive(Debug, Drop)]
pub enum ScriptEvent {
    Put(PutRequest),
    Get(GetRequest),
    Cql(CqlRequest),
    /// Delivers a message.
    Deliver(MessagePlace),
    /// Lets `settle` pass over a message.
    Drop(MessagePlace),
    /// So many times, from 1 to 100,000, delivers the oldest message that was neither delivered nor dropped.
    Settle(u32),
    /// Sets a node's clock, which tells this time from then on, and gives the node a step.
    Clock(NodeId, Micros),
    /// Tells a node that another one is up, or that it is down.
    Mark(NodeId, NodeId, bool),
    /// Stops a node between two steps. This is what becomes of the writes that it has not synced.
    Crash(NodeId, Outcome),
    /// Stops a node at this call of its store, from 1 on, when the call's effect is not synced yet.
    StopAt(NodeId, u32, Outcome),
    /// Lets this call of a node's store fail, from 1 on.
    FailAt(NodeId, u32),
    /// Loads a node. One that runs is left alone.
    Restart(NodeId),
    /// Has a node write what it keeps in memory as a table.
    Flush(NodeId),
    /// Has a node merge tables.
    Merge(NodeId),
}

/// A line `put`: it sets the column `v` of a row of `script.kv`.
#[derive(Debug, Drop)]
pub struct PutRequest {
    pub node: NodeId,
    pub level: Level,
    pub key: Text,
    /// The row's clustering text.
    pub row: Text,
    pub timestamp: i64,
    pub value: Text,
}

/// A line `get`: it reads the rows of a partition of `script.kv`.
#[derive(Debug, Drop)]
pub struct GetRequest {
    pub node: NodeId,
    pub level: Level,
    pub key: Text,
}

/// A line `cql`: a statement.
#[derive(Debug, Drop)]
pub struct CqlRequest {
    pub node: NodeId,
    pub level: Level,
    /// As it is written.
    pub text: Text,
    /// As it is read.
    pub statement: Statement,
}

/// What a line after `run` says before its statement is read.
#[derive(Debug, Drop)]
pub enum EventLine {
    Event(ScriptEvent),
    /// At a node and a level the statement of this text.
    Cql(NodeId, Level, Text),
}

/// The message that is this one, from 1 on, of all that one node ever sends to another. There is no message 0.
#[derive(Clone, Copy, Debug, PartialEq, Eq)]
pub struct MessagePlace {
    pub from: NodeId,
    pub upto: NodeId,
    pub number: u64,
}

/// What is wrong with a line: a head line that is missing or misplaced, a line that isn't understood, or a number, node
/// or level that is out of range.
#[derive(Clone, Copy, Debug, PartialEq, Eq)]
pub enum Fault {
    Head,
    Line,
    Number,
}

/// Why a script is refused, with the number of the line, from 1 on.
#[derive(Clone, Copy, Debug, PartialEq, Eq, Error)]
pub enum ScriptError {
    /// A line of the head that is missing or misplaced, or whose statement the schema refuses.
    #[error("{0}: head expected")]
    Head(u64),
    #[error("{0}: line not understood")]
    Line(u64),
    #[error("{0}: number out of range")]
    Number(u64),
    /// A text that is no statement, and the offset within it, in bytes, at which it stops to be one. It is the text's
    /// length where that has too many tokens.
    #[error("{0}: cql refused at {1}")]
    Cql(u64, usize),
    /// More than 64 MiB.
    #[error("script too long")]
    TooLong,
    /// More than 1,000,000 lines behind `run`.
    #[error("too many lines")]
    TooMany,
}

/// What the head says before its statements.
#[derive(Clone, Copy, Debug)]
pub struct Settings {
    pub ring: Ring,
    pub factor: u8,
    pub grace: u64,
    pub expiry: u64,
}

/// What the next line of the head has to be, with what was found so far.
#[derive(Clone, Copy, Debug)]
pub enum HeadStage {
    Version,
    Ring,
    Factor(Ring),
    /// `grace`, or what may follow it.
    Grace(Settings),
    /// `expiry`, or what may follow it.
    Expiry(Settings),
    /// `schema` or `run`.
    Schema(Settings),
}

/// What a line of the head says.
#[derive(Drop)]
pub enum HeadLine {
    /// What has to follow it.
    Next(HeadStage),
    /// A statement of the schema.
    Schema(Settings, Text),
    /// The line `run`.
    Run(Settings),
}

/// Why a line gave nothing.
#[derive(Debug, Drop)]
pub enum LineError {
    Fault(Fault),
    NoMemory,
}

impl From<Fault> for LineError {
    ghost from_gives = { λ fault e. e ≡ LineFault fault };

    fn from(fault: Fault) -> LineError {
        LineError::Fault(fault)
    }
}

impl From<AllocError> for LineError {
    ghost from_gives = { λ _ e. e ≡ LineMemory };

    fn from(_error: AllocError) -> LineError {
        LineError::NoMemory
    }
}
