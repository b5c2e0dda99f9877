//! Fault scripts: the text that a run is given, and its reader.
//!
//! A script is lines of words, with one or more spaces between them. Empty lines and lines that begin with `#` are passed
//! over. The head is `cassandra-script 1`, `ring <token> ..` with one token for each node, `rf <factor>` for the table
//! `script.kv`, then, where they are wanted, `grace <seconds>` and `expiry <seconds>`, then any number of
//! `schema <statement>`, and `run`. Then come events: `put <node> <level> <key> <row> <timestamp> <value>`,
//! `get <node> <level> <key>`, `cql <node> <level> <statement>`, `deliver <from> <to> <number>`,
//! `drop <from> <to> <number>`, `settle <count>`, `clock <node> <micros>`, `mark <node> <peer> up` or `down`,
//! `crash <node> <outcome>`, `stopat <node> <call> <outcome>`, `failat <node> <call>`, `restart <node>`, `flush <node>` and
//! `merge <node>`. Nodes are numbers from 0 on, calls of a node's store from 1 on, levels Cassandra's names in capitals, and
//! outcomes `kept`, `lost` and `torn`. A statement is the rest of its line.
#![tactic(auto)]

mod error;
mod events;
mod head;
mod laws;
mod reader;
mod schema_lines;
mod script;
mod statements;

pub use error::ParseError;
pub use laws::{
    events_are_at_nodes, one_reading, scripts_have_a_ring, scripts_have_an_expiry,
    scripts_have_their_schema, statements_are_read,
};
pub use reader::{LONGEST_SCRIPT, MOST_LINES, parse};
pub use script::{
    CqlRequest, GetRequest, MessagePlace, PutRequest, Script, ScriptError, ScriptEvent,
    ScriptEvents, Texts,
};
