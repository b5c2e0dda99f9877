//! Statements of CQL from their text (CQL reference, "Data Definition" and "Data Manipulation"): keyspaces, tables, USE, INSERT,
//! UPDATE, DELETE, SELECT and batches.
//!
//! The grammar is `specs/Grammar.antt`, in the forms of `specs/Forms.antt`. Keywords are read in either case.
#![tactic(auto)]

mod conditions;
mod cursor;
mod error;
mod laws;
mod lists;
mod parsing;
mod rows;
mod schema;
mod selects;
mod statements;
mod terms;

pub use error::ParseError;
pub use laws::{no_refusal, one_reading, one_refusal};
pub use parsing::{MOST_TOKENS, parse, tokens};
