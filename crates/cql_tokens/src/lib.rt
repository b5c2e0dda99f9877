//! The tokens of CQL statements (CQL reference, "Definitions"): words, names and strings in quotes, whole numbers, blobs, uuids
//! and symbols, with blanks and comments between them. The longest token that begins at a place is taken.
//!
//! Numbers with a point or an exponent, and strings between `$$`, are no tokens here.
#![tactic(auto)]

mod found;
mod laws;
mod scanning;
mod token;
mod words;

pub use laws::{each_text_has_a_scan, one_scan, printed_tokens_are_the_same, tokens_are_words};
pub use scanning::{scan, text_of};
pub use token::{Scanned, Stop, Token, TokenKind, TokenList};
