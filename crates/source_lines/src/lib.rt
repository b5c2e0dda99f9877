//! The lines of a source, which is read piece by piece: a head that ends with the line `run`, and then one line after
//! another.
#![tactic(auto)]

mod ahead;
mod head;
mod line;
mod reader;
#[cfg(test)]
mod tests;

pub use head::ReadError;
pub use reader::LineReader;
