//! A fault script in print, which is read as the same script.
#![tactic(auto)]

mod events;
mod head;
mod laws;
mod printer;
mod words;

pub use laws::reading_undoes_printing;
pub use printer::print;
