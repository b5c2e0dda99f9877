//! A chronicle in print: a line for each answer, with the number of its request.
#![tactic(auto)]

mod lines;
mod printer;
mod requests;
mod rows;

pub use lines::push_number;
pub use printer::print_chronicle;
