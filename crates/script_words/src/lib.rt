//! The words of lines that people write: what lies between spaces, and the numbers, nodes, levels, marks and outcomes of crashes that
//! words stand for. Nodes are numbers from 0 on, levels Cassandra's names in capitals, marks `up` and `down`, and outcomes `kept`,
//! `lost` and `torn`.
#![tactic(auto)]

mod lines;
mod numbers;

pub use lines::{behind, first_line, first_word, is_skipped, next_word, well_formed, words};
pub use numbers::{
    is_number, is_signed_number, level_of, long_value, node_of, number_within, outcome_of, up_of,
};
