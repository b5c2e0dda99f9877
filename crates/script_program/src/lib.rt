//! What the program does with a fault script: it is read, run and printed.
#![tactic(auto)]

mod keyspace;
mod program;
mod requests;
mod run;
mod statements;
mod streams;

pub use program::{Refusal, Status, leave_line, leave_refusal, run_script, tell};
pub use requests::setting_of;
pub use statements::scripts_have_kv;
pub use streams::write_all;
