//! Statements with all done that needs no value: tables and columns looked up, constants read, and the refusals that hold
//! whatever the values are.
//!
//! The slots of a statement are the columns and terms that it gives values for, in the order of its text. What a request
//! gives for its markers and what a prepared statement says of them both go by these.
#![tactic(auto)]

mod change;
mod changing;
mod columns;
mod constants;
mod faults;
mod markers;
mod names;
mod orders;
mod prepared;
mod slot;
mod slots;
mod structure;

pub use change::{Action, Batch, Change, Changes, Guard, Read};
pub use faults::{bigint_in, fits, int_in, is_marker, lower, slot_fault, value_at};
pub use markers::{Marker, MarkerList, MarkerNumbers, Markers};
pub use names::column_number;
pub use prepared::{Prepared, UseKeyspace, condition_fault, empty_fault, outline};
pub use slot::{Role, Slot, Slots, Stands};
pub use structure::is_conditional;
