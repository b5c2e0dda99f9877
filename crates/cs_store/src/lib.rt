//! The disk of one node: files by number, and what a crash may leave of them.
#![tactic(auto)]

mod durable;
mod file_no;
mod format;
mod lent;
mod mem;
mod mem_file;
mod mem_stores;
mod plan;
mod store;
mod stores;

pub use durable::{cut_durably, write_durably};
pub use file_no::FileNo;
pub use lent::Lent;
pub use mem::MemStore;
pub use mem_file::Outcome;
pub use mem_stores::MemStores;
pub use store::Store;
pub use stores::{Stores, TakeError};
