//! Stores in folders of the system. That a folder keeps to the disk model is trusted: nothing is told of what it holds.
//!
//! What is done so that the trust is due: a folder is locked while its store is in use. Each file that is there is
//! settled before anything is read: its data is synced, the system's copies of its pages are dropped, and the folder is
//! synced, since after a sync that failed, or a process that was killed, the system may hold bytes that the disk does
//! not. After its first failure a store refuses every further call.
#![tactic(auto)]

mod dir_stores;
mod file_store;
mod folder;
mod opening;
mod system;

pub use dir_stores::DirStores;
pub use file_store::FileStore;
pub use system::StoreFile;
