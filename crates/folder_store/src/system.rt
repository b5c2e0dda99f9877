//! What is asked of a file of the system.

use std::fs::{File, OpenFile, TryLockError};
use std::io;
use std::os::fd::AsRawFd;
use std::os::unix::fs::FileExt;

/// A file or a folder, open.
pub trait StoreFile: OpenFile + FileExt {
    /// Drops the system's copies of its pages, so that what is read then comes from the disk.
    fn drop_pages(&self) -> io::Result<()>;

    /// Locks it for this handle, and answers whether no other one has it locked.
    fn try_take(&self) -> io::Result<bool>;
}

impl StoreFile for File {
    fn drop_pages(&self) -> io::Result<()> {
        match libc::posix_fadvise(self.as_raw_fd(), 0, 0, libc::POSIX_FADV_DONTNEED) {
            0 => Ok(()),
            code => Err(io::Error::from_raw_os_error(code)),
        }
    }

    fn try_take(&self) -> io::Result<bool> {
        match self.try_lock() {
            Ok(()) => Ok(true),
            Err(TryLockError::WouldBlock) => Ok(false),
            Err(TryLockError::Error(error)) => Err(error),
        }
    }
}
