//! The files of the system, with a note of each call that makes, writes, syncs or locks.

use folder_store::StoreFile;
use std::alloc::{AllocError, Allocator, Global};
use std::cell::RefCell;
use std::fs::{File, Metadata, OpenFile, OpenOptions};
use std::io::{self, Read, Seek, SeekFrom, Write};
use std::os::unix::fs::FileExt;
use std::rc::Rc;
use std::rt::Files;

#[derive(Clone, Drop)]
pub struct Noting {
    rt: HostRuntime,
    notes: Rc<RefCell<String>>,
}

#[derive(Drop)]
pub struct NotedFile {
    file: File,
    path: String,
    notes: Rc<RefCell<String>>,
}

// Adds a call and its path.
fn note(notes: &RefCell<String>, call: &str, path: &str) -> io::Result<()> {
    if let Ok(mut notes) = notes.try_borrow_mut() {
        notes.push_str(call)?;
        notes.push(' ')?;
        notes.push_str(path)?;
        notes.push(';')?;
    }
    Ok(())
}

impl Noting {
    pub fn new(rt: HostRuntime) -> Result<Noting, AllocError> {
        let notes = Rc::new(rt.alloc(), RefCell::new(String::new(rt.alloc())))?;
        Ok(Noting { rt, notes })
    }

    /// The notes so far, which are forgotten.
    pub fn take(&self) -> Result<String, AllocError> {
        match self.notes.try_replace(String::new(self.rt.alloc())) {
            Ok(notes) => Ok(notes),
            Err(_) => Err(AllocError),
        }
    }
}

impl Alloc for Noting {
    type A = Global;

    fn alloc(&self) -> Global {
        self.rt.alloc()
    }
}

impl Files for Noting {
    type File = NotedFile;

    type Dir = <HostRuntime as Files>::Dir;

    fn open_file(&self, how: &OpenOptions, path: &str) -> io::Result<NotedFile> {
        Ok(NotedFile {
            file: self.rt.open_file(how, path)?,
            path: String::from_str(self.rt.alloc(), path)?,
            notes: self.notes.clone()?,
        })
    }

    fn open_dir(&self, path: &str) -> io::Result<<HostRuntime as Files>::Dir> {
        self.rt.open_dir(path)
    }

    fn metadata(&self, path: &str) -> io::Result<Metadata> {
        Files::metadata(&self.rt, path)
    }

    fn symlink_metadata(&self, path: &str) -> io::Result<Metadata> {
        Files::symlink_metadata(&self.rt, path)
    }

    fn copy(&self, _from: &str, _to: &str) -> io::Result<u64> {
        Err(io::ErrorKind::Unsupported.into())
    }

    fn rename(&self, _from: &str, _to: &str) -> io::Result<()> {
        Err(io::ErrorKind::Unsupported.into())
    }

    fn remove_file(&self, _path: &str) -> io::Result<()> {
        Err(io::ErrorKind::Unsupported.into())
    }

    fn create_dir(&self, _path: &str) -> io::Result<()> {
        Err(io::ErrorKind::Unsupported.into())
    }

    fn create_dir_with_mode(&self, path: &str, mode: u32) -> io::Result<()> {
        note(&self.notes, "mkdir", path)?;
        self.rt.create_dir_with_mode(path, mode)
    }

    fn remove_dir(&self, _path: &str) -> io::Result<()> {
        Err(io::ErrorKind::Unsupported.into())
    }

    fn remove_dir_all<B: Allocator>(&self, _alloc: B, _path: &str) -> io::Result<()> {
        Err(io::ErrorKind::Unsupported.into())
    }
}

impl OpenFile for NotedFile {
    fn metadata(&self) -> io::Result<Metadata> {
        self.file.metadata()
    }

    fn set_len(&self, size: u64) -> io::Result<()> {
        self.file.set_len(size)
    }

    fn sync_all(&self) -> io::Result<()> {
        note(&self.notes, "all", self.path.as_str())?;
        self.file.sync_all()
    }

    fn sync_data(&self) -> io::Result<()> {
        note(&self.notes, "data", self.path.as_str())?;
        self.file.sync_data()
    }
}

impl FileExt for NotedFile {
    fn read_at(&self, buf: &mut [u8], offset: u64) -> io::Result<usize> {
        self.file.read_at(buf, offset)
    }

    fn write_at(&self, buf: &[u8], offset: u64) -> io::Result<usize> {
        note(&self.notes, "write", self.path.as_str())?;
        self.file.write_at(buf, offset)
    }
}

impl StoreFile for NotedFile {
    fn drop_pages(&self) -> io::Result<()> {
        note(&self.notes, "drop", self.path.as_str())?;
        self.file.drop_pages()
    }

    fn try_take(&self) -> io::Result<bool> {
        note(&self.notes, "take", self.path.as_str())?;
        self.file.try_take()
    }
}

impl Read for NotedFile {
    fn read(&mut self, buf: &mut [u8]) -> io::Result<usize> {
        self.file.read(buf)
    }
}

impl Write for NotedFile {
    fn write(&mut self, buf: &[u8]) -> io::Result<usize> {
        self.file.write(buf)
    }

    fn flush(&mut self) -> io::Result<()> {
        self.file.flush()
    }
}

impl Seek for NotedFile {
    fn seek(&mut self, to: SeekFrom) -> io::Result<u64> {
        self.file.seek(to)
    }
}
