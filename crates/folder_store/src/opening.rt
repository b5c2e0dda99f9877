//! How the store of a folder is opened.

use crate::folder::Folder;
use crate::{FileStore, StoreFile};
use cs_store::{FileNo, TakeError};
use std::fs::{self, OpenFile, OpenOptions};
use std::io;
use std::rt::Files;

impl<R: Files + AllocGlobal + Clone + Drop> FileStore<R>
where
    R::File: StoreFile,
{
    /// Opens the store in a folder, which is made if it is missing, and locks it. A folder with no entry is formatted: it
    /// gets one zero byte in each of the files 0 to 3, file 0 last. In any other one file 0 has to be there, and each
    /// file is settled.
    pub fn open(rt: R, path: &str) -> Result<FileStore<R>, TakeError> {
        make_folders(&rt, path)?;
        let folder = OpenOptions::new().read(true).open(&rt, path)?;
        if !folder.try_take()? {
            return Err(TakeError::Busy);
        }
        let numbers = list(&rt, path)?;
        let own_path = String::from_str(rt.alloc(), path)?;
        let mut folder = Folder::new(rt, folder, own_path)?;
        match numbers {
            None => format(&mut folder)?,
            Some(numbers) if numbers.contains(&0) => settle(&mut folder, &numbers)?,
            Some(_) => return Err(TakeError::Unformatted),
        }
        Ok(FileStore::new(folder))
    }
}

// Makes the folders of a path that are missing, for their owner alone, and puts the name of each on the disk: also of
// those that are there, since a process that was killed may have made them.
fn make_folders<R: Files + AllocGlobal>(rt: &R, path: &str) -> io::Result<()> {
    let mut parent = String::new(rt.alloc());
    let mut folder = String::new(rt.alloc());
    for part in path.split('/') {
        folder.push_str(part)?;
        if !folder.is_empty() {
            make_folder(rt, folder.as_str())?;
            sync_parent(rt, parent.as_str())?;
        }
        folder.push('/')?;
        parent.clear();
        parent.push_str(folder.as_str())?;
    }
    Ok(())
}

fn make_folder<R: Files>(rt: &R, path: &str) -> io::Result<()> {
    if fs::exists(rt, path)? {
        return Ok(());
    }
    rt.create_dir_with_mode(path, 0o700)
}

// One in which this process could not have made a folder isn't opened.
fn sync_parent<R: Files>(rt: &R, path: &str) -> io::Result<()> {
    let path = if path.is_empty() { "." } else { path };
    match OpenOptions::new().read(true).open(rt, path) {
        Ok(folder) => folder.sync_all(),
        Err(error) if error.kind() == io::ErrorKind::PermissionDenied => Ok(()),
        Err(error) => Err(error),
    }
}

// The numbers of the files in a folder, rising, or nothing if it has no entry.
fn list<R: Files + AllocGlobal + Clone + Drop>(rt: &R, path: &str) -> io::Result<Option<Vec<u16>>> {
    let mut numbers = Vec::new(rt.alloc());
    let mut is_empty = true;
    for entry in fs::read_dir(rt, path)? {
        is_empty = false;
        if let Ok(number) = entry?.file_name().parse::<u16>() {
            numbers.push(number)?;
        }
    }
    numbers.sort_unstable();
    Ok(if is_empty { None } else { Some(numbers) })
}

fn settle<R: Files + AllocGlobal + Drop>(folder: &mut Folder<R>, numbers: &[u16]) -> io::Result<()>
where
    R::File: StoreFile,
{
    for number in numbers {
        if let Some(f) = FileNo::new(*number) {
            folder.settle(f)?;
        }
    }
    folder.sync_names()
}

// The name of file 0 comes to the disk behind those of the others.
fn format<R: Files + AllocGlobal + Drop>(folder: &mut Folder<R>) -> io::Result<()>
where
    R::File: StoreFile,
{
    for number in [3, 2, 1, 0] {
        if let Some(f) = FileNo::new(number) {
            folder.write(f, 0, &[0])?;
            folder.sync(f)?;
        }
    }
    Ok(())
}
