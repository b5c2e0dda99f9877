//! A folder with a file for each number, and its files that are open.

ghost use Rattle.std.specs.Prelude.{◌≡◌, ◌<◌, IfOk, IfSome, length, vec_len};

use crate::StoreFile;
use cs_store::FileNo;
use std::alloc::AllocError;
use std::fs::{OpenFile, OpenOptions};
use std::io;
use std::os::unix::fs::{FileExt, OpenOptionsExt};
use std::rt::Files;

/// How many files are open at most.
const OPEN_FILES: usize = 8;

/// A folder. Its calls take no memory.
#[derive(Drop)]
pub(crate) struct Folder<R: Files + AllocGlobal + Drop>
where
    R::File: StoreFile,
{
    rt: R,
    // The open folder, whose lock it has.
    folder: R::File,
    path: String,
    // Room for the path of a file.
    name: String,
    // The oldest first, with room for all.
    open: Vec<Open<R::File>>,
    has_new_name: bool,
}

#[derive(Drop)]
struct Open<F: Drop> {
    number: u16,
    file: F,
    is_written: bool,
}

impl<R: Files + AllocGlobal + Drop> Folder<R>
where
    R::File: StoreFile,
{
    /// An open folder at this path.
    pub(crate) fn new(rt: R, folder: R::File, path: String) -> Result<Folder<R>, AllocError> {
        let alloc = rt.alloc();
        let name = format!(in alloc; "{}/65535", path.as_str())?;
        let open = Vec::with_capacity(alloc, OPEN_FILES)?;
        Ok(Folder {
            rt,
            folder,
            path,
            name,
            open,
            has_new_name: false,
        })
    }

    pub(crate) fn len(&mut self, f: FileNo) -> io::Result<u64> {
        let place = self.find(f)?;
        Ok(self.open[place].file.metadata()?.len())
    }

    pub(crate) fn read(&mut self, f: FileNo, at: u64, buf: &mut [u8]) -> io::Result<()> {
        let place = self.find(f)?;
        self.open[place].file.read_exact_at(buf, at)
    }

    pub(crate) fn write(&mut self, f: FileNo, at: u64, bytes: &[u8]) -> io::Result<()> {
        let place = self.find(f)?;
        let open = &mut self.open[place];
        open.is_written = true;
        open.file.write_all_at(bytes, at)
    }

    pub(crate) fn cut(&mut self, f: FileNo, len: u64) -> io::Result<()> {
        let place = self.find(f)?;
        let open = &mut self.open[place];
        open.is_written = true;
        open.file.set_len(len)
    }

    /// Puts a file on the disk, and the names of those that were made before it.
    pub(crate) fn sync(&mut self, f: FileNo) -> io::Result<()> {
        let place = self.find(f)?;
        if self.has_new_name {
            self.sync_names()?;
        }
        let open = &mut self.open[place];
        open.file.sync_data()?;
        open.is_written = false;
        Ok(())
    }

    /// Puts a file on the disk, and lets it be read from there.
    pub(crate) fn settle(&mut self, f: FileNo) -> io::Result<()> {
        let place = self.find(f)?;
        let open = &self.open[place];
        open.file.sync_all()?;
        open.file.drop_pages()
    }

    /// Puts the names of the files on the disk.
    pub(crate) fn sync_names(&mut self) -> io::Result<()>
        ensures { vec_len self.new.open ≡ vec_len self.old.open }
    {
        self.folder.sync_all()?;
        self.has_new_name = false;
        Ok(())
    }

    // The place of the file of this number among the open ones. One that isn't there is made.
    fn find(&mut self, f: FileNo) -> io::Result<usize>
        ensures { IfOk result (λ place. place < vec_len self.new.open) }
    {
        let number = f.number();
        if let Some(place) = place_of(&self.open, number) {
            return Ok(place);
        }
        if self.open.len() >= OPEN_FILES {
            close_first(&mut self.open)?;
        }
        let file = self.open_file(number)?;
        let place = self.open.len();
        self.open.push(Open {
            number,
            file,
            is_written: false,
        })?;
        Ok(place)
    }

    // Opens a file, or makes it, for its owner alone.
    fn open_file(&mut self, number: u16) -> io::Result<R::File> {
        self.name.clear();
        write!(self.name, "{}/{number}", self.path.as_str())?;
        let name = self.name.as_str();
        let mut options = OpenOptions::new();
        options.read(true).write(true).mode(0o600);
        match options.open(&self.rt, name) {
            Err(error) if error.kind() == io::ErrorKind::NotFound => {
                self.has_new_name = true;
                options.create_new(true).open(&self.rt, name)
            }
            there => there,
        }
    }
}

fn place_of<F: Drop>(open: &[Open<F>], number: u16) -> Option<usize>
    ensures { IfSome result (λ place. place < length open.now) }
{
    open.iter().position(|one| one.number == number)
}

// Closes the oldest of the open files. One with writes that aren't on the disk is synced before.
fn close_first<F: StoreFile + Drop>(open: &mut Vec<Open<F>>) -> io::Result<()>
    requires { 0 < vec_len open.old }
{
    let first = &open[0];
    if first.is_written {
        first.file.sync_data()?;
    }
    let _ = open.remove(0);
    Ok(())
}
