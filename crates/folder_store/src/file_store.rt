//! The store in a folder.

ghost use Rattle.std.specs.Prelude.{◌≡◌, ◌+◌, ◌^◌, true, false, not, length, is_ok, OnErr};
ghost use Rattle.cs_store.specs.Faults.{HasCause};
ghost use Rattle.folder_store.specs.Unknown.{unknown};

use crate::StoreFile;
use crate::folder::Folder;
use cs_base::{Failed, Faults};
use cs_store::{FileNo, Store};
use http_server::Log;
use std::alloc::AllocError;
use std::io;
use std::rt::Files;

/// Up to which offset a file of the system can be written.
const MAX_LEN: u64 = 1 << 63;

/// A disk in a folder, with a file for each number. A file that isn't there is made when it is first asked for.
///
/// What it holds is told by nobody: that the file system keeps to the disk model is trusted. After its first failure it
/// refuses every further call, until it is opened anew. Its calls take no memory.
#[derive(Drop)]
pub struct FileStore<R: Files + AllocGlobal + Drop>
where
    R::File: StoreFile,
{
    folder: Folder<R>,
    has_failed: bool,
    faults: Faults,
    // The counted calls, for proofs alone: they take no memory.
    calls: Log<(), ()>,
}

impl<R: Files + AllocGlobal + Drop> FileStore<R>
where
    R::File: StoreFile,
{
    pub(crate) fn new(folder: Folder<R>) -> FileStore<R>
        ensures { result.faults ≡ 0 }
    {
        FileStore {
            folder,
            has_failed: false,
            faults: Faults::new(),
            calls: Log::new(),
        }
    }

    /// How often a call has failed.
    pub fn faults(&self) -> Faults
        ensures { result ≡ self.now.faults }
    {
        self.faults
    }

    // Counts a call. It fails if one has failed before.
    fn begin(&mut self) -> Result<(), Failed>
        ensures refused { is_ok result ≡ not self.old.has_failed }
        ensures same { self.new.has_failed ≡ self.old.has_failed }
        ensures cause { HasCause self.old.faults self.new.faults result }
        ensures counted { length self.new.calls.items ≡ length self.old.calls.items + 1 }
    {
        self.calls = self.calls.and(&(), &());
        if self.has_failed {
            self.faults.raise();
            return Err(Failed);
        }
        Ok(())
    }

    // Counts an error, after which no call goes through.
    fn end<T>(&mut self, answer: io::Result<T>) -> Result<T, Failed>
        ensures same { is_ok result ≡ is_ok answer }
        ensures err { OnErr result (self.new.has_failed ≡ true) }
        ensures cause { HasCause self.old.faults self.new.faults result }
        ensures calls { self.new.calls ≡ self.old.calls }
    {
        match answer {
            Ok(value) => Ok(value),
            Err(_) => {
                self.has_failed = true;
                self.faults.raise();
                Err(Failed)
            }
        }
    }
}

impl<R: Files + AllocGlobal + Drop> Store for FileStore<R>
where
    R::File: StoreFile,
{
    ghost is_honest = { ⊥ };

    ghost disk = { λ _. unknown };

    ghost faults = { λ s. s.faults };

    ghost calls = { λ s. length s.calls.items };

    ghost spares = { λ _ _. ⊥ };

    ghost reserved = { λ _ _. 2 ^ 63 };

    // Behind a failure each call fails.
    ghost acts = { λ _ _ old new answer. (old.has_failed ≡ true → answer ≡ false) × (answer ≡ false → new.has_failed ≡ true) };

    ghost may_stay = { λ _ honest. absurd honest };

    ghost spares_fewer = { λ _ _ _ _ spares. spares };

    fn len(&mut self, f: FileNo) -> Result<u64, Failed> {
        self.begin()?;
        let answer = self.folder.len(f);
        self.end(answer)
    }

    fn read(&mut self, f: FileNo, at: u64, buf: &mut [u8]) -> Result<(), Failed> {
        self.begin()?;
        let answer = self.folder.read(f, at, buf);
        self.end(answer)
    }

    fn reserve(&mut self, _f: FileNo, upto: u64) -> Result<(), AllocError> {
        if upto > MAX_LEN {
            return Err(AllocError);
        }
        Ok(())
    }

    fn write_at(&mut self, f: FileNo, at: u64, bytes: &[u8]) -> Result<(), Failed> {
        self.begin()?;
        let answer = self.folder.write(f, at, bytes);
        self.end(answer)
    }

    fn cut(&mut self, f: FileNo, len: u64) -> Result<(), Failed> {
        self.begin()?;
        let answer = self.folder.cut(f, len);
        self.end(answer)
    }

    fn sync(&mut self, f: FileNo) -> Result<(), Failed> {
        self.begin()?;
        let answer = self.folder.sync(f);
        self.end(answer)
    }
}
