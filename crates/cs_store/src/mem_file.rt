//! A file in memory.

ghost use Rattle.std.specs.Prelude.{◌≡◌, ◌+◌, ◌≤◌, length, take, OnOk, vec_len, vec_capacity};
ghost use Rattle.cs_store.specs.Disk.{overwritten};
ghost use Rattle.cs_store.specs.Images.{complement, written, shortened, settled};
ghost use Rattle.cs_store.specs.MemFile.{nothing};

use std::alloc::{AllocError, Global};
use std::marker::Model;

/// What a crash makes of the writes since the last sync of each file.
#[derive(Clone, Copy, Debug, PartialEq, Eq)]
pub enum Outcome {
    /// All of them are there.
    Kept,
    /// None is.
    Lost,
    /// Each written byte has its bits turned, and the length is the new one.
    Torn,
}

/// A file, as each outcome of a crash would leave it. The three are alike below `settled`.
#[derive(Debug, Drop)]
pub(crate) struct MemFile {
    kept: Vec<u8>,
    lost: Vec<u8>,
    torn: Vec<u8>,
    settled: usize,
}

impl Model for MemFile {
    ghost use Rattle.std.specs.Prelude.{◌≡◌, ◌≤◌, min, length, take, vec_capacity};
    ghost use Rattle.cs_store.specs.MemFile.{Content};
    ghost use Rattle.cs_store.specs.MemParts.{room_of, IsSound};

    ghost Value = { Content };

    ghost view = { λ a. record { images = record { kept = a.kept.items; lost = a.lost.items; torn = a.torn.items }; room = room_of (vec_capacity a.kept) (vec_capacity a.lost) (vec_capacity a.torn) } };

    ghost invariant = { λ a. IsSound a.kept.items a.lost.items a.torn.items a.settled (room_of (vec_capacity a.kept) (vec_capacity a.lost) (vec_capacity a.torn)) };
}

impl MemFile {
    pub(crate) fn new(alloc: Global) -> MemFile
        ensures { result ≡ nothing }
    {
        MemFile {
            kept: Vec::new(alloc),
            lost: Vec::new(alloc),
            torn: Vec::new(alloc),
            settled: 0,
        }
    }

    pub(crate) fn bytes(&self) -> &[u8]
        ensures { result.now ≡ self.now.images.kept }
    {
        &self.kept
    }

    pub(crate) fn reserve(&mut self, upto: usize) -> Result<(), AllocError>
        ensures ok { OnOk result (upto ≤ self.new.room) }
        ensures room { self.old.room ≤ self.new.room }
        ensures images { self.new.images ≡ self.old.images }
    {
        grow(&mut self.kept, upto)?;
        grow(&mut self.lost, upto)?;
        grow(&mut self.torn, upto)
    }

    pub(crate) fn write_at(&mut self, at: usize, bytes: &[u8])
        requires place { at ≤ length self.old.images.kept }
        requires room { at + length bytes.now ≤ self.old.room }
        ensures images { self.new.images ≡ written at bytes.now self.old.images }
        ensures size { length self.old.images.torn ≡ length self.old.images.kept }
        ensures room { self.old.room ≤ self.new.room }
    {
        overwrite(&mut self.kept, at, bytes);
        overwrite_torn(&mut self.torn, at, bytes);
        self.settled = self.settled.min(at);
    }

    pub(crate) fn cut(&mut self, len: usize)
        requires { len ≤ length self.old.images.kept }
        ensures images { self.new.images ≡ shortened len self.old.images }
        ensures room { self.old.room ≤ self.new.room }
    {
        self.kept.truncate(len);
        self.torn.truncate(len);
        self.settled = self.settled.min(len);
    }

    /// Settles the file: from now on every outcome leaves what this one would have left.
    pub(crate) fn settle(&mut self, outcome: Outcome)
        ensures images { self.new.images ≡ settled outcome self.old.images }
        ensures room { self.old.room ≤ self.new.room }
    {
        let at = self.settled;
        match outcome {
            Outcome::Kept => {
                follow(&mut self.lost, &self.kept, at);
                follow(&mut self.torn, &self.kept, at);
            }
            Outcome::Lost => {
                follow(&mut self.kept, &self.lost, at);
                follow(&mut self.torn, &self.lost, at);
            }
            Outcome::Torn => {
                follow(&mut self.kept, &self.torn, at);
                follow(&mut self.lost, &self.torn, at);
            }
        }
        self.settled = self.kept.len();
    }
}

// Makes room for `len` bytes in all.
fn grow(bytes: &mut Vec<u8>, len: usize) -> Result<(), AllocError>
    ensures items { bytes.new.items ≡ bytes.old.items }
    ensures ok { OnOk result (len ≤ vec_capacity bytes.new) }
    ensures room { vec_capacity bytes.old ≤ vec_capacity bytes.new }
{
    bytes.reserve(len.saturating_sub(bytes.len()))
}

// Writes these bytes over what is there and past the end.
fn overwrite(there: &mut Vec<u8>, at: usize, bytes: &[u8])
    requires place { at ≤ vec_len there.old }
    requires room { at + length bytes.now ≤ vec_capacity there.old }
    ensures items { there.new.items ≡ overwritten there.old.items at bytes.now }
    ensures room { vec_capacity there.old ≤ vec_capacity there.new }
{
    let inside = bytes.len().min(there.len() - at);
    there[at..at + inside].copy_from_slice(&bytes[..inside]);
    there.extend_from_slice(&bytes[inside..]).unwrap();
}

// The same, with the bits of each byte turned.
fn overwrite_torn(there: &mut Vec<u8>, at: usize, bytes: &[u8])
    requires place { at ≤ vec_len there.old }
    requires room { at + length bytes.now ≤ vec_capacity there.old }
    ensures items { there.new.items ≡ overwritten there.old.items at (complement bytes.now) }
    ensures room { vec_capacity there.old ≤ vec_capacity there.new }
{
    overwrite(there, at, bytes);
    turn(&mut there[at..at + bytes.len()]);
}

// Turns the bits of each byte.
fn turn(bytes: &mut [u8])
    ensures { bytes.new ≡ complement bytes.old }
{
    for byte in bytes.iter_mut() {
        *byte = !*byte;
    }
}

// Gives one list the bytes of another, to which it is equal below a place.
fn follow(there: &mut Vec<u8>, bytes: &[u8], at: usize)
    requires place { at ≤ length bytes.now }
    requires alike { take at there.old.items ≡ take at bytes.now }
    requires room { length bytes.now ≤ vec_capacity there.old }
    ensures items { there.new.items ≡ bytes.now }
    ensures room { vec_capacity there.old ≤ vec_capacity there.new }
{
    there.truncate(at);
    there.extend_from_slice(&bytes[at..]).unwrap();
}
