//! A head that is read byte by byte.

ghost use Rattle.std.specs.Prelude.{◌≡◌, ◌≤◌, [], false, IfOk, IfSome, OnOk, OnErr, IsErrOf};
ghost use Rattle.cs_base.specs.Faults.{HasRisen};
ghost use Rattle.source_lines.specs.Lines.{left_of};
ghost use Rattle.source_lines.specs.Heads.{with_byte, ended_here, GivesHead, LosesFront, TakesNext, LosesOne};
ghost use Rattle.source_lines.specs.declared.head.ReadError.TheVariants.{Failed as ReadFailed, NoMemory as ReadMemory};

use crate::ahead::Ahead;
use cs_base::Failed;
use cs_io::Source;
use std::alloc::{AllocFailed, Global};
use std::marker::Model;

/// Why there is no head.
#[derive(Clone, Copy, Debug, PartialEq, Eq)]
pub enum ReadError {
    Failed,
    NoMemory,
}

impl From<Failed> for ReadError {
    ghost from_gives = { λ _ e. e ≡ ReadFailed };

    fn from(_error: Failed) -> ReadError {
        ReadError::Failed
    }
}

impl<T: Drop> From<AllocFailed<T>> for ReadError {
    ghost from_gives = { λ _ e. e ≡ ReadMemory };

    fn from(_error: AllocFailed<T>) -> ReadError {
        ReadError::NoMemory
    }
}

/// What was read of a head so far.
#[derive(Drop)]
pub(crate) struct Head {
    bytes: Vec<u8>,
    // Where its last line begins.
    line: usize,
    // It has no more bytes.
    ended: bool,
}

impl Model for Head {
    ghost use Rattle.std.specs.Prelude.{drop, ◌≤◌, vec_len};
    ghost use Rattle.source_lines.specs.Heads.{HeadSoFar};

    ghost Value = { HeadSoFar };

    ghost view = { λ a. record { bytes = a.bytes.items; line = drop a.line a.bytes.items; ended = a.ended } };

    ghost invariant = { λ a. a.line ≤ vec_len a.bytes };
}

impl Head {
    ghost use Rattle.std.specs.Prelude.{◌&&◌, not, length, nat_le};

    pub(crate) fn new(alloc: Global) -> Head
        ensures { result ≡ record { bytes = []; line = []; ended = false } }
    {
        Head {
            bytes: Vec::new(alloc),
            line: 0,
            ended: false,
        }
    }

    /// Whether it goes on, and is no longer than this.
    pub(crate) fn goes_on(&self, longest: usize) -> bool
        ensures { result ≡ not self.now.ended && nat_le (length self.now.bytes) longest }
    {
        !self.ended && self.bytes.len() <= longest
    }

    /// Takes its next byte. It ends with the line `run`.
    pub(crate) fn push(&mut self, byte: u8) -> Result<(), AllocFailed<u8>>
        ensures { OnOk result (self.new ≡ with_byte self.old byte) }
    {
        let ends_line = byte == b'\n';
        let ended = ends_line && &self.bytes[self.line..] == b"run".as_slice();
        self.bytes.push(byte)?;
        if ends_line {
            self.line = self.bytes.len();
        }
        self.ended = ended;
        Ok(())
    }

    /// There are no more bytes.
    pub(crate) fn end(&mut self)
        ensures { self.new ≡ ended_here self.old }
    {
        self.ended = true;
    }

    pub(crate) fn into_bytes(self) -> Vec<u8>
        ensures { result.items ≡ self.bytes }
    {
        self.bytes
    }
}

/// Takes the next byte into the head. The head ends where there is none.
fn read_on<S: Source>(ahead: &mut Ahead, source: &mut S, head: &mut Head) -> Result<(), ReadError>
    ensures ok { OnOk result (TakesNext (left_of ahead.old (S.remaining source.old)) head.old head.new (left_of ahead.new (S.remaining source.new))) }
    ensures err { OnErr result (IfSome (left_of ahead.old (S.remaining source.old)) (λ left. LosesOne left (left_of ahead.new (S.remaining source.new)))) }
    ensures counted { S.faults source.old ≤ S.faults source.new }
    ensures failed { IsErrOf result ReadError.Failed → HasRisen (S.faults source.old) (S.faults source.new) }
{
    match ahead.next(source)? {
        Some(byte) => head.push(byte)?,
        None => head.end(),
    }
    Ok(())
}

/// Reads a head of so many bytes at most, or a byte more where it is longer.
pub(crate) fn read_head<S: Source>(
    ahead: &mut Ahead,
    source: &mut S,
    alloc: Global,
    longest: usize,
) -> Result<Vec<u8>, ReadError>
    ensures ok { IfOk result (λ head. IfSome (left_of ahead.old (S.remaining source.old)) (λ left. GivesHead longest left head.items (left_of ahead.new (S.remaining source.new)))) }
    ensures err { OnErr result (IfSome (left_of ahead.old (S.remaining source.old)) (λ left. LosesFront longest left (left_of ahead.new (S.remaining source.new)))) }
    ensures counted { S.faults source.old ≤ S.faults source.new }
    ensures failed { IsErrOf result ReadError.Failed → HasRisen (S.faults source.old) (S.faults source.new) }
{
    let mut head = Head::new(alloc);
    while head.goes_on(longest) {
        read_on(ahead, source, &mut head)?;
    }
    Ok(head.into_bytes())
}
