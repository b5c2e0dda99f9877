//! The reader of lines.

ghost use Rattle.std.specs.Prelude.{◌≡◌, ◌≤◌, [], IfOk, IfSome, OnErr, IsErrOf};
ghost use Rattle.cs_base.specs.Faults.{HasRisen};
ghost use Rattle.source_lines.specs.Lines.{left_of, GivesLine, LosesPart};
ghost use Rattle.source_lines.specs.Heads.{GivesHead, LosesFront};

use crate::ahead::Ahead;
use crate::head::{ReadError, read_head};
use crate::line::{TOLD, find_line};
use cs_base::Failed;
use cs_io::Source;
use std::alloc::{AllocError, Global};
use std::marker::Model;
use std::sync::Wait;

/// A reader of the lines of one source. It keeps what it has read of the source beyond the last line.
#[derive(Drop)]
pub struct LineReader {
    ahead: Ahead,
    line: Vec<u8>,
}

impl Model for LineReader {
    ghost use Rattle.std.specs.Prelude.{◌≤◌, vec_len, vec_capacity};
    ghost use Rattle.source_lines.specs.Lines.{Reading};

    ghost Value = { Reading };

    ghost view = { λ a. record { ahead = a.ahead; line = a.line.items } };

    ghost invariant = { λ a. (vec_len a.line ≤ 4097) × (4097 ≤ vec_capacity a.line) };
}

impl LineReader {
    /// A reader of a source of which nothing was read.
    pub fn new(alloc: Global) -> Result<LineReader, AllocError>
        ensures { IfOk result (λ reader. reader ≡ record { ahead = []; line = [] }) }
    {
        let ahead = Ahead::new(alloc)?;
        let line = Vec::with_capacity(alloc, TOLD)?;
        Ok(LineReader { ahead, line })
    }

    /// The last line that was found, without its line feed. Of a line of more than 4,096 bytes these are its first 4,097.
    pub fn line(&self) -> &[u8]
        ensures { result.now ≡ self.now.line }
    {
        self.line.as_slice()
    }

    /// Reads a head: the lines up to and with the first one that is just `run`, or all that is left where there is none. Of a
    /// head that is longer than `longest` bytes it reads one byte more than these.
    pub fn read_head<S: Source>(
        &mut self,
        alloc: Global,
        source: &mut S,
        longest: usize,
    ) -> Result<Vec<u8>, ReadError>
        ensures ok { IfOk result (λ head. IfSome (left_of self.old.ahead (S.remaining source.old)) (λ left. GivesHead longest left head.items (left_of self.new.ahead (S.remaining source.new)))) }
        ensures err { OnErr result (IfSome (left_of self.old.ahead (S.remaining source.old)) (λ left. LosesFront longest left (left_of self.new.ahead (S.remaining source.new)))) }
        ensures line { self.new.line ≡ self.old.line }
        ensures counted { S.faults source.old ≤ S.faults source.new }
        ensures failed { IsErrOf result ReadError.Failed → HasRisen (S.faults source.old) (S.faults source.new) }
    {
        read_head(&mut self.ahead, source, alloc, longest)
    }

    /// Goes to the next line, and says whether there is one. A last line needs no line feed.
    ///
    /// It takes no memory. A line that never ends is read forever.
    pub fn next_line<W: Wait, S: Source>(&mut self, rt: &W, source: &mut S) -> Result<bool, Failed>
        ensures ok { IfOk result (λ found. IfSome (left_of self.old.ahead (S.remaining source.old)) (λ left. GivesLine found left self.new.line (left_of self.new.ahead (S.remaining source.new)))) }
        ensures err { OnErr result (IfSome (left_of self.old.ahead (S.remaining source.old)) (λ left. LosesPart left self.new.line (left_of self.new.ahead (S.remaining source.new)))) }
        ensures counted { S.faults source.old ≤ S.faults source.new }
        ensures failed { OnErr result (HasRisen (S.faults source.old) (S.faults source.new)) }
    {
        self.line.clear();
        find_line(rt, &mut self.ahead, source, &mut self.line)
    }
}
