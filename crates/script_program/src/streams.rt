//! A source read to its end, and a text written whole.

ghost use Rattle.std.specs.Prelude.{◌≡◌, ◌⊎◌, ◌≤◌, ◌<◌, ◌++◌, length, take, IfOk, IfErr, OnOk, OnErr, IfSome, IsErrOf, vec_len};
ghost use Rattle.cs_base.specs.Faults.{HasRisen};
ghost use Rattle.script_program.specs.Streams.{IsAllOf, WritesAll, WritesFront};
ghost use Rattle.script_program.specs.declared.streams.ReadError.TheVariants.{NoMemory as ReadMemory};

use cs_base::Failed;
use cs_io::{Sink, Source};
use fault_script::LONGEST_SCRIPT;
use std::alloc::{AllocError, Global};

/// How many bytes are asked for at a time.
const PIECE: usize = 65_536;

/// Why a source gave no text.
#[derive(Clone, Copy, Debug, PartialEq, Eq)]
pub enum ReadError {
    Failed,
    NoMemory,
}

impl From<AllocError> for ReadError {
    ghost from_gives = { λ _ e. e ≡ ReadMemory };

    fn from(_error: AllocError) -> ReadError {
        ReadError::NoMemory
    }
}

fn buffer(alloc: Global, len: usize) -> Result<Vec<u8>, AllocError>
    ensures { IfOk result (λ bytes. vec_len bytes ≡ len) }
{
    vec![in alloc; 0; len]
}

/// What the source has left, or a front of it that is longer than any script.
pub fn read_all<S: Source>(alloc: Global, source: &mut S) -> Result<Vec<u8>, ReadError>
    ensures text { IfOk result (λ text. IfSome (S.remaining source.old) (λ left. IsAllOf left text.items (S.remaining source.new))) }
    ensures counted { S.faults source.old ≤ S.faults source.new }
    ensures failed { IsErrOf result ReadError.Failed → HasRisen (S.faults source.old) (S.faults source.new) }
{
    let mut text = Vec::new(alloc);
    let mut piece = buffer(alloc, PIECE)?;
    while text.len() <= LONGEST_SCRIPT {
        let Ok(count) = source.read(piece.as_mut_slice()) else {
            return Err(ReadError::Failed);
        };
        if count == 0 {
            break;
        }
        text.extend_from_slice(&piece[..count])?;
    }
    Ok(text)
}

/// Writes the text whole. Of a text that is not, a front is written.
pub fn write_all<T: Sink>(sink: &mut T, text: &[u8]) -> Result<(), Failed>
    ensures ok { OnOk result (WritesAll (T.contents sink.old) (T.contents sink.new) text.now) }
    ensures err { OnErr result (WritesFront (T.contents sink.old) (T.contents sink.new) text.now) }
    ensures counted { T.faults sink.old ≤ T.faults sink.new }
    ensures failed { OnErr result (HasRisen (T.faults sink.old) (T.faults sink.new)) }
{
    let mut rest = text;
    while !rest.is_empty() {
        let count = sink.write(rest)?;
        if count == 0 {
            return Err(Failed);
        }
        let (_, behind) = rest.split_at(count);
        rest = behind;
    }
    Ok(())
}
