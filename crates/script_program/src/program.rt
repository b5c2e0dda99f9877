//! A script that is read, run and printed, and how the program ends.

ghost use Rattle.std.specs.Prelude.{All, ◌≡◌, ◌≢◌, ◌⊎◌, ◌≤◌, ◌++◌, ◌∷◌, [], ℕ, List, Ok, codes, Some, Err, IfOk, IfErr, OnOk, IfSome, IsErrOf};
ghost use Rattle.std.specs.Fmt.{decimal};
ghost use Rattle.cs_base.specs.Faults.{HasRisen};
ghost use Rattle.fault_script.specs.Script.{IsRead, IsSaid};
ghost use Rattle.fault_script.specs.declared.script.Script.{Script as script_value};
ghost use Rattle.fault_script.specs.declared.script.ScriptError.{ScriptError};
ghost use Rattle.script_program.specs.Endings.{IsTold, IsRunOf, LeavesLine, RefusesScript, IsRefusalStatus, IsRefusedWith, IsServedWith, IsRefused, of_read, of_parse, error_line as error_line_of};
ghost use Rattle.script_program.specs.Lines.{HasKv};
ghost use Rattle.script_program.specs.Streams.{WritesAll, WritesFront};
ghost use Rattle.script_program.specs.declared.program.Refusal.TheVariants.{NoMemory as RefusalMemory};

use crate::run::run;
use crate::statements::scripts_have_kv;
use crate::streams::{ReadError, read_all, write_all};
use chronicle_print::push_number;
use cs_base::Failed;
use cs_io::{Sink, Source};
use fault_script::{
    ParseError, Script, ScriptError, one_reading, parse, scripts_have_an_expiry,
    statements_are_read,
};
use list_replica::MemListReplica;
use std::alloc::{AllocError, Global};
use std::mem;

/// How the program ended. `script` never ends with `StoreFault`, `DoorFault`, `NoThread`, `HistoryFull` or `Damaged`,
/// which are for serving connections.
#[derive(Clone, Copy, Debug, PartialEq, Eq)]
pub enum Status {
    Ok,
    Usage,
    BadScript,
    ReadFault,
    WriteFault,
    StoreFault,
    NoMemory,
    DoorFault,
    NoThread,
    HistoryFull,
    Damaged,
}

impl Status {
    ghost use Rattle.script_program.specs.Endings.{code_of};

    /// The number that the process ends with.
    pub fn code(self) -> u8
        ensures { result ≡ code_of self }
    {
        match self {
            Status::Ok => 0,
            Status::Usage => 2,
            Status::BadScript => 3,
            Status::ReadFault => 4,
            Status::WriteFault => 5,
            Status::StoreFault => 6,
            Status::NoMemory => 7,
            Status::DoorFault => 8,
            Status::NoThread => 9,
            Status::HistoryFull => 10,
            Status::Damaged => 11,
        }
    }
}

/// Why there is no run in print.
#[derive(Clone, Copy, Debug, PartialEq, Eq)]
pub enum Refusal {
    Script(ScriptError),
    ReadFault,
    NoMemory,
}

impl From<AllocError> for Refusal {
    ghost from_gives = { λ _ r. r ≡ RefusalMemory };

    fn from(_error: AllocError) -> Refusal {
        Refusal::NoMemory
    }
}

impl From<ReadError> for Refusal {
    ghost from_gives = { λ e r. r ≡ of_read e };

    fn from(error: ReadError) -> Refusal {
        match error {
            ReadError::Failed => Refusal::ReadFault,
            ReadError::NoMemory => Refusal::NoMemory,
        }
    }
}

impl From<ParseError> for Refusal {
    ghost from_gives = { λ e r. r ≡ of_parse e };

    fn from(error: ParseError) -> Refusal {
        match error {
            ParseError::Script(error) => Refusal::Script(error),
            ParseError::NoMemory => Refusal::NoMemory,
        }
    }
}

/// The script that the source has left, read to its end.
fn read_script<S: Source>(alloc: Global, source: &mut S) -> Result<Script, Refusal>
    ensures script { IfOk result (λ script. IfSome (S.remaining source.old) (λ left. IsRead left (Ok script))) }
    ensures end { OnOk result (IfSome (S.remaining source.old) (λ _. S.remaining source.new ≡ Some [])) }
    ensures refused { IfErr result (λ r. IfSome (S.remaining source.old) (λ left. IsRefused left r)) }
    ensures said { IfOk result (λ script. All IsSaid script.events) }
    ensures kv { IfOk result (λ script. HasKv script.schema) }
    ensures expiry { IfOk result (λ script. script.expiry ≤ 100000) }
    ensures failed { IsErrOf result Refusal.ReadFault → HasRisen (S.faults source.old) (S.faults source.new) }
{
    statements_are_read();
    scripts_have_kv();
    scripts_have_an_expiry();
    let text = read_all(alloc, source)?;
    Ok(parse(alloc, &text)?)
}

/// The run of that script, in print.
fn print_run<S: Source>(alloc: Global, source: &mut S) -> Result<Vec<u8>, Refusal>
    ensures text { IfOk result (λ text. IfSome (S.remaining source.old) (λ left. IsRunOf left text.items)) }
    ensures end { OnOk result (IfSome (S.remaining source.old) (λ _. S.remaining source.new ≡ Some [])) }
    ensures refused { IfErr result (λ r. IfSome (S.remaining source.old) (λ left. IsRefused left r)) }
    ensures failed { IsErrOf result Refusal.ReadFault → HasRisen (S.faults source.old) (S.faults source.new) }
{
    let script = read_script(alloc, source)?;
    let text = run::<MemListReplica>(alloc, &script)?;
    mem::forget(script);
    Ok(text)
}

/// Writes a last line. Where that fails, the status already says what ended the run.
pub fn leave_line<T: Sink>(sink: &mut T, line: &[u8])
    ensures left { LeavesLine (T.contents sink.old) (T.contents sink.new) (T.faults sink.old) (T.faults sink.new) line.now }
    ensures counted { T.faults sink.old ≤ T.faults sink.new }
{
    let _ = write_all(sink, line);
}

/// The line of a refusal that has a number.
fn numbered_line(alloc: Global, number: u64, text: &str) -> Result<Vec<u8>, AllocError>
    ensures { IfOk result (λ line. line.items ≡ decimal number ++ (text.now ++ 10 ∷ [])) }
{
    let mut line = Vec::new(alloc);
    push_number(&mut line, number)?;
    line.extend_from_slice(text.as_bytes())?;
    line.push(b'\n')?;
    Ok(line)
}

fn cql_line(alloc: Global, number: u64, at: usize) -> Result<Vec<u8>, AllocError>
    ensures { IfOk result (λ line. line.items ≡ error_line_of (ScriptError.Cql number at)) }
{
    let mut line = Vec::new(alloc);
    push_number(&mut line, number)?;
    line.extend_from_slice(b": cql refused at ")?;
    push_number(&mut line, at as u64)?;
    line.push(b'\n')?;
    Ok(line)
}

fn error_line(alloc: Global, error: ScriptError) -> Result<Vec<u8>, AllocError>
    ensures { IfOk result (λ line. line.items ≡ error_line_of error) }
{
    match error {
        ScriptError::Head(number) => numbered_line(alloc, number, ": head expected"),
        ScriptError::Line(number) => numbered_line(alloc, number, ": line not understood"),
        ScriptError::Number(number) => numbered_line(alloc, number, ": number out of range"),
        ScriptError::Cql(number, at) => cql_line(alloc, number, at),
        ScriptError::TooLong => Vec::from_slice(alloc, b"script too long\n"),
        ScriptError::TooMany => Vec::from_slice(alloc, b"too many lines\n"),
    }
}

/// Tells why the text is no script, or that there is no memory to tell it.
fn leave_error<T: Sink>(alloc: Global, sink: &mut T, error: ScriptError) -> Status
    ensures told { result ≡ Status.BadScript → LeavesLine (T.contents sink.old) (T.contents sink.new) (T.faults sink.old) (T.faults sink.new) (error_line_of error) }
    ensures untold { result ≢ Status.BadScript → result ≡ Status.NoMemory }
    ensures memory { result ≡ Status.NoMemory → LeavesLine (T.contents sink.old) (T.contents sink.new) (T.faults sink.old) (T.faults sink.new) (codes "no memory\n") }
{
    match error_line(alloc, error) {
        Ok(line) => {
            leave_line(sink, &line);
            Status::BadScript
        }
        Err(AllocError) => {
            leave_line(sink, b"no memory\n");
            Status::NoMemory
        }
    }
}

/// Tells why there is no run in print.
pub fn leave_refusal<T: Sink>(alloc: Global, sink: &mut T, refusal: Refusal) -> Status
    ensures script { result ≡ Status.BadScript → RefusesScript refusal (LeavesLine (T.contents sink.old) (T.contents sink.new) (T.faults sink.old) (T.faults sink.new)) }
    ensures read_fault { result ≡ Status.ReadFault → refusal ≡ Refusal.ReadFault × LeavesLine (T.contents sink.old) (T.contents sink.new) (T.faults sink.old) (T.faults sink.new) (codes "read fault\n") }
    ensures memory { result ≡ Status.NoMemory → LeavesLine (T.contents sink.old) (T.contents sink.new) (T.faults sink.old) (T.faults sink.new) (codes "no memory\n") }
    ensures others { IsRefusalStatus result }
{
    match refusal {
        Refusal::Script(error) => leave_error(alloc, sink, error),
        Refusal::ReadFault => {
            leave_line(sink, b"read fault\n");
            Status::ReadFault
        }
        Refusal::NoMemory => {
            leave_line(sink, b"no memory\n");
            Status::NoMemory
        }
    }
}

/// Writes what a command tells, and nothing else.
pub fn tell<T: Sink>(sink: &mut T, text: &[u8]) -> Status
    ensures told { IsTold (T.contents sink.old) (T.contents sink.new) (T.faults sink.old) (T.faults sink.new) text.now result }
    ensures counted { T.faults sink.old ≤ T.faults sink.new }
{
    match write_all(sink, text) {
        Ok(()) => Status::Ok,
        Err(Failed) => Status::WriteFault,
    }
}

/// Reads a fault script to its end, runs it, and writes the printed chronicle.
pub fn run_script<S: Source, T: Sink>(alloc: Global, source: &mut S, sink: &mut T) -> Status
    ensures ok { result ≡ Status.Ok → IfSome (S.remaining source.old) (λ left. (text : List ℕ) × IsRunOf left text × WritesAll (T.contents sink.old) (T.contents sink.new) text) }
    ensures end { result ≡ Status.Ok → IfSome (S.remaining source.old) (λ _. S.remaining source.new ≡ Some []) }
    ensures bad_script { result ≡ Status.BadScript → IfSome (S.remaining source.old) (λ left. (error : ScriptError) × IsRead left (Err error) × LeavesLine (T.contents sink.old) (T.contents sink.new) (T.faults sink.old) (T.faults sink.new) (error_line_of error)) }
    ensures read_fault { result ≡ Status.ReadFault → HasRisen (S.faults source.old) (S.faults source.new) × LeavesLine (T.contents sink.old) (T.contents sink.new) (T.faults sink.old) (T.faults sink.new) (codes "read fault\n") }
    ensures write_fault { result ≡ Status.WriteFault → HasRisen (T.faults sink.old) (T.faults sink.new) }
    ensures written { result ≡ Status.WriteFault → IfSome (S.remaining source.old) (λ left. (text : List ℕ) × IsRunOf left text × WritesFront (T.contents sink.old) (T.contents sink.new) text) }
    ensures statuses { (result ≡ Status.Ok) ⊎ (result ≡ Status.WriteFault) ⊎ IsRefusalStatus result }
    ensures refused { IfSome (S.remaining source.old) (λ left. (error : ScriptError) → IsRead left (Err error) → IsRefusedWith (S.faults source.old) (S.faults source.new) result) }
    ensures served { IfSome (S.remaining source.old) (λ left. (script : script_value) → IsRead left (Ok script) → IsServedWith (S.faults source.old) (S.faults source.new) (T.faults sink.old) (T.faults sink.new) result) }
    ensures no_memory { result ≡ Status.NoMemory → LeavesLine (T.contents sink.old) (T.contents sink.new) (T.faults sink.old) (T.faults sink.new) (codes "no memory\n") }
{
    one_reading();
    match print_run(alloc, source) {
        Ok(text) => match write_all(sink, &text) {
            Ok(()) => Status::Ok,
            Err(Failed) => Status::WriteFault,
        },
        Err(refusal) => leave_refusal(alloc, sink, refusal),
    }
}
