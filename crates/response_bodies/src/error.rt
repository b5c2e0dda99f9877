//! Errors (native_protocol_v4.spec, section 9).

ghost use Rattle.std.specs.Prelude.{◌≡◌, ◌++◌, ◌∷◌, ◌↔◌, [], IsTrue, OnOk};
ghost use Rattle.body_notations.specs.Reading.{Gives};
ghost use Rattle.response_bodies.specs.Reading.{cause_at, data_present, error_at, error_code, read_timeout_at, unavailable_at, write_timeout_at, write_type_at, write_type_of};
ghost use Rattle.response_bodies.specs.Spelling.{cause, code_of, counts, error, present_byte, read_timeout, type_text, write_timeout, CauseFits, ErrorFits};

use body_notations::{
    Consistency, Fault, Notation, SHORT_LIMIT, read_byte, read_consistency, read_int,
    read_short_bytes, read_string, write_consistency, write_int, write_short_bytes, write_string,
};
use cs_base::{Bytes, Text};
use std::alloc::{AllocError, Global};

/// Too few replicas are alive.
#[derive(Clone, Copy, Debug, PartialEq, Eq)]
pub struct Unavailable {
    pub consistency: Consistency,
    /// How many replicas the consistency needs.
    pub required: i32,
    /// How many are alive.
    pub alive: i32,
}

/// What kind of write timed out.
#[derive(Clone, Copy, Debug, PartialEq, Eq)]
pub enum WriteType {
    Simple,
    /// A conditional update.
    Cas,
}

/// Too few replicas answered a write in time.
#[derive(Clone, Copy, Debug, PartialEq, Eq)]
pub struct WriteTimeout {
    pub consistency: Consistency,
    /// How many replicas answered.
    pub received: i32,
    /// How many answers were needed.
    pub block_for: i32,
    pub write_type: WriteType,
}

/// Too few replicas answered a read in time.
#[derive(Clone, Copy, Debug, PartialEq, Eq)]
pub struct ReadTimeout {
    pub consistency: Consistency,
    /// How many replicas answered.
    pub received: i32,
    /// How many answers were needed.
    pub block_for: i32,
    /// A replica answered with data.
    pub data_present: bool,
}

/// Why a request failed.
#[derive(Debug, Drop)]
pub enum ErrorCause {
    /// 0000.
    Server,
    /// 000A.
    Protocol,
    /// 1000.
    Unavailable(Unavailable),
    /// 1001.
    Overloaded,
    /// 1100.
    WriteTimeout(WriteTimeout),
    /// 1200.
    ReadTimeout(ReadTimeout),
    /// 2000.
    Syntax,
    /// 2200.
    Invalid,
    /// 2500: the id that names no prepared statement.
    Unprepared(Bytes),
}

/// An error, in words too.
#[derive(Debug, Drop)]
pub struct ErrorResponse {
    pub cause: ErrorCause,
    pub text: Text,
}

/// What an error's code says.
#[derive(Clone, Copy)]
enum ErrorCode {
    Server,
    Protocol,
    Unavailable,
    Overloaded,
    WriteTimeout,
    ReadTimeout,
    Syntax,
    Invalid,
    Unprepared,
}

impl ErrorCode {
    fn of_int(code: i32) -> Result<ErrorCode, Fault>
        ensures { result ≡ error_code code }
    {
        if code < 0 {
            return Err(Fault::BadValue(code));
        }
        match code.unsigned_abs() {
            0x0000 => Ok(ErrorCode::Server),
            0x000a => Ok(ErrorCode::Protocol),
            0x1000 => Ok(ErrorCode::Unavailable),
            0x1001 => Ok(ErrorCode::Overloaded),
            0x1100 => Ok(ErrorCode::WriteTimeout),
            0x1200 => Ok(ErrorCode::ReadTimeout),
            0x2000 => Ok(ErrorCode::Syntax),
            0x2200 => Ok(ErrorCode::Invalid),
            0x2500 => Ok(ErrorCode::Unprepared),
            _ => Err(Fault::BadValue(code)),
        }
    }
}

#[tactic(auto, unfolding(crate::specs::Reading::unavailable_at))]
fn read_unavailable(bytes: &[u8]) -> Result<(Unavailable, &[u8]), Fault>
    ensures { Gives (λ x. (x.0, x.1.now)) result (unavailable_at bytes.now) }
{
    let (consistency, rest) = read_consistency(bytes)?;
    let (required, rest) = read_int(rest)?;
    let (alive, rest) = read_int(rest)?;
    let unavailable = Unavailable {
        consistency,
        required,
        alive,
    };
    Ok((unavailable, rest))
}

fn write_type_of(text: &str) -> Result<WriteType, Fault>
    ensures { result ≡ write_type_of text.now }
{
    if text == "SIMPLE" {
        Ok(WriteType::Simple)
    } else if text == "CAS" {
        Ok(WriteType::Cas)
    } else {
        Err(Fault::BadFlag)
    }
}

#[tactic(auto, unfolding(crate::specs::Reading::write_type_at))]
fn read_write_type(alloc: Global, bytes: &[u8]) -> Result<(WriteType, &[u8]), Fault>
    ensures { Gives (λ x. (x.0, x.1.now)) result (write_type_at bytes.now) }
{
    let (text, rest) = read_string(alloc, bytes)?;
    let write_type = write_type_of(text.as_str())?;
    Ok((write_type, rest))
}

#[tactic(auto, unfolding(crate::specs::Reading::write_timeout_at))]
fn read_write_timeout(alloc: Global, bytes: &[u8]) -> Result<(WriteTimeout, &[u8]), Fault>
    ensures { Gives (λ x. (x.0, x.1.now)) result (write_timeout_at bytes.now) }
{
    let (consistency, rest) = read_consistency(bytes)?;
    let (received, rest) = read_int(rest)?;
    let (block_for, rest) = read_int(rest)?;
    let (write_type, rest) = read_write_type(alloc, rest)?;
    let timeout = WriteTimeout {
        consistency,
        received,
        block_for,
        write_type,
    };
    Ok((timeout, rest))
}

fn data_present(byte: u8) -> Result<bool, Fault>
    ensures { result ≡ data_present byte }
{
    match byte {
        0 => Ok(false),
        1 => Ok(true),
        _ => Err(Fault::BadFlag),
    }
}

#[tactic(auto, unfolding(crate::specs::Reading::read_timeout_at))]
fn read_read_timeout(bytes: &[u8]) -> Result<(ReadTimeout, &[u8]), Fault>
    ensures { Gives (λ x. (x.0, x.1.now)) result (read_timeout_at bytes.now) }
{
    let (consistency, rest) = read_consistency(bytes)?;
    let (received, rest) = read_int(rest)?;
    let (block_for, rest) = read_int(rest)?;
    let (byte, rest) = read_byte(rest)?;
    let data_present = data_present(byte)?;
    let timeout = ReadTimeout {
        consistency,
        received,
        block_for,
        data_present,
    };
    Ok((timeout, rest))
}

fn read_cause(alloc: Global, code: ErrorCode, bytes: &[u8]) -> Result<(ErrorCause, &[u8]), Fault>
    ensures { Gives (λ x. (x.0, x.1.now)) result (cause_at code bytes.now) }
{
    match code {
        ErrorCode::Server => Ok((ErrorCause::Server, bytes)),
        ErrorCode::Protocol => Ok((ErrorCause::Protocol, bytes)),
        ErrorCode::Unavailable => {
            let (unavailable, rest) = read_unavailable(bytes)?;
            Ok((ErrorCause::Unavailable(unavailable), rest))
        }
        ErrorCode::Overloaded => Ok((ErrorCause::Overloaded, bytes)),
        ErrorCode::WriteTimeout => {
            let (timeout, rest) = read_write_timeout(alloc, bytes)?;
            Ok((ErrorCause::WriteTimeout(timeout), rest))
        }
        ErrorCode::ReadTimeout => {
            let (timeout, rest) = read_read_timeout(bytes)?;
            Ok((ErrorCause::ReadTimeout(timeout), rest))
        }
        ErrorCode::Syntax => Ok((ErrorCause::Syntax, bytes)),
        ErrorCode::Invalid => Ok((ErrorCause::Invalid, bytes)),
        ErrorCode::Unprepared => {
            let (id, rest) = read_short_bytes(alloc, bytes)?;
            Ok((ErrorCause::Unprepared(id), rest))
        }
    }
}

#[tactic(auto, unfolding(crate::specs::Reading::error_at))]
pub(crate) fn read_error(alloc: Global, bytes: &[u8]) -> Result<(ErrorResponse, &[u8]), Fault>
    ensures { Gives (λ x. (x.0, x.1.now)) result (error_at bytes.now) }
{
    let (number, rest) = read_int(bytes)?;
    let code = ErrorCode::of_int(number)?;
    let (text, rest) = read_string(alloc, rest)?;
    let (cause, rest) = read_cause(alloc, code, rest)?;
    Ok((ErrorResponse { cause, text }, rest))
}

impl ErrorCause {
    /// The code on the wire.
    pub fn code(&self) -> i32
        ensures { result ≡ code_of self.now }
    {
        match self {
            ErrorCause::Server => 0x0000,
            ErrorCause::Protocol => 0x000a,
            ErrorCause::Unavailable(_) => 0x1000,
            ErrorCause::Overloaded => 0x1001,
            ErrorCause::WriteTimeout(_) => 0x1100,
            ErrorCause::ReadTimeout(_) => 0x1200,
            ErrorCause::Syntax => 0x2000,
            ErrorCause::Invalid => 0x2200,
            ErrorCause::Unprepared(_) => 0x2500,
        }
    }
}

/// A consistency and two numbers of replicas.
#[tactic(auto, unfolding(crate::specs::Spelling::counts))]
fn write_counts(
    out: &mut Vec<u8>,
    consistency: Consistency,
    first: i32,
    second: i32,
) -> Result<(), AllocError>
    ensures { OnOk result (out.new.items ≡ out.old.items ++ counts consistency first second) }
{
    write_consistency(out, consistency)?;
    write_int(out, first)?;
    write_int(out, second)
}

fn write_type_text(out: &mut Vec<u8>, write_type: WriteType) -> Result<(), AllocError>
    ensures { OnOk result (out.new.items ≡ out.old.items ++ type_text write_type) }
{
    match write_type {
        WriteType::Simple => out.extend_from_slice(b"\x00\x06SIMPLE"),
        WriteType::Cas => out.extend_from_slice(b"\x00\x03CAS"),
    }
}

fn write_write_timeout(out: &mut Vec<u8>, written: &WriteTimeout) -> Result<(), AllocError>
    ensures { OnOk result (out.new.items ≡ out.old.items ++ write_timeout written.now) }
{
    write_counts(
        out,
        written.consistency,
        written.received,
        written.block_for,
    )?;
    write_type_text(out, written.write_type)
}

fn write_present(out: &mut Vec<u8>, present: bool) -> Result<(), AllocError>
    ensures { OnOk result (out.new.items ≡ out.old.items ++ present_byte present ∷ []) }
{
    out.push(if present { 1 } else { 0 })?;
    Ok(())
}

fn write_read_timeout(out: &mut Vec<u8>, written: &ReadTimeout) -> Result<(), AllocError>
    ensures { OnOk result (out.new.items ≡ out.old.items ++ read_timeout written.now) }
{
    write_counts(
        out,
        written.consistency,
        written.received,
        written.block_for,
    )?;
    write_present(out, written.data_present)
}

fn write_cause(out: &mut Vec<u8>, written: &ErrorCause) -> Result<(), AllocError>
    requires { CauseFits written.now }
    ensures { OnOk result (out.new.items ≡ out.old.items ++ cause written.now) }
{
    match written {
        ErrorCause::Unavailable(unavailable) => write_counts(
            out,
            unavailable.consistency,
            unavailable.required,
            unavailable.alive,
        ),
        ErrorCause::WriteTimeout(timeout) => write_write_timeout(out, timeout),
        ErrorCause::ReadTimeout(timeout) => write_read_timeout(out, timeout),
        ErrorCause::Unprepared(id) => write_short_bytes(out, id),
        ErrorCause::Server
        | ErrorCause::Protocol
        | ErrorCause::Overloaded
        | ErrorCause::Syntax
        | ErrorCause::Invalid => Ok(()),
    }
}

pub(crate) fn write_error(out: &mut Vec<u8>, written: &ErrorResponse) -> Result<(), AllocError>
    requires { ErrorFits written.now }
    ensures { OnOk result (out.new.items ≡ out.old.items ++ error written.now) }
{
    write_int(out, written.cause.code())?;
    write_string(out, &written.text)?;
    write_cause(out, &written.cause)
}

fn cause_has_word(cause: &ErrorCause) -> bool
    ensures { IsTrue result ↔ CauseFits cause.now }
{
    match cause {
        ErrorCause::Unprepared(id) => id.as_slice().len() < SHORT_LIMIT,
        ErrorCause::Server
        | ErrorCause::Protocol
        | ErrorCause::Unavailable(_)
        | ErrorCause::Overloaded
        | ErrorCause::WriteTimeout(_)
        | ErrorCause::ReadTimeout(_)
        | ErrorCause::Syntax
        | ErrorCause::Invalid => true,
    }
}

pub(crate) fn error_has_word(error: &ErrorResponse) -> bool
    ensures { IsTrue result ↔ ErrorFits error.now }
{
    error.text.has_word() && cause_has_word(&error.cause)
}
