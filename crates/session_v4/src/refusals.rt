//! What a client is told that is refused something (native_protocol_v4.spec, section 9).

ghost use Rattle.std.specs.Prelude.{◌≡◌, ◌≢◌, IfOk, length, codes, ◌++◌};
ghost use Rattle.std.specs.Fmt.{decimal};
ghost use Rattle.session_v4.specs.Refusals.{body_text as body_text_of, error_of, frame_text as frame_text_of, invalid_error, no_memory as no_memory_response, place_of, protocol_error, refusal_error, syntax_error, stream_of as stream_of_error, unprepared as unprepared_error};
ghost use Rattle.cql_parser.specs.declared.error.ParseError.TheVariants as parsing;

use crate::reason::Reason;
use cql_parser::ParseError;
use cs_base::{Bytes, Text};
use frame_bodies::{
    BodyError, Consistency, ErrorCause, ErrorResponse, ReadTimeout, Response, Unavailable,
    WriteTimeout, WriteType,
};
use frame_v4::FrameError;
use peer_messages::Refusal;
use std::alloc::{AllocError, Global};

fn error_of(alloc: Global, cause: ErrorCause, text: &str) -> Result<Response, AllocError>
    ensures { IfOk result (λ r. r ≡ error_of cause text.now) }
{
    let text = Text::from_str(alloc, text)?;
    Ok(Response::Error(ErrorResponse { cause, text }))
}

pub(crate) fn protocol(alloc: Global, text: &str) -> Result<Response, AllocError>
    ensures { IfOk result (λ r. r ≡ protocol_error text.now) }
{
    error_of(alloc, ErrorCause::Protocol, text)
}

fn frame_text(error: &FrameError) -> &'static str
    ensures { result.now ≡ frame_text_of error.now }
{
    match error {
        FrameError::Version(_) => "bad version",
        FrameError::Compressed(_) => "compressed frame",
        FrameError::TooLong(_, _) => "frame too long",
        FrameError::NegativeLength(_, _) => "negative length",
        FrameError::NoMemory => "no memory",
    }
}

/// A stream that is no stream of frames.
pub(crate) fn unframed(alloc: Global, error: &FrameError) -> Result<Response, AllocError>
    ensures { IfOk result (λ r. r ≡ protocol_error (frame_text_of error.now)) }
{
    protocol(alloc, frame_text(error))
}

fn body_text(error: BodyError) -> &'static str
    ensures { result.now ≡ body_text_of error }
{
    match error {
        BodyError::Short(_) => "short body",
        BodyError::Trailing(_) => "trailing bytes",
        BodyError::BadValue(_) => "bad value length",
        BodyError::Opcode(_) => "bad opcode",
        BodyError::BadFlag => "bad flag",
        BodyError::BadConsistency(_) => "bad consistency",
        BodyError::NotUtf8(_) => "not utf-8",
        BodyError::NoMemory => "no memory",
    }
}

/// A body that is no request.
pub(crate) fn unread(alloc: Global, error: BodyError) -> Result<Response, AllocError>
    ensures { IfOk result (λ r. r ≡ protocol_error (body_text_of error)) }
{
    protocol(alloc, body_text(error))
}

/// Where a text stops to be a statement.
fn place(text: &str, error: ParseError) -> Result<usize, AllocError>
    ensures value { IfOk result (λ at. at ≡ place_of text.now error) }
    ensures cause { IfOk result (λ at. error ≢ parsing.NoMemory) }
{
    match error {
        ParseError::Char(at) => Ok(at),
        ParseError::Unexpected(at) => Ok(at),
        ParseError::Unclosed(at) => Ok(at),
        ParseError::TooLong => Ok(text.len()),
        ParseError::NoMemory => Err(AllocError),
    }
}

fn syntax_at(alloc: Global, at: usize) -> Result<Response, AllocError>
    ensures { IfOk result (λ r. r ≡ syntax_error at) }
{
    let mut text = String::from_str(alloc, "syntax at ")?;
    let digits = (at as u64).to_string(alloc)?;
    text.push_str(digits.as_str())?;
    let text = Text::from_string(text);
    Ok(Response::Error(ErrorResponse {
        cause: ErrorCause::Syntax,
        text,
    }))
}

/// A text that is no statement.
pub(crate) fn syntax(alloc: Global, text: &str, error: ParseError) -> Result<Response, AllocError>
    ensures response { IfOk result (λ r. r ≡ syntax_error (place_of text.now error)) }
    ensures cause { IfOk result (λ r. error ≢ parsing.NoMemory) }
{
    let at = place(text, error)?;
    syntax_at(alloc, at)
}

pub(crate) fn unprepared(alloc: Global, id: &Bytes) -> Result<Response, AllocError>
    ensures { IfOk result (λ r. r ≡ unprepared_error id.now) }
{
    let id = id.copy(alloc)?;
    error_of(alloc, ErrorCause::Unprepared(id), "unprepared")
}

pub(crate) fn invalid(alloc: Global, reason: Reason) -> Result<Response, AllocError>
    ensures { IfOk result (λ r. r ≡ invalid_error reason) }
{
    error_of(alloc, ErrorCause::Invalid, reason.name())
}

pub(crate) fn no_memory(alloc: Global) -> Result<Response, AllocError>
    ensures { IfOk result (λ r. r ≡ no_memory_response) }
{
    error_of(alloc, ErrorCause::Server, "no memory")
}

/// What a node refuses. A connection ends where its node does not run, so that a client is not told of it.
pub(crate) fn refused(
    alloc: Global,
    consistency: Consistency,
    refusal: Refusal,
) -> Result<Response, AllocError>
    ensures { IfOk result (λ r. r ≡ refusal_error consistency refusal) }
{
    match refusal {
        Refusal::Unavailable { required, alive } => {
            let unavailable = Unavailable {
                consistency,
                required: i32::from(required),
                alive: i32::from(alive),
            };
            error_of(alloc, ErrorCause::Unavailable(unavailable), "unavailable")
        }
        Refusal::WriteTimeout { received, blockfor } => {
            let timeout = WriteTimeout {
                consistency,
                received: i32::from(received),
                block_for: i32::from(blockfor),
                write_type: WriteType::Simple,
            };
            error_of(alloc, ErrorCause::WriteTimeout(timeout), "write timeout")
        }
        Refusal::ReadTimeout {
            received,
            blockfor,
            data,
        } => {
            let timeout = ReadTimeout {
                consistency,
                received: i32::from(received),
                block_for: i32::from(blockfor),
                data_present: data,
            };
            error_of(alloc, ErrorCause::ReadTimeout(timeout), "read timeout")
        }
        Refusal::Overloaded | Refusal::Down => {
            error_of(alloc, ErrorCause::Overloaded, "overloaded")
        }
        Refusal::Invalid(cause) => invalid(alloc, Reason::Invalid(cause)),
    }
}

/// The stream of the response to a refused stream: that of the frame, if its header had one.
pub fn stream_of(error: &FrameError) -> i16
    ensures { result ≡ stream_of_error error.now }
{
    match error {
        FrameError::Compressed(stream) => *stream,
        FrameError::TooLong(stream, _) => *stream,
        FrameError::NegativeLength(stream, _) => *stream,
        FrameError::Version(_) | FrameError::NoMemory => 0,
    }
}
