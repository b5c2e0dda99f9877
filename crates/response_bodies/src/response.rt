//! Responses.

ghost use Rattle.std.specs.Prelude.{◌≡◌, ◌++◌, ◌↔◌, IfOk, IsTrue, OnOk, Ok};
ghost use Rattle.body_notations.specs.Reading.{Answers, Gives};
ghost use Rattle.response_bodies.specs.Reading.{body_at, kind_of, response_in, result_at, result_kind, result_body_at};
ghost use Rattle.response_bodies.specs.Responses.{IsResponse, opcode_of};
ghost use Rattle.response_bodies.specs.Spelling.{body as body_bytes, Fits};
ghost use Rattle.response_bodies.specs.declared.response.Response.{Response};

use crate::error::{ErrorResponse, error_has_word, read_error, write_error};
use crate::metadata::{Prepared, prepared_has_word, read_prepared, write_prepared};
use crate::rows::{Rows, read_rows, rows_have_word, write_rows};
use crate::supported::StringLists;
use body_notations::{
    BodyError, Fault, Notation, at_end, list_has_word, read_int, read_list, read_string, write_int,
    write_list, write_string,
};
use cs_base::{Bytes, Text};
use std::alloc::{AllocError, Global};

/// What a server answers. RESULT is one of `Void`, `Rows`, `SetKeyspace` and `Prepared`.
#[derive(Debug, Drop)]
pub enum Response {
    Error(ErrorResponse),
    Ready,
    Supported(StringLists),
    Void,
    Rows(Rows),
    /// The keyspace that is in use now.
    SetKeyspace(Text),
    Prepared(Prepared),
}

/// Which response an opcode stands for.
#[derive(Clone, Copy)]
enum ResponseKind {
    Error,
    Ready,
    Supported,
    Result,
}

impl ResponseKind {
    fn of_opcode(opcode: u8) -> Option<ResponseKind>
        ensures { result ≡ kind_of opcode }
    {
        match opcode {
            0x00 => Some(ResponseKind::Error),
            0x02 => Some(ResponseKind::Ready),
            0x06 => Some(ResponseKind::Supported),
            0x08 => Some(ResponseKind::Result),
            _ => None,
        }
    }
}

/// What a RESULT is.
#[derive(Clone, Copy)]
enum ResultKind {
    Void,
    Rows,
    SetKeyspace,
    Prepared,
}

impl ResultKind {
    fn of_int(kind: i32) -> Result<ResultKind, Fault>
        ensures { result ≡ result_kind kind }
    {
        if kind < 0 {
            return Err(Fault::BadValue(kind));
        }
        match kind.unsigned_abs() {
            1 => Ok(ResultKind::Void),
            2 => Ok(ResultKind::Rows),
            3 => Ok(ResultKind::SetKeyspace),
            4 => Ok(ResultKind::Prepared),
            _ => Err(Fault::BadValue(kind)),
        }
    }
}

fn read_result_body(
    alloc: Global,
    kind: ResultKind,
    bytes: &[u8],
) -> Result<(Response, &[u8]), Fault>
    ensures { Gives (λ x. (x.0, x.1.now)) result (result_body_at kind bytes.now) }
{
    match kind {
        ResultKind::Void => Ok((Response::Void, bytes)),
        ResultKind::Rows => {
            let (rows, rest) = read_rows(alloc, bytes)?;
            Ok((Response::Rows(rows), rest))
        }
        ResultKind::SetKeyspace => {
            let (keyspace, rest) = read_string(alloc, bytes)?;
            Ok((Response::SetKeyspace(keyspace), rest))
        }
        ResultKind::Prepared => {
            let (prepared, rest) = read_prepared(alloc, bytes)?;
            Ok((Response::Prepared(prepared), rest))
        }
    }
}

#[tactic(auto, unfolding(crate::specs::Reading::result_at))]
fn read_result(alloc: Global, bytes: &[u8]) -> Result<(Response, &[u8]), Fault>
    ensures { Gives (λ x. (x.0, x.1.now)) result (result_at bytes.now) }
{
    let (number, rest) = read_int(bytes)?;
    let kind = ResultKind::of_int(number)?;
    read_result_body(alloc, kind, rest)
}

fn read_body(alloc: Global, kind: ResponseKind, bytes: &[u8]) -> Result<(Response, &[u8]), Fault>
    ensures { Gives (λ x. (x.0, x.1.now)) result (body_at kind bytes.now) }
{
    match kind {
        ResponseKind::Error => {
            let (error, rest) = read_error(alloc, bytes)?;
            Ok((Response::Error(error), rest))
        }
        ResponseKind::Ready => Ok((Response::Ready, bytes)),
        ResponseKind::Supported => {
            let (options, rest) = read_list(alloc, bytes)?;
            Ok((Response::Supported(options), rest))
        }
        ResponseKind::Result => read_result(alloc, bytes),
    }
}

fn read_response(alloc: Global, opcode: u8, body: &[u8]) -> Result<Response, BodyError>
    ensures { Answers result (response_in opcode body.now) }
{
    let Some(kind) = ResponseKind::of_opcode(opcode) else {
        return Err(BodyError::Opcode(opcode));
    };
    match read_body(alloc, kind, body) {
        Ok((response, rest)) => at_end(response, rest),
        Err(fault) => Err(fault.placed(body.len())),
    }
}

/// The response of a frame with no flags. The opcode is looked at first, then the body from left to right; the first
/// fault is the answer.
pub fn decode_response(alloc: Global, opcode: u8, body: &[u8]) -> Result<Response, BodyError>
    // What is decoded is spelled so.
    ensures found { IfOk result (λ r. IsResponse opcode body.now r) }
    // What is spelled so is decoded, unless memory runs out.
    ensures only { (r : Response) → IsResponse opcode body.now r → Answers result (Ok r) }
    // Which refusal it is, and where.
    ensures exact { Answers result (response_in opcode body.now) }
{
    read_response(alloc, opcode, body)
}

impl Response {
    /// The opcode of the frame.
    pub fn opcode(&self) -> u8
        ensures { result ≡ opcode_of self.now }
    {
        match self {
            Response::Error(_) => 0x00,
            Response::Ready => 0x02,
            Response::Supported(_) => 0x06,
            Response::Void | Response::Rows(_) | Response::SetKeyspace(_) | Response::Prepared(_) =>
                0x08,
        }
    }

    /// Whether no part is too long for its length and rows are whole, so that the response has a body.
    pub fn has_word(&self) -> bool
        ensures { IsTrue result ↔ Fits self.now }
    {
        match self {
            Response::Error(error) => error_has_word(error),
            Response::Ready | Response::Void => true,
            Response::Supported(options) => list_has_word(options),
            Response::Rows(rows) => rows_have_word(rows),
            Response::SetKeyspace(keyspace) => keyspace.has_word(),
            Response::Prepared(prepared) => prepared_has_word(prepared),
        }
    }
}

fn write_body(out: &mut Vec<u8>, response: &Response) -> Result<(), AllocError>
    requires { Fits response.now }
    ensures { OnOk result (out.new.items ≡ out.old.items ++ body_bytes response.now) }
{
    match response {
        Response::Error(error) => write_error(out, error),
        Response::Ready => Ok(()),
        Response::Supported(options) => write_list(out, options),
        Response::Void => write_int(out, 1),
        Response::Rows(rows) => {
            write_int(out, 2)?;
            write_rows(out, rows)
        }
        Response::SetKeyspace(keyspace) => {
            write_int(out, 3)?;
            write_string(out, keyspace)
        }
        Response::Prepared(prepared) => {
            write_int(out, 4)?;
            write_prepared(out, prepared)
        }
    }
}

/// The body of a response's frame, as a server writes it.
pub fn encode_response(alloc: Global, response: &Response) -> Result<Bytes, AllocError>
    requires { Fits response.now }
    ensures { IfOk result (λ bytes. bytes ≡ body_bytes response.now) }
{
    let mut out = Vec::new(alloc);
    write_body(&mut out, response)?;
    Ok(Bytes::from_vec(out))
}
