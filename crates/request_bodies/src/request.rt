//! Requests.

ghost use Rattle.std.specs.Prelude.{◌≡◌, ◌++◌, ◌↔◌, IfOk, IsTrue, OnOk, Ok};
ghost use Rattle.body_notations.specs.Reading.{Answers, Gives};
ghost use Rattle.request_bodies.specs.Reading.{body_at, framed_at, kind_of, query_at, execute_at, request_in};
ghost use Rattle.request_bodies.specs.Requests.{IsRequest, opcode_of};
ghost use Rattle.request_bodies.specs.Spelling.{body as body_bytes, Fits};
ghost use Rattle.request_bodies.specs.declared.request.Request.{Request};

use crate::batch::{Batch, batch_has_word, read_batch, write_batch};
use crate::parameters::{QueryParameters, parameters_have_word, read_parameters, write_parameters};
use crate::payload::skip_payload;
use crate::startup::StringMap;
use body_notations::{
    BodyError, Fault, INT_LIMIT, SHORT_LIMIT, at_end, is_set, list_has_word, read_list,
    read_long_string, read_short_bytes, write_list, write_long_string, write_short_bytes,
};
use cs_base::{Bytes, Items, Text};
use frame_v4::Frame;
use std::alloc::{AllocError, Global};

/// The flag of a custom payload.
const CUSTOM_PAYLOAD: u8 = 0x04;

/// A statement's text.
#[derive(Debug, Drop)]
pub struct Query {
    pub query: Text,
    pub parameters: QueryParameters,
}

/// A prepared statement.
#[derive(Debug, Drop)]
pub struct Execute {
    pub id: Bytes,
    pub parameters: QueryParameters,
}

/// What a client asks.
#[derive(Debug, Drop)]
pub enum Request {
    Startup(StringMap),
    Options,
    Query(Query),
    /// The statement to prepare.
    Prepare(Text),
    Execute(Execute),
    /// The kinds of events that the client asks for.
    Register(Items<Text>),
    Batch(Batch),
}

/// Which request an opcode stands for.
#[derive(Clone, Copy)]
enum RequestKind {
    Startup,
    Options,
    Query,
    Prepare,
    Execute,
    Register,
    Batch,
}

impl RequestKind {
    fn of_opcode(opcode: u8) -> Option<RequestKind>
        ensures { result ≡ kind_of opcode }
    {
        match opcode {
            0x01 => Some(RequestKind::Startup),
            0x05 => Some(RequestKind::Options),
            0x07 => Some(RequestKind::Query),
            0x09 => Some(RequestKind::Prepare),
            0x0a => Some(RequestKind::Execute),
            0x0b => Some(RequestKind::Register),
            0x0d => Some(RequestKind::Batch),
            _ => None,
        }
    }
}

#[tactic(auto, unfolding(crate::specs::Reading::query_at))]
fn read_query(alloc: Global, bytes: &[u8]) -> Result<(Query, &[u8]), Fault>
    ensures { Gives (λ x. (x.0, x.1.now)) result (query_at bytes.now) }
{
    let (query, rest) = read_long_string(alloc, bytes)?;
    let (parameters, rest) = read_parameters(alloc, rest)?;
    Ok((Query { query, parameters }, rest))
}

#[tactic(auto, unfolding(crate::specs::Reading::execute_at))]
fn read_execute(alloc: Global, bytes: &[u8]) -> Result<(Execute, &[u8]), Fault>
    ensures { Gives (λ x. (x.0, x.1.now)) result (execute_at bytes.now) }
{
    let (id, rest) = read_short_bytes(alloc, bytes)?;
    let (parameters, rest) = read_parameters(alloc, rest)?;
    Ok((Execute { id, parameters }, rest))
}

fn read_body(alloc: Global, kind: RequestKind, bytes: &[u8]) -> Result<(Request, &[u8]), Fault>
    ensures { Gives (λ x. (x.0, x.1.now)) result (body_at kind bytes.now) }
{
    match kind {
        RequestKind::Startup => {
            let (options, rest) = read_list(alloc, bytes)?;
            Ok((Request::Startup(options), rest))
        }
        RequestKind::Options => Ok((Request::Options, bytes)),
        RequestKind::Query => {
            let (query, rest) = read_query(alloc, bytes)?;
            Ok((Request::Query(query), rest))
        }
        RequestKind::Prepare => {
            let (query, rest) = read_long_string(alloc, bytes)?;
            Ok((Request::Prepare(query), rest))
        }
        RequestKind::Execute => {
            let (execute, rest) = read_execute(alloc, bytes)?;
            Ok((Request::Execute(execute), rest))
        }
        RequestKind::Register => {
            let (events, rest) = read_list(alloc, bytes)?;
            Ok((Request::Register(events), rest))
        }
        RequestKind::Batch => {
            let (batch, rest) = read_batch(alloc, bytes)?;
            Ok((Request::Batch(batch), rest))
        }
    }
}

fn read_framed(
    alloc: Global,
    flags: u8,
    kind: RequestKind,
    bytes: &[u8],
) -> Result<(Request, &[u8]), Fault>
    ensures { Gives (λ x. (x.0, x.1.now)) result (framed_at flags kind bytes.now) }
{
    let rest = skip_payload(is_set(flags, CUSTOM_PAYLOAD), bytes)?;
    read_body(alloc, kind, rest)
}

fn read_request(alloc: Global, flags: u8, opcode: u8, body: &[u8]) -> Result<Request, BodyError>
    ensures { Answers result (request_in flags opcode body.now) }
{
    let Some(kind) = RequestKind::of_opcode(opcode) else {
        return Err(BodyError::Opcode(opcode));
    };
    match read_framed(alloc, flags, kind, body) {
        Ok((request, rest)) => at_end(request, rest),
        Err(fault) => Err(fault.placed(body.len())),
    }
}

/// The request of a frame. A custom payload is passed over, and the flags of tracing and warnings are not looked at.
///
/// The opcode is looked at first, then the body from left to right; the first fault is the answer.
pub fn decode_request(alloc: Global, frame: &Frame) -> Result<Request, BodyError>
    // What is decoded is spelled so.
    ensures found { IfOk result (λ r. IsRequest frame.now.flags frame.now.opcode frame.now.body r) }
    // What is spelled so is decoded, unless memory runs out.
    ensures only { (r : Request) → IsRequest frame.now.flags frame.now.opcode frame.now.body r → Answers result (Ok r) }
    // Which refusal it is, and where.
    ensures exact { Answers result (request_in frame.now.flags frame.now.opcode frame.now.body) }
{
    read_request(alloc, frame.flags, frame.opcode, frame.body.as_slice())
}

impl Request {
    /// The opcode of the frame.
    pub fn opcode(&self) -> u8
        ensures { result ≡ opcode_of self.now }
    {
        match self {
            Request::Startup(_) => 0x01,
            Request::Options => 0x05,
            Request::Query(_) => 0x07,
            Request::Prepare(_) => 0x09,
            Request::Execute(_) => 0x0a,
            Request::Register(_) => 0x0b,
            Request::Batch(_) => 0x0d,
        }
    }

    /// Whether no part is too long for its length, so that the request has a body.
    pub fn has_word(&self) -> bool
        ensures { IsTrue result ↔ Fits self.now }
    {
        match self {
            Request::Startup(options) => list_has_word(options),
            Request::Options => true,
            Request::Query(query) => {
                query.query.as_str().len() < INT_LIMIT && parameters_have_word(&query.parameters)
            }
            Request::Prepare(query) => query.as_str().len() < INT_LIMIT,
            Request::Execute(execute) => {
                execute.id.as_slice().len() < SHORT_LIMIT
                    && parameters_have_word(&execute.parameters)
            }
            Request::Register(events) => list_has_word(events),
            Request::Batch(batch) => batch_has_word(batch),
        }
    }
}

fn write_body(out: &mut Vec<u8>, request: &Request) -> Result<(), AllocError>
    requires { Fits request.now }
    ensures { OnOk result (out.new.items ≡ out.old.items ++ body_bytes request.now) }
{
    match request {
        Request::Startup(options) => write_list(out, options),
        Request::Options => Ok(()),
        Request::Query(query) => {
            write_long_string(out, &query.query)?;
            write_parameters(out, &query.parameters)
        }
        Request::Prepare(query) => write_long_string(out, query),
        Request::Execute(execute) => {
            write_short_bytes(out, &execute.id)?;
            write_parameters(out, &execute.parameters)
        }
        Request::Register(events) => write_list(out, events),
        Request::Batch(batch) => write_batch(out, batch),
    }
}

/// The body of a request's frame, as a client writes it: without a custom payload.
pub fn encode_request(alloc: Global, request: &Request) -> Result<Bytes, AllocError>
    requires { Fits request.now }
    ensures { IfOk result (λ bytes. bytes ≡ body_bytes request.now) }
{
    let mut out = Vec::new(alloc);
    write_body(&mut out, request)?;
    Ok(Bytes::from_vec(out))
}
