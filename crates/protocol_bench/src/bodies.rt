//! Decodes QUERY and EXECUTE bodies and encodes Rows of 100 rows: `bodies [COUNT]`.
//!
//! With a number it does each so often, several times, and prints the nanoseconds of the fastest turn too. The bodies and
//! the counts are those of `bench/frame_bodies/plain.rs`, which does the same without contracts.

ghost use Rattle.response_bodies.specs.Spelling.{Fits};

use cs_base::Bytes;
use frame_bodies::{
    BodyError, Request, Response, Value, Values, decode_request, decode_response, encode_response,
};
use frame_v4::Frame;
use std::alloc::{AllocError, Global};
use std::io;
use std::time::Instant;

/// How often each is done where no time is measured.
const FEW: u32 = 10;

/// How often each is measured.
const TURNS: u32 = 7;

/// A QUERY of 27 bytes of text, three values, a page size and a timestamp.
const QUERY: &str =
    "\x00\x00\x00\x1bSELECT v FROM t WHERE k = ?\x00\x06\x25\x00\x03\x00\x00\x00\x04\x00\x00\x00\x01\x00\x00\x00\x10abcdefghijklmnop\x00\x00\x00\x00\x00\x00\x13\x08\x00\x06\x44\x59\x41\x62\x40\x00";

/// An EXECUTE of an id of 16 bytes and four values.
const EXECUTE: &str =
    "\x00\x100123456789abcdef\x00\x06\x01\x00\x04\x00\x00\x00\x08\x00\x00\x00\x00\x00\x00\x00\x07\x00\x00\x00\x01x\x00\x00\x00\x20abcdefghijklmnopqrstuvwxyzABCDEF\x00\x00\x00\x00";

/// The metadata of four columns, behind the kind of a RESULT, and 100 rows.
const COLUMNS: &str =
    "\x00\x00\x00\x02\x00\x00\x00\x01\x00\x00\x00\x04\x00\x02ks\x00\x01t\x00\x01k\x00\x09\x00\x01c\x00\x0d\x00\x01v\x00\x03\x00\x01n\x00\x02\x00\x00\x00\x64";

/// The cells of a row.
const ROW: &str =
    "\x00\x00\x00\x04\x00\x00\x00\x01\x00\x00\x00\x0cclustering 1\x00\x00\x00\x20abcdefghijklmnopqrstuvwxyzABCDEF\x00\x00\x00\x08\x00\x00\x00\x00\x00\x00\x00\x07";

fn value_len(value: &Value) -> u64 {
    match value {
        Value::Given(bytes) => bytes.as_slice().len() as u64,
        _ => 0,
    }
}

fn values_len(values: &Values) -> u64 {
    let mut length = 0u64;
    if let Values::ByPlace(values) = values {
        for value in values.as_slice() {
            length = length.wrapping_add(value_len(value));
        }
    }
    length
}

fn request_len(request: &Request) -> u64 {
    match request {
        Request::Query(query) => values_len(&query.parameters.values),
        Request::Execute(execute) => values_len(&execute.parameters.values),
        _ => 0,
    }
}

/// How many bytes of values are decoded.
fn decode(alloc: Global, frame: &Frame) -> Result<u64, BodyError> {
    let request = decode_request(alloc, frame)?;
    Ok(request_len(&request))
}

/// How many bytes of values were decoded.
fn decode_often(alloc: Global, frame: &Frame, count: u32) -> Result<u64, BodyError> {
    let mut length = 0u64;
    for _ in 0..count {
        length = length.wrapping_add(decode(alloc, frame)?);
    }
    Ok(length)
}

/// How many bytes are encoded.
fn encode(alloc: Global, response: &Response) -> Result<u64, AllocError>
    requires { Fits response.now }
{
    let body = encode_response(alloc, response)?;
    Ok(body.as_slice().len() as u64)
}

/// How many bytes were encoded.
fn encode_often(alloc: Global, response: &Response, count: u32) -> Result<u64, AllocError>
    requires { Fits response.now }
{
    let mut length = 0u64;
    for _ in 0..count {
        length = length.wrapping_add(encode(alloc, response)?);
    }
    Ok(length)
}

fn frame(alloc: Global, opcode: u8, body: &str) -> Result<Frame, AllocError> {
    Ok(Frame {
        flags: 0,
        stream: 1,
        opcode,
        body: Bytes::from_slice(alloc, body.as_bytes())?,
    })
}

fn rows_body(alloc: Global) -> Result<Vec<u8>, AllocError> {
    let mut body = Vec::from_slice(alloc, COLUMNS.as_bytes())?;
    for _ in 0..100 {
        body.extend_from_slice(ROW.as_bytes())?;
    }
    Ok(body)
}

fn print_decoded(rt: &impl Print, name: &str, decoded: Result<u64, BodyError>) -> io::Result<()> {
    match decoded {
        Ok(length) => println!(rt; "{name}: {length} bytes of values"),
        Err(error) => println!(rt; "{name}: {error}"),
    }
}

fn print_encoded(rt: &impl Print, encoded: Result<u64, AllocError>) -> io::Result<()> {
    match encoded {
        Ok(length) => println!(rt; "rows: {length} bytes"),
        Err(_) => println!(rt; "rows: out of memory"),
    }
}

fn time_decoding(rt: &HostRuntime, name: &str, frame: &Frame, count: u32) -> io::Result<()> {
    let mut fastest = u128::MAX;
    let mut total = 0u64;
    for _ in 0..TURNS {
        let start = Instant::now(rt)?;
        let decoded = decode_often(rt.alloc(), frame, count).unwrap_or(0);
        fastest = fastest.min(start.elapsed(rt)?.as_nanos());
        total = total.wrapping_add(decoded);
    }
    println!(rt; "{name}: {total} bytes of values")?;
    println!(rt; "{name} nanoseconds {fastest}")
}

fn time_encoding(rt: &HostRuntime, response: &Response, count: u32) -> io::Result<()>
    requires { Fits response.now }
{
    let mut fastest = u128::MAX;
    let mut total = 0u64;
    for _ in 0..TURNS {
        let start = Instant::now(rt)?;
        let encoded = encode_often(rt.alloc(), response, count).unwrap_or(0);
        fastest = fastest.min(start.elapsed(rt)?.as_nanos());
        total = total.wrapping_add(encoded);
    }
    println!(rt; "rows: {total} bytes")?;
    println!(rt; "rows nanoseconds {fastest}")
}

fn run_request(
    rt: &HostRuntime,
    name: &str,
    opcode: u8,
    body: &str,
    count: Option<u32>,
) -> io::Result<()> {
    let frame = frame(rt.alloc(), opcode, body)?;
    match count {
        None => print_decoded(rt, name, decode_often(rt.alloc(), &frame, FEW)),
        Some(count) => time_decoding(rt, name, &frame, count),
    }
}

fn run_response(rt: &HostRuntime, response: &Response, count: Option<u32>) -> io::Result<()>
    requires { Fits response.now }
{
    match count {
        None => print_encoded(rt, encode_often(rt.alloc(), response, FEW)),
        Some(count) => time_encoding(rt, response, count / 100),
    }
}

fn run_decoded(
    rt: &HostRuntime,
    rows: &Result<Response, BodyError>,
    count: Option<u32>,
) -> io::Result<()> {
    match rows {
        Ok(rows) if rows.has_word() => run_response(rt, rows, count),
        Ok(_) => println!(rt; "rows: too long"),
        Err(error) => println!(rt; "rows: {error}"),
    }
}

fn run_rows(rt: &HostRuntime, count: Option<u32>) -> io::Result<()> {
    let body = rows_body(rt.alloc())?;
    let rows = decode_response(rt.alloc(), 0x08, &body);
    run_decoded(rt, &rows, count)
}

/// Each of the three, so often. With no count they are done a few times, and no time is told.
fn run_all(rt: &HostRuntime, count: Option<u32>) -> io::Result<()> {
    run_request(rt, "query", 0x07, QUERY, count)?;
    run_request(rt, "execute", 0x0a, EXECUTE, count)?;
    run_rows(rt, count)
}

pub(crate) fn run(rt: &HostRuntime, words: &[String]) -> io::Result<()> {
    let count = match words {
        [count, ..] => count.parse::<u32>().ok(),
        [] => None,
    };
    run_all(rt, count)
}
