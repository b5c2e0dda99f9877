//! What a client is told that a node of several would be refused, and one without memory.

use crate::node::schema;
use crate::rows::push_side;
use client_desk::Answer;
use cs_base::Bytes;
use frame_bodies::{Response, encode_response};
use frame_v4::Frame;
use peer_messages::{Invalid, Refusal};
use session_v4::{Act, Session};
use std::alloc::Global;
use std::test::Fail;

const STARTUP: &str = "01 0001 s`CQL_VERSION` s`3.0.0`";

/// A write and a read, at QUORUM and at LOCAL_QUORUM.
const WRITE: &str = "07 l`INSERT INTO ks.t (k, v) VALUES (1, 'x')` 0004 00";

const READ: &str = "07 l`SELECT v FROM ks.t WHERE k = 1` 0006 00";

/// A request, what a node tells of it, and the opcode and the body of the response.
const REFUSALS: [(&str, Refusal, &str); 9] = [
    (
        WRITE,
        Refusal::WriteTimeout {
            received: 1,
            blockfor: 2,
        },
        "00 00001100 s`write timeout` 0004 00000001 00000002 s`SIMPLE`",
    ),
    (
        READ,
        Refusal::ReadTimeout {
            received: 1,
            blockfor: 2,
            data: true,
        },
        "00 00001200 s`read timeout` 0006 00000001 00000002 01",
    ),
    (
        READ,
        Refusal::ReadTimeout {
            received: 0,
            blockfor: 2,
            data: false,
        },
        "00 00001200 s`read timeout` 0006 00000000 00000002 00",
    ),
    (
        WRITE,
        Refusal::Unavailable {
            required: 2,
            alive: 1,
        },
        "00 00001000 s`unavailable` 0004 00000002 00000001",
    ),
    (
        READ,
        Refusal::Unavailable {
            required: 4,
            alive: 3,
        },
        "00 00001000 s`unavailable` 0006 00000004 00000003",
    ),
    (WRITE, Refusal::Overloaded, "00 00001001 s`overloaded`"),
    (
        WRITE,
        Refusal::Invalid(Invalid::PartitionTooLarge),
        "00 00002200 s`PartitionTooLarge`",
    ),
    (
        READ,
        Refusal::Invalid(Invalid::UnknownTable),
        "00 00002200 s`UnknownTable`",
    ),
    (
        READ,
        Refusal::Invalid(Invalid::Level),
        "00 00002200 s`Level`",
    ),
];

fn frame(alloc: Global, side: &str) -> Result<Frame, Fail> {
    let mut content = Vec::new(alloc);
    push_side(&mut content, side)?;
    let (opcode, body) = content.split_first().ok_or("a frame without an opcode")?;
    Ok(Frame {
        flags: 0,
        stream: 5,
        opcode: *opcode,
        body: Bytes::from_slice(alloc, body)?,
    })
}

/// The response to what a node tells, of whom something is asked.
fn told(session: &mut Session, answer: &Answer) -> Result<Response, Fail> {
    if !session.waits_for(5) {
        return Err("nothing was asked".into());
    }
    Ok(session.answer(5, answer)?)
}

/// The response to a request, of which a node tells this.
fn response(
    alloc: Global,
    session: &mut Session,
    request: &str,
    answer: &Answer,
) -> Result<Response, Fail> {
    match session.step(&frame(alloc, request)?)? {
        Act::Submit(_) => told(session, answer),
        Act::Reply(_) | Act::Close(_) => Err("nothing is asked".into()),
    }
}

/// Whether a response has this opcode and body.
fn says(alloc: Global, response: &Response, want: &str) -> Result<bool, Fail> {
    if !response.has_word() {
        return Ok(false);
    }
    let mut content = Vec::new(alloc);
    content.push(response.opcode())?;
    content.extend_from_slice(encode_response(alloc, response)?.as_slice())?;
    let mut wanted = Vec::new(alloc);
    push_side(&mut wanted, want)?;
    Ok(content.as_slice() == wanted.as_slice())
}

/// Whether a new connection says this of a request, of which a node tells that, and waits no more.
fn is_told(alloc: Global, request: &str, answer: &Answer, want: &str) -> Result<bool, Fail> {
    let schema = schema(alloc)?;
    let mut session = Session::new(alloc, &schema);
    session.step(&frame(alloc, STARTUP)?)?;
    let response = response(alloc, &mut session, request, answer)?;
    Ok(!session.waits_for(5) && says(alloc, &response, want)?)
}

#[test]
fn refusals_of_several_nodes_are_told(rt: HostRuntime) -> Result<(), Fail> {
    for (request, refusal, want) in &REFUSALS {
        let answer = Answer::Refused(*refusal);
        assert!(rt; is_told(rt.alloc(), request, &answer, want)?, "{want}");
    }
    let want = "00 00000000 s`no memory`";
    assert!(rt; is_told(rt.alloc(), READ, &Answer::NoMemory, want)?);
    Ok(())
}
