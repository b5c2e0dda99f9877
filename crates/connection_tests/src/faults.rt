//! Links that fail, peers that end, and what is no frame.

use crate::node::Node;
use crate::rows::{Talk, frames};
use crate::talks::{Went, cut, in_all_pieces, in_pieces_of, talk_once};
use crate::usual::USUAL;
use cs_io::{MemLink, NeverStop};
use serve_loop::Served;
use std::alloc::{AllocError, Global};
use std::sync::Wait;
use std::test::Fail;

/// How many bytes are read and written in a call at most, and how many calls there are.
const SIZES: [((usize, usize), u64); 4] = [
    ((9, 5), 63 + 56),
    ((50, 20), 11 + 17),
    ((286, 7), 1 + 40),
    ((1000, 1000), 1 + 8),
];

fn is_front(front: &[u8], whole: &[u8]) -> bool {
    match whole.get(..front.len()) {
        Some(begin) => begin == front,
        None => false,
    }
}

/// The usual conversation, where the call of this number fails.
fn with_failing<R: Wait>(
    rt: &R,
    alloc: Global,
    talk: &Talk,
    sizes: (usize, usize),
    call: u64,
) -> Result<Went, Fail> {
    let (read, most) = sizes;
    let failing = Vec::from_slice(alloc, &[call])?;
    let pieces = cut(alloc, &talk.input, read)?;
    let mut link = MemLink::new(alloc, pieces, most, failing);
    talk_once(rt, alloc, &mut link, &mut NeverStop)
}

/// Whether a connection whose link failed went as it should, and the bytes of the responses that were written.
fn faulty(went: &Went, talk: &Talk) -> bool {
    let written = went.written.as_slice();
    went.served == Served::LinkFault
        && went.faults == 1
        && is_front(written, &talk.output)
        && written.len() < talk.output.len()
}

fn whole(went: &Went, talk: &Talk) -> bool {
    went.served == Served::Closed
        && went.faults == 0
        && went.written.as_slice() == talk.output.as_slice()
}

/// How many calls of the link there are, of which each fails in a conversation of its own; None where one of these goes in another
/// way than it should, or writes less than the one before.
fn failing_calls<R: Wait>(
    rt: &R,
    alloc: Global,
    talk: &Talk,
    sizes: (usize, usize),
) -> Result<Option<u64>, Fail> {
    let mut last = 0;
    for call in 1..2000 {
        let went = with_failing(rt, alloc, talk, sizes, call)?;
        if whole(&went, talk) {
            return Ok(Some(call.saturating_sub(1)));
        }
        if !faulty(&went, talk) || went.written.len() < last {
            return Ok(None);
        }
        last = went.written.len();
    }
    Ok(None)
}

/// There are 286 bytes to read, with an idle between pieces, and responses of 9, 17, 91, 13, 42, 31, 28 and 29 bytes.
#[test]
fn a_fault_of_the_link_leaves_a_front(rt: HostRuntime) -> Result<(), Fail> {
    let talk = frames(rt.alloc(), USUAL)?;
    assert_eq!(rt; (talk.input.len(), talk.output.len()), (286, 260));
    for (sizes, calls) in &SIZES {
        let found = failing_calls(&rt, rt.alloc(), &talk, *sizes)?;
        assert_eq!(rt; found, Some(*calls), "{sizes:?}");
    }
    Ok(())
}

#[test]
fn a_link_that_takes_nothing_is_at_fault(rt: HostRuntime) -> Result<(), Fail> {
    let talk = frames(rt.alloc(), USUAL)?;
    let went = with_failing(&rt, rt.alloc(), &talk, (50, 0), 0)?;
    assert_eq!(rt; went.served, Served::LinkFault);
    assert_eq!(rt; went.faults, 1);
    assert_eq!(rt; went.written.as_slice(), [].as_slice());
    Ok(())
}

/// The first rows of a table, and then what comes alone.
fn front(alloc: Global, rows: &str, count: usize, behind: &[u8]) -> Result<Talk, AllocError> {
    let mut talk = Talk::new(alloc);
    for row in rows.lines().take(count) {
        talk.add_frames(row)?;
    }
    talk.input.extend_from_slice(behind)?;
    Ok(talk)
}

/// The same in pieces of a few lengths.
fn in_some_pieces<R: Wait>(
    rt: &R,
    alloc: Global,
    talk: &Talk,
    end: Served,
) -> Result<Option<String>, Fail> {
    for len in &[1, 2, 9, 31, 1000] {
        let went = in_pieces_of(rt, alloc, talk, *len, end)?;
        if went.is_some() {
            return Ok(went);
        }
    }
    Ok(None)
}

/// The beginning of a frame that does not come.
const BEGINNINGS: [&[u8]; 4] = [
    b"",
    b"\x04",
    b"\x04\0\0\x09\x05\0\0\0",
    b"\x04\0\0\x09\x05\0\0\0\x02\0",
];

#[test]
fn the_end_comes_behind_all_answers(rt: HostRuntime) -> Result<(), Fail> {
    for count in 0..8 {
        for behind in &BEGINNINGS {
            let talk = front(rt.alloc(), USUAL, count, behind)?;
            let went = in_some_pieces(&rt, rt.alloc(), &talk, Served::Ended)?;
            assert_eq!(rt; went, None);
        }
    }
    Ok(())
}

/// What is no frame closes the connection behind its response, and no later frame is answered.
const CLOSING: &str =
    "03 00 0001 05 00000000 04 00 0009 05 00000000 => 84 00 0000 00 00000011 0000000A s`bad version`
84 00 0001 05 00000000 => 84 00 0000 00 00000011 0000000A s`bad version`
05 => 84 00 0000 00 00000011 0000000A s`bad version`
04 01 0001 05 00000000 04 00 0009 05 00000000 => 84 00 0001 00 00000016 0000000A s`compressed frame`
04 03 0001 05 FFFFFFFF => 84 00 0001 00 00000016 0000000A s`compressed frame`
04 00 FFFE 05 FFFFFFFF 04 00 0009 05 00000000 => 84 00 FFFE 00 00000015 0000000A s`negative length`
04 00 7FFF 05 80000000 => 84 00 7FFF 00 00000015 0000000A s`negative length`
04 00 FFFF 05 01000001 04 00 0009 05 00000000 => 84 00 FFFF 00 00000014 0000000A s`frame too long`
04 00 0001 05 7FFFFFFF => 84 00 0001 00 00000014 0000000A s`frame too long`";

#[test]
fn what_is_no_frame_closes_the_connection(rt: HostRuntime) -> Result<(), Fail> {
    for row in CLOSING.lines() {
        let mut talk = front(rt.alloc(), USUAL, 2, b"")?;
        talk.add_frames(row)?;
        let went = in_some_pieces(&rt, rt.alloc(), &talk, Served::Closed)?;
        assert_eq!(rt; went, None);
        // Before STARTUP too.
        let talk = frames(rt.alloc(), row)?;
        let went = in_all_pieces(&rt, rt.alloc(), &talk, Served::Closed)?;
        assert_eq!(rt; went, None);
    }
    Ok(())
}

/// Tracing and warnings are passed over, and so is a custom payload before the body. Responses have no flags.
const FLAGS: &str =
    "04 0E 0001 01 00000026 0001 s`key` l`value` 0001 s`CQL_VERSION` s`3.0.0` => 84 00 0001 02 00000000
04 02 0001 07 0000000D l`USE ks` 0001 00 => 84 00 0001 08 00000008 00000003 s`ks`
04 08 FFFF 07 00000010 l`USE other` 0001 00 => 84 00 FFFF 08 0000000B 00000003 s`other`
04 04 8000 07 00000012 0001 s`` FFFFFFFF l`USE` 0001 00 => 84 00 8000 00 00000011 00002000 s`syntax at 3`
04 04 0002 05 00000000 => 84 00 0002 00 00000010 0000000A s`short body`
04 F0 0002 07 0000000D l`USE ks` 0001 00 => 84 00 0002 08 00000008 00000003 s`ks`";

#[test]
fn flags_are_passed_over(rt: HostRuntime) -> Result<(), Fail> {
    let talk = frames(rt.alloc(), FLAGS)?;
    let went = in_all_pieces(&rt, rt.alloc(), &talk, Served::Ended)?;
    assert_eq!(rt; went, None);
    Ok(())
}
