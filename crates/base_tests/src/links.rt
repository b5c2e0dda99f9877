//! Links in memory.

ghost use Rattle.std.specs.Prelude.{ℕ, ◌<◌, ◌≤◌};

use cs_base::{Bytes, Failed};
use cs_io::{Heard, Link, MemLink};
use std::alloc::{AllocError, Global};
use std::test::Fail;
use std::thread::join;

const TEXT: &[u8] = b"a text in pieces";

fn put(alloc: Global, pieces: &mut Vec<Bytes>, piece: &[u8]) -> Result<(), AllocError> {
    Ok(pieces.push(Bytes::from_slice(alloc, piece)?)?)
}

// The pieces of these bytes, each so long, with an idle behind each.
fn cut(alloc: Global, bytes: &[u8], len: usize) -> Result<Vec<Bytes>, AllocError>
    requires { 0 < len }
{
    let mut pieces = Vec::new(alloc);
    for piece in bytes.chunks(len) {
        put(alloc, &mut pieces, piece)?;
        put(alloc, &mut pieces, b"")?;
    }
    Ok(pieces)
}

// What a peer heard up to the end of a link, where each call that fails was tried once more.
#[derive(Debug, Drop)]
struct Talk {
    heard: Vec<u8>,
    idles: u32,
    failed: u32,
}

// Reads by buffers of so many bytes, and writes back what it read.
fn echo<L: Link>(alloc: Global, link: &mut L, room: usize) -> Result<Talk, AllocError>
    requires { room ≤ 16 }
{
    let mut talk = Talk {
        heard: Vec::new(alloc),
        idles: 0,
        failed: 0,
    };
    let mut space = [0; 16];
    for _ in 0..1000 {
        match link.read(&mut space[..room]) {
            Ok(Heard::Bytes(count)) => {
                talk.heard.extend_from_slice(&space[..count])?;
                talk.failed = talk.failed.saturating_add(send(link, &space[..count]));
            }
            Ok(Heard::Idle) => talk.idles = talk.idles.saturating_add(1),
            Ok(Heard::End) => break,
            Err(Failed) => talk.failed = talk.failed.saturating_add(1),
        }
    }
    Ok(talk)
}

// Writes all of the piece, and tells how many calls failed.
fn send<L: Link>(link: &mut L, piece: &[u8]) -> u32 {
    let mut rest = piece;
    let mut failed: u32 = 0;
    for _ in 0..1000 {
        if rest.is_empty() {
            break;
        }
        match link.write(rest) {
            Ok(count) => {
                let (_, behind) = rest.split_at(count);
                rest = behind;
            }
            Err(Failed) => failed = failed.saturating_add(1),
        }
    }
    failed
}

// Whether all that was to be heard was, and was written back.
fn is_whole(talk: &Talk, link: &MemLink) -> bool {
    talk.heard.as_slice() == TEXT && link.written() == TEXT
}

// Whether a link of pieces that are so long is heard whole, where so many bytes are read and written at once.
fn is_heard_whole(alloc: Global, len: usize, room: usize) -> Result<bool, AllocError>
    requires len { 0 < len }
    requires room { room ≤ 16 }
{
    let mut link = MemLink::new(alloc, cut(alloc, TEXT, len)?, room, Vec::new(alloc));
    let talk = echo(alloc, &mut link, room)?;
    let count = TEXT.len().div_ceil(len);
    Ok(is_whole(&talk, &link) && talk.idles as usize == count && link.faults().count() == 0)
}

#[test]
fn pieces_of_every_length_are_heard_whole(rt: HostRuntime) -> Result<(), Fail> {
    for len in 1..=17 {
        for room in 1..=16 {
            assert!(rt; is_heard_whole(rt.alloc(), len, room)?);
        }
    }
    Ok(())
}

// How many idles are heard, calls fail and faults are counted where the call of this number fails, if all is heard.
fn counts_with_failing(alloc: Global, call: u64) -> Result<Option<(u32, u32, u64)>, AllocError> {
    let failing = Vec::from_slice(alloc, &[call])?;
    let mut link = MemLink::new(alloc, cut(alloc, TEXT, 5)?, 2, failing);
    let talk = echo(alloc, &mut link, 4)?;
    if is_whole(&talk, &link) {
        Ok(Some((talk.idles, talk.failed, link.faults().count())))
    } else {
        Ok(None)
    }
}

#[test]
fn a_call_that_fails_takes_and_writes_nothing(rt: HostRuntime) -> Result<(), Fail> {
    // There are 7 reads of bytes, 4 of idles and 1 of the end, and 10 writes.
    for call in 1..=22 {
        assert!(rt; counts_with_failing(rt.alloc(), call)? == Some((4, 1, 1)));
    }
    Ok(())
}

// An idle, three bytes and one, of which the third call fails.
fn idle_link(alloc: Global) -> Result<MemLink, AllocError> {
    let mut pieces = Vec::new(alloc);
    for text in [b"".as_slice(), b"abc", b"d"] {
        put(alloc, &mut pieces, text)?;
    }
    let failing = Vec::from_slice(alloc, &[3])?;
    Ok(MemLink::new(alloc, pieces, 3, failing))
}

// How many bytes there is room for in each read, and what it hears, with what then stands in the buffer.
const HEARD: [(usize, Result<Heard, Failed>, [u8; 2]); 8] = [
    (2, Ok(Heard::Idle), *b"--"),
    (0, Ok(Heard::Bytes(0)), *b"--"),
    (2, Err(Failed), *b"--"),
    (2, Ok(Heard::Bytes(2)), *b"ab"),
    (2, Ok(Heard::Bytes(1)), *b"c-"),
    (2, Ok(Heard::Bytes(1)), *b"d-"),
    (2, Ok(Heard::End), *b"--"),
    (2, Ok(Heard::End), *b"--"),
];

fn hear(link: &mut MemLink, room: usize) -> (Result<Heard, Failed>, [u8; 2]) {
    let mut buffer = *b"--";
    let heard = match buffer.get_mut(..room) {
        Some(space) => link.read(space),
        None => Err(Failed),
    };
    (heard, buffer)
}

#[test]
fn a_link_is_idle_and_ends(rt: HostRuntime) -> Result<(), Fail> {
    let alloc = rt.alloc();
    let mut link = idle_link(alloc)?;
    for (room, heard, text) in &HEARD {
        assert!(rt; hear(&mut link, *room) == (*heard, *text));
    }
    assert!(rt; link.write(b"wxyz") == Ok(3));
    assert!(rt; link.written() == b"wxy".as_slice());
    Ok(())
}

// Written by another thread, to which the link is moved.
#[test]
fn a_link_moves_to_a_thread(rt: HostRuntime) -> Result<(), Fail> {
    let alloc = rt.alloc();
    let mut link = MemLink::new(alloc, cut(alloc, TEXT, 3)?, 4, Vec::new(alloc));
    let (link, _) = join(
        &rt,
        move || {
            send(&mut link, TEXT);
            link
        },
        || (),
    );
    assert!(rt; link.written() == TEXT);
    Ok(())
}

// What the write answers, and how many faults there were then.
fn written(link: &mut MemLink, piece: &[u8]) -> (Result<usize, Failed>, u64) {
    let answer = link.write(piece);
    (answer, link.faults().count())
}

#[test]
fn a_link_that_takes_nothing_is_at_fault(rt: HostRuntime) -> Result<(), Fail> {
    let alloc = rt.alloc();
    let mut link = MemLink::new(alloc, Vec::new(alloc), 0, Vec::new(alloc));
    assert!(rt; written(&mut link, b"") == (Ok(0), 0));
    assert!(rt; written(&mut link, b"a") == (Ok(0), 1));
    Ok(())
}
