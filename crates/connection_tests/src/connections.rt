//! Several connections to one node, and what a connection keeps.

use crate::node::Node;
use crate::rows::{Talk, frames, requests};
use crate::talks::{LENGTHS, cut, difference, in_pieces_of};
use crate::usual::USUAL;
use cs_io::{MemLink, NeverStop, OpenGate};
use serve_loop::Served;
use std::alloc::Global;
use std::fmt::Write;
use std::sync::Wait;
use std::test::Fail;

/// Behind another connection its row is there, but neither its keyspace nor its prepared statement.
const SECOND: &str = "07 l`USE ks` 0001 00 => 00 0000000A s`startup first`
01 0001 s`CQL_VERSION` s`3.0.0` => 02
07 l`SELECT v FROM t WHERE k = 1` 0001 00 => 00 00002200 s`UnknownTable`
0A k`INSERT INTO t (k, v) VALUES (?, ?)` 0001 01 0002 00000004 00000002 l`y` => 00 00002500 s`unprepared` k`INSERT INTO t (k, v) VALUES (?, ?)`
07 l`SELECT * FROM ks.t WHERE k = 1` 0001 00 => 08 00000002 00000001 00000002 s`ks` s`t` s`k` 0009 s`v` 000D 00000001 00000004 00000001 l`x`
07 l`SELECT * FROM ks.t WHERE k = 2` 0001 00 => 08 00000002 00000001 00000002 s`ks` s`t` s`k` 0009 s`v` 000D 00000000
07 l`USE other` 0001 00 => 08 00000003 s`other`
07 l`INSERT INTO t (k, n) VALUES (1, 9)` 0001 00 => 08 00000001
07 l`SELECT * FROM t WHERE k = 1` 0001 00 => 08 00000002 00000001 00000002 s`other` s`t` s`k` 0009 s`n` 0002 00000001 00000004 00000001 00000008 0000000000000009";

/// And behind both of them.
const THIRD: &str = "01 0001 s`CQL_VERSION` s`3.0.0` => 02
07 l`SELECT n FROM t WHERE k = 1` 0001 00 => 00 00002200 s`UnknownTable`
07 l`SELECT n FROM other.t WHERE k = 1` 0001 00 => 08 00000002 00000001 00000001 s`other` s`t` s`n` 0002 00000001 00000008 0000000000000009
07 l`SELECT v FROM ks.t WHERE k = 1` 0001 00 => 08 00000002 00000001 00000001 s`ks` s`t` s`v` 000D 00000001 l`x`";

/// A conversation with a node in pieces of this length, and how it went unless it is as it should be.
fn differs<R: Wait>(
    rt: &R,
    alloc: Global,
    node: &mut Node,
    talk: &Talk,
    len: usize,
    end: Served,
) -> Result<Option<String>, Fail> {
    let pieces = cut(alloc, &talk.input, len)?;
    let mut link = MemLink::new(alloc, pieces, len, Vec::new(alloc));
    let served = node.serve(rt, alloc, &mut link, &OpenGate, &mut NeverStop);
    difference(alloc, len, served, &link, end, &talk.output)
}

/// Conversations with one node, of which the first is closed by it.
fn one_after_another<R: Wait>(
    rt: &R,
    alloc: Global,
    first: &Talk,
    others: &[Talk],
    len: usize,
) -> Result<Option<String>, Fail> {
    let mut node = Node::new(alloc)?;
    let went = differs(rt, alloc, &mut node, first, len, Served::Closed)?;
    if went.is_some() {
        return Ok(went);
    }
    for talk in others {
        let went = differs(rt, alloc, &mut node, talk, len, Served::Ended)?;
        if went.is_some() {
            return Ok(went);
        }
    }
    Ok(None)
}

#[test]
fn a_connection_sees_no_other_one(rt: HostRuntime) -> Result<(), Fail> {
    let first = frames(rt.alloc(), USUAL)?;
    let others = [requests(rt.alloc(), SECOND)?, requests(rt.alloc(), THIRD)?];
    for len in &LENGTHS {
        let went = one_after_another(&rt, rt.alloc(), &first, &others, *len)?;
        assert_eq!(rt; went, None);
    }
    Ok(())
}

/// Adds the PREPARE of the statement of this number, and what it is answered.
fn push_prepare(out: &mut String, number: u32) -> Result<(), Fail> {
    write!(out, "09 l`SELECT v FROM t WHERE k = {number}` => ")?;
    write!(out, "08 00000004 k`SELECT v FROM t WHERE k = {number}` ")?;
    out.push_str("00000001 00000000 00000000 s`ks` s`t` 00000001 00000001 s`ks` s`t` s`v` 000D\n")?;
    Ok(())
}

/// Adds its EXECUTE, and what it is answered where it is kept.
fn push_kept(out: &mut String, number: u32) -> Result<(), Fail> {
    write!(out, "0A k`SELECT v FROM t WHERE k = {number}` 0001 02 => ")?;
    out.push_str("08 00000002 00000004 00000001 00000000\n")?;
    Ok(())
}

/// The same where it is not.
fn push_gone(out: &mut String, number: u32) -> Result<(), Fail> {
    write!(out, "0A k`SELECT v FROM t WHERE k = {number}` 0001 02 => ")?;
    write!(
        out,
        "00 00002500 s`unprepared` k`SELECT v FROM t WHERE k = {number}`\n"
    )?;
    Ok(())
}

const STARTING: &str = "01 0001 s`CQL_VERSION` s`3.0.0` => 02
07 l`USE ks` 0001 00 => 08 00000003 s`ks`
";

/// 1,024 statements are prepared, and then others. One that is there is no further one.
fn many(alloc: Global) -> Result<String, Fail> {
    let mut rows = String::from_str(alloc, STARTING)?;
    for number in 0..1024 {
        push_prepare(&mut rows, number)?;
    }
    push_prepare(&mut rows, 7)?;
    push_kept(&mut rows, 0)?;
    push_kept(&mut rows, 1023)?;
    push_prepare(&mut rows, 1024)?;
    push_gone(&mut rows, 0)?;
    push_kept(&mut rows, 1)?;
    push_kept(&mut rows, 1024)?;
    push_prepare(&mut rows, 0)?;
    push_gone(&mut rows, 1)?;
    push_kept(&mut rows, 2)?;
    push_kept(&mut rows, 0)?;
    Ok(rows)
}

#[test]
fn the_oldest_of_many_statements_goes(rt: HostRuntime) -> Result<(), Fail> {
    let rows = many(rt.alloc())?;
    let talk = requests(rt.alloc(), rows.as_str())?;
    let went = in_pieces_of(&rt, rt.alloc(), &talk, 1000, Served::Ended)?;
    assert_eq!(rt; went, None);
    Ok(())
}

/// A statement of so many bytes, with spaces at its end.
fn long_statement(alloc: Global, length: usize) -> Result<String, Fail> {
    let mut text = String::from_str(alloc, "SELECT v FROM ks.t WHERE k = 1")?;
    for _ in text.len()..length {
        text.push_str(" ")?;
    }
    Ok(text)
}

/// Of the longest statement whose id has a word, and of the next one, whose PREPARE is refused.
fn long_rows(alloc: Global) -> Result<String, Fail> {
    let longest = long_statement(alloc, 65_534)?;
    let text = longest.as_str();
    let mut rows = String::from_str(alloc, STARTING_ALONE)?;
    write!(rows, "09 l`{text}` => 08 00000004 FFFF 00 `{text}` ")?;
    rows.push_str(
        "00000001 00000000 00000000 s`ks` s`t` 00000001 00000001 s`ks` s`t` s`v` 000D\n",
    )?;
    write!(rows, "0A FFFF 00 `{text}` 0001 02 => ")?;
    rows.push_str("08 00000002 00000004 00000001 00000000\n")?;
    write!(rows, "09 l`{text} ` => 00 00002200 s`NotSupported`\n")?;
    write!(rows, "07 l`{text} ` 0001 02 => ")?;
    rows.push_str("08 00000002 00000004 00000001 00000000\n")?;
    write!(
        rows,
        "0A s`none` 0001 02 => 00 00002500 s`unprepared` s`none`\n"
    )?;
    Ok(rows)
}

const STARTING_ALONE: &str = "01 0001 s`CQL_VERSION` s`3.0.0` => 02
";

#[test]
fn another_response_stands_for_one_without_a_word(rt: HostRuntime) -> Result<(), Fail> {
    let rows = long_rows(rt.alloc())?;
    let talk = requests(rt.alloc(), rows.as_str())?;
    for len in &[1000, 1_000_000] {
        let went = in_pieces_of(&rt, rt.alloc(), &talk, *len, Served::Ended)?;
        assert_eq!(rt; went, None);
    }
    Ok(())
}
