//! Queries of ten rows from the middle of one partition on, one cell a row, half of them reversed, and merges of contents of
//! such cells. `queries` alone prints what two queries show of forty cells. `time CELLS QUERIES` makes a partition of so many
//! cells, runs so many queries, and writes how many microseconds the queries took. `merge CELLS KIND` merges a content of so
//! many cells with a second one, of `equal` cells, of equal cells and one more (`longer`), or of cells that win over the first
//! one's (`newer`), and writes how many microseconds that took.

use anyhow::{Result, bail};
use cell_merge::Content;
use changes::{Bound, Held, Partition, Place, Query, ShownRow};
use cs_base::{Bytes, Micros, NodeId, ReqId};
use row_select::shown;
use std::alloc::{AllocError, Global};
use std::time::Instant;

pub(crate) fn run(rt: &HostRuntime, words: &[String]) -> Result<()> {
    let command = words.first().map_or("sample", |word| word.as_str());
    let cells: u32 = words.get(1).map_or("40", |word| word.as_str()).parse()?;
    let last = words.get(2).map_or("2", |word| word.as_str());
    match command {
        "sample" => print_queries(rt, cells, last.parse()?)?,
        "time" => time_queries(rt, cells, last.parse()?)?,
        "merge" => time_merge(rt, cells, last)?,
        _ => bail!("time CELLS QUERIES, merge CELLS KIND, or no words"),
    }
    Ok(())
}

fn print_queries(rt: &HostRuntime, cells: u32, queries: u32) -> Result<()> {
    let content = content_of(rt.alloc(), cells, 1)?;
    for number in 0..queries {
        println!(rt; "{}", shown_line(rt.alloc(), &content, number)?)?;
    }
    Ok(())
}

fn time_queries(rt: &HostRuntime, cells: u32, queries: u32) -> Result<()> {
    let content = content_of(rt.alloc(), cells, 1)?;
    let start = Instant::now(rt)?;
    let rows = run_queries(rt.alloc(), &content, queries)?;
    let micros = start.elapsed(rt)?.as_micros();
    if rows == 0 {
        bail!("no rows");
    }
    println!(rt; "{micros}")?;
    Ok(())
}

fn time_merge(rt: &HostRuntime, cells: u32, kind: &str) -> Result<()> {
    let first = content_of(rt.alloc(), cells, 1)?;
    let second = second_content(rt.alloc(), cells, kind)?;
    let start = Instant::now(rt)?;
    let merged = first.merge(rt.alloc(), second)?;
    let micros = start.elapsed(rt)?.as_micros();
    if merged.as_slice().len() < cells as usize {
        bail!("cells are missing");
    }
    println!(rt; "{micros}")?;
    Ok(())
}

/// What a content of so many cells is merged with.
fn second_content(alloc: Global, cells: u32, kind: &str) -> Result<Content> {
    let (cells, timestamp) = match kind {
        "equal" => (cells, 1),
        "longer" => (cells.wrapping_add(1), 1),
        "newer" => (cells, 2),
        _ => bail!("equal, longer or newer"),
    };
    let content = content_of(alloc, cells, timestamp)?;
    Ok(content)
}

/// A content of so many cells, each in a row of its own.
fn content_of(alloc: Global, cells: u32, timestamp: i64) -> Result<Content, AllocError> {
    let mut changes = Vec::new(alloc);
    for at in 0..cells {
        changes.push(one_cell(alloc, at, timestamp)?)?;
    }
    Content::from_changes(alloc, changes)
}

/// A cell in a row with a name of four bytes; the factor is odd, so that each number has a row of its own, and spreads them.
fn one_cell(alloc: Global, at: u32, timestamp: i64) -> Result<Held, AllocError> {
    let name = at.wrapping_mul(2654435761).to_be_bytes();
    Ok(Held {
        place: Place::Cell(Bytes::from_slice(alloc, &name)?, 1),
        value: Some(Bytes::from_slice(alloc, b"value")?),
        timestamp,
        submitted: Micros::new(1),
        request: ReqId {
            node: NodeId::FIRST,
            time: Micros::new(1),
        },
    })
}

/// The query of ten rows from a little behind the middle to the end; every second one is reversed.
fn query_of(alloc: Global, number: u32) -> Result<Query, AllocError> {
    let behind = (number % 16) as u8;
    Ok(Query {
        partition: Partition {
            table: 0,
            token: 0,
            key: Bytes::new(alloc),
        },
        from: Bound {
            at: Bytes::from_slice(alloc, &[128 + behind])?,
            after: false,
        },
        upto: Bound {
            at: Bytes::new(alloc),
            after: true,
        },
        reversed: number % 2 == 1,
        limit: 10,
    })
}

/// How many rows so many queries show.
fn run_queries(alloc: Global, content: &Content, queries: u32) -> Result<usize, AllocError> {
    let mut shown_rows: usize = 0;
    for number in 0..queries {
        let query = query_of(alloc, number)?;
        let (rows, _) = shown(alloc, content, &query)?;
        shown_rows = shown_rows.wrapping_add(rows.as_slice().len());
    }
    Ok(shown_rows)
}

/// The rows that one query shows, by the first two bytes of their names, with a `+` where more follow.
fn shown_line(alloc: Global, content: &Content, number: u32) -> Result<String, AllocError> {
    let (rows, more) = shown(alloc, content, &query_of(alloc, number)?)?;
    let mut line = String::new(alloc);
    for row in rows.as_slice() {
        push_row(alloc, &mut line, row)?;
    }
    if more {
        line.push('+')?;
    }
    Ok(line)
}

fn push_row(alloc: Global, line: &mut String, row: &ShownRow) -> Result<(), AllocError> {
    for byte in row.row.as_slice().iter().take(2) {
        line.push_str(&format!(in alloc; "{byte:02x}")?)?;
    }
    line.push(' ')
}
