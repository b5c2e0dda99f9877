//! Cells applied to what is kept of one partition, one after another: `contents` alone applies a hundred, ten to a row, and
//! tells how many rows there are, renews all of them at once, and then deletes rows one after another from a partition of a
//! hundred thousand cells. `time COUNT` applies so many, ten to a row, and `row COUNT` so many to one row, and each writes how
//! many microseconds that took; `renew COUNT` renews so many cells at once, and `delete COUNT ROWS` deletes so many rows of so
//! many cells, and each writes how many microseconds that alone took.

use anyhow::{Result, bail};
use cell_merge::Content;
use changes::{Held, Place};
use cs_base::{Bytes, Micros, NodeId, ReqId};
use partition_content::PartitionContent;
use std::alloc::{AllocError, Global};
use std::time::Instant;

pub(crate) fn run(rt: &HostRuntime, words: &[String]) -> Result<()> {
    let command = words.first().map_or("sample", |word| word.as_str());
    let count: u32 = words.get(1).map_or("100", |word| word.as_str()).parse()?;
    let deletions: u32 = words.get(2).map_or("100", |word| word.as_str()).parse()?;
    let micros = match command {
        "sample" => return sample(rt),
        "time" => apply_timed(rt, count, count / 10)?,
        "row" => apply_timed(rt, count, 1)?,
        "renew" => renew_timed(rt, count)?,
        "delete" => delete_timed(rt, count, deletions)?,
        _ => bail!("time COUNT, row COUNT, renew COUNT, delete COUNT ROWS, or no words"),
    };
    println!(rt; "{micros}")?;
    Ok(())
}

fn sample(rt: &HostRuntime) -> Result<()> {
    let mut content = apply_cells(rt.alloc(), 100, 10)?;
    let rows = row_count(rt.alloc(), &content)?;
    println!(rt; "100 cells, {rows} rows")?;
    let told = renew_cells(rt.alloc(), &mut content, 100, 10)?;
    let length = content.encoded_length();
    println!(rt; "{told} bytes told, {length} bytes once they are renewed")?;
    drop(content);
    sample_of_deletions(rt)
}

fn sample_of_deletions(rt: &HostRuntime) -> Result<()> {
    let mut large = apply_cells(rt.alloc(), 100_000, 10_000)?;
    delete_rows(rt.alloc(), &mut large, 1_000)?;
    let length = large.encoded_length();
    println!(rt; "1000 of 10000 rows deleted, {length} bytes left")?;
    Ok(())
}

/// How many microseconds it takes to apply so many cells.
fn apply_timed(rt: &HostRuntime, count: u32, rows: u32) -> Result<u128> {
    let start = Instant::now(rt)?;
    let _content = apply_cells(rt.alloc(), count, rows)?;
    Ok(start.elapsed(rt)?.as_micros())
}

/// How many microseconds it takes to renew so many cells at once.
fn renew_timed(rt: &HostRuntime, count: u32) -> Result<u128> {
    let mut content = apply_cells(rt.alloc(), count, count / 10)?;
    let start = Instant::now(rt)?;
    let _told = renew_cells(rt.alloc(), &mut content, count, count / 10)?;
    Ok(start.elapsed(rt)?.as_micros())
}

/// How many microseconds it takes to delete so many rows.
fn delete_timed(rt: &HostRuntime, count: u32, rows: u32) -> Result<u128> {
    let mut content = apply_cells(rt.alloc(), count, count / 10)?;
    let start = Instant::now(rt)?;
    delete_rows(rt.alloc(), &mut content, rows)?;
    Ok(start.elapsed(rt)?.as_micros())
}

/// Applies so many cells one after another, to so many rows out of order.
fn apply_cells(alloc: Global, count: u32, rows: u32) -> Result<PartitionContent, AllocError> {
    let mut content = PartitionContent::new(alloc);
    let rows = rows.max(1);
    for at in 0..count {
        let row = at.wrapping_mul(2654435761) % rows;
        let incoming = one_cell(alloc, row, at)?;
        content.reserve(&incoming)?;
        content.apply(incoming, Micros::new(1));
    }
    Ok(content)
}

/// Deletes the first rows one after another, each later than all its cells, and tells the length beforehand as a node does.
fn delete_rows(alloc: Global, content: &mut PartitionContent, rows: u32) -> Result<(), AllocError> {
    for row in 0..rows {
        let name = Bytes::from_slice(alloc, &row.to_be_bytes())?;
        let incoming = one_change(alloc, Place::RowGone(name), None, i64::MAX)?;
        content.reserve(&incoming)?;
        let _length = content.length_with(&incoming);
        content.apply(incoming, Micros::new(1));
    }
    Ok(())
}

/// Later than all cells that are applied one after another.
const LATER: i64 = 1 << 32;

/// Applies the same cells again at once, each later, with the deletion of the first row, which is between the old and the new
/// ones, and gives the length that was told beforehand.
fn renew_cells(
    alloc: Global,
    content: &mut PartitionContent,
    count: u32,
    rows: u32,
) -> Result<u64, AllocError> {
    let mut changes = Vec::new(alloc);
    let first = Bytes::from_slice(alloc, &0u32.to_be_bytes())?;
    changes.push(change(Place::RowGone(first), None, LATER))?;
    let rows = rows.max(1);
    for at in 0..count {
        let row = at.wrapping_mul(2654435761) % rows;
        let value = Some(Bytes::from_slice(alloc, b"later")?);
        changes.push(change(cell(alloc, row, at)?, value, LATER + 1))?;
    }
    let incoming = Content::from_changes(alloc, changes)?;
    content.reserve(&incoming)?;
    let told = content.length_with(&incoming);
    content.apply(incoming, Micros::new(2));
    Ok(told)
}

fn cell(alloc: Global, row: u32, at: u32) -> Result<Place, AllocError> {
    let name = Bytes::from_slice(alloc, &row.to_be_bytes())?;
    Ok(Place::Cell(name, (at % 250) as u8))
}

fn one_cell(alloc: Global, row: u32, at: u32) -> Result<Content, AllocError> {
    let value = Some(Bytes::from_slice(alloc, b"value")?);
    one_change(alloc, cell(alloc, row, at)?, value, i64::from(at))
}

fn change(place: Place, value: Option<Bytes>, timestamp: i64) -> Held {
    Held {
        place,
        value,
        timestamp,
        submitted: Micros::new(1),
        request: ReqId {
            node: NodeId::FIRST,
            time: Micros::new(1),
        },
    }
}

fn one_change(
    alloc: Global,
    place: Place,
    value: Option<Bytes>,
    timestamp: i64,
) -> Result<Content, AllocError> {
    let mut changes = Vec::new(alloc);
    changes.push(change(place, value, timestamp))?;
    Content::from_changes(alloc, changes)
}

fn row_count(alloc: Global, content: &PartitionContent) -> Result<usize, AllocError> {
    let whole = content.whole(alloc)?;
    let mut rows = Vec::new(alloc);
    for held in whole.as_slice() {
        rows.push(held.place.row())?;
    }
    rows.dedup();
    Ok(rows.len())
}
