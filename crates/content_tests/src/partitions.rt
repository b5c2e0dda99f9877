//! What is kept of a partition, beside a plain list of changes, each of which is compared with all others; and what a load makes
//! of one.

use crate::drawn::{Manner, drawn_changes};
use crate::given::{changes, content, place};
use cell_merge::{Content, PlainContent};
use changes::{Bound, Held, Place, are_in_order, encoded_length};
use cs_base::Micros;
use partition_content::{Arrived, LoadedContent, PartitionContent};
use std::alloc::{AllocError, Global};
use std::fmt::Write;
use std::test::Fail;

/// Puts changes in at a time. Whether the length is then what was told before.
fn take_in(kept: &mut PartitionContent, incoming: Content, time: u64) -> Result<bool, AllocError> {
    kept.reserve(&incoming)?;
    let told = kept.length_with(&incoming);
    kept.apply(incoming, Micros::new(time));
    Ok(told == kept.encoded_length())
}

/// What is kept of changes that come line by line, one line at a time.
pub fn kept_of(alloc: Global, lines: &str) -> Result<PartitionContent, AllocError> {
    let mut kept = PartitionContent::new(alloc);
    for (time, words) in lines.lines().enumerate() {
        let _is_told = take_in(&mut kept, content(alloc, words)?, time as u64)?;
    }
    Ok(kept)
}

/// When what stands at a place came.
pub fn arrival(alloc: Global, kept: &PartitionContent, at: &str) -> Result<String, AllocError> {
    match kept.get(place(alloc, at)?) {
        Some(there) => format!(in alloc; "{}", there.copy(alloc)?.arrival.count()),
        None => String::from_str(alloc, "never"),
    }
}

/// The words of cells of so many rows, one on a line.
fn many_rows(alloc: Global, count: u32) -> Result<String, AllocError> {
    let mut lines = String::new(alloc);
    for row in 0..count {
        writeln!(lines, "0{row:05}")?;
    }
    Ok(lines)
}

/// A `1` for each of some rows that is there, and a `0` for each other one.
fn rows_there(alloc: Global, kept: &PartitionContent) -> Result<String, AllocError> {
    let mut signs = String::new(alloc);
    for row in 4_999..5_011 {
        let at = format!(in alloc; "0{row:05}")?;
        let is_there = kept.get(place(alloc, &at)?).is_some();
        signs.push(if is_there { '1' } else { '0' })?;
    }
    Ok(signs)
}

/// Whether the length was told when few of many rows were deleted, the number of keys and the length then, and the rows.
pub fn few_of_many(alloc: Global, gone: &str) -> Result<String, AllocError> {
    let mut kept = kept_of(alloc, &many_rows(alloc, 10_000)?)?;
    let is_told = take_in(&mut kept, content(alloc, gone)?, 10_000)?;
    let rows = rows_there(alloc, &kept)?;
    let (count, length) = (kept.key_count(), kept.encoded_length());
    format!(in alloc; "{is_told} {count} {length} {}", rows.as_str())
}

/// What a load makes of the lines, with what is loaded put back at one of them.
fn loaded_of(alloc: Global, lines: &str, back: usize) -> Result<PartitionContent, AllocError> {
    let mut loaded = LoadedContent::new(alloc);
    for (at, words) in lines.lines().enumerate() {
        if at == back {
            loaded = LoadedContent::from_content(alloc, loaded.into_content()?);
        }
        loaded.add(content(alloc, words)?, Micros::new(at as u64))?;
    }
    loaded.into_content()
}

fn is_loaded_alike(
    alloc: Global,
    kept: &PartitionContent,
    loaded: &PartitionContent,
) -> Result<bool, AllocError> {
    Ok(
        loaded.encoded_length() == kept.encoded_length()
            && loaded.stored(alloc)? == kept.stored(alloc)?,
    )
}

/// Whether a load keeps what comes one after another, wherever what is loaded is put back.
pub fn is_loaded(alloc: Global, lines: &str) -> Result<bool, AllocError> {
    let kept = kept_of(alloc, lines)?;
    let mut alike = true;
    for back in 0..6 {
        alike &= is_loaded_alike(alloc, &kept, &loaded_of(alloc, lines, back)?)?;
    }
    Ok(alike)
}

/// Whether these changes are in order and those of a plain list, which has each place once.
fn are_those(changes: &[Held], plain: &[Held]) -> bool {
    for held in plain {
        if !changes.contains(held) {
            return false;
        }
    }
    changes.len() == plain.len() && are_in_order(changes)
}

/// Whether what is kept is what the plain list has, and has come of what was there by a merge.
fn keeps_alike(
    alloc: Global,
    kept: &PartitionContent,
    merged: &Content,
    plain: &[Held],
) -> Result<bool, AllocError> {
    Ok(
        kept.encoded_length() == encoded_length(plain)
            && kept.is_empty() == plain.is_empty()
            && kept.key_count() == plain.len()
            && are_those(merged.as_slice(), plain)
            && kept.whole(alloc)?.is_same(merged),
    )
}

/// When the change came, if it is one of these.
fn arrival_of(stored: &[Arrived], held: &Held) -> Option<Micros> {
    for there in stored {
        if there.held == *held {
            return Some(there.arrival);
        }
    }
    None
}

/// Whether these changes are stored now with the arrivals that they had before, and what was not there with this time.
fn came_alike(before: &[Arrived], now: &[Arrived], whole: &[Held], time: u64) -> bool {
    for (there, held) in now.iter().zip(whole) {
        let came = arrival_of(before, held).unwrap_or(Micros::new(time));
        if there.arrival != came || there.held != *held {
            return false;
        }
    }
    now.len() == whole.len()
}

/// Whether a slice has what of the whole meets its bounds.
fn slices_alike(
    alloc: Global,
    kept: &PartitionContent,
    whole: &[Held],
    from: &Bound,
    upto: &Bound,
) -> Result<bool, AllocError> {
    let slice = kept.slice(alloc, from, upto)?;
    let mut at = 0usize;
    for held in whole {
        if held.place.meets(from, upto) {
            if slice.as_slice().get(at) != Some(held) {
                return Ok(false);
            }
            at = at.saturating_add(1);
        }
    }
    Ok(slice.as_slice().len() == at)
}

fn stored_at<'a>(stored: &'a [Arrived], place: &Place) -> Option<&'a Arrived> {
    for there in stored {
        if there.held.place == *place {
            return Some(there);
        }
    }
    None
}

/// Whether what stands at the places of some changes is what is stored there, and what meets the bounds of those that have some
/// is that of the whole.
fn reads_alike(
    alloc: Global,
    kept: &PartitionContent,
    whole: &[Held],
    changes: &[Held],
) -> Result<bool, AllocError> {
    let stored = kept.stored(alloc)?;
    let mut alike = true;
    for Held { place, .. } in changes.iter().take(3) {
        alike &= kept.get(place.copy(alloc)?) == stored_at(&stored, place);
        if let Place::RangeGone(from, upto) = place {
            alike &= slices_alike(alloc, kept, whole, from, upto)?;
        }
    }
    Ok(alike)
}

/// Whether all are alike once changes come, after memory was taken for others that do not come.
fn take_alike(
    alloc: Global,
    kept: &mut PartitionContent,
    plain: &mut PlainContent,
    refused: &Content,
    words: &str,
    time: u64,
) -> Result<bool, AllocError> {
    kept.reserve(refused)?;
    let before = kept.stored(alloc)?;
    let incoming = content(alloc, words)?;
    let merged = kept.whole(alloc)?.merge(alloc, incoming.copy(alloc)?)?;
    let is_told = take_in(kept, incoming, time)?;
    plain.apply(changes(alloc, words)?)?;
    let whole = merged.as_slice();
    Ok(
        is_told
            && keeps_alike(alloc, kept, &merged, plain.as_slice())?
            && came_alike(&before, &kept.stored(alloc)?, whole, time)
            && reads_alike(alloc, kept, whole, refused.as_slice())?,
    )
}

/// Whether nothing is there at first, and all are alike after each turn.
fn go_on_alike(alloc: Global, manner: Manner, turns: u64, start: u64) -> Result<bool, AllocError> {
    let mut seed = start;
    let mut kept = PartitionContent::new(alloc);
    let mut plain = PlainContent::new(alloc);
    let mut alike = kept.is_empty();
    for time in 0..turns {
        let refused = content(alloc, &drawn_changes(alloc, &mut seed, manner, time)?)?;
        let words = drawn_changes(alloc, &mut seed, manner, time)?;
        alike &= take_alike(alloc, &mut kept, &mut plain, &refused, &words, time)?;
    }
    Ok(alike)
}

/// How many histories there are, the turns of each, and how their changes are drawn: many at a time; few at a time, at few
/// timestamps; and crowds of deletions of few rows, later ones mostly at later timestamps.
const HISTORIES: [(u64, u64, Manner); 3] = [
    (16, 6, (9, 9, 30, 40, 0)),
    (12, 25, (9, 9, 9, 8, 0)),
    (8, 30, (16, 6, 14, 6, 1)),
];

#[test]
fn keeps_what_a_plain_list_keeps(rt: HostRuntime) -> Result<(), Fail> {
    for (histories, turns, manner) in HISTORIES {
        for start in 0..histories {
            assert!(rt; go_on_alike(rt.alloc(), manner, turns, start)?, "{start}");
        }
    }
    Ok(())
}
