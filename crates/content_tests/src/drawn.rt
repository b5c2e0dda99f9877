//! Changes at random, as words.

use std::alloc::{AllocError, Global};
use std::fmt::Write;

/// How the changes of a turn are drawn: at so many names of rows; a deletion of rows ends fewer names on than this; there are
/// fewer changes than this; at so many timestamps, which begin so much later from turn to turn.
pub type Manner = (u64, u64, u64, u64, u64);

/// Names of rows in order, of which some begin with others.
const NAMES: [&str; 16] = [
    "", "\0", "a", "a\0", "ab", "b", "ba", "bb", "bba", "c", "ca", "d", "da", "e", "\u{fe}",
    "\u{ff}",
];

/// A letter for each kind of place but the rarest, mostly of a cell.
const KINDS: [&str; 8] = ["R", "R", "D", "M", "0", "1", "2", "2"];

/// The next of some numbers below a limit.
fn next(seed: &mut u64, limit: u64) -> u64 {
    *seed = seed
        .wrapping_mul(6364136223846793005)
        .wrapping_add(1442695040888963407);
    if limit == 0 {
        return 0;
    }
    (*seed >> 33) % limit
}

fn one_of(seed: &mut u64, texts: &[&'static str]) -> &'static str {
    let at = next(seed, texts.len() as u64) as usize;
    texts.get(at).copied().unwrap_or("")
}

/// Writes a change at a place of any kind, mostly a cell, with two bounds, of which the second mostly stands behind the first.
fn push_change(
    words: &mut String,
    seed: &mut u64,
    manner: Manner,
    turn: u64,
) -> Result<(), AllocError> {
    let (names, width, _, times, pace) = manner;
    let kind = if next(seed, 40) == 0 {
        "P"
    } else {
        one_of(seed, &KINDS)
    };
    let at = next(seed, names);
    let end = at.wrapping_add(next(seed, width));
    let end = if end < names {
        end
    } else {
        end.wrapping_sub(names)
    };
    let (from, upto) = (NAMES[(at % 16) as usize], NAMES[(end % 16) as usize]);
    let (begins, ends) = (one_of(seed, &["", "+"]), one_of(seed, &["", "+"]));
    let value = one_of(seed, &["", "=", "=v", "=value"]);
    let time = next(seed, times).wrapping_add(turn.wrapping_mul(pace));
    write!(words, "{kind}{from}{begins}..{upto}{ends}{value}@{time} ")
}

/// The changes that come in a turn.
pub fn drawn_changes(
    alloc: Global,
    seed: &mut u64,
    manner: Manner,
    turn: u64,
) -> Result<String, AllocError> {
    let mut words = String::new(alloc);
    for _ in 0..next(seed, manner.2) {
        push_change(&mut words, seed, manner, turn)?;
    }
    Ok(words)
}
