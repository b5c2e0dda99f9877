//! Entries behind gate bytes.

ghost use Rattle.std.specs.Prelude.{◌≡◌, ◌+◌, ◌++◌, ℕ, ◌^◌, ◌<◌, List, length, IfSome, IfNone, IfOk, IfErr};
ghost use Rattle.std.specs.Int.{w32, to_be_bytes};
ghost use Rattle.gate_log.specs.Entries.{pieces, IsSplit};
ghost use Rattle.gate_log.specs.Format.{IsFound, HasNoEntry, IsNext, IsClosed, Breaks, IsOneReading};

use std::alloc::{AllocError, Global};

/// The gate byte before an entry. Every other byte is a closed gate.
pub(crate) const OPEN: u8 = 0xc5;

/// The closed gate byte that is written behind an entry.
pub(crate) const CLOSED: u8 = 0;

/// Splits what stands behind an open gate into an entry and the rest, unless its length passes the end.
fn split_entry(bytes: &[u8]) -> Option<(&[u8], &[u8])>
    ensures none { IfNone result (HasNoEntry bytes.now) }
    ensures length { IfSome result (λ parts. length parts.0.now < 2 ^ 32) }
    ensures parts { IfSome result (λ parts. bytes.now ≡ to_be_bytes w32 (length parts.0.now) ++ parts.0.now ++ parts.1.now) }
{
    let (front, behind) = bytes.split_first_chunk::<4>()?;
    behind.split_at_checked(u32::from_be_bytes(*front) as usize)
}

/// Splits what stands from a gate on into an entry and the rest. It is `None` where the gate is closed. An `Err` has
/// the place, from that gate on, of the field that breaks the format.
fn next_entry(bytes: &[u8]) -> Result<Option<(&[u8], &[u8])>, usize>
    ensures entry { IfOk result (λ next. IfSome next (λ parts. IsNext parts.0.now parts.1.now bytes.now)) }
    ensures closed { IfOk result (λ next. IfNone next (IsClosed bytes.now)) }
    ensures broken { IfErr result (Breaks bytes.now) }
{
    let Some((gate, behind)) = bytes.split_first() else {
        return Err(0);
    };
    if *gate != OPEN {
        return Ok(None);
    }
    match split_entry(behind) {
        Some(parts) => Ok(Some(parts)),
        None => Err(1),
    }
}

/// Where the entries of a file end, up to the first closed gate or the first field that breaks the format, and the
/// place of that field.
#[derive(Debug, Drop)]
pub(crate) struct Ends {
    pub(crate) ends: Vec<usize>,
    pub(crate) damage: Option<u64>,
}

pub(crate) fn find_ends(alloc: Global, bytes: &[u8]) -> Result<Ends, AllocError>
    ensures split { IfOk result (λ s. IsSplit 0 bytes.now s.ends.items) }
    ensures found { IfOk result (λ s. IsFound (pieces 0 bytes.now s.ends.items) s.damage bytes.now) }
{
    let mut ends = Vec::new(alloc);
    let mut gate = 0;
    'entries: loop {
        match next_entry(&bytes[gate..]) {
            Ok(Some((entry, _))) => {
                gate += 5 + entry.len();
                ends.push(gate)?;
            }
            Ok(None) => return Ok(Ends { ends, damage: None }),
            Err(field) => {
                let damage = Some((gate + field) as u64);
                return Ok(Ends { ends, damage });
            }
        }
    }
}

/// A file reads in one way at most: as one list of entries, or as damaged at one place.
pub fn reads_in_one_way()
    ensures { (file : List ℕ) → IsOneReading file }
{}
