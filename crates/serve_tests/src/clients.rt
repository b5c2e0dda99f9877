//! Clients in memory: what they send, and what they are sent.

use cs_base::Bytes;
use cs_doors::DoorPlan;
use cs_io::MemLink;
use std::alloc::{AllocError, Global};
use std::collections::VecDeque;

// How many doors each node has.
const DOORS: usize = 16;

const STARTUP: &[u8] =
    b"\x04\x00\x00\x00\x01\x00\x00\x00\x16\x00\x01\x00\x0bCQL_VERSION\x00\x053.0.0";

/// A write into the table that every schema has, but for its level and its flags.
const INSERT: &[u8] =
    b"\x04\x00\x00\x01\x07\x00\x00\x00\x3d\x00\x00\x00\x36INSERT INTO script.kv (k, c, v) VALUES ('a', 'b', 'x')";

/// What a client of a write is sent: that it is ready, and that its write is done.
pub(crate) const READY_AND_VOID: &[u8] =
    b"\x84\x00\x00\x00\x02\x00\x00\x00\x00\x84\x00\x00\x01\x08\x00\x00\x00\x04\x00\x00\x00\x01";

/// What a client is sent that waits in vain for the answer of a node.
pub(crate) const READY: &[u8] = b"\x84\x00\x00\x00\x02\x00\x00\x00\x00";

pub(crate) const AT_ONE: &[u8] = b"\x00\x01\x00";

pub(crate) const AT_ALL: &[u8] = b"\x00\x05\x00";

// A client that makes one write at this level.
fn writer(alloc: Global, level: &[u8]) -> Result<MemLink, AllocError> {
    let mut bytes = Vec::from_slice(alloc, STARTUP)?;
    bytes.extend_from_slice(INSERT)?;
    bytes.extend_from_slice(level)?;
    let pieces = vec![in alloc; Bytes::from_vec(bytes)]?;
    Ok(MemLink::new(alloc, pieces, 1_000_000, Vec::new(alloc)))
}

// The doors of a node: these clients come to the first, and nobody to the others.
fn doors_of(
    alloc: Global,
    coming: VecDeque<Option<MemLink>>,
    plans: &mut VecDeque<DoorPlan>,
) -> Result<(), AllocError> {
    plans.push_back(DoorPlan::new(coming, Vec::new(alloc)))?;
    for _ in 1..DOORS {
        plans.push_back(DoorPlan::new(VecDeque::new(alloc), Vec::new(alloc)))?;
    }
    Ok(())
}

fn one_writer(alloc: Global, level: &[u8]) -> Result<VecDeque<Option<MemLink>>, AllocError> {
    let mut coming = VecDeque::new(alloc);
    coming.push_back(Some(writer(alloc, level)?))?;
    Ok(coming)
}

/// The doors of two nodes, with a client of each that makes one write at this level.
pub(crate) fn two_writers(alloc: Global, level: &[u8]) -> Result<VecDeque<DoorPlan>, AllocError> {
    let mut plans = VecDeque::new(alloc);
    doors_of(alloc, one_writer(alloc, level)?, &mut plans)?;
    doors_of(alloc, one_writer(alloc, level)?, &mut plans)?;
    Ok(plans)
}

/// The same, with a client of the second node alone.
pub(crate) fn second_writer(alloc: Global, level: &[u8]) -> Result<VecDeque<DoorPlan>, AllocError> {
    let mut plans = VecDeque::new(alloc);
    doors_of(alloc, VecDeque::new(alloc), &mut plans)?;
    doors_of(alloc, one_writer(alloc, level)?, &mut plans)?;
    Ok(plans)
}
