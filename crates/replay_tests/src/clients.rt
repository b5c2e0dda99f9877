//! What the clients of the two nodes ask, and the doors to which they come.

use crate::frames::{STARTUP, push_query};
use cs_base::Bytes;
use cs_doors::{DoorPlan, MemDoor};
use cs_io::MemLink;
use std::alloc::{AllocError, Global};
use std::collections::VecDeque;

/// The codes of levels.
const ONE: u8 = 1;

const QUORUM: u8 = 4;

const ALL: u8 = 5;

const READ: &str = "SELECT v FROM script.kv WHERE k = 'a'";

/// The statements of the client of each node, with their levels. The first of each is at ALL, and the second reads.
const STATEMENTS: [[(&str, u8); 6]; 2] = [
    [
        (
            "INSERT INTO script.kv (k, c, v) VALUES ('a', '0', 'own')",
            ALL,
        ),
        (READ, QUORUM),
        (
            "INSERT INTO script.kv (k, c, v) VALUES ('a', '2', 'of 0')",
            ONE,
        ),
        (READ, ONE),
        ("DELETE FROM script.kv WHERE k = 'a' AND c = '1'", QUORUM),
        (READ, ALL),
    ],
    [
        (
            "INSERT INTO script.kv (k, c, v) VALUES ('a', '1', 'own')",
            ALL,
        ),
        (READ, ONE),
        (
            "INSERT INTO script.kv (k, c, v) VALUES ('a', '2', 'of 1')",
            QUORUM,
        ),
        (READ, ALL),
        (
            "INSERT INTO script.kv (k, c, v) VALUES ('a', '3', 'last')",
            ONE,
        ),
        (READ, QUORUM),
    ],
];

/// How many requests each node has to answer: the one by which a client begins, and its statements.
pub(crate) const REQUESTS: u64 = 7;

/// Of these the nodes are asked.
pub(crate) const ASKS: usize = 12;

/// The door of a node, to which its client comes.
fn door_of(alloc: Global, statements: &[(&str, u8)]) -> Result<MemDoor, AllocError> {
    let mut bytes = Vec::from_slice(alloc, STARTUP)?;
    let mut stream: u8 = 0;
    for (text, level) in statements {
        stream = stream.wrapping_add(1);
        push_query(alloc, &mut bytes, stream, text, *level)?;
    }
    let pieces = vec![in alloc; Bytes::from_vec(bytes)]?;
    let link = MemLink::new(alloc, pieces, 1_000_000, Vec::new(alloc));
    let mut coming = VecDeque::new(alloc);
    coming.push_back(Some(link))?;
    Ok(MemDoor::new(alloc, DoorPlan::new(coming, Vec::new(alloc))))
}

/// The doors of the nodes, one of each.
pub(crate) fn doors(alloc: Global) -> Result<Vec<Vec<MemDoor>>, AllocError> {
    let mut doors = Vec::new(alloc);
    for statements in &STATEMENTS {
        let door = door_of(alloc, statements)?;
        doors.push(vec![in alloc; door]?)?;
    }
    Ok(doors)
}
