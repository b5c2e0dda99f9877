//! What the tests of all kinds are given: nodes, what they know of their cluster, and changes of a partition.

use changes::{Held, Mutation, Partition, Place};
use cs_base::{Bytes, Items, Micros, NodeId, ReqId};
use peer_messages::{Setting, TableSetting};
use std::alloc::{AllocError, Global};
use token_ring::Ring;

/// The node of this number, or else node 0.
pub fn node(number: u8) -> NodeId {
    NodeId::new(number).unwrap_or(NodeId::FIRST)
}

/// The request of node 0 at this time.
pub fn request(time: u64) -> ReqId {
    ReqId {
        node: NodeId::FIRST,
        time: Micros::new(time),
    }
}

/// Four nodes, and two tables: the first has three replicas of a partition, and the second two.
pub fn setting(alloc: Global) -> Result<Setting, AllocError> {
    let ring = match Ring::new(&[-3, 0, 3, 6]) {
        Ok(ring) => ring,
        Err(_) => return Err(AllocError),
    };
    let tables = [TableSetting { factor: 3 }, TableSetting { factor: 2 }];
    Ok(Setting {
        ring,
        tables: Items::from_vec(Vec::from_slice(alloc, &tables)?),
        expiry: Micros::new(10_800_000_000),
    })
}

pub fn partition(alloc: Global, table: u16, token: i64) -> Result<Partition, AllocError> {
    Ok(Partition {
        table,
        token,
        key: Bytes::from_slice(alloc, b"k")?,
    })
}

/// The markers of these rows, each of which is named by a letter.
pub fn markers(alloc: Global, rows: &str) -> Result<Vec<Held>, AllocError> {
    let mut markers = Vec::new(alloc);
    for row in rows.bytes() {
        markers.push(Held {
            place: Place::Marker(Bytes::from_slice(alloc, &[row])?),
            value: Some(Bytes::new(alloc)),
            timestamp: 4,
            submitted: Micros::new(1),
            request: request(7),
        })?;
    }
    Ok(markers)
}

/// The markers of these rows in a partition of the table.
pub fn mutation(alloc: Global, table: u16, rows: &str) -> Result<Mutation, AllocError> {
    let changes = Items::from_vec(markers(alloc, rows)?);
    Ok(Mutation {
        partition: partition(alloc, table, -1)?,
        changes,
    })
}
