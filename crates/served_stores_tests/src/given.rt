//! What the tests begin with.

use cs_base::{Items, Micros, NodeId};
use cs_store::{FileNo, MemStore, MemStores, Store, Stores};
use peer_messages::{Setting, TableSetting};
use std::alloc::{AllocError, Global};
use token_ring::Ring;

/// A ring of three nodes, and one table of which each of them is a replica.
pub(crate) fn setting(alloc: Global) -> Result<Setting, AllocError> {
    let Ok(ring) = Ring::new(&[-3, 0, 3]) else {
        return Err(AllocError);
    };
    Ok(Setting {
        ring,
        tables: Items::from_vec(vec![in alloc; TableSetting { factor: 3 }]?),
        expiry: Micros::new(1_000_000_000),
    })
}

/// Which stores are home, by number. Those that are home are again.
pub(crate) fn are_home(stores: &mut MemStores) -> [bool; 7] {
    let mut home = [false; 7];
    for number in 0..7 {
        let node = NodeId::new(number).unwrap();
        if let Ok(store) = stores.take("", node) {
            stores.back(node, store);
            home[usize::from(number)] = true;
        }
    }
    home
}

/// Lets a call of the store of a node fail.
pub(crate) fn fail_at(stores: &mut MemStores, node: NodeId, call: u32) {
    if let Ok(mut store) = stores.take("", node) {
        if call > 0 {
            store.fail_at(call);
        }
        stores.back(node, store);
    }
}

/// A log of an entry of two bytes, of which one is there.
const SPOILED: &[u8] = b"\xc5\0\0\0\x02\0";

/// Writes a log that is cut within an entry.
fn spoil(store: &mut MemStore) -> Option<()> {
    let log = FileNo::new(0)?;
    store.reserve(log, SPOILED.len() as u64).ok()?;
    store.cut(log, 0).ok()?;
    store.write_at(log, 0, SPOILED).ok()
}

/// Spoils the log of a node.
pub(crate) fn spoil_log(stores: &mut MemStores, node: NodeId) -> Option<()> {
    let mut store = stores.take("", node).ok()?;
    let spoiled = spoil(&mut store);
    stores.back(node, store);
    spoiled
}
