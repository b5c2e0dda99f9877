//! A few steps, with what they leave worked out by hand.

use crate::RowStore;
use changes::Partition;
use cs_base::{Ballot, Bytes, Items};
use durable_state::RowAt;
use paxos_acceptor::fresh;
use row_change::{LogItem, PaxosRow};
use std::alloc::{AllocError, Global};
use std::test::Fail;

/// Partitions 0 to 2, in the reverse of their order in a ring.
fn partition(alloc: Global, number: u8) -> Result<Partition, AllocError> {
    Ok(Partition {
        table: 0,
        token: -i64::from(number),
        key: Bytes::from_slice(alloc, &[number])?,
    })
}

/// A row of which the promise alone is told.
fn promised(ballot: u64) -> PaxosRow {
    let mut row = fresh();
    row.promised = Ballot::new(ballot);
    row
}

fn set(store: &mut RowStore, alloc: Global, number: u8, ballot: u64) -> Result<(), AllocError> {
    store.set(alloc, &partition(alloc, number)?, promised(ballot))
}

/// The promise of each partition, 0 where it has no row.
fn promises(store: &RowStore, alloc: Global) -> Result<[u64; 3], AllocError> {
    let mut all = [0; 3];
    for number in 0..3u8 {
        if let Some(row) = store.row(&partition(alloc, number)?) {
            all[usize::from(number)] = row.promised.number();
        }
    }
    Ok(all)
}

/// The key and the promise of each item.
fn items(store: &RowStore, alloc: Global) -> Result<Vec<(u8, u64)>, AllocError> {
    let mut all = Vec::new(alloc);
    for item in store.items(alloc)?.as_slice() {
        if let LogItem::Paxos(partition, row) = item {
            let key = partition.key.as_slice().first().copied().unwrap_or(9);
            all.push((key, row.promised.number()))?;
        }
    }
    Ok(all)
}

fn row_at(alloc: Global, number: u8, ballot: u64) -> Result<RowAt, AllocError> {
    Ok(RowAt {
        partition: partition(alloc, number)?,
        row: promised(ballot),
    })
}

#[test]
fn a_step_is_kept_or_undone(rt: HostRuntime) -> Result<(), Fail> {
    let alloc = rt.alloc();
    let rows = vec![in alloc;
        row_at(alloc, 0, 9)?,
        row_at(alloc, 1, 17)?,
        row_at(alloc, 0, 8)?,
    ]?;
    let mut store = RowStore::restore(alloc, Items::from_vec(rows))?;
    assert_eq!(rt; promises(&store, alloc)?, [9, 17, 0]);
    set(&mut store, alloc, 2, 10)?;
    set(&mut store, alloc, 0, 18)?;
    set(&mut store, alloc, 2, 26)?;
    assert_eq!(rt; promises(&store, alloc)?, [18, 17, 26]);
    assert_eq!(rt;
        items(&store, alloc)?.as_slice(),
        [(2u8, 26u64), (0, 18)].as_slice()
    );
    store.back();
    assert_eq!(rt; promises(&store, alloc)?, [9, 17, 0]);
    assert_eq!(rt; items(&store, alloc)?.len(), 0);
    set(&mut store, alloc, 1, 25)?;
    set(&mut store, alloc, 2, 33)?;
    store.settle();
    assert_eq!(rt; items(&store, alloc)?.len(), 0);
    set(&mut store, alloc, 2, 34)?;
    store.back();
    assert_eq!(rt; promises(&store, alloc)?, [9, 25, 33]);
    Ok(())
}

#[test]
fn a_partition_of_which_nothing_was_heard_has_a_fresh_row(rt: HostRuntime) -> Result<(), Fail> {
    let alloc = rt.alloc();
    let store = RowStore::new(alloc);
    let partition = partition(alloc, 0)?;
    assert!(rt; store.row(&partition).is_none());
    let row = store.copy_or_fresh(alloc, &partition)?;
    assert_eq!(rt; row.promised.number(), 0);
    assert!(rt; row.accepted.is_none() && row.commit.is_none());
    Ok(())
}
