//! Stores in folders of the system: what they sync and when, and what they refuse.

use crate::noting::Noting;
use cs_base::NodeId;
use cs_store::{FileNo, Store, Stores, TakeError};
use folder_store::{DirStores, FileStore};
use std::fs;
use std::os::unix::fs::MetadataExt;
use std::test::Fail;

// A store may be moved to a thread.
fn send<T: Send>(_store: &T) {}

// Writes one byte at the beginning of a file and syncs it.
fn put<S: Store>(store: &mut S, number: u16, byte: u8) -> Result<(), Fail> {
    let f = FileNo::new(number).ok_or("a file")?;
    store.reserve(f, 1)?;
    store.write_at(f, 0, &[byte])?;
    Ok(store.sync(f)?)
}

fn first<S: Store>(store: &mut S, number: u16) -> Result<u8, Fail> {
    let f = FileNo::new(number).ok_or("a file")?;
    if store.len(f)? < 1 {
        return Err("an empty file".into());
    }
    let mut byte = [0];
    store.read(f, 0, &mut byte)?;
    Ok(byte[0])
}

const FORMATTED: &str = "mkdir fs_order;all .;mkdir fs_order/2;all fs_order/;take fs_order/2;\
write fs_order/2/3;all fs_order/2;data fs_order/2/3;write fs_order/2/2;all fs_order/2;data fs_order/2/2;\
write fs_order/2/1;all fs_order/2;data fs_order/2/1;write fs_order/2/0;all fs_order/2;data fs_order/2/0;";

const TAKEN: &str = "all .;all fs_order/;take fs_order/2;all fs_order/2/0;drop fs_order/2/0;\
all fs_order/2/1;drop fs_order/2/1;all fs_order/2/2;drop fs_order/2/2;all fs_order/2/3;drop fs_order/2/3;\
all fs_order/2;";

// File 9 is written and not synced, and eight others are used.
const USED: &str = "write fs_order/2/9;data fs_order/2/9;";

const SYNCED: &str = "all fs_order/2;data fs_order/2/9;";

type Noted = FileStore<Noting>;

// What was noted since the last look.
fn expect_noted(noting: &Noting, expected: &str) -> Result<(), Fail> {
    if noting.take()?.as_str() == expected {
        Ok(())
    } else {
        Err("other calls".into())
    }
}

fn mode(rt: &HostRuntime, path: &str) -> Result<u32, Fail> {
    Ok(fs::metadata(rt, path)?.mode() & 0o777)
}

fn file(number: u16) -> Result<FileNo, Fail> {
    Ok(FileNo::new(number).ok_or("a file")?)
}

// Writes file 9, without a sync, and looks at eight others.
fn write_and_look(store: &mut Noted) -> Result<(), Fail> {
    let f = file(9)?;
    store.reserve(f, 1)?;
    store.write_at(f, 0, b"x")?;
    for number in 10..18 {
        store.len(file(number)?)?;
    }
    Ok(())
}

fn use_files(noting: &Noting, store: &mut Noted) -> Result<(), Fail> {
    write_and_look(store)?;
    expect_noted(noting, USED)?;
    store.sync(file(9)?)?;
    expect_noted(noting, SYNCED)
}

fn take_twice(noting: &Noting, stores: &mut DirStores<Noting>) -> Result<(), Fail> {
    let node = NodeId::new(2).ok_or("a node")?;
    let store = stores.take("fs_order", node)?;
    stores.back(node, store);
    expect_noted(noting, FORMATTED)?;
    let mut store = stores.take("fs_order", node)?;
    expect_noted(noting, TAKEN)?;
    use_files(noting, &mut store)
}

#[test]
fn what_is_synced_and_when(rt: HostRuntime) -> Result<(), Fail> {
    let _ = fs::remove_dir_all(&rt, "fs_order");
    let noting = Noting::new(rt.clone()?)?;
    let mut stores = DirStores::new(noting.clone()?);
    take_twice(&noting, &mut stores)?;
    assert_eq!(rt; mode(&rt, "fs_order/2")?, 0o700);
    assert_eq!(rt; mode(&rt, "fs_order/2/9")?, 0o600);
    fs::remove_dir_all(&rt, "fs_order")?;
    Ok(())
}

fn put_in_node(stores: &mut DirStores<HostRuntime>, number: u8, byte: u8) -> Result<(), Fail> {
    let node = NodeId::new(number).ok_or("a node")?;
    let mut store = stores.take("fs_nodes", node)?;
    send(&store);
    put(&mut store, 1, byte)?;
    stores.back(node, store);
    Ok(())
}

// The first bytes of files 1 and 0.
fn firsts_of_node(stores: &mut DirStores<HostRuntime>, number: u8) -> Result<(u8, u8), Fail> {
    let node = NodeId::new(number).ok_or("a node")?;
    let mut store = stores.take("fs_nodes", node)?;
    let firsts = (first(&mut store, 1)?, first(&mut store, 0)?);
    stores.back(node, store);
    Ok(firsts)
}

#[test]
fn each_node_has_its_files(rt: HostRuntime) -> Result<(), Fail> {
    let _ = fs::remove_dir_all(&rt, "fs_nodes");
    let mut stores = DirStores::new(rt.clone()?);
    for (number, byte) in [(0, b'a'), (6, b'b')] {
        put_in_node(&mut stores, number, byte)?;
    }
    for (number, byte) in [(0, b'a'), (6, b'b')] {
        assert_eq!(rt; firsts_of_node(&mut stores, number)?, (byte, 0));
    }
    fs::remove_dir_all(&rt, "fs_nodes")?;
    Ok(())
}

// How many faults three calls make that fail.
fn faults_of_failures(store: &mut FileStore<HostRuntime>) -> Result<u64, Fail> {
    let f = file(0)?;
    if store.read(f, 0, &mut [0; 2]).is_ok() || store.len(f).is_ok() || store.sync(f).is_ok() {
        return Err("a call that went well".into());
    }
    Ok(store.faults().count())
}

fn is_busy(rt: &HostRuntime) -> Result<bool, Fail> {
    let second = FileStore::open(rt.clone()?, "fs_lock");
    Ok(matches!(second, Err(TakeError::Busy)))
}

#[test]
fn a_store_is_refused_where_it_is_in_use_or_failed(rt: HostRuntime) -> Result<(), Fail> {
    let _ = fs::remove_dir_all(&rt, "fs_lock");
    let mut store = FileStore::open(rt.clone()?, "fs_lock")?;
    put(&mut store, 0, 7)?;
    assert!(rt; is_busy(&rt)?);
    assert_eq!(rt; faults_of_failures(&mut store)?, 3);
    drop(store);
    let mut store = FileStore::open(rt.clone()?, "fs_lock")?;
    assert_eq!(rt; first(&mut store, 0)?, 7);
    fs::remove_dir_all(&rt, "fs_lock")?;
    Ok(())
}

#[test]
fn a_folder_without_file_0_is_left_as_it_is(rt: HostRuntime) -> Result<(), Fail> {
    let _ = fs::remove_dir_all(&rt, "fs_other");
    fs::create_dir(&rt, "fs_other")?;
    fs::write(&rt, "fs_other/1", b"kept".as_slice())?;
    let answer = FileStore::open(rt.clone()?, "fs_other");
    assert!(rt; matches!(answer, Err(TakeError::Unformatted)));
    assert_eq!(rt; fs::read_to_string(&rt, "fs_other/1")?.as_str(), "kept");
    assert!(rt; !fs::exists(&rt, "fs_other/0")?);
    fs::remove_dir_all(&rt, "fs_other")?;
    Ok(())
}
