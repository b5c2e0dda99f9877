ghost use Rattle.std.specs.Prelude.{◌+◌, ◌≤◌, length};

use cs_base::{Failed, NodeId};
use cs_store::{FileNo, MemStore, MemStores, Outcome, Store, Stores, TakeError};
use std::alloc::Global;
use std::test::Fail;

// Writes within the first eight bytes of a file.
fn write<S: Store>(store: &mut S, f: FileNo, at: u64, bytes: &[u8]) -> Result<(), Fail>
    requires { at + length bytes.now ≤ 8 }
{
    store.reserve(f, 8)?;
    if store.len(f)? < at {
        return Err("past the end".into());
    }
    store.write_at(f, at, bytes)?;
    Ok(())
}

fn contents<S: Store>(alloc: Global, store: &mut S, f: FileNo) -> Result<Vec<u8>, Fail> {
    let len = store.len(f)?;
    let mut bytes = vec![in alloc; 0; len as usize]?;
    store.read(f, 0, &mut bytes)?;
    Ok(bytes)
}

// "ab" is on the disk, and "xyz" is pending behind the "a".
fn pending<S: Store>(store: &mut S, f: FileNo) -> Result<(), Fail> {
    write(store, f, 0, b"ab")?;
    store.sync(f)?;
    write(store, f, 1, b"xyz")
}

// A store may be moved to a thread.
fn send<T: Send>(_store: &T) {}

#[test]
fn a_formatted_store_has_four_zero_bytes(rt: HostRuntime) -> Result<(), Fail> {
    let alloc = rt.alloc();
    let mut store = MemStore::formatted(alloc)?;
    send(&store);
    for (number, len) in [(0, 1), (1, 1), (2, 1), (3, 1), (4, 0), (4095, 0)] {
        let f = FileNo::new(number).ok_or("a file")?;
        let bytes = contents(alloc, &mut store, f)?;
        assert_eq!(rt; bytes.as_slice(), &[0][..len], "file {number}");
    }
    assert!(rt; FileNo::new(4096).is_none());
    Ok(())
}

#[derive(Clone, Copy, Debug)]
enum Kind {
    Len,
    Read,
    Write,
    Cut,
    Sync,
}

// One call of this kind on the file of `pending`, as the second one.
fn call(store: &mut MemStore, f: FileNo, kind: Kind) -> Result<(), Failed> {
    if store.len(f)? < 2 || store.reserve(f, 8).is_err() {
        return Err(Failed);
    }
    match kind {
        Kind::Len => store.len(f).map(|_| ()),
        Kind::Read => store.read(f, 0, &mut [0; 2]),
        Kind::Write => store.write_at(f, 0, b"Q"),
        Kind::Cut => store.cut(f, 2),
        Kind::Sync => store.sync(f),
    }
}

// What is there after a call at which the node stopped.
fn stopped(alloc: Global, f: FileNo, kind: Kind, outcome: Outcome) -> Result<Vec<u8>, Fail> {
    let mut store = MemStore::formatted(alloc)?;
    pending(&mut store, f)?;
    store.stop_at(2, outcome);
    if call(&mut store, f, kind).is_ok() || store.len(f).is_ok() || store.faults().count() != 2 {
        return Err("it goes on".into());
    }
    store.crash(Outcome::Lost);
    contents(alloc, &mut store, f)
}

// What is there after a call that failed, and then after a crash.
fn failed(alloc: Global, f: FileNo, kind: Kind) -> Result<(Vec<u8>, Vec<u8>), Fail> {
    let mut store = MemStore::formatted(alloc)?;
    pending(&mut store, f)?;
    store.fail_at(2);
    if call(&mut store, f, kind).is_ok() || store.faults().count() != 1 {
        return Err("it went through".into());
    }
    let seen = contents(alloc, &mut store, f)?;
    store.crash(Outcome::Lost);
    Ok((seen, contents(alloc, &mut store, f)?))
}

// What is there after a call that went through.
fn done(alloc: Global, f: FileNo, kind: Kind) -> Result<Vec<u8>, Fail> {
    let mut store = MemStore::formatted(alloc)?;
    pending(&mut store, f)?;
    call(&mut store, f, kind)?;
    contents(alloc, &mut store, f)
}

#[test]
fn each_call_does_what_is_planned(rt: HostRuntime) -> Result<(), Fail> {
    let alloc = rt.alloc();
    let f = FileNo::new(5).ok_or("a file")?;
    // What a call that goes through leaves, and what a stop at it leaves where all or torn bytes are there.
    let table = [
        (
            Kind::Len,
            b"axyz".as_slice(),
            [b'a', 0x87, 0x86, 0x85].as_slice(),
        ),
        (
            Kind::Read,
            b"axyz".as_slice(),
            [b'a', 0x87, 0x86, 0x85].as_slice(),
        ),
        (
            Kind::Write,
            b"Qxyz".as_slice(),
            [0xae, 0x87, 0x86, 0x85].as_slice(),
        ),
        (Kind::Cut, b"ax".as_slice(), [b'a', 0x87].as_slice()),
        (
            Kind::Sync,
            b"axyz".as_slice(),
            [b'a', 0x87, 0x86, 0x85].as_slice(),
        ),
    ];
    for (kind, kept, torn) in table {
        assert_eq!(rt; done(alloc, f, kind)?.as_slice(), kept, "{kind:?}");
        let (seen, left) = failed(alloc, f, kind)?;
        assert_eq!(rt; seen.as_slice(), b"axyz".as_slice(), "{kind:?}");
        assert_eq!(rt; left.as_slice(), b"ab".as_slice(), "{kind:?}");
        let stops = [
            (Outcome::Kept, kept),
            (Outcome::Lost, b"ab".as_slice()),
            (Outcome::Torn, torn),
        ];
        for (outcome, want) in stops {
            let left = stopped(alloc, f, kind, outcome)?;
            assert_eq!(rt; left.as_slice(), want, "{kind:?} {outcome:?}");
        }
    }
    Ok(())
}

#[test]
fn the_sooner_of_two_plans_comes(rt: HostRuntime) -> Result<(), Fail> {
    let alloc = rt.alloc();
    let f = FileNo::new(5).ok_or("a file")?;
    let mut store = MemStore::formatted(alloc)?;
    store.stop_at(3, Outcome::Kept);
    store.fail_at(2);
    assert_eq!(rt; store.sync(f), Ok(()));
    assert_eq!(rt; store.sync(f), Err(Failed));
    // The call that failed forgot the stop.
    assert_eq!(rt; store.sync(f), Ok(()));
    assert_eq!(rt; store.sync(f), Ok(()));
    store.stop_at(1, Outcome::Lost);
    store.fail_at(1);
    assert_eq!(rt; store.sync(f), Err(Failed));
    assert_eq!(rt; store.sync(f), Ok(()));
    Ok(())
}

#[test]
fn each_store_is_handed_out_once(rt: HostRuntime) -> Result<(), Fail> {
    let alloc = rt.alloc();
    let f = FileNo::new(5).ok_or("a file")?;
    let node = NodeId::new(6).ok_or("a node")?;
    let mut stores = MemStores::formatted(alloc)?;
    let mut store = stores.take("", node)?;
    assert!(rt; matches!(stores.take("", node), Err(TakeError::Busy)));
    pending(&mut store, f)?;
    stores.back(node, store);
    let mut store = stores.take("", node)?;
    store.crash(Outcome::Lost);
    let bytes = contents(alloc, &mut store, f)?;
    assert_eq!(rt; bytes.as_slice(), b"axyz".as_slice());
    Ok(())
}
