//! Two nodes write to their stores at once.

use crate::clients::{AT_ONE, READY_AND_VOID, two_writers};
use crate::holding::{UntilAnswered, counting_gate};
use crate::running::{NOTHING, OPENING, TWO_NODES, serve};
use cluster_program::Status;
use cs_base::{Failed, NodeId};
use cs_runtime::SysClock;
use cs_store::{FileNo, MemStore, MemStores, Store, Stores, TakeError};
use std::alloc::AllocError;
use std::sync::atomic::{AtomicBool, Ordering};
use std::test::Fail;

// How often a store looks whether the other one is called.
const LOOKS: u64 = 1_000_000_000;

/// Whether the store of a node was asked to write, and whether that call saw the other node's.
#[derive(Drop)]
struct Side {
    came: AtomicBool,
    met: AtomicBool,
}

impl Side {
    fn new() -> Side {
        Side {
            came: AtomicBool::new(false),
            met: AtomicBool::new(false),
        }
    }

    fn has_met(&self) -> bool {
        self.met.load(Ordering::SeqCst)
    }
}

/// Comes to the store of one side, and looks for the other one.
fn come(side: &Side, other: &Side) {
    side.came.store(true, Ordering::SeqCst);
    for _ in 0..LOOKS {
        if other.came.load(Ordering::SeqCst) {
            side.met.store(true, Ordering::SeqCst);
            return;
        }
    }
}

/// The two nodes.
#[derive(Drop)]
struct Meeting {
    first: Side,
    second: Side,
}

impl Meeting {
    fn come(&self, is_first: bool) {
        if is_first {
            come(&self.first, &self.second);
        } else {
            come(&self.second, &self.first);
        }
    }
}

/// A store whose first write waits for the first write of the other node's.
#[derive(Drop)]
struct MeetingStore<'a> {
    store: MemStore,
    is_first: bool,
    meeting: &'a Meeting,
    has_written: bool,
}

impl Store for MeetingStore<'_> {
    ghost use Rattle.cs_store.specs.Mem.{disk_of, room_at, faults_of, calls_of, spares, Acts, mem_may_stay, mem_spares_fewer};

    ghost is_honest = { Unit {0} };

    ghost disk = { λ s. disk_of s.store };

    ghost faults = { λ s. faults_of s.store };

    ghost calls = { λ s. calls_of s.store };

    ghost spares = { λ s n. spares s.store n };

    ghost reserved = { λ s f. room_at s.store f };

    ghost may_stay = { λ s honest. mem_may_stay s.store honest };

    ghost spares_fewer = { λ s m n fewer spared. mem_spares_fewer s.store m n fewer spared };

    fn len(&mut self, f: FileNo) -> Result<u64, Failed> {
        self.store.len(f)
    }

    fn read(&mut self, f: FileNo, at: u64, buf: &mut [u8]) -> Result<(), Failed> {
        self.store.read(f, at, buf)
    }

    fn reserve(&mut self, f: FileNo, upto: u64) -> Result<(), AllocError> {
        self.store.reserve(f, upto)
    }

    fn write_at(&mut self, f: FileNo, at: u64, bytes: &[u8]) -> Result<(), Failed> {
        if !self.has_written {
            self.has_written = true;
            self.meeting.come(self.is_first);
        }
        self.store.write_at(f, at, bytes)
    }

    fn cut(&mut self, f: FileNo, len: u64) -> Result<(), Failed> {
        self.store.cut(f, len)
    }

    fn sync(&mut self, f: FileNo) -> Result<(), Failed> {
        self.store.sync(f)
    }
}

/// The stores of two nodes, whose first writes wait for each other.
#[derive(Drop)]
struct MeetingStores<'a> {
    stores: MemStores,
    meeting: &'a Meeting,
}

impl<'a> Stores for MeetingStores<'a> {
    ghost use Rattle.cs_store.specs.MemStores.{holds_of, faults_of, taken_of, is_out};

    type Store = MeetingStore<'a>;

    ghost holds = { λ s. holds_of s.stores };

    ghost faults = { λ s. faults_of s.stores };

    ghost taken = { λ s. taken_of s.stores };

    ghost is_out = { λ s. is_out s.stores };

    ghost is_shared = { ⊥ };

    fn take(&mut self, dir: &str, node: NodeId) -> Result<MeetingStore<'a>, TakeError> {
        let store = self.stores.take(dir, node)?;
        Ok(MeetingStore {
            store,
            is_first: node == NodeId::FIRST,
            meeting: self.meeting,
            has_written: false,
        })
    }

    fn back(&mut self, node: NodeId, store: MeetingStore<'a>) {
        self.stores.back(node, store.store);
    }
}

// Were there one lock round both nodes, neither would find the other at its store.
#[test]
fn two_nodes_write_at_once(rt: HostRuntime) -> Result<(), Fail> {
    let alloc = rt.alloc();
    let nodes = [NodeId::FIRST, NodeId::new(1).ok_or("a node")?];
    let gate = counting_gate(nodes[0], LOOKS);
    let source = UntilAnswered::new(TWO_NODES, &gate, nodes);
    let meeting = Meeting {
        first: Side::new(),
        second: Side::new(),
    };
    let mut stores = MeetingStores {
        stores: MemStores::formatted(alloc)?,
        meeting: &meeting,
    };
    let plans = two_writers(alloc, AT_ONE)?;
    let left = serve(
        &rt,
        alloc,
        source,
        &mut stores,
        plans,
        &SysClock::new(rt),
        &gate,
        NOTHING,
    )?;
    assert!(rt; left.is(Status::Ok, &[OPENING, "closed\n"]));
    for node in [0, 1] {
        assert_eq!(rt; left.sent_at(node), Some(READY_AND_VOID));
    }
    assert!(rt; meeting.first.has_met() && meeting.second.has_met());
    Ok(())
}
