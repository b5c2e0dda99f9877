//! A request whose time is over.

use crate::clients::{AT_ALL, READY, two_writers};
use crate::holding::{UntilAnswered, counting_gate};
use crate::running::{NOTHING, OPENING, TWO_NODES, serve};
use cluster_program::Status;
use cs_base::{Micros, NodeId};
use cs_runtime::Clock;
use cs_store::MemStores;
use std::sync::atomic::{AtomicU64, Ordering};
use std::test::Fail;
use std::thread;

/// A clock that goes on by ten seconds at each reading. The deadline of a write is five seconds behind its start, and any step that could
/// bring the other node's acknowledgement is made at a later reading.
#[derive(Drop)]
struct HastyClock {
    readings: AtomicU64,
}

impl Clock for HastyClock {
    ghost gives = { λ clock reading. Unit {0} };

    fn now(&self) -> Micros {
        let count = self.readings.fetch_add(1, Ordering::SeqCst);
        Micros::new(count.wrapping_mul(10_000_000))
    }

    fn rest(&self, _micros: u64) {
        thread::yield_now();
    }
}

/// How the error of a write ends that was told its timeout: it was at ALL, had the acknowledgement of one of two nodes, and was plain.
const TIMED_OUT: &[u8] = b"\x00\x05\x00\x00\x00\x01\x00\x00\x00\x02\x00\x06SIMPLE";

/// The code of such an error, behind the header of its frame.
const WRITE_TIMEOUT: &[u8] = b"\x00\x00\x11\x00";

/// The client is ready, and then told that its write timed out.
fn is_timed_out(sent: Option<&[u8]>) -> bool {
    match sent.and_then(|bytes| bytes.strip_prefix(READY)) {
        Some(error) => error.get(9..13) == Some(WRITE_TIMEOUT) && error.ends_with(TIMED_OUT),
        None => false,
    }
}

#[test]
fn a_write_that_waits_too_long_is_told_so(rt: HostRuntime) -> Result<(), Fail> {
    let alloc = rt.alloc();
    let nodes = [NodeId::FIRST, NodeId::new(1).ok_or("a node")?];
    let gate = counting_gate(nodes[0], 10_000_000);
    let source = UntilAnswered::new(TWO_NODES, &gate, nodes);
    let clock = HastyClock {
        readings: AtomicU64::new(0),
    };
    let mut stores = MemStores::formatted(alloc)?;
    let plans = two_writers(alloc, AT_ALL)?;
    let left = serve(
        &rt,
        alloc,
        source,
        &mut stores,
        plans,
        &clock,
        &gate,
        NOTHING,
    )?;
    assert!(rt; left.is(Status::Ok, &[OPENING, "closed\n"]));
    for node in [0, 1] {
        assert!(rt;
            is_timed_out(left.sent_at(node)),
            "{:?}",
            left.sent_at(node)
        );
    }
    Ok(())
}
