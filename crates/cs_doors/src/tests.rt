//! Tests of the doors, in memory and over TCP on this machine.

ghost use Rattle.std.specs.Prelude.{◌≡◌};

use crate::{Door, DoorPlan, Doors, MemDoors, TcpDoors, TcpLink};
use cs_base::{Bytes, Failed, NodeId};
use cs_io::{Heard, Link, MemLink};
use std::alloc::{AllocError, Global};
use std::collections::VecDeque;
use std::net::TcpStream;
use std::test::Fail;
use std::thread;
use std::time::{Clock, Duration};

/// How often a test looks whether something has come over TCP, with a rest of a millisecond between two looks.
const LOOKS: u32 = 10_000;

// A link over which this comes.
fn mem_link(alloc: Global, text: &[u8]) -> Result<MemLink, AllocError> {
    let mut pieces = Vec::new(alloc);
    pieces.push(Bytes::from_slice(alloc, text)?)?;
    Ok(MemLink::new(alloc, pieces, 100, Vec::new(alloc)))
}

// One door at which nobody waits at first, then a peer, and then nobody. Its third call fails.
fn one_plan(alloc: Global) -> Result<VecDeque<DoorPlan>, AllocError> {
    let mut coming = VecDeque::new(alloc);
    coming.push_back(None)?;
    coming.push_back(Some(mem_link(alloc, b"ab")?))?;
    let mut planned = VecDeque::new(alloc);
    planned.push_back(DoorPlan::new(coming, Vec::from_slice(alloc, &[3])?))?;
    Ok(planned)
}

#[test]
fn planned_links_come_and_go_back(rt: HostRuntime) -> Result<(), Fail> {
    let failing = Vec::from_slice(rt.alloc(), &[2])?;
    let mut doors = MemDoors::new(rt.alloc(), one_plan(rt.alloc())?, failing);
    let mut door = doors.listen(NodeId::FIRST, 9042)?;
    assert!(rt; doors.listen(NodeId::FIRST, 9042).is_err());
    assert_eq!(rt; doors.faults().count(), 1);
    assert!(rt; door.next()?.is_none());
    let mut link = door.next()?.ok_or("a link")?;
    let mut buffer = [0; 4];
    assert_eq!(rt; link.read(&mut buffer), Ok(Heard::Bytes(2)));
    assert_eq!(rt; buffer, *b"ab\0\0");
    door.back(link);
    assert!(rt; door.next().is_err());
    assert!(rt; door.next()?.is_none());
    assert_eq!(rt; (door.returned().len(), door.faults().count()), (1, 1));
    doors.back(NodeId::FIRST, door);
    assert_eq!(rt; (doors.returned().len(), doors.faults().count()), (1, 2));
    let mut other = doors.listen(NodeId::FIRST, 9042)?;
    assert!(rt; other.next()?.is_none());
    doors.back(NodeId::FIRST, other);
    assert_eq!(rt; (doors.returned().len(), doors.faults().count()), (2, 2));
    Ok(())
}

// Looks again and again whether a peer waits.
fn next_link<D: Door>(clock: &impl Clock, door: &mut D) -> Result<Option<D::Link>, Failed>
where
    D::Link: Drop,
{
    for _ in 0..LOOKS {
        if let Some(link) = door.next()? {
            return Ok(Some(link));
        }
        thread::sleep(clock, Duration::from_millis(1));
    }
    Ok(None)
}

// Looks again and again what comes.
fn hear<L: Link>(clock: &impl Clock, link: &mut L, buffer: &mut [u8]) -> Result<Heard, Failed> {
    for _ in 0..LOOKS {
        match link.read(buffer)? {
            Heard::Idle => thread::sleep(clock, Duration::from_millis(1)),
            heard => return Ok(heard),
        }
    }
    Ok(Heard::Idle)
}

#[test]
fn links_over_tcp_carry_bytes_both_ways(rt: HostRuntime) -> Result<(), Fail> {
    let node = NodeId::FIRST;
    let mut doors = TcpDoors::new(rt, rt.alloc());
    let mut door = doors.listen(node, 0)?;
    let mut twin = doors.listen(node, 0)?;
    assert!(rt; door.next()?.is_none());
    assert_eq!(rt; door.address()?, twin.address()?);

    let mut peer = TcpLink::new(TcpStream::connect(&rt, door.address()?)?)?;
    let mut link = next_link(&rt, &mut twin)?.ok_or("a link")?;
    let mut buffer = [0; 8];
    assert_eq!(rt; link.read(&mut buffer), Ok(Heard::Idle));
    assert_eq!(rt; link.read(&mut []), Ok(Heard::Bytes(0)));
    assert_eq!(rt; peer.write(b"hello"), Ok(5));
    assert_eq!(rt; hear(&rt, &mut link, &mut buffer), Ok(Heard::Bytes(5)));
    assert_eq!(rt; buffer, *b"hello\0\0\0");
    assert_eq!(rt; link.write(b"bye"), Ok(3));
    assert_eq!(rt; hear(&rt, &mut peer, &mut buffer), Ok(Heard::Bytes(3)));
    assert_eq!(rt; buffer, *b"byelo\0\0\0");

    drop(peer);
    assert_eq!(rt; hear(&rt, &mut link, &mut buffer), Ok(Heard::End));
    assert_eq!(rt; link.faults().count(), 0);
    twin.back(link);
    doors.back(node, door);
    doors.back(node, twin);
    assert_eq!(rt; doors.faults().count(), 0);
    Ok(())
}

#[test]
fn a_peer_that_is_gone_is_a_fault_of_its_link(rt: HostRuntime) -> Result<(), Fail> {
    let mut doors = TcpDoors::new(rt, rt.alloc());
    let mut door = doors.listen(NodeId::FIRST, 0)?;
    let peer = TcpStream::connect(&rt, door.address()?)?;
    let mut link = next_link(&rt, &mut door)?.ok_or("a link")?;
    drop(peer);
    let mut failed = false;
    for _ in 0..LOOKS {
        failed = link.write(b"there?").is_err();
        if failed {
            break;
        }
        thread::sleep(&rt, Duration::from_millis(1));
    }
    assert!(rt; failed && link.faults().count() == 1);
    assert!(rt; door.next()?.is_none() && door.faults().count() == 0);
    Ok(())
}

#[test]
fn a_port_that_is_taken_is_a_fault(rt: HostRuntime) -> Result<(), Fail> {
    let mut doors = TcpDoors::new(rt, rt.alloc());
    let port = doors.listen(NodeId::FIRST, 0)?.address()?.port();
    let mut others = TcpDoors::new(rt, rt.alloc());
    assert!(rt; others.listen(NodeId::FIRST, port).is_err());
    assert_eq!(rt; others.faults().count(), 1);
    Ok(())
}
