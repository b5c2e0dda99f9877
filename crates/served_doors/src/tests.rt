//! Tests of doors in memory, whose listed calls fail.

ghost use Rattle.std.specs.Prelude.{◌+◌, length, Some};
ghost use Rattle.cs_doors.specs.LendsNone.{lends_none};

use crate::{DoorFault, open_doors, return_doors, return_doors_of};
use cs_base::{Failed, NodeId};
use cs_doors::{Door, DoorPlan, Doors, MemDoor, MemDoors};
use std::alloc::{AllocError, Global};
use std::collections::VecDeque;
use std::test::Fail;

// Doors to which nobody comes, of which these calls fail.
fn failing_at(alloc: Global, calls: &[u64]) -> Result<MemDoors, AllocError> {
    Ok(MemDoors::new(alloc, VecDeque::new(alloc), Vec::from_slice(alloc, calls)?))
}

// The nodes of the doors that came back.
fn nodes_back(alloc: Global, doors: &MemDoors) -> Result<Vec<u8>, AllocError> {
    let mut nodes = Vec::new(alloc);
    for (node, _) in doors.returned() {
        nodes.push(node.number())?;
    }
    Ok(nodes)
}

#[test]
fn doors_are_opened_and_given_back_node_by_node(rt: HostRuntime) -> Result<(), Fail> {
    let mut doors = failing_at(rt.alloc(), &[])?;
    let opened = open_doors(rt.alloc(), &mut doors, 3, 9042, 2)?;
    assert_eq!(rt; opened.len(), 3);
    assert!(rt; opened.iter().all(|of_node| of_node.len() == 2));
    assert_eq!(rt; doors.returned().len(), 0);
    return_doors(&mut doors, opened);
    assert_eq!(rt;
        nodes_back(rt.alloc(), &doors)?.as_slice(),
        [0, 0, 1, 1, 2, 2].as_slice()
    );
    assert_eq!(rt; doors.faults().count(), 0);
    Ok(())
}

#[test]
fn what_was_opened_before_a_failure_is_back(rt: HostRuntime) -> Result<(), Fail> {
    let nodes = [0, 0, 1, 1, 2, 2];
    for failing in 1..=6 {
        let mut doors = failing_at(rt.alloc(), &[failing])?;
        let told = open_doors(rt.alloc(), &mut doors, 3, 9042, 2);
        assert_eq!(rt; told.err(), Some(DoorFault::Failed));
        let back = nodes_back(rt.alloc(), &doors)?;
        assert_eq!(rt; back.as_slice(), &nodes[..failing as usize - 1]);
        assert_eq!(rt; doors.faults().count(), 1);
    }
    Ok(())
}

#[test]
fn a_failure_behind_the_last_door_fails_nothing(rt: HostRuntime) -> Result<(), Fail> {
    let mut doors = failing_at(rt.alloc(), &[7])?;
    let opened = open_doors(rt.alloc(), &mut doors, 3, 9042, 2)?;
    assert_eq!(rt; doors.faults().count(), 0);
    return_doors(&mut doors, opened);
    assert_eq!(rt; doors.returned().len(), 6);
    Ok(())
}

#[test]
fn without_memory_nothing_is_called(rt: HostRuntime) -> Result<(), Fail> {
    let mut doors = failing_at(rt.alloc(), &[1])?;
    let told = open_doors(rt.alloc(), &mut doors, 3, 9042, usize::MAX);
    assert_eq!(rt; told.err(), Some(DoorFault::NoMemory));
    assert_eq!(rt; (doors.returned().len(), doors.faults().count()), (0, 0));
    Ok(())
}

#[test]
fn no_node_and_no_door_a_node_are_opened_too(rt: HostRuntime) -> Result<(), Fail> {
    let mut doors = failing_at(rt.alloc(), &[1])?;
    let none = open_doors(rt.alloc(), &mut doors, 0, 0, 9)?;
    assert_eq!(rt; none.len(), 0);
    let empty = open_doors(rt.alloc(), &mut doors, 7, 65529, 0)?;
    assert_eq!(rt; empty.len(), 7);
    assert!(rt; empty.iter().all(|of_node| of_node.is_empty()));
    assert_eq!(rt; doors.faults().count(), 0);
    Ok(())
}

#[test]
fn a_fault_of_a_door_is_told_when_it_is_back(rt: HostRuntime) -> Result<(), Fail> {
    let mut planned = VecDeque::new(rt.alloc());
    planned.push_back(DoorPlan::new(VecDeque::new(rt.alloc()), Vec::new(rt.alloc())))?;
    let failing = Vec::from_slice(rt.alloc(), &[1])?;
    planned.push_back(DoorPlan::new(VecDeque::new(rt.alloc()), failing))?;
    let mut doors = MemDoors::new(rt.alloc(), planned, Vec::new(rt.alloc()));
    let mut opened = open_doors(rt.alloc(), &mut doors, 1, 9042, 2)?;
    for door in opened[0].iter_mut() {
        drop(door.next());
    }
    assert_eq!(rt; doors.faults().count(), 0);
    return_doors(&mut doors, opened);
    assert_eq!(rt; (doors.returned().len(), doors.faults().count()), (2, 1));
    Ok(())
}

#[test]
fn doors_of_one_node_are_given_back(rt: HostRuntime) -> Result<(), Fail> {
    let mut doors = failing_at(rt.alloc(), &[])?;
    let node = NodeId::new(4).ok_or("a node")?;
    let mut of_node = Vec::new(rt.alloc());
    of_node.push(doors.listen(node, 9046)?)?;
    return_doors_of(&mut doors, node, of_node);
    assert_eq!(rt; nodes_back(rt.alloc(), &doors)?.as_slice(), [4].as_slice());
    Ok(())
}

// Doors that note which node asked for a door, and at which port.
#[derive(Drop)]
struct NotingDoors {
    doors: MemDoors,
    asked: Vec<(u8, u16)>,
}

impl Doors for NotingDoors {
    type Door = MemDoor;

    ghost given = { λ s. Some (length s.doors.returned + s.doors.lent) };

    ghost returned = { λ s. Some s.doors.returned };

    ghost faults = { λ s. s.doors.faults };

    ghost lends = { λ s. lends_none (length s.doors.returned) s.doors.lent };

    fn listen(&mut self, node: NodeId, port: u16) -> Result<MemDoor, Failed> {
        drop(self.asked.push((node.number(), port)));
        self.doors.listen(node, port)
    }

    fn back(&mut self, node: NodeId, door: MemDoor) {
        self.doors.back(node, door);
    }
}

#[test]
fn each_node_listens_at_its_own_port(rt: HostRuntime) -> Result<(), Fail> {
    let mut doors = NotingDoors {
        doors: failing_at(rt.alloc(), &[])?,
        asked: Vec::new(rt.alloc()),
    };
    let opened = open_doors(rt.alloc(), &mut doors, 3, 65533, 2)?;
    let asked = [
        (0, 65533),
        (0, 65533),
        (1, 65534),
        (1, 65534),
        (2, 65535),
        (2, 65535),
    ];
    assert_eq!(rt; doors.asked.as_slice(), asked.as_slice());
    return_doors(&mut doors, opened);
    assert_eq!(rt; doors.doors.returned().len(), 6);
    Ok(())
}
