//! Tests of stores that fail, and of stores that are damaged.

ghost use Rattle.std.specs.Prelude.{◌≡◌};

use crate::given::{are_home, fail_at, setting, spoil_log};
use cs_base::{Micros, NodeId};
use cs_store::{MemStore, MemStores, Stores};
use list_replica::{ListReplica, MemListReplica};
use node_core::Node;
use peer_messages::{Event, What};
use replica::{MemReplica, Replica};
use served_stores::{LoadFault, failed_node, load_nodes, release_node, release_nodes};
use std::alloc::{AllocError, Global};
use std::test::Fail;

// What is told of a load. Nodes that are loaded are released.
fn told_of_load<R: Replica<Disk = MemStore>>(
    alloc: Global,
    stores: &mut MemStores,
) -> Result<Option<LoadFault>, AllocError> {
    let setting = setting(alloc)?;
    match load_nodes::<R, MemStores>(alloc, stores, "", &setting) {
        Ok(nodes) => {
            release_nodes(stores, nodes);
            Ok(None)
        }
        Err(fault) => Ok(Some(fault)),
    }
}

// What is told of a load while a call of the store of a node fails, and which stores are home behind it.
fn load_failing<R: Replica<Disk = MemStore>>(
    alloc: Global,
    node: NodeId,
    call: u32,
) -> Result<(Option<LoadFault>, [bool; 7]), AllocError> {
    let mut stores = MemStores::formatted(alloc)?;
    fail_at(&mut stores, node, call);
    let told = told_of_load::<R>(alloc, &mut stores)?;
    Ok((told, are_home(&mut stores)))
}

// The node and the file that are damaged.
fn damaged(told: Option<LoadFault>) -> Option<(u8, u16)> {
    match told? {
        LoadFault::Damaged(node, file, _) => Some((node.number(), file.number())),
        _ => None,
    }
}

// How many of the first calls of the store of a node are such that a load tells that they failed. Each load leaves all stores home.
fn failing_calls<R: Replica<Disk = MemStore>>(alloc: Global, node: NodeId) -> Result<u32, Fail> {
    for call in 1..100 {
        let (told, home) = load_failing::<R>(alloc, node, call)?;
        if home != [true; 7] {
            return Err(Fail::from("a store is not home"));
        }
        match told {
            Some(fault) if fault == LoadFault::Failed(node) => {}
            Some(_) => return Err(Fail::from("another fault")),
            None => return Ok(call - 1),
        }
    }
    Err(Fail::from("each call failed"))
}

#[test]
fn a_call_that_fails_is_a_fault_of_its_node(rt: HostRuntime) -> Result<(), Fail> {
    for number in 0..3 {
        let node = NodeId::new(number).ok_or("a node")?;
        assert!(rt; failing_calls::<MemListReplica>(rt.alloc(), node)? > 0);
        assert!(rt; failing_calls::<ListReplica<MemStore>>(rt.alloc(), node)? > 0);
    }
    let behind = NodeId::new(3).ok_or("a node")?;
    assert_eq!(rt; failing_calls::<MemListReplica>(rt.alloc(), behind)?, 0);
    Ok(())
}

#[test]
fn a_spoiled_log_is_told_with_its_node_and_its_file(rt: HostRuntime) -> Result<(), Fail> {
    for number in 0..3 {
        let node = NodeId::new(number).ok_or("a node")?;
        let mut stores = MemStores::formatted(rt.alloc())?;
        spoil_log(&mut stores, node).ok_or("a spoiled log")?;
        let told = told_of_load::<MemListReplica>(rt.alloc(), &mut stores)?;
        assert_eq!(rt; damaged(told), Some((number, 0)));
        assert_eq!(rt; are_home(&mut stores), [true; 7]);
    }
    Ok(())
}

#[test]
fn the_first_of_two_faults_is_told(rt: HostRuntime) -> Result<(), Fail> {
    let first = NodeId::new(1).ok_or("a node")?;
    let second = NodeId::new(2).ok_or("a node")?;
    let mut stores = MemStores::formatted(rt.alloc())?;
    fail_at(&mut stores, second, 1);
    spoil_log(&mut stores, first).ok_or("a spoiled log")?;
    for _ in 0..2 {
        let told = told_of_load::<MemListReplica>(rt.alloc(), &mut stores)?;
        assert_eq!(rt; damaged(told), Some((1, 0)));
    }
    Ok(())
}

// Lets a call of the node's store fail, if it is not 0.
fn tell<R: MemReplica>(replica: &mut R, call: u32)
    ensures durable { R.durable replica.new ≡ R.durable replica.old }
    ensures whole { R.is_whole replica.old → R.is_whole replica.new }
{
    if call > 0 {
        replica.fail_at(call);
    }
}

// A node whose store fails at this call of its first step, if it is not 0.
fn stepped_node<R: MemReplica>(
    alloc: Global,
    stores: &mut MemStores,
    me: NodeId,
    call: u32,
) -> Option<Node<R>> {
    let Ok(setting) = setting(alloc) else {
        return None;
    };
    let Ok(store) = stores.take("", me) else {
        return None;
    };
    let Ok(mut node) = Node::<R>::load(alloc, me, setting, store) else {
        return None;
    };
    tell(&mut node.replica, call);
    let event = Event {
        clock: Micros::new(5),
        what: What::Tick,
    };
    drop(node.step(alloc, event));
    Some(node)
}

#[test]
fn the_first_node_that_failed_is_told_and_each_store_comes_back(
    rt: HostRuntime,
) -> Result<(), Fail> {
    let mut stores = MemStores::formatted(rt.alloc())?;
    let mut nodes = Vec::new(rt.alloc());
    for (number, call) in [(0, 0), (1, 1), (2, 1)] {
        let me = NodeId::new(number).ok_or("a node")?;
        nodes.push(stepped_node::<MemListReplica>(rt.alloc(), &mut stores, me, call).ok_or(
            "a node",
        )?)?;
    }
    assert!(rt; nodes.len() == 3);
    assert_eq!(rt; failed_node(nodes.as_slice()), NodeId::new(1));
    assert_eq!(rt; failed_node(&nodes.as_slice()[..1]), None);
    release_nodes(&mut stores, nodes);
    assert_eq!(rt; are_home(&mut stores), [true; 7]);
    Ok(())
}

#[test]
fn one_node_is_released_alone(rt: HostRuntime) -> Result<(), Fail> {
    let me = NodeId::new(5).ok_or("a node")?;
    let mut stores = MemStores::formatted(rt.alloc())?;
    let node = stepped_node::<MemListReplica>(rt.alloc(), &mut stores, me, 0).ok_or("a node")?;
    assert_eq!(rt; are_home(&mut stores)[5], false);
    release_node(&mut stores, me, node);
    assert_eq!(rt; are_home(&mut stores), [true; 7]);
    Ok(())
}
