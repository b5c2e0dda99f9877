//! Tests of nodes that are loaded and released.

use crate::given::{are_home, setting};
use cs_base::NodeId;
use cs_store::{MemStore, MemStores, Stores};
use list_replica::{ListReplica, MemListReplica};
use node_core::Node;
use replica::Replica;
use served_stores::{LoadFault, failed_node, load_nodes, release_nodes};
use std::alloc::{AllocError, Global};
use std::test::Fail;

// How many nodes are loaded, which of their stores are home meanwhile, and which behind it.
fn load_and_release<R: Replica<Disk = MemStore>>(
    alloc: Global,
) -> Result<(usize, [bool; 7], [bool; 7]), LoadFault> {
    let mut stores = MemStores::formatted(alloc)?;
    let nodes: Vec<Node<R>> = load_nodes(alloc, &mut stores, "", &setting(alloc)?)?;
    let count = nodes.len();
    let meanwhile = are_home(&mut stores);
    release_nodes(&mut stores, nodes);
    Ok((count, meanwhile, are_home(&mut stores)))
}

#[test]
fn each_node_of_the_ring_is_loaded_and_its_store_comes_back(rt: HostRuntime) -> Result<(), Fail> {
    let out = [false, false, false, true, true, true, true];
    let (count, meanwhile, behind) = load_and_release::<MemListReplica>(rt.alloc())?;
    assert_eq!(rt; (count, meanwhile, behind), (3, out, [true; 7]));
    let (count, meanwhile, behind) = load_and_release::<ListReplica<MemStore>>(rt.alloc())?;
    assert_eq!(rt; (count, meanwhile, behind), (3, out, [true; 7]));
    Ok(())
}

#[test]
fn nodes_are_loaded_again_from_what_was_given_back(rt: HostRuntime) -> Result<(), Fail> {
    let mut stores = MemStores::formatted(rt.alloc())?;
    for _ in 0..3 {
        let nodes: Vec<Node<MemListReplica>> = load_nodes(
            rt.alloc(),
            &mut stores,
            "",
            &setting(rt.alloc())?,
        )?;
        assert_eq!(rt; failed_node(nodes.as_slice()), None);
        release_nodes(&mut stores, nodes);
    }
    assert_eq!(rt; are_home(&mut stores), [true; 7]);
    Ok(())
}

#[test]
fn a_store_that_is_out_is_a_fault_of_its_node(rt: HostRuntime) -> Result<(), Fail> {
    let alloc = rt.alloc();
    for number in 0..3 {
        let node = NodeId::new(number).ok_or("a node")?;
        let mut stores = MemStores::formatted(alloc)?;
        let store = stores.take("", node)?;
        let told = load_nodes::<MemListReplica, MemStores>(
            alloc,
            &mut stores,
            "",
            &setting(alloc)?,
        );
        assert_eq!(rt; told.err(), Some(LoadFault::Failed(node)));
        let mut home = [true; 7];
        home[usize::from(number)] = false;
        assert_eq!(rt; are_home(&mut stores), home);
        stores.back(node, store);
        assert_eq!(rt; are_home(&mut stores), [true; 7]);
    }
    Ok(())
}

#[test]
fn no_node_failed_where_there_is_none(rt: HostRuntime) -> Result<(), Fail> {
    let none: Vec<Node<MemListReplica>> = Vec::new(rt.alloc());
    assert_eq!(rt; failed_node(none.as_slice()), None);
    Ok(())
}
