//! Doors are opened.

ghost use Rattle.std.specs.Prelude.{◌≡◌, ℕ, ◌+◌, ◌*◌, ◌^◌, ◌<◌, ◌≤◌, true, false, length, vec_len, vec_capacity, Err, IfOk, OnOk, OnErr};
ghost use Rattle.std.specs.List.{AllByRecursion};
ghost use Rattle.cs_base.specs.Faults.{HasRisen};
ghost use Rattle.cs_doors.specs.Lending.{HasLent};
ghost use Rattle.served_doors.specs.Ledger.{GivesMore, by_node, ledger};
ghost use Rattle.served_doors.specs.Opening.{AreOpen, AreSome, CloseAgain, HasRoom, IsFresh};

use crate::closing::return_doors;
use crate::fault::DoorFault;
use cs_base::{Failed, NodeId};
use cs_doors::Doors;
use std::alloc::{AllocError, Global};

/// The port of a node, where node 0 has this one.
fn port_of(port: u16, node: NodeId) -> u16
    requires { port + node < 2 ^ 16 }
    ensures { result ≡ port + node }
{
    port + u16::from(node.number())
}

/// So many empty lists, each with room for so many.
fn rooms<T: Drop>(alloc: Global, nodes: u8, each: usize) -> Result<Vec<Vec<T>>, AllocError>
    ensures count { IfOk result (λ rooms. vec_len rooms ≡ nodes) }
    ensures empty { IfOk result (λ rooms. AllByRecursion (HasRoom each) rooms.items) }
{
    let mut rooms = Vec::with_capacity(alloc, usize::from(nodes))?;
    for _node in 0..nodes {
        rooms.push_reserved(Vec::with_capacity(alloc, each)?);
    }
    Ok(rooms)
}

/// Opens so many doors of a node, or those before the first that fails. It tells whether none failed.
fn fill<L: Doors>(
    doors: &mut L,
    node: NodeId,
    port: u16,
    each: usize,
    mut opened: Vec<L::Door>,
) -> (Vec<L::Door>, bool)
where
    L::Door: Drop,
    requires { HasRoom each opened }
    ensures gives { GivesMore (vec_len result.0) (ledger L.given L.returned L.faults doors.old) (ledger L.given L.returned L.faults doors.new) }
    ensures some { AreSome (IsFresh L.Door.given L.Door.returned L.Door.faults) each result.0 }
    ensures all { result.1 ≡ true → vec_len result.0 ≡ each }
    ensures failed { result.1 ≡ false → HasRisen (L.faults doors.old) (L.faults doors.new) }
{
    for _at in 0..each {
        match doors.listen(node, port) {
            Ok(door) => opened.push_reserved(door),
            Err(Failed) => return (opened, false),
        }
    }
    (opened, true)
}

/// Opens so many doors of each node into these lists, or those before the first that fails. It tells whether none failed.
fn fill_all<L: Doors>(
    doors: &mut L,
    port: u16,
    each: usize,
    rooms: Vec<Vec<L::Door>>,
    mut opened: Vec<Vec<L::Door>>,
) -> (Vec<Vec<L::Door>>, bool)
where
    L::Door: Drop,
    requires few { vec_len rooms ≤ 7 }
    requires ports { port + vec_len rooms ≤ 2 ^ 16 }
    requires empty { AllByRecursion (HasRoom each) rooms.items }
    requires room { HasRoom (vec_len rooms) opened }
    ensures gives { GivesMore (length (by_node 0 result.0.items)) (ledger L.given L.returned L.faults doors.old) (ledger L.given L.returned L.faults doors.new) }
    ensures few { vec_len result.0 ≤ vec_len rooms }
    ensures some { AllByRecursion (AreSome (IsFresh L.Door.given L.Door.returned L.Door.faults) each) result.0.items }
    ensures count { result.1 ≡ true → vec_len result.0 ≡ vec_len rooms }
    ensures all { result.1 ≡ true → AllByRecursion (AreOpen (IsFresh L.Door.given L.Door.returned L.Door.faults) each) result.0.items }
    ensures failed { result.1 ≡ false → HasRisen (L.faults doors.old) (L.faults doors.new) }
{
    let mut number = 0;
    for room in rooms {
        let node = NodeId::new(number).unwrap();
        let (of_node, is_full) = fill(doors, node, port_of(port, node), each, room);
        opened.push_reserved(of_node);
        if !is_full {
            return (opened, false);
        }
        number += 1;
    }
    (opened, true)
}

/// Opens so many doors for each of so many nodes: those of node n, in a list of their own, at the port `port` + n. After an error
/// each door that was opened is back, and where there was no memory nothing was called.
pub fn open_doors<L: Doors>(
    alloc: Global,
    doors: &mut L,
    nodes: u8,
    port: u16,
    each: usize,
) -> Result<Vec<Vec<L::Door>>, DoorFault>
where
    L::Door: Drop,
    requires few { nodes ≤ 7 }
    requires ports { port + nodes ≤ 2 ^ 16 }
    ensures count { IfOk result (λ of_nodes. vec_len of_nodes ≡ nodes) }
    ensures open { IfOk result (λ of_nodes. AllByRecursion (AreOpen (IsFresh L.Door.given L.Door.returned L.Door.faults) each) of_nodes.items) }
    ensures gives { OnOk result (GivesMore (nodes * each) (ledger L.given L.returned L.faults doors.old) (ledger L.given L.returned L.faults doors.new)) }
    ensures lent { OnOk result ((k : ℕ) → HasLent k (L.given doors.old) (L.returned doors.old) → HasLent (k + nodes * each) (L.given doors.new) (L.returned doors.new)) }
    ensures length { IfOk result (λ of_nodes. length (by_node 0 of_nodes.items) ≡ nodes * each) }
    ensures failed { result ≡ Err DoorFault.Failed → CloseAgain (IsFresh L.Door.given L.Door.returned L.Door.faults) nodes each (ledger L.given L.returned L.faults doors.old) (ledger L.given L.returned L.faults doors.new) }
    ensures kept { OnErr result ((k : ℕ) → HasLent k (L.given doors.old) (L.returned doors.old) → HasLent k (L.given doors.new) (L.returned doors.new)) }
    ensures cause { result ≡ Err DoorFault.Failed → HasRisen (L.faults doors.old) (L.faults doors.new) }
    ensures no_memory { result ≡ Err DoorFault.NoMemory → doors.new ≡ doors.old }
{
    let rooms = rooms(alloc, nodes, each)?;
    let opened = Vec::with_capacity(alloc, usize::from(nodes))?;
    let (opened, is_full) = fill_all(doors, port, each, rooms, opened);
    if is_full {
        return Ok(opened);
    }
    return_doors(doors, opened);
    Err(DoorFault::Failed)
}
