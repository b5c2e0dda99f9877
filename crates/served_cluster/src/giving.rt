//! What nodes had that have run is given back.

ghost use Rattle.std.specs.Prelude.{◌≡◌, ℕ, ◌+◌, ◌*◌, ◌<◌, ◌≤◌, IfOk, IfSome, length, map, not, vec_len};
ghost use Rattle.std.specs.List.{AllByRecursion, position};
ghost use Rattle.cs_doors.specs.Lending.{HasLent};
ghost use Rattle.served_assembly.specs.Parting.{HasLinksFirst};
ghost use Rattle.served_doors.specs.Ledger.{TakesBack, by_node, ledger};
ghost use Rattle.served_links.specs.Ends.{AreEven, EachLink};
ghost use Rattle.served_links.specs.Nodes.{AreEnds, AreSettled, ends_of};
ghost use Rattle.served_stores.specs.Releasing.{AreBackFrom};
ghost use Rattle.served_stores.specs.Shown.{IsSameAt, shown};
ghost use Rattle.served_cluster.specs.Ends.{told_of};
ghost use Rattle.served_cluster.specs.Giving.{ArePartsOf, CanPart, GivesBack};
ghost use Rattle.served_cluster.specs.Kinds.{kind_of_replica};

use crate::ending::{Findings, ServedEnd, end_of, end_without};
use cs_base::NodeId;
use cs_doors::{Door, Doors};
use cs_store::{Store, Stores};
use node_core::Node;
use replica::Replica;
use served_assembly::{Parted, part, take_apart};
use served_console::ConsoleEnd;
use served_doors::return_doors;
use served_links::settle;
use served_nodes::NodeLeft;
use served_stores::{failed_node, release_nodes};
use std::alloc::{AllocError, Global};
use wired_node::Wired;

/// Takes nodes apart, and puts their parts into lists of their own.
fn part_all<R: Replica, D: Drop>(
    alloc: Global,
    left: Vec<NodeLeft<Wired<R>, D>>,
) -> Result<Parted<R, D>, AllocError>
    requires { AllByRecursion HasLinksFirst left.items }
    ensures { IfOk result (λ p. ArePartsOf (kind_of_replica R.Disk.is_honest R.stands_for R.durable R.is_whole R.log_end R.since_flush R.disk R.Disk.disk R.Disk.faults) left.items p) }
{
    let aparts = take_apart(alloc, left)?;
    part(alloc, aparts)
}

/// The node at a place.
fn node_at(at: Option<usize>) -> Option<NodeId>
    requires { IfSome at (λ n. n < 7) }
    ensures { result ≡ at }
{
    match at {
        Some(at) => NodeId::new(at as u8),
        None => None,
    }
}

/// Gives back the parts of nodes. It tells how the run ended.
fn give_parts<R, D, L>(
    stores: &mut D,
    doors: &mut L,
    console: ConsoleEnd,
    parted: Parted<R, L::Door>,
) -> ServedEnd
where
    R: Replica,
    D: Stores<Store = R::Disk>,
    L: Doors,
    L::Door: Drop,
    requires few { vec_len parted.nodes ≤ 7 }
    requires few_doors { vec_len parted.doors ≤ 7 }
    requires within { IfSome parted.full (λ n. n < 7) }
    requires even { (nodes : ℕ) × AreEven nodes (map ends_of parted.links.items) }
    requires ends { EachLink AreEnds (map ends_of parted.links.items) }
    requires lent { HasLent (length (by_node 0 parted.doors.items)) (L.given doors.old) (L.returned doors.old) }
    ensures told { result ≡ told_of console (position (λ node. not node.core.runs) parted.nodes.items) parted.door_failed parted.unstarted parted.full }
    ensures settled { EachLink AreSettled (map ends_of parted.links.items) }
    ensures doors { TakesBack L.Door.faults (by_node 0 parted.doors.items) (ledger L.given L.returned L.faults doors.old) (ledger L.given L.returned L.faults doors.new) }
    ensures stores { AreBackFrom R.Disk.is_honest (λ node. (R.Disk.disk (R.disk node.replica)).seen) (λ node. R.Disk.faults (R.disk node.replica)) 0 parted.nodes.items (shown D.holds D.faults D.taken D.is_out stores.old) (shown D.holds D.faults D.taken D.is_out stores.new) }
    ensures others { (n : ℕ) → vec_len parted.nodes ≤ n → IsSameAt n (shown D.holds D.faults D.taken D.is_out stores.old) (shown D.holds D.faults D.taken D.is_out stores.new) }
{
    let Parted {
        nodes,
        links,
        doors: of_nodes,
        full,
        door_failed,
        unstarted,
    } = parted;
    let found = Findings {
        failed: failed_node(&nodes),
        door_failed,
        unstarted,
        full: node_at(full),
    };
    settle(links);
    return_doors(doors, of_nodes);
    release_nodes(stores, nodes);
    end_of(console, found)
}

/// Gives back what nodes had that have run. It tells how the run ended.
pub(crate) fn give_back<R, D, L>(
    alloc: Global,
    stores: &mut D,
    doors: &mut L,
    console: ConsoleEnd,
    left: Vec<NodeLeft<Wired<R>, L::Door>>,
) -> ServedEnd
where
    R: Replica,
    D: Stores<Store = R::Disk>,
    L: Doors,
    L::Door: Drop,
    requires can { CanPart left.items }
    requires lent { HasLent (length left.items * 16) (L.given doors.old) (L.returned doors.old) }
    ensures { GivesBack (kind_of_replica R.Disk.is_honest R.stands_for R.durable R.is_whole R.log_end R.since_flush R.disk R.Disk.disk R.Disk.faults) L.Door.faults console left.items (shown D.holds D.faults D.taken D.is_out stores.old) (shown D.holds D.faults D.taken D.is_out stores.new) (ledger L.given L.returned L.faults doors.old) (ledger L.given L.returned L.faults doors.new) result }
{
    match part_all(alloc, left) {
        Ok(parted) => give_parts(stores, doors, console, parted),
        Err(AllocError) => end_without(console),
    }
}
