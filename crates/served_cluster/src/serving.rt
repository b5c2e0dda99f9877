//! The served run.

ghost use Rattle.std.specs.Prelude.{◌≡◌, ◌↔◌, ℕ, ◌+◌, ◌*◌, ◌^◌, ◌≤◌, None, Some, IfOk, OnErr, length, vec_len};
ghost use Rattle.std.specs.List.{AllByRecursion};
ghost use Rattle.cs_base.specs.Faults.{HasRisen};
ghost use Rattle.cs_doors.specs.Lending.{HasLent};
ghost use Rattle.served_doors.specs.Ledger.{ledger};
ghost use Rattle.served_doors.specs.Opening.{AreOpen, IsFresh};
ghost use Rattle.served_stores.specs.Shown.{shown};
ghost use Rattle.served_cluster.specs.Ends.{GivesAllBack};
ghost use Rattle.served_cluster.specs.Kinds.{kind_of_replica, kind_of_door, kind_of_streams};
ghost use Rattle.served_cluster.specs.Giving.{AreBackBut, CanPart, GivesBack, IsLostFor};
ghost use Rattle.served_cluster.specs.Served.{AreServed, HaveServed, IsServed, StreamsAreBack};
ghost use Rattle.served_cluster.specs.Serving.{AreOut, Serves};
ghost use Rattle.served_cluster.specs.declared.ending.ServedEnd.TheVariants as served;

use crate::ending::{ServedEnd, ServedRun, end_of_doors, end_of_load, end_without};
use crate::giving::give_back;
use crate::wiring::put_together;
use cs_doors::{Door, Doors};
use cs_io::{Gate, Link, Sink, Source};
use cs_runtime::{Clock, Spawner};
use cs_store::{Store, Stores};
use node_core::Node;
use peer_messages::Setting;
use replica::Replica;
use served_assembly::{links_stay_whole, runs_move_links};
use served_doors::open_doors;
use served_run::{Desk, Host, Ran, run_nodes};
use served_stores::{load_nodes, release_nodes};
use std::alloc::{AllocError, Global};
use std::sync::Wait;
use wired_node::{Wired, failures_are_counted};

/// How many connections of a node are served at once.
pub const CONNECTIONS: usize = 16;

/// Where the nodes of a run keep their rows, and where clients find them: node n at the port `port` + n.
#[derive(Clone, Copy, Debug)]
pub struct Place<'a> {
    pub dir: &'a str,
    pub port: u16,
}

/// The jobs of a node: three workers, and one for each connection.
const JOBS: u32 = CONNECTIONS as u32 + 3;

/// A run that nobody began, with what stood on the desk.
fn untouched<S: Drop, T: Drop>(desk: Desk<S, T>, end: ServedEnd) -> ServedRun<S, T>
    ensures source { result.source ≡ desk.source }
    ensures sink { result.sink ≡ desk.sink }
    ensures end { result.end ≡ end }
{
    let Desk { source, sink, .. } = desk;
    ServedRun { end, source, sink }
}

/// Gives back what nodes had that have run, where they are not lost.
fn finish<R, D, L, S, T>(
    alloc: Global,
    stores: &mut D,
    doors: &mut L,
    ran: Ran<Wired<R>, L::Door, S, T>,
) -> ServedRun<S, T>
where
    R: Replica,
    D: Stores<Store = R::Disk>,
    L: Doors,
    L::Door: Drop,
    S: Drop,
    T: Drop,
    requires can { IfOk ran.nodes (λ left. CanPart left.items) }
    requires lent { IfOk ran.nodes (λ left. HasLent (length left.items * 16) (L.given doors.old) (L.returned doors.old)) }
    ensures source { result.source ≡ ran.source }
    ensures sink { result.sink ≡ ran.sink }
    ensures lost { OnErr ran.nodes (IsLostFor (kind_of_replica R.Disk.is_honest R.stands_for R.durable R.is_whole R.log_end R.since_flush R.disk R.Disk.disk R.Disk.faults) ran.end (shown D.holds D.faults D.taken D.is_out stores.old) (shown D.holds D.faults D.taken D.is_out stores.new) (ledger L.given L.returned L.faults doors.old) (ledger L.given L.returned L.faults doors.new) result.end) }
    ensures back { IfOk ran.nodes (λ left. GivesBack (kind_of_replica R.Disk.is_honest R.stands_for R.durable R.is_whole R.log_end R.since_flush R.disk R.Disk.disk R.Disk.faults) L.Door.faults ran.end left.items (shown D.holds D.faults D.taken D.is_out stores.old) (shown D.holds D.faults D.taken D.is_out stores.new) (ledger L.given L.returned L.faults doors.old) (ledger L.given L.returned L.faults doors.new) result.end) }
{
    let Ran {
        nodes,
        source,
        sink,
        end: console,
    } = ran;
    let end = match nodes {
        Ok(left) => give_back(alloc, stores, doors, console, left),
        Err(AllocError) => end_without(console),
    };
    ServedRun { end, source, sink }
}

/// Runs nodes with these doors until the console ends the run.
fn serve_open<R, W, D, L, C, P, G, S, T>(
    host: &Host<W, C, G>,
    stores: &mut D,
    doors: &mut L,
    spawner: &mut P,
    nodes: Vec<Node<R>>,
    of_nodes: Vec<Vec<L::Door>>,
    desk: Desk<S, T>,
) -> ServedRun<S, T>
where
    R: Replica + Send,
    R::Disk: Send,
    W: Wait + Sync,
    D: Stores<Store = R::Disk>,
    L: Doors,
    L::Door: Drop + Send,
    <L::Door as Door>::Link: Send,
    C: Clock + Sync,
    P: Spawner,
    G: Gate + Sync,
    S: Source + Drop,
    T: Sink + Drop,
    requires some { 1 ≤ vec_len nodes }
    requires few { vec_len nodes ≤ 7 }
    requires out { AreOut (kind_of_replica R.Disk.is_honest R.stands_for R.durable R.is_whole R.log_end R.since_flush R.disk R.Disk.disk R.Disk.faults) nodes.items (shown D.holds D.faults D.taken D.is_out stores.old) }
    requires count { vec_len of_nodes ≡ vec_len nodes }
    requires open_doors { AllByRecursion (AreOpen (IsFresh L.Door.given L.Door.returned L.Door.faults) 16) of_nodes.items }
    requires lent { HasLent (length nodes.items * 16) (L.given doors.old) (L.returned doors.old) }
    ensures { Serves L.Door (kind_of_replica R.Disk.is_honest R.stands_for R.durable R.is_whole R.log_end R.since_flush R.disk R.Disk.disk R.Disk.faults) C.gives (kind_of_streams S.remaining S.faults T.contents T.faults) host.now (HaveServed (kind_of_replica R.Disk.is_honest R.stands_for R.durable R.is_whole R.log_end R.since_flush R.disk R.Disk.disk R.Disk.faults) (kind_of_door L.Door.given L.Door.returned L.Door.faults L.Door.Link.remaining L.Door.Link.written L.Door.Link.faults) C.gives (kind_of_streams S.remaining S.faults T.contents T.faults) host.now desk (HasRisen (P.faults spawner.old) (P.faults spawner.new)) nodes.items of_nodes.items (shown D.holds D.faults D.taken D.is_out stores.old) (shown D.holds D.faults D.taken D.is_out stores.new) result) (length nodes.items) (AreBackBut (length nodes.items * 16) (ledger L.given L.returned L.faults doors.old) (ledger L.given L.returned L.faults doors.new)) (shown D.holds D.faults D.taken D.is_out stores.old) (shown D.holds D.faults D.taken D.is_out stores.new) (L.faults doors.old) (L.faults doors.new) (P.faults spawner.old) (P.faults spawner.new) desk result }
{
    links_stay_whole::<R, L::Door>();
    runs_move_links::<R, L::Door, <L::Door as Door>::Link, C>();
    failures_are_counted::<R>();
    match put_together(host.alloc, nodes, of_nodes) {
        Ok(parts) => {
            let ran = run_nodes(host, spawner, parts, JOBS, desk);
            finish(host.alloc, stores, doors, ran)
        }
        Err(AllocError) => untouched(desk, ServedEnd::NoMemory),
    }
}

/// Opens the doors of so many nodes, and serves.
fn serve_nodes<R, W, D, L, C, P, G, S, T>(
    host: &Host<W, C, G>,
    count: u8,
    port: u16,
    stores: &mut D,
    doors: &mut L,
    spawner: &mut P,
    nodes: Vec<Node<R>>,
    desk: Desk<S, T>,
) -> ServedRun<S, T>
where
    R: Replica + Send,
    R::Disk: Send,
    W: Wait + Sync,
    D: Stores<Store = R::Disk>,
    L: Doors,
    L::Door: Drop + Send,
    <L::Door as Door>::Link: Send,
    C: Clock + Sync,
    P: Spawner,
    G: Gate + Sync,
    S: Source + Drop,
    T: Sink + Drop,
    requires some { 1 ≤ vec_len nodes }
    requires few { vec_len nodes ≤ 7 }
    requires count { count ≡ vec_len nodes }
    requires ports { port + vec_len nodes ≤ 2 ^ 16 }
    requires out { AreOut (kind_of_replica R.Disk.is_honest R.stands_for R.durable R.is_whole R.log_end R.since_flush R.disk R.Disk.disk R.Disk.faults) nodes.items (shown D.holds D.faults D.taken D.is_out stores.old) }
    ensures { Serves L.Door (kind_of_replica R.Disk.is_honest R.stands_for R.durable R.is_whole R.log_end R.since_flush R.disk R.Disk.disk R.Disk.faults) C.gives (kind_of_streams S.remaining S.faults T.contents T.faults) host.now (AreServed (kind_of_replica R.Disk.is_honest R.stands_for R.durable R.is_whole R.log_end R.since_flush R.disk R.Disk.disk R.Disk.faults) (kind_of_door L.Door.given L.Door.returned L.Door.faults L.Door.Link.remaining L.Door.Link.written L.Door.Link.faults) C.gives (kind_of_streams S.remaining S.faults T.contents T.faults) host.now desk (HasRisen (P.faults spawner.old) (P.faults spawner.new)) nodes.items (shown D.holds D.faults D.taken D.is_out stores.old) (shown D.holds D.faults D.taken D.is_out stores.new) result) (length nodes.items) (AreBackBut 0 (ledger L.given L.returned L.faults doors.old) (ledger L.given L.returned L.faults doors.new)) (shown D.holds D.faults D.taken D.is_out stores.old) (shown D.holds D.faults D.taken D.is_out stores.new) (L.faults doors.old) (L.faults doors.new) (P.faults spawner.old) (P.faults spawner.new) desk result }
{
    match open_doors(host.alloc, doors, count, port, CONNECTIONS) {
        Ok(of_nodes) => serve_open(host, stores, doors, spawner, nodes, of_nodes, desk),
        Err(fault) => {
            release_nodes(stores, nodes);
            untouched(desk, end_of_doors(fault))
        }
    }
}

/// Loads the nodes, opens their doors, and serves until the console ends the run.
pub fn serve<R, W, D, L, C, P, G, S, T>(
    host: &Host<W, C, G>,
    place: Place,
    setting: &Setting,
    stores: &mut D,
    doors: &mut L,
    spawner: &mut P,
    desk: Desk<S, T>,
) -> ServedRun<S, T>
where
    R: Replica + Send,
    R::Disk: Send,
    W: Wait + Sync,
    D: Stores<Store = R::Disk>,
    L: Doors,
    L::Door: Drop + Send,
    <L::Door as Door>::Link: Send,
    C: Clock + Sync,
    P: Spawner,
    G: Gate + Sync,
    S: Source + Drop,
    T: Sink + Drop,
    requires ports { place.port + length setting.now.ring ≤ 2 ^ 16 }

    // Each fault has its cause. Want of memory may come at any time.
    ensures read_fault { result.end ≡ served.ReadFault → HasRisen (S.faults desk.source) (S.faults result.source) }
    ensures write_fault { result.end ≡ served.WriteFault → HasRisen (T.faults desk.sink) (T.faults result.sink) }
    ensures store_fault { (n : ℕ) → result.end ≡ served.StoreFault n → HasRisen (D.faults stores.old n) (D.faults stores.new n) }
    ensures door_fault { result.end ≡ served.DoorFault → HasRisen (L.faults doors.old) (L.faults doors.new) }
    ensures no_thread { result.end ≡ served.NoThread → HasRisen (P.faults spawner.old) (P.faults spawner.new) }
    ensures damaged { (n f p : ℕ) → result.end ≡ served.Damaged n f p → R.Disk.is_honest → R.is_damaged (D.holds stores.old n) f p }

    // No count of faults falls.
    ensures stores_later { (n : ℕ) → D.faults stores.old n ≤ D.faults stores.new n }
    ensures doors_later { L.faults doors.old ≤ L.faults doors.new }
    ensures threads_later { P.faults spawner.old ≤ P.faults spawner.new }

    // What stood on the desk comes back, whatever the end.
    ensures console { StreamsAreBack L.Door (kind_of_replica R.Disk.is_honest R.stands_for R.durable R.is_whole R.log_end R.since_flush R.disk R.Disk.disk R.Disk.faults) C.gives (kind_of_streams S.remaining S.faults T.contents T.faults) host.now desk result }

    // A run that comes to its end, or to that of a history, is a served one.
    ensures closed { result.end ≡ served.Closed → IsServed R.Disk (kind_of_replica R.Disk.is_honest R.stands_for R.durable R.is_whole R.log_end R.since_flush R.disk R.Disk.disk R.Disk.faults) (kind_of_door L.Door.given L.Door.returned L.Door.faults L.Door.Link.remaining L.Door.Link.written L.Door.Link.faults) C.gives (kind_of_streams S.remaining S.faults T.contents T.faults) host.now desk (HasRisen (P.faults spawner.old) (P.faults spawner.new)) setting.now (shown D.holds D.faults D.taken D.is_out stores.old) (shown D.holds D.faults D.taken D.is_out stores.new) result None }
    ensures full { (n : ℕ) → result.end ≡ served.HistoryFull n → IsServed R.Disk (kind_of_replica R.Disk.is_honest R.stands_for R.durable R.is_whole R.log_end R.since_flush R.disk R.Disk.disk R.Disk.faults) (kind_of_door L.Door.given L.Door.returned L.Door.faults L.Door.Link.remaining L.Door.Link.written L.Door.Link.faults) C.gives (kind_of_streams S.remaining S.faults T.contents T.faults) host.now desk (HasRisen (P.faults spawner.old) (P.faults spawner.new)) setting.now (shown D.holds D.faults D.taken D.is_out stores.old) (shown D.holds D.faults D.taken D.is_out stores.new) result (Some n) }

    // What was taken is given back.
    ensures stores_home { GivesAllBack result.end → (n : ℕ) → D.is_out stores.new n ≡ D.is_out stores.old n }
    ensures doors_home { GivesAllBack result.end → (k : ℕ) → HasLent k (L.given doors.old) (L.returned doors.old) ↔ HasLent k (L.given doors.new) (L.returned doors.new) }
{
    let count = setting.ring.nodes();
    match load_nodes::<R, D>(host.alloc, stores, place.dir, setting) {
        Ok(nodes) => serve_nodes(host, count, place.port, stores, doors, spawner, nodes, desk),
        Err(fault) => untouched(desk, end_of_load(fault)),
    }
}
