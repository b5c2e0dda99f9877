//! The command `serve`.

ghost use Rattle.std.specs.Prelude.{◌≡◌, ◌≢◌, ℕ, ◌+◌, ◌^◌, ◌≤◌, List, [], length, Ok, Err, Some, IfSome, codes};
ghost use Rattle.cs_base.specs.Faults.{HasRisen};
ghost use Rattle.fault_script.specs.Script.{IsRead};
ghost use Rattle.fault_script.specs.declared.script.ScriptError.{ScriptError};
ghost use Rattle.source_lines.specs.Heads.{head_of};
ghost use Rattle.served_stores.specs.Shown.{shown};
ghost use Rattle.served_cluster.specs.Kinds.{kind_of_replica, kind_of_door, kind_of_streams};
ghost use Rattle.script_program.specs.Endings.{IsRefused, IsRefusedWith};
ghost use Rattle.cluster_program.specs.Endings.{TellsEnd};
ghost use Rattle.cluster_program.specs.Heads.{listening_lines};
ghost use Rattle.cluster_program.specs.Runs.{RefusesSo, Serves};
ghost use Rattle.cluster_program.specs.Serving.{kinds, ServeEnds};

use crate::ending::leave_end;
use crate::finished::Finished;
use crate::head::{Head, read_head};
use cs_doors::{Door, Doors};
use cs_io::{Gate, Link, Sink, Source};
use cs_runtime::{Clock, Spawner};
use cs_store::{Store, Stores};
use fault_script::{Script, one_reading};
use peer_messages::Setting;
use replica::Replica;
use script_program::{Refusal, Status, leave_refusal};
use served_cluster::{Place, ServedRun, serve};
use served_run::{Desk, Host};
use served_theorem::{formatted_stores_are_left, served_answers_are_entered, served_runs_are_runs};
use std::alloc::Global;
use std::sync::Wait;
use std::sync::atomic::AtomicBool;

/// Tells how a served run ended.
fn told<S: Source + Drop, T: Sink + Drop>(alloc: Global, run: ServedRun<S, T>) -> Finished<S, T>
    ensures source { result.source ≡ run.source }
    ensures told { TellsEnd run.end (T.contents run.sink) (T.contents result.sink) (T.faults run.sink) (T.faults result.sink) result.status }
    ensures later { T.faults run.sink ≤ T.faults result.sink }
{
    let ServedRun { end, source, sink } = run;
    let mut sink = sink;
    let status = leave_end(alloc, &mut sink, end);
    Finished {
        status,
        source,
        sink,
    }
}

/// Serves the nodes of a script, with what stands on the desk.
fn serve_desk<R, W, S, T, D, L, C, P, G>(
    rt: &W,
    alloc: Global,
    place: Place,
    script: &Script,
    setting: &Setting,
    desk: Desk<S, T>,
    stores: &mut D,
    doors: &mut L,
    clock: &C,
    spawner: &mut P,
    gate: &G,
) -> Finished<S, T>
where
    R: Replica + Send,
    R::Disk: Send,
    W: Wait + Sync,
    S: Source + Drop,
    T: Sink + Drop,
    D: Stores<Store = R::Disk>,
    L: Doors,
    L::Door: Drop + Send,
    <L::Door as Door>::Link: Send,
    C: Clock + Sync,
    P: Spawner,
    G: Gate + Sync,
    requires { place.port + length setting.now.ring ≤ 2 ^ 16 }
    ensures { Serves W G R.Disk (kinds (kind_of_replica R.Disk.is_honest R.stands_for R.durable R.is_whole R.log_end R.since_flush R.disk R.Disk.disk R.Disk.faults) R.is_damaged (kind_of_door L.Door.given L.Door.returned L.Door.faults L.Door.Link.remaining L.Door.Link.written L.Door.Link.faults) C.gives (kind_of_streams S.remaining S.faults T.contents T.faults)) clock.now script.now.schema setting.now desk (HasRisen (L.faults doors.old) (L.faults doors.new)) (HasRisen (P.faults spawner.old) (P.faults spawner.new)) (shown D.holds D.faults D.taken D.is_out stores.old) (shown D.holds D.faults D.taken D.is_out stores.new) result.source result.sink result.status }
{
    let stop = AtomicBool::new(false);
    let host = Host {
        rt,
        alloc,
        clock,
        stop: &stop,
        gate,
        schema: &script.schema,
    };
    served_runs_are_runs::<R, W, G, L::Door, C, S, T>();
    served_answers_are_entered::<R, W, G, L::Door, C, S, T>();
    formatted_stores_are_left::<R>();
    told(
        alloc,
        serve::<R, W, D, L, C, P, G, S, T>(&host, place, setting, stores, doors, spawner, desk),
    )
}

/// Serves the nodes of a head that was read.
fn serve_head<R, W, S, T, D, L, C, P, G>(
    rt: &W,
    alloc: Global,
    place: Place,
    head: Head,
    source: S,
    sink: T,
    stores: &mut D,
    doors: &mut L,
    clock: &C,
    spawner: &mut P,
    gate: &G,
) -> Finished<S, T>
where
    R: Replica + Send,
    R::Disk: Send,
    W: Wait + Sync,
    S: Source + Drop,
    T: Sink + Drop,
    D: Stores<Store = R::Disk>,
    L: Doors,
    L::Door: Drop + Send,
    <L::Door as Door>::Link: Send,
    C: Clock + Sync,
    P: Spawner,
    G: Gate + Sync,
    requires { place.port + length head.setting.ring ≤ 2 ^ 16 }
    ensures { Serves W G R.Disk (kinds (kind_of_replica R.Disk.is_honest R.stands_for R.durable R.is_whole R.log_end R.since_flush R.disk R.Disk.disk R.Disk.faults) R.is_damaged (kind_of_door L.Door.given L.Door.returned L.Door.faults L.Door.Link.remaining L.Door.Link.written L.Door.Link.faults) C.gives (kind_of_streams S.remaining S.faults T.contents T.faults)) clock.now head.script.schema head.setting (record { source = source; sink = sink; lines = head.lines; opening = head.opening }) (HasRisen (L.faults doors.old) (L.faults doors.new)) (HasRisen (P.faults spawner.old) (P.faults spawner.new)) (shown D.holds D.faults D.taken D.is_out stores.old) (shown D.holds D.faults D.taken D.is_out stores.new) result.source result.sink result.status }
{
    let Head {
        script,
        setting,
        lines,
        opening,
    } = head;
    let desk = Desk {
        source,
        sink,
        lines,
        opening,
    };
    serve_desk::<R, W, S, T, D, L, C, P, G>(
        rt, alloc, place, &script, &setting, desk, stores, doors, clock, spawner, gate,
    )
}

/// Tells why there is no head.
fn refuse<S: Source + Drop, T: Sink + Drop>(
    alloc: Global,
    source: S,
    sink: T,
    refusal: Refusal,
) -> Finished<S, T>
    ensures source { result.source ≡ source }
    ensures refused { RefusesSo refusal (T.contents sink) (T.contents result.sink) (T.faults sink) (T.faults result.sink) result.status }
{
    let mut sink = sink;
    let status = leave_refusal(alloc, &mut sink, refusal);
    Finished {
        status,
        source,
        sink,
    }
}

/// Reads a head, and serves its nodes until the console ends it.
pub(crate) fn run_serve<R, W, S, T, D, L, C, P, G>(
    rt: &W,
    alloc: Global,
    place: Place,
    source: S,
    sink: T,
    stores: &mut D,
    doors: &mut L,
    clock: &C,
    spawner: &mut P,
    gate: &G,
) -> Finished<S, T>
where
    R: Replica + Send,
    R::Disk: Send,
    W: Wait + Sync,
    S: Source + Drop,
    T: Sink + Drop,
    D: Stores<Store = R::Disk>,
    L: Doors,
    L::Door: Drop + Send,
    <L::Door as Door>::Link: Send,
    C: Clock + Sync,
    P: Spawner,
    G: Gate + Sync,
    requires { place.port ≤ 65529 }
    ensures ends { ServeEnds W G R.Disk (kinds (kind_of_replica R.Disk.is_honest R.stands_for R.durable R.is_whole R.log_end R.since_flush R.disk R.Disk.disk R.Disk.faults) R.is_damaged (kind_of_door L.Door.given L.Door.returned L.Door.faults L.Door.Link.remaining L.Door.Link.written L.Door.Link.faults) C.gives (kind_of_streams S.remaining S.faults T.contents T.faults)) clock.now place.entry.port (HasRisen (P.faults spawner.old) (P.faults spawner.new)) (shown D.holds D.faults D.taken D.is_out stores.old) (shown D.holds D.faults D.taken D.is_out stores.new) source sink result.source result.sink result.status }
    ensures untouched { result.status ≡ Status.BadScript → (stores.new ≡ stores.old) × (doors.new ≡ doors.old) × (spawner.new ≡ spawner.old) }
    ensures refused { IfSome (S.remaining source) (λ left. (error : ScriptError) → IsRead (head_of left) (Err error) → IsRefusedWith (S.faults source) (S.faults result.source) result.status) }
    ensures read_fault { result.status ≡ Status.ReadFault → HasRisen (S.faults source) (S.faults result.source) }
    ensures write_fault { result.status ≡ Status.WriteFault → HasRisen (T.faults sink) (T.faults result.sink) }
    ensures door_fault { result.status ≡ Status.DoorFault → HasRisen (L.faults doors.old) (L.faults doors.new) }
    ensures no_thread { result.status ≡ Status.NoThread → HasRisen (P.faults spawner.old) (P.faults spawner.new) }
{
    one_reading();
    let mut source = source;
    match read_head(alloc, &mut source, place.port) {
        Ok(head) => serve_head::<R, W, S, T, D, L, C, P, G>(
            rt, alloc, place, head, source, sink, stores, doors, clock, spawner, gate,
        ),
        Err(refusal) => refuse(alloc, source, sink, refusal),
    }
}
