//! The top call.

ghost use Rattle.std.specs.Prelude.{◌≡◌, ◌⊎◌, ◌↔◌, ℕ, List, [], map, codes, true, false, None, Some, Ok, Err, IfSome};
ghost use Rattle.std.specs.String.{string_bytes};
ghost use Rattle.cs_base.specs.Faults.{HasRisen};
ghost use Rattle.fault_script.specs.Script.{IsRead};
ghost use Rattle.fault_script.specs.declared.script.Script.{Script as script_value};
ghost use Rattle.fault_script.specs.declared.script.ScriptError.{ScriptError};
ghost use Rattle.list_replica.specs.Standing.{IsDamagedAt};
ghost use Rattle.source_lines.specs.Heads.{head_of};
ghost use Rattle.served_stores.specs.Shown.{shown};
ghost use Rattle.served_cluster.specs.Kinds.{kind_of_door, kind_of_streams};
ghost use Rattle.script_program.specs.Endings.{IsTold, IsRunOf, LeavesLine, IsRefusalStatus, IsRefusedWith, IsServedWith, error_line};
ghost use Rattle.script_program.specs.Streams.{WritesAll, WritesFront};
ghost use Rattle.cluster_program.specs.Commands.{command_named, is_serve, usage_line, help_text, version_text};
ghost use Rattle.cluster_program.specs.Replicas.{list_kind};
ghost use Rattle.cluster_program.specs.Serving.{kinds, ServeEnds};

use crate::command::{Command, command_of};
use crate::finished::Finished;
use crate::serving::run_serve;
use cs_doors::{Door, Doors};
use cs_io::{Gate, Link, Sink, Source};
use cs_runtime::{Clock, Spawner};
use cs_store::{Store, Stores};
use list_replica::ListReplica;
use script_program::{Status, leave_line, run_script, tell};
use served_cluster::Place;
use std::alloc::Global;
use std::sync::Wait;

/// Runs the command that the words name. `script` reads a fault script to its end, runs it, and writes the printed
/// chronicle. `serve` reads the head of a script and serves its nodes, whose rows lie in a folder, until the console ends the
/// run; the console reads its lines behind the head. `--help` and `--version` tell of the program.
pub fn run_cluster<W, S, T, D, L, C, P, G>(
    rt: &W,
    alloc: Global,
    words: &[String],
    source: S,
    sink: T,
    stores: &mut D,
    doors: &mut L,
    clock: &C,
    spawner: &mut P,
    gate: &G,
) -> Finished<S, T>
where
    W: Wait + Sync,
    S: Source + Drop,
    T: Sink + Drop,
    D: Stores,
    D::Store: Store + Drop + Send,
    L: Doors,
    L::Door: Drop + Send,
    <L::Door as Door>::Link: Send,
    C: Clock + Sync,
    P: Spawner,
    G: Gate + Sync,
    ensures usage { result.status ≡ Status.Usage ↔ command_named (map string_bytes words.now) ≡ None }
    ensures usage_line { result.status ≡ Status.Usage → LeavesLine (T.contents sink) (T.contents result.sink) (T.faults sink) (T.faults result.sink) usage_line }
    ensures help { command_named (map string_bytes words.now) ≡ Some Command.Help → IsTold (T.contents sink) (T.contents result.sink) (T.faults sink) (T.faults result.sink) help_text result.status }
    ensures version { command_named (map string_bytes words.now) ≡ Some Command.Version → IsTold (T.contents sink) (T.contents result.sink) (T.faults sink) (T.faults result.sink) version_text result.status }

    // A fault has its cause, whatever the command.
    ensures read_fault { result.status ≡ Status.ReadFault → HasRisen (S.faults source) (S.faults result.source) }
    ensures write_fault { result.status ≡ Status.WriteFault → HasRisen (T.faults sink) (T.faults result.sink) }
    ensures door_fault { result.status ≡ Status.DoorFault → HasRisen (L.faults doors.old) (L.faults doors.new) }
    ensures no_thread { result.status ≡ Status.NoThread → HasRisen (P.faults spawner.old) (P.faults spawner.new) }

    // Another command than `serve` has nothing to do with stores, doors and threads, nor has `serve` where its head is no script.
    ensures statuses { is_serve (command_named (map string_bytes words.now)) ≡ false → (result.status ≡ Status.Ok) ⊎ (result.status ≡ Status.Usage) ⊎ (result.status ≡ Status.WriteFault) ⊎ IsRefusalStatus result.status }
    ensures no_memory { is_serve (command_named (map string_bytes words.now)) ≡ false → result.status ≡ Status.NoMemory → LeavesLine (T.contents sink) (T.contents result.sink) (T.faults sink) (T.faults result.sink) (codes "no memory\n") }
    ensures unserved { is_serve (command_named (map string_bytes words.now)) ≡ false → (stores.new ≡ stores.old) × (doors.new ≡ doors.old) × (spawner.new ≡ spawner.old) }
    ensures untouched { result.status ≡ Status.BadScript → (stores.new ≡ stores.old) × (doors.new ≡ doors.old) × (spawner.new ≡ spawner.old) }

    // `script`.
    ensures ok { command_named (map string_bytes words.now) ≡ Some Command.Script → result.status ≡ Status.Ok → IfSome (S.remaining source) (λ left. (text : List ℕ) × IsRunOf left text × WritesAll (T.contents sink) (T.contents result.sink) text) }
    ensures end { command_named (map string_bytes words.now) ≡ Some Command.Script → result.status ≡ Status.Ok → IfSome (S.remaining source) (λ _. S.remaining result.source ≡ Some []) }
    ensures bad_script { command_named (map string_bytes words.now) ≡ Some Command.Script → result.status ≡ Status.BadScript → IfSome (S.remaining source) (λ left. (error : ScriptError) × IsRead left (Err error) × LeavesLine (T.contents sink) (T.contents result.sink) (T.faults sink) (T.faults result.sink) (error_line error)) }
    ensures read_fault_line { command_named (map string_bytes words.now) ≡ Some Command.Script → result.status ≡ Status.ReadFault → LeavesLine (T.contents sink) (T.contents result.sink) (T.faults sink) (T.faults result.sink) (codes "read fault\n") }
    ensures written { command_named (map string_bytes words.now) ≡ Some Command.Script → result.status ≡ Status.WriteFault → IfSome (S.remaining source) (λ left. (text : List ℕ) × IsRunOf left text × WritesFront (T.contents sink) (T.contents result.sink) text) }
    ensures refused { IfSome (S.remaining source) (λ left. (error : ScriptError) → IsRead left (Err error) → command_named (map string_bytes words.now) ≡ Some Command.Script → IsRefusedWith (S.faults source) (S.faults result.source) result.status) }
    ensures served { IfSome (S.remaining source) (λ left. (script : script_value) → IsRead left (Ok script) → command_named (map string_bytes words.now) ≡ Some Command.Script → IsServedWith (S.faults source) (S.faults result.source) (T.faults sink) (T.faults result.sink) result.status) }

    // `serve`.
    ensures serve { (port : ℕ) → command_named (map string_bytes words.now) ≡ Some (Command.Serve port) → ServeEnds W G D.Store (kinds (list_kind D.Store.is_honest D.Store.disk D.Store.faults) IsDamagedAt (kind_of_door L.Door.given L.Door.returned L.Door.faults L.Door.Link.remaining L.Door.Link.written L.Door.Link.faults) C.gives (kind_of_streams S.remaining S.faults T.contents T.faults)) clock.now port (HasRisen (P.faults spawner.old) (P.faults spawner.new)) (shown D.holds D.faults D.taken D.is_out stores.old) (shown D.holds D.faults D.taken D.is_out stores.new) source sink result.source result.sink result.status }
    ensures head_refused { IfSome (S.remaining source) (λ left. (error : ScriptError) → IsRead (head_of left) (Err error) → is_serve (command_named (map string_bytes words.now)) ≡ true → IsRefusedWith (S.faults source) (S.faults result.source) result.status) }
{
    match command_of(words) {
        Some(Command::Script) => {
            let mut source = source;
            let mut sink = sink;
            let status = run_script(alloc, &mut source, &mut sink);
            Finished {
                status,
                source,
                sink,
            }
        }
        Some(Command::Serve(port)) => {
            let place = Place {
                dir: words[1].as_str(),
                port,
            };
            run_serve::<ListReplica<D::Store>, W, S, T, D, L, C, P, G>(
                rt, alloc, place, source, sink, stores, doors, clock, spawner, gate,
            )
        }
        Some(Command::Help) => told(
            source,
            sink,
            b"usage: script | serve <dir> <port>\nscript              reads a fault script from standard input, runs it, and writes its answers\nserve <dir> <port>  serves connections; reads the head of a script and then console lines from standard input\n--help              writes this\n--version           writes the version, and the toolchain that it is proved with\n",
        ),
        Some(Command::Version) => told(
            source,
            sink,
            b"biropuve 0.1.0, proved with rattle-kit-13f\n",
        ),
        None => refused(source, sink),
    }
}

/// Writes what a command tells, and nothing else.
fn told<S: Source + Drop, T: Sink + Drop>(source: S, sink: T, text: &[u8]) -> Finished<S, T>
    ensures told { IsTold (T.contents sink) (T.contents result.sink) (T.faults sink) (T.faults result.sink) text.now result.status }
    ensures source { result.source ≡ source }
{
    let mut sink = sink;
    let status = tell(&mut sink, text);
    Finished {
        status,
        source,
        sink,
    }
}

/// Tells which words name a command.
fn refused<S: Source + Drop, T: Sink + Drop>(source: S, sink: T) -> Finished<S, T>
    ensures status { result.status ≡ Status.Usage }
    ensures told { LeavesLine (T.contents sink) (T.contents result.sink) (T.faults sink) (T.faults result.sink) usage_line }
    ensures source { result.source ≡ source }
{
    let mut sink = sink;
    leave_line(&mut sink, b"usage: script | serve <dir> <port>\n");
    Finished {
        status: Status::Usage,
        source,
        sink,
    }
}
