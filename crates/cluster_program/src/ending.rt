//! How a served run is told.

ghost use Rattle.std.specs.Prelude.{◌≡◌, ◌≤◌, ◌++◌, ◌∷◌, [], IfOk, OnOk};
ghost use Rattle.std.specs.Fmt.{decimal};
ghost use Rattle.script_program.specs.Endings.{LeavesLine};
ghost use Rattle.cluster_program.specs.Endings.{damaged_line as damaged_line_of, TellsEnd, TellsLine};

use chronicle_print::push_number;
use cs_base::NodeId;
use cs_io::Sink;
use cs_store::FileNo;
use script_program::{Status, leave_line, tell};
use served_cluster::ServedEnd;
use std::alloc::{AllocError, Global};

/// Puts a space and a number behind what is there.
fn push_next(line: &mut Vec<u8>, number: u64) -> Result<(), AllocError>
    ensures { OnOk result (line.new.items ≡ line.old.items ++ 32 ∷ decimal number) }
{
    line.push(b' ')?;
    push_number(line, number)
}

/// A line of words and the number of a node.
fn node_line(alloc: Global, words: &[u8], node: NodeId) -> Result<Vec<u8>, AllocError>
    ensures { IfOk result (λ line. line.items ≡ words.now ++ decimal node ++ 10 ∷ []) }
{
    let mut line = Vec::from_slice(alloc, words)?;
    push_number(&mut line, u64::from(node.number()))?;
    line.push(b'\n')?;
    Ok(line)
}

fn damaged_line(alloc: Global, node: NodeId, file: FileNo, at: u64) -> Result<Vec<u8>, AllocError>
    ensures { IfOk result (λ line. line.items ≡ damaged_line_of node file at) }
{
    let mut line = Vec::from_slice(alloc, b"damaged ")?;
    push_number(&mut line, u64::from(node.number()))?;
    push_next(&mut line, u64::from(file.number()))?;
    push_next(&mut line, at)?;
    line.push(b'\n')?;
    Ok(line)
}

/// Tells of a node, or that there is no memory to do so.
fn leave_node<T: Sink>(
    alloc: Global,
    sink: &mut T,
    words: &[u8],
    node: NodeId,
    status: Status,
) -> Status
    ensures told { TellsLine status (words.now ++ decimal node ++ 10 ∷ []) (T.contents sink.old) (T.contents sink.new) (T.faults sink.old) (T.faults sink.new) result }
    ensures counted { T.faults sink.old ≤ T.faults sink.new }
{
    match node_line(alloc, words, node) {
        Ok(line) => {
            leave_line(sink, &line);
            status
        }
        Err(AllocError) => {
            leave_line(sink, b"no memory\n");
            Status::NoMemory
        }
    }
}

/// Tells where a file of a node is damaged, or that there is no memory to do so.
fn leave_damage<T: Sink>(alloc: Global, sink: &mut T, node: NodeId, file: FileNo, at: u64) -> Status
    ensures told { TellsLine Status.Damaged (damaged_line_of node file at) (T.contents sink.old) (T.contents sink.new) (T.faults sink.old) (T.faults sink.new) result }
    ensures counted { T.faults sink.old ≤ T.faults sink.new }
{
    match damaged_line(alloc, node, file, at) {
        Ok(line) => {
            leave_line(sink, &line);
            Status::Damaged
        }
        Err(AllocError) => {
            leave_line(sink, b"no memory\n");
            Status::NoMemory
        }
    }
}

/// Writes a last line.
fn leave_status<T: Sink>(sink: &mut T, line: &[u8], status: Status) -> Status
    ensures status { result ≡ status }
    ensures left { LeavesLine (T.contents sink.old) (T.contents sink.new) (T.faults sink.old) (T.faults sink.new) line.now }
    ensures counted { T.faults sink.old ≤ T.faults sink.new }
{
    leave_line(sink, line);
    status
}

/// Tells how a served run ended.
pub(crate) fn leave_end<T: Sink>(alloc: Global, sink: &mut T, end: ServedEnd) -> Status
    ensures told { TellsEnd end (T.contents sink.old) (T.contents sink.new) (T.faults sink.old) (T.faults sink.new) result }
    ensures counted { T.faults sink.old ≤ T.faults sink.new }
{
    match end {
        ServedEnd::Closed => tell(sink, b"closed\n"),
        ServedEnd::WriteFault => Status::WriteFault,
        ServedEnd::ReadFault => leave_status(sink, b"read fault\n", Status::ReadFault),
        ServedEnd::NoMemory => leave_status(sink, b"no memory\n", Status::NoMemory),
        ServedEnd::DoorFault => leave_status(sink, b"door fault\n", Status::DoorFault),
        ServedEnd::NoThread => leave_status(sink, b"no thread\n", Status::NoThread),
        ServedEnd::StoreFault(node) => {
            leave_node(alloc, sink, b"store fault ", node, Status::StoreFault)
        }
        ServedEnd::HistoryFull(node) => {
            leave_node(alloc, sink, b"history full ", node, Status::HistoryFull)
        }
        ServedEnd::Damaged(node, file, at) => leave_damage(alloc, sink, node, file, at),
    }
}
