//! How served runs end.

ghost use Rattle.std.specs.Prelude.{◌≡◌};
ghost use Rattle.served_cluster.specs.Ends.{told_of, told_of_doors, told_of_load, told_without};

use cs_base::NodeId;
use cs_store::FileNo;
use served_console::ConsoleEnd;
use served_doors::DoorFault;
use served_stores::LoadFault;

/// How a served run ended. Where two hold, the first of them is told; what was not had before the nodes ran is told alone.
#[derive(Clone, Copy, Debug, PartialEq, Eq)]
pub enum ServedEnd {
    /// The console ended it, and all that was taken is given back.
    Closed,
    ReadFault,
    WriteFault,
    /// The store of a node failed, the first node's of those whose did.
    StoreFault(NodeId),
    NoMemory,
    DoorFault,
    /// A thread was not started.
    NoThread,
    /// The history of a node has as many entries as it may have, the first node's of those that have.
    HistoryFull(NodeId),
    /// The file of a node is not in its format, first at this place.
    Damaged(NodeId, FileNo, u64),
}

/// A served run that has ended.
#[derive(Drop)]
pub struct ServedRun<S, T> {
    pub end: ServedEnd,
    pub source: S,
    pub sink: T,
}

/// The end of a run whose nodes were not loaded.
pub(crate) fn end_of_load(fault: LoadFault) -> ServedEnd
    ensures { result ≡ told_of_load fault }
{
    match fault {
        LoadFault::Failed(node) => ServedEnd::StoreFault(node),
        LoadFault::Damaged(node, file, at) => ServedEnd::Damaged(node, file, at),
        LoadFault::NoMemory => ServedEnd::NoMemory,
    }
}

/// The end of a run whose doors were not opened.
pub(crate) fn end_of_doors(fault: DoorFault) -> ServedEnd
    ensures { result ≡ told_of_doors fault }
{
    match fault {
        DoorFault::Failed => ServedEnd::DoorFault,
        DoorFault::NoMemory => ServedEnd::NoMemory,
    }
}

/// The end of a run whose nodes were lost for want of memory.
pub(crate) fn end_without(console: ConsoleEnd) -> ServedEnd
    ensures { result ≡ told_without console }
{
    match console {
        ConsoleEnd::Ended => ServedEnd::NoMemory,
        ConsoleEnd::ReadFault => ServedEnd::ReadFault,
        ConsoleEnd::WriteFault => ServedEnd::WriteFault,
    }
}

/// What is found of nodes that have run: the first that failed, whether a door failed, whether a job got no thread, and the first whose
/// history is full.
#[derive(Clone, Copy, Debug, PartialEq, Eq)]
pub(crate) struct Findings {
    pub failed: Option<NodeId>,
    pub door_failed: bool,
    pub unstarted: bool,
    pub full: Option<NodeId>,
}

/// The end of a run whose console ended so.
pub(crate) fn end_of(console: ConsoleEnd, found: Findings) -> ServedEnd
    ensures { result ≡ told_of console found.failed found.door_failed found.unstarted found.full }
{
    match (console, found.failed, found.full) {
        (ConsoleEnd::ReadFault, _, _) => ServedEnd::ReadFault,
        (ConsoleEnd::WriteFault, _, _) => ServedEnd::WriteFault,
        (ConsoleEnd::Ended, Some(node), _) => ServedEnd::StoreFault(node),
        (ConsoleEnd::Ended, None, _) if found.door_failed => ServedEnd::DoorFault,
        (ConsoleEnd::Ended, None, _) if found.unstarted => ServedEnd::NoThread,
        (ConsoleEnd::Ended, None, Some(node)) => ServedEnd::HistoryFull(node),
        (ConsoleEnd::Ended, None, None) => ServedEnd::Closed,
    }
}
