//! What is asked of an entry before it is committed.

ghost use Rattle.std.specs.Prelude.{◌↔◌, IsTrue};
ghost use Rattle.replica.specs.Kept.{ArriveAllAt, ArrivesAt, IsNoPurge, PurgeNothing};

use cs_base::Micros;
use row_change::{LogEntry, LogItem};

fn arrives_at(item: &LogItem, at: Micros) -> bool
    ensures { IsTrue result ↔ ArrivesAt at item.now }
{
    match item {
        LogItem::Data(arrival, _) => *arrival == at,
        LogItem::Paxos(_, _)
        | LogItem::HintAdd(_)
        | LogItem::HintGone(_, _)
        | LogItem::Ceiling(_)
        | LogItem::Mark(_)
        | LogItem::Purge(_) => true,
    }
}

/// Whether all changes of an entry came at this time.
pub fn arrive_at(entry: &LogEntry, at: Micros) -> bool
    ensures { IsTrue result ↔ ArriveAllAt at entry.now.items }
{
    for item in entry.items.as_slice() {
        if !arrives_at(item, at) {
            return false;
        }
    }
    true
}

fn is_no_purge(item: &LogItem) -> bool
    ensures { IsTrue result ↔ IsNoPurge item.now }
{
    match item {
        LogItem::Purge(_) => false,
        LogItem::Data(_, _)
        | LogItem::Paxos(_, _)
        | LogItem::HintAdd(_)
        | LogItem::HintGone(_, _)
        | LogItem::Ceiling(_)
        | LogItem::Mark(_) => true,
    }
}

/// Whether an entry lets go of no change.
pub fn purges_nothing(entry: &LogEntry) -> bool
    ensures { IsTrue result ↔ PurgeNothing entry.now.items }
{
    for item in entry.items.as_slice() {
        if !is_no_purge(item) {
            return false;
        }
    }
    true
}
