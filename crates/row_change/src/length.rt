//! The length of a log's entries as they are stored. A length that isn't below 2^64 counts as 2^64 - 1.

ghost use Rattle.std.specs.Prelude.{◌≡◌, ◌-◌, ◌^◌, min};
ghost use Rattle.row_change.specs.Lengths.{entry_length, item_fields_length, item_length, row_length as row_length_of, stamped_length as stamped_length_of};

use crate::entry::{LogEntry, LogItem, PaxosRow, Stamped};
use changes::encoded_length;

fn stamped_length(stamped: &Option<Stamped>) -> u64
    ensures { result ≡ min (stamped_length_of stamped.now) (2 ^ 64 - 1) }
{
    match stamped {
        None => 1,
        Some(stamped) => {
            encoded_length(stamped.update.changes.as_slice()).saturating_add(1 + 8 + 1 + 8 + 8)
        }
    }
}

/// The promise, seven ballots, and the two updates.
fn row_length(row: &PaxosRow) -> u64
    ensures { result ≡ min (row_length_of row.now) (2 ^ 64 - 1) }
{
    stamped_length(&row.accepted)
        .saturating_add(stamped_length(&row.commit))
        .saturating_add(8 + 7 * 8)
}

impl LogItem {
    fn fields_length(&self) -> u64
        ensures { result ≡ min (item_fields_length self.now) (2 ^ 64 - 1) }
    {
        match self {
            LogItem::Data(_, mutation) => mutation.encoded_length().saturating_add(8),
            LogItem::Paxos(partition, row) => {
                partition.encoded_length().saturating_add(row_length(row))
            }
            LogItem::HintAdd(hint) => hint.mutation.encoded_length().saturating_add(1 + 8 + 8),
            LogItem::HintGone(_, _) => 1 + 8,
            LogItem::Ceiling(_) => 8,
            LogItem::Mark(_) => 8 + 8 + 8 + 8,
            LogItem::Purge(change) => change
                .partition
                .encoded_length()
                .saturating_add(change.held.encoded_length()),
        }
    }

    /// Its bytes as it is stored.
    pub fn encoded_length(&self) -> u64
        ensures { result ≡ min (item_length self.now) (2 ^ 64 - 1) }
    {
        self.fields_length().saturating_add(1)
    }
}

impl LogEntry {
    /// Its bytes as it is stored.
    pub fn encoded_length(&self) -> u64
        ensures { result ≡ min (entry_length self.now) (2 ^ 64 - 1) }
    {
        let mut length = 4u64;
        for item in self.items.as_slice() {
            length = length.saturating_add(item.encoded_length());
        }
        length
    }
}
