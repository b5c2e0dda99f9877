//! What is in memory of one partition's row.

ghost use Rattle.std.specs.Prelude.{◌≡◌, None, Some, is_some, not, option_copied};

use row_change::PaxosRow;

/// A partition's row as it was kept last, and as the step has set it.
#[derive(Drop)]
pub(crate) struct Slot {
    pub(crate) settled: Option<PaxosRow>,
    pub(crate) staged: Option<PaxosRow>,
}

impl Slot {
    ghost use Rattle.row_store.specs.Slots.{current_of, settled_slot};

    /// No row.
    pub(crate) fn empty() -> Slot
        ensures { result ≡ record { settled = None; staged = None } }
    {
        Slot {
            settled: None,
            staged: None,
        }
    }

    /// The row as the step has it.
    pub(crate) fn current(&self) -> Option<&PaxosRow>
        ensures { option_copied result ≡ current_of self.now }
    {
        match &self.staged {
            Some(row) => Some(row),
            None => self.settled.as_ref(),
        }
    }

    /// The step sets the row. Whether it does so for the first time is told.
    pub(crate) fn set(&mut self, row: PaxosRow) -> bool
        ensures slot { self.new ≡ record self.old { staged = Some row } }
        ensures first { result ≡ not (is_some self.old.staged) }
    {
        let before = self.staged.replace(row);
        before.is_none()
    }

    /// What the step has set is kept.
    pub(crate) fn settle(&mut self)
        ensures { self.new ≡ settled_slot self.old }
    {
        if let Some(row) = self.staged.take() {
            drop(self.settled.replace(row));
        }
    }

    /// What the step has set is undone.
    pub(crate) fn unset(&mut self)
        ensures { self.new ≡ record self.old { staged = None } }
    {
        drop(self.staged.take());
    }
}
