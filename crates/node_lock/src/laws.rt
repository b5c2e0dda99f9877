//! Laws of receipts.

ghost use Rattle.node_lock.specs.Stepped.{ReceiptsNameTheirEntries};

use crate::stepper::Stepper;

/// Where a step gave a receipt, its place names the entry of the step in whatever history begins with what the pass had
/// then seen: in what passes see later, and in the history at the end.
pub fn receipts_name_their_entries<N: Stepper>()
    ensures { ReceiptsNameTheirEntries N.steps N.event_of N.reply_of }
{}
