//! What holds of all rows.

ghost use Rattle.page_state.specs.Laws.{ReadingUndoesWriting};

/// The state of a row of at most 65,535 bytes is read as that row.
pub fn reading_undoes_writing()
    ensures { ReadingUndoesWriting }
{}
