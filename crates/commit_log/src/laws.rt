//! What holds of the format.

ghost use Rattle.std.specs.Prelude.{ℕ, ◌^◌, ◌<◌, List, [], length};
ghost use Rattle.row_change.specs.declared.entry.LogEntry.{LogEntry};
ghost use Rattle.row_change.specs.Grammar.{IsEntry};
ghost use Rattle.commit_log.specs.Format.{IsAppended, IsOneReading};

/// A file reads in one way at most: as one list of entries, or as damaged at one place.
pub fn reads_as_one_list()
    ensures { (file : List ℕ) → IsOneReading file }
{}

/// A file to which the word of an entry was appended reads as the entries before and this one, and as nothing else.
pub fn appended_entry_is_read()
    ensures { (entry : LogEntry) (word : List ℕ) → IsEntry word entry [] → length word < 2 ^ 32 → IsAppended entry word }
{}
