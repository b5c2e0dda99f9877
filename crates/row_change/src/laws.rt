//! The laws of the stored forms of changes, mutations and entries.

ghost use Rattle.std.specs.Prelude.{◌≡◌, length, List};
ghost use Rattle.changes.specs.declared.Held.{Held};
ghost use Rattle.changes.specs.declared.Mutation.{Mutation};
ghost use Rattle.changes.specs.Lengths.{changes_length, mutation_length};
ghost use Rattle.stored_fields.specs.Laws.{DecodingUndoesEncoding, EncodingUndoesDecoding, HasOneReading, ReadsItsWords};
ghost use Rattle.stored_changes.specs.Grammar.{AreChanges, IsMutation};
ghost use Rattle.stored_changes.specs.Reading.{changes_in, mutation_in};
ghost use Rattle.stored_changes.specs.Spelling.{ChangesHaveWord, MutationHasWord, changes as changes_bytes, mutation as mutation_bytes};
ghost use Rattle.row_change.specs.declared.entry.LogEntry.{LogEntry};
ghost use Rattle.row_change.specs.Grammar.{IsEntry};
ghost use Rattle.row_change.specs.Lengths.{entry_length};
ghost use Rattle.row_change.specs.Reading.{entry_in};
ghost use Rattle.row_change.specs.Spelling.{EntryHasWord, EntryInRange, entry as entry_bytes};

/// Bytes are the word of one value at most.
pub fn one_reading()
    ensures changes { HasOneReading AreChanges }
    ensures mutation { HasOneReading IsMutation }
    ensures entry { HasOneReading IsEntry }
{}

/// What is read from left to right is just the words of the grammar, each as its value.
pub fn words_are_read()
    ensures changes { ReadsItsWords changes_in AreChanges }
    ensures mutation { ReadsItsWords mutation_in IsMutation }
    ensures entry { ReadsItsWords entry_in IsEntry }
{}

/// What is encoded is decoded again, and refused where its word ends if more follows.
pub fn decoding_undoes_encoding()
    ensures changes { DecodingUndoesEncoding changes_in changes_bytes ChangesHaveWord }
    ensures mutation { DecodingUndoesEncoding mutation_in mutation_bytes MutationHasWord }
    ensures entry { DecodingUndoesEncoding entry_in entry_bytes EntryHasWord }
{}

/// What is decoded has a word, and that is the bytes.
pub fn encoding_undoes_decoding()
    ensures changes { EncodingUndoesDecoding changes_in changes_bytes ChangesHaveWord }
    ensures mutation { EncodingUndoesDecoding mutation_in mutation_bytes MutationHasWord }
    ensures entry { EncodingUndoesDecoding entry_in entry_bytes EntryHasWord }
{}

/// What is encoded has the length that is counted for it.
pub fn encoding_has_its_length()
    ensures changes { (xs : List Held) → length (changes_bytes xs) ≡ changes_length xs }
    ensures mutation { (m : Mutation) → length (mutation_bytes m) ≡ mutation_length m }
    ensures entry { (e : LogEntry) → EntryInRange e → length (entry_bytes e) ≡ entry_length e }
{}
