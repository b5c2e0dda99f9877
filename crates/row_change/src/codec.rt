//! A log's entries as bytes, and bytes as entries.

ghost use Rattle.std.specs.Prelude.{◌≡◌, ◌++◌, List, [], length, IfOk, OnOk};
ghost use Rattle.stored_fields.specs.Reading.{Answers, Gives};
ghost use Rattle.row_change.specs.declared.entry.LogEntry.{LogEntry};
ghost use Rattle.row_change.specs.Grammar.{IsEntry};
ghost use Rattle.row_change.specs.Lengths.{entry_length};
ghost use Rattle.row_change.specs.Reading.{entry_at, entry_in};
ghost use Rattle.row_change.specs.Spelling.{EntryFits, EntryInRange, entry as entry_bytes};

use crate::entry::LogEntry;
use crate::item::{read_items, write_items};
use std::alloc::{AllocError, Global};
use stored_fields::{CodecError, Fault, Reader, at_end, write_u32};

#[tactic(auto, unfolding(crate::specs::Reading::entry_at))]
fn read_entry(alloc: Global, reader: &mut Reader<'_>) -> Result<LogEntry, Fault>
    ensures { Gives (λ e. (e, reader.new.rest.now)) result (entry_at reader.old.rest.now) }
{
    let count = reader.u32()?;
    let items = read_items(alloc, count, reader)?;
    Ok(LogEntry { items })
}

fn write_entry(out: &mut Vec<u8>, entry: &LogEntry) -> Result<(), AllocError>
    requires { EntryFits entry.now }
    ensures written { OnOk result (out.new.items ≡ out.old.items ++ entry_bytes entry.now) }
    ensures in_range { OnOk result (EntryInRange entry.now) }
{
    let items = entry.items.as_slice();
    write_u32(out, items.len() as u32)?;
    write_items(out, items)
}

fn spell_entry(alloc: Global, entry: &LogEntry) -> Result<Vec<u8>, AllocError>
    requires { EntryFits entry.now }
    ensures written { IfOk result (λ out. out.items ≡ entry_bytes entry.now) }
    ensures in_range { OnOk result (EntryInRange entry.now) }
{
    let mut out = Vec::with_capacity(alloc, entry.encoded_length() as usize)?;
    write_entry(&mut out, entry)?;
    Ok(out)
}

/// The word of an entry: the count of its items in four bytes, and the items.
pub fn encode_entry(alloc: Global, entry: &LogEntry) -> Result<Vec<u8>, AllocError>
    requires { EntryFits entry.now }
    ensures word { IfOk result (λ bytes. IsEntry bytes.items entry.now []) }
    ensures spelled { IfOk result (λ bytes. bytes.items ≡ entry_bytes entry.now) }
    ensures long { IfOk result (λ bytes. length bytes.items ≡ entry_length entry.now) }
{
    let spelled = spell_entry(alloc, entry)?;
    Ok(spelled)
}

fn entry_of(alloc: Global, bytes: &[u8]) -> Result<LogEntry, CodecError>
    ensures { Answers result (entry_in bytes.now) }
{
    let mut reader = Reader::new(bytes);
    match read_entry(alloc, &mut reader) {
        Ok(entry) => at_end(entry, bytes.len(), reader.rest),
        Err(fault) => Err(fault.placed(bytes.len())),
    }
}

/// The entry of which the bytes are the word, all of them, or else the first field that breaks it.
pub fn decode_entry(alloc: Global, bytes: &[u8]) -> Result<LogEntry, CodecError>
    // What is decoded is what the bytes are the word of.
    ensures found { IfOk result (λ entry. IsEntry bytes.now entry []) }
    // It can be encoded again.
    ensures fits { IfOk result EntryFits }
    // A word is decoded, unless memory runs out.
    ensures only { (e : LogEntry) → IsEntry bytes.now e [] → Answers result (Ok e) }
    // Which refusal it is.
    ensures exact { Answers result (entry_in bytes.now) }
{
    entry_of(alloc, bytes)
}
