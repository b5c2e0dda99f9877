//! Changes and mutations as bytes, and bytes as changes and mutations.

ghost use Rattle.std.specs.Prelude.{◌≡◌, List, [], length, IfOk, OnOk};
ghost use Rattle.changes.specs.declared.Held.{Held};
ghost use Rattle.changes.specs.declared.Mutation.{Mutation};
ghost use Rattle.changes.specs.Lengths.{changes_length, mutation_length};
ghost use Rattle.stored_fields.specs.Reading.{Answers};
ghost use Rattle.stored_changes.specs.Grammar.{AreChanges, IsMutation};
ghost use Rattle.stored_changes.specs.Reading.{changes_in, mutation_in};
ghost use Rattle.stored_changes.specs.Spelling.{ChangesFit, ChangesInRange, MutationFits, MutationInRange, changes as changes_bytes, mutation as mutation_bytes};

use crate::change::{read_changes, write_changes};
use crate::mutation::{read_mutation, write_mutation};
use changes::{Helds, Mutation, encoded_length};
use std::alloc::{AllocError, Global};
use stored_fields::{CodecError, Reader, at_end};

fn spell_changes(alloc: Global, changes: &Helds) -> Result<Vec<u8>, AllocError>
    requires { ChangesFit changes.now }
    ensures written { IfOk result (λ out. out.items ≡ changes_bytes changes.now) }
    ensures in_range { OnOk result (ChangesInRange changes.now) }
{
    let changes = changes.as_slice();
    let mut out = Vec::with_capacity(alloc, encoded_length(changes) as usize)?;
    write_changes(&mut out, changes)?;
    Ok(out)
}

/// The word of changes: their count in four bytes, and the changes.
pub fn encode_changes(alloc: Global, changes: &Helds) -> Result<Vec<u8>, AllocError>
    requires { ChangesFit changes.now }
    ensures word { IfOk result (λ bytes. AreChanges bytes.items changes.now []) }
    ensures spelled { IfOk result (λ bytes. bytes.items ≡ changes_bytes changes.now) }
    ensures long { IfOk result (λ bytes. length bytes.items ≡ changes_length changes.now) }
{
    let spelled = spell_changes(alloc, changes)?;
    Ok(spelled)
}

fn spell_mutation(alloc: Global, mutation: &Mutation) -> Result<Vec<u8>, AllocError>
    requires { MutationFits mutation.now }
    ensures written { IfOk result (λ out. out.items ≡ mutation_bytes mutation.now) }
    ensures in_range { OnOk result (MutationInRange mutation.now) }
{
    let mut out = Vec::with_capacity(alloc, mutation.encoded_length() as usize)?;
    write_mutation(&mut out, mutation)?;
    Ok(out)
}

/// The word of a mutation: its partition, and its changes.
pub fn encode_mutation(alloc: Global, mutation: &Mutation) -> Result<Vec<u8>, AllocError>
    requires { MutationFits mutation.now }
    ensures word { IfOk result (λ bytes. IsMutation bytes.items mutation.now []) }
    ensures spelled { IfOk result (λ bytes. bytes.items ≡ mutation_bytes mutation.now) }
    ensures long { IfOk result (λ bytes. length bytes.items ≡ mutation_length mutation.now) }
{
    let spelled = spell_mutation(alloc, mutation)?;
    Ok(spelled)
}

fn changes_of(alloc: Global, bytes: &[u8]) -> Result<Helds, CodecError>
    ensures { Answers result (changes_in bytes.now) }
{
    let mut reader = Reader::new(bytes);
    match read_changes(alloc, &mut reader) {
        Ok(changes) => at_end(changes, bytes.len(), reader.rest),
        Err(fault) => Err(fault.placed(bytes.len())),
    }
}

/// The changes of which the bytes are the word, all of them, or else the first field that breaks it.
pub fn decode_changes(alloc: Global, bytes: &[u8]) -> Result<Helds, CodecError>
    // What is decoded is what the bytes are the word of.
    ensures found { IfOk result (λ changes. AreChanges bytes.now changes []) }
    // It can be encoded again.
    ensures fits { IfOk result ChangesFit }
    // A word is decoded, unless memory runs out.
    ensures only { (xs : List Held) → AreChanges bytes.now xs [] → Answers result (Ok xs) }
    // Which refusal it is.
    ensures exact { Answers result (changes_in bytes.now) }
{
    changes_of(alloc, bytes)
}

fn mutation_of(alloc: Global, bytes: &[u8]) -> Result<Mutation, CodecError>
    ensures { Answers result (mutation_in bytes.now) }
{
    let mut reader = Reader::new(bytes);
    match read_mutation(alloc, &mut reader) {
        Ok(mutation) => at_end(mutation, bytes.len(), reader.rest),
        Err(fault) => Err(fault.placed(bytes.len())),
    }
}

/// The mutation of which the bytes are the word, all of them, or else the first field that breaks it.
pub fn decode_mutation(alloc: Global, bytes: &[u8]) -> Result<Mutation, CodecError>
    // What is decoded is what the bytes are the word of.
    ensures found { IfOk result (λ mutation. IsMutation bytes.now mutation []) }
    // It can be encoded again.
    ensures fits { IfOk result MutationFits }
    // A word is decoded, unless memory runs out.
    ensures only { (m : Mutation) → IsMutation bytes.now m [] → Answers result (Ok m) }
    // Which refusal it is.
    ensures exact { Answers result (mutation_in bytes.now) }
{
    mutation_of(alloc, bytes)
}
