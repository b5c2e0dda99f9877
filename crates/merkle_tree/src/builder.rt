//! Leaves that are hashed as partitions come.

ghost use Rattle.std.specs.Prelude.{◌≡◌, ◌<◌, ◌≤◌, ◌++◌, ◌∷◌, [], All, List, IfOk, OnOk, OnErr, IsTrue, length, vec_len};
ghost use Rattle.cs_base.specs.Ring.{in_range};
ghost use Rattle.changes.specs.declared.Mutation.{Mutation as mutation_value};
ghost use Rattle.stored_changes.specs.Spelling.{MutationFits, MutationInRange, mutation};
ghost use Rattle.sha2.specs.Hashers.{Holds256};
ghost use Rattle.merkle_tree.specs.Digests.{AreLeafDigests, part};
ghost use Rattle.merkle_tree.specs.Hashing.{AreDigestsFrom, HasTaken, IsFedAt};

use crate::leaf::leaf_of;
use cell_merge::Content;
use changes::Partition;
use cs_base::{LEAVES, Leaves, Range};
use sha2::{Digest, Sha256};
use std::alloc::{AllocError, Global};
use std::marker::Model;
use stored_changes::{write_changes, write_partition};

/// The digests of a range's leaves in the making.
///
/// Each leaf has a hasher of its own, since partitions in the order of their tokens don't come leaf by leaf where a range goes on
/// from the greatest token to the least: the first of them and the last of them can be in one leaf. A partition's bytes are
/// written once, into memory that is kept for the next one.
#[derive(Debug, Drop)]
pub struct Builder {
    range: Range,
    hashers: Vec<Sha256>,
    /// Room for the digests.
    digests: Vec<[u8; 32]>,
    bytes: Vec<u8>,
}

impl Model for Builder {
    ghost use Rattle.std.specs.Prelude.{◌≡◌, vec_len};
    ghost use Rattle.merkle_tree.specs.Hashing.{Hashing};

    ghost Value = { Hashing };

    ghost view = { λ a. record { range = a.range; hashers = a.hashers.items } };

    ghost invariant = { λ a. (vec_len a.hashers ≡ 256) × (vec_len a.digests ≡ 256) };
}

/// A hasher for each leaf, which was fed with nothing.
fn new_hashers(alloc: Global) -> Result<Vec<Sha256>, AllocError>
    ensures count { IfOk result (λ hashers. vec_len hashers ≡ 256) }
    ensures nothing { IfOk result (λ hashers. All (λ hasher. Holds256 hasher []) hashers.items) }
{
    let mut hashers = Vec::with_capacity(alloc, LEAVES)?;
    for _ in 0..LEAVES {
        hashers.push(Sha256::new())?;
    }
    Ok(hashers)
}

fn room_for_digests(alloc: Global) -> Result<Vec<[u8; 32]>, AllocError>
    ensures { IfOk result (λ room. vec_len room ≡ 256) }
{
    vec![in alloc; [0; 32]; LEAVES]
}

/// Writes a partition and its changes in the place of what was there.
fn write_part(
    bytes: &mut Vec<u8>,
    partition: &Partition,
    content: &Content,
) -> Result<(), AllocError>
    requires { MutationFits (part partition.now content.now) }
    ensures written { OnOk result (bytes.new.items ≡ mutation (part partition.now content.now)) }
    ensures in_range { OnOk result (MutationInRange (part partition.now content.now)) }
{
    bytes.clear();
    write_partition(bytes, partition)?;
    write_changes(bytes, content.as_slice())
}

fn feed(hashers: &mut [Sha256], leaf: u8, bytes: &[u8])
    requires { leaf < length hashers.old }
    ensures { IsFedAt leaf bytes.now hashers.old hashers.new }
{
    hashers[usize::from(leaf)].update(bytes);
}

/// The digest of what each hasher holds, in the room for them.
fn finalize(hashers: Vec<Sha256>, room: Vec<[u8; 32]>) -> Vec<[u8; 32]>
    requires { vec_len hashers ≡ vec_len room }
    ensures count { vec_len result ≡ vec_len room }
    ensures digests { AreDigestsFrom 0 hashers.items result.items }
{
    let mut left = hashers;
    let mut digests = room;
    while let Some(hasher) = left.pop() {
        digests[left.len()] = hasher.finalize();
    }
    digests
}

impl Builder {
    /// Leaves of which nothing is hashed yet.
    pub fn new(alloc: Global, range: Range) -> Result<Builder, AllocError>
        ensures range { IfOk result (λ builder. builder.range ≡ range) }
        ensures nothing { IfOk result (λ builder. HasTaken builder []) }
    {
        Ok(Builder {
            range,
            hashers: new_hashers(alloc)?,
            digests: room_for_digests(alloc)?,
            bytes: Vec::new(alloc),
        })
    }

    pub fn range(&self) -> Range
        ensures { result ≡ self.now.range }
    {
        self.range
    }

    /// Hashes a partition of the range with all that is held of it. A leaf's digest is of its partitions in the order in which they
    /// are added, so replicas agree where each adds its partitions in the order of partitions.
    pub fn add(&mut self, partition: &Partition, content: &Content) -> Result<(), AllocError>
        requires inside { IsTrue (in_range self.old.range partition.now.token) }
        requires fits { MutationFits (part partition.now content.now) }

        ensures taken { OnOk result ((parts : List mutation_value) → HasTaken self.old parts → HasTaken self.new (parts ++ part partition.now content.now ∷ [])) }
        ensures in_range { OnOk result (MutationInRange (part partition.now content.now)) }
        ensures range { self.new.range ≡ self.old.range }
        ensures err { OnErr result (self.new ≡ self.old) }
    {
        let leaf = leaf_of(&self.range, partition.token);
        write_part(&mut self.bytes, partition, content)?;
        feed(&mut self.hashers, leaf, &self.bytes);
        Ok(())
    }

    /// The digest of each leaf. It takes no memory.
    pub fn finish(self) -> Leaves
        ensures { (parts : List mutation_value) → HasTaken self parts → AreLeafDigests self.range parts result }
    {
        let Builder {
            range: _,
            hashers,
            digests,
            bytes: _,
        } = self;
        Leaves::from_vec(finalize(hashers, digests))
    }
}
