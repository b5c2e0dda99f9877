//! The digests of a range's 256 leaves, and sets of leaves.

ghost use Rattle.std.specs.Prelude.{◌≡◌, ◌↔◌, [], IfOk, IsTrue, Some, length, slice_get, vec_len};
ghost use Rattle.cs_base.specs.Leaves.{LeavesAreTold, is_leaf_of};
ghost use Rattle.cs_base.specs.Quorums.{is_in};

use std::alloc::{AllocError, Global};
use std::marker::Model;

/// How many leaves a range has.
pub const LEAVES: usize = 256;

/// A digest of each of a range's 256 leaves, by the leaf's number, in memory of its own.
#[derive(Debug, Drop)]
pub struct Leaves {
    digests: Vec<[u8; 32]>,
}

impl Model for Leaves {
    ghost use Rattle.std.specs.Prelude.{◌≡◌, ℕ, List, length};

    ghost Value = { List (List ℕ) };

    ghost view = { λ a. a.digests.items };

    ghost invariant = { λ a. length a.digests.items ≡ 256 };
}

impl Leaves {
    /// Takes the digests over, without an allocation.
    pub fn from_vec(digests: Vec<[u8; 32]>) -> Leaves
        requires { vec_len digests ≡ 256 }
        ensures { result ≡ digests.items }
    {
        Leaves { digests }
    }

    pub fn as_slice(&self) -> &[[u8; 32]]
        ensures value { result.now ≡ self.now }
        ensures count { length result.now ≡ 256 }
    {
        self.digests.as_slice()
    }

    /// The digest of this leaf.
    pub fn digest(&self, leaf: u8) -> [u8; 32]
        ensures { slice_get self.now leaf ≡ Some result }
    {
        self.digests[usize::from(leaf)]
    }

    /// Equal digests, in memory of their own.
    pub fn copy(&self, alloc: Global) -> Result<Leaves, AllocError>
        ensures { IfOk result (λ copy. copy ≡ self.now) }
    {
        Ok(Leaves {
            digests: Vec::from_slice(alloc, self.digests.as_slice())?,
        })
    }
}

/// A set of a range's 256 leaves.
#[derive(Clone, Copy, Debug)]
pub struct LeafSet {
    bits: [u64; 4],
}

impl Model for LeafSet {
    ghost use Rattle.std.specs.Prelude.{◌≡◌, ◌<◌, ◌^◌, ℕ, List, length, slice_index};
    ghost use Rattle.std.proofs.Common.{ap};
    ghost use Rattle.cs_base.specs.Leaves.{leaves_of_bits, bits_of_leaves};
    ghost use Rattle.cs_base.specs.LeafBits.{words_back};

    ghost Value = { List ℕ };

    ghost view = { λ a. leaves_of_bits a.bits };

    ghost invariant = { λ a. (length a.bits ≡ 4) × ((w : ℕ) → slice_index a.bits w < 2 ^ 64) };

    ghost inverse = { λ leaves. record { bits = bits_of_leaves leaves } };

    ghost inverse_ok = { λ a h. ap (λ bits. record { bits = bits }) (words_back a.bits h.0 h.1) };
}

impl LeafSet {
    ghost use Rattle.cs_base.specs.Leaves.{with_leaf};

    /// No leaf.
    pub fn new() -> LeafSet
        ensures { result ≡ [] }
    {
        LeafSet { bits: [0; 4] }
    }

    pub fn insert(&mut self, leaf: u8)
        ensures { self.new ≡ with_leaf self.old leaf }
    {
        self.bits[usize::from(leaf / 64)] |= 1 << (leaf % 64);
    }

    pub fn contains(&self, leaf: u8) -> bool
        ensures { result ≡ is_in self.now leaf }
    {
        is_set(&self.bits, leaf)
    }

    pub fn is_empty(&self) -> bool
        ensures { IsTrue result ↔ (self.now ≡ []) }
    {
        self.bits == [0; 4]
    }

    /// How many leaves are in the set.
    pub fn len(&self) -> u16
        ensures { result ≡ length self.now }
    {
        let bits = &self.bits;
        let mut count = 0;
        for leaf in 0..256u16 {
            if is_set(bits, leaf as u8) {
                count += 1;
            }
        }
        count
    }
}

impl Default for LeafSet {
    ghost is_default = { λ leaves. leaves ≡ [] };

    fn default() -> LeafSet {
        LeafSet::new()
    }
}

fn is_set(bits: &[u64; 4], leaf: u8) -> bool
    ensures { result ≡ is_leaf_of bits.now leaf }
{
    (bits[usize::from(leaf / 64)] >> (leaf % 64)) & 1 == 1
}

/// What is in a set of leaves that pass a test, and when two such sets are the same.
pub fn leaves_are_told_by_their_test()
    ensures { LeavesAreTold }
{}
