//! What two trees differ in.

ghost use Rattle.std.specs.Prelude.{◌≡◌, ◌↔◌, ◌<◌, ℕ, false, length, slice_get};
ghost use Rattle.cs_base.specs.Quorums.{is_in};
ghost use Rattle.merkle_tree.specs.Digests.{differing};

use cs_base::{LeafSet, Leaves};

/// The leaves, by number, whose digests differ.
fn differing_digests(a: &[[u8; 32]], b: &[[u8; 32]]) -> LeafSet
    requires first { length a.now ≡ 256 }
    requires second { length b.now ≡ 256 }
    ensures { result ≡ differing a.now b.now }
{
    let mut differing = LeafSet::new();
    for (leaf, digest) in a.iter().enumerate() {
        if *digest != b[leaf] {
            differing.insert(leaf as u8);
        }
    }
    differing
}

/// The leaves whose digests differ.
pub fn differing_leaves(a: &Leaves, b: &Leaves) -> LeafSet
    ensures set { result ≡ differing a.now b.now }
    ensures each { (leaf : ℕ) → leaf < 256 → (is_in result leaf ≡ false) ↔ (slice_get a.now leaf ≡ slice_get b.now leaf) }
{
    differing_digests(a.as_slice(), b.as_slice())
}
