//! Digests of leaves, and sets of leaves.

use cs_base::{LEAVES, LeafSet, Leaves};
use std::alloc::{AllocError, Global};
use std::test::Fail;

/// Digests that two leaves each have in common.
fn digests(alloc: Global) -> Result<Vec<[u8; 32]>, AllocError> {
    let mut digests = Vec::new(alloc);
    for leaf in 0..256u16 {
        digests.push([(leaf / 2) as u8; 32])?;
    }
    Ok(digests)
}

#[test]
fn copies_digests(rt: HostRuntime) -> Result<(), Fail> {
    let digests = digests(rt.alloc())?;
    assert!(rt; digests.len() == LEAVES);
    let leaves = Leaves::from_vec(digests);
    let copy = leaves.copy(rt.alloc())?;
    assert!(rt; copy.as_slice() == leaves.as_slice());
    assert!(rt; copy.digest(255) == [127; 32]);
    Ok(())
}

/// A set of four leaves, one of which is put in twice.
fn some_leaves() -> LeafSet {
    let mut set = LeafSet::new();
    for leaf in [255, 0, 64, 63, 64] {
        set.insert(leaf);
    }
    set
}

#[test]
fn holds_leaves(rt: HostRuntime) {
    assert!(rt; LeafSet::new().is_empty());
    let set = some_leaves();
    assert!(rt; set.len() == 4 && !set.is_empty());
    for (leaf, want) in &[
        (0, true),
        (1, false),
        (63, true),
        (64, true),
        (65, false),
        (128, false),
        (255, true),
    ] {
        assert!(rt; set.contains(*leaf) == *want, "at {leaf}");
    }
}
