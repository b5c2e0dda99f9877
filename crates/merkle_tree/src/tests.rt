//! Digests of bytes that are written by hand. Each figure is what Python's `hashlib.sha256(..).hexdigest()` gives of the same bytes,
//! piece behind piece.

ghost use Rattle.std.specs.Prelude.{IfOk};
ghost use Rattle.stored_changes.specs.Spelling.{MutationFits};
ghost use Rattle.merkle_tree.specs.Digests.{part};

use crate::{Builder, differing_leaves, leaf_of};
use cell_merge::Content;
use changes::{Mutation, Partition};
use cs_base::{Leaves, Range};
use std::alloc::{AllocError, Global};
use std::test::Fail;
use stored_changes::decode_mutation;

/// A partition with its changes, in pieces.
type Pieces = &'static [&'static [u8]];

/// Timestamp -2, submitted at 5, by node 6's request of time 9.
const STAMP: &[u8] = b"\xff\xff\xff\xff\xff\xff\xff\xfe\0\0\0\0\0\0\0\x05\x06\0\0\0\0\0\0\0\x09";

/// A count of one, and a cell of row r with the value vw.
const CELL: &[u8] = b"\0\0\0\x01\x01\0\0\0\x01r\0\x01\0\0\0\x02vw";

/// A count of one, and a deletion of the partition.
const PART_GONE: &[u8] = b"\0\0\0\x01\x05";

/// Table 3, token 1, key k.
const FIRST: Pieces = &[b"\0\x03\0\0\0\0\0\0\0\x01\0\0\0\x01k", CELL, STAMP];

/// Table 3, token 2, key a: a deletion of row r, a marker of row s, and a deletion of a cell of it.
const SECOND: Pieces = &[
    b"\0\x03\0\0\0\0\0\0\0\x02\0\0\0\x01a",
    b"\0\0\0\x03\x03\0\0\0\x01r",
    STAMP,
    b"\x02\0\0\0\x01s",
    STAMP,
    b"\x01\0\0\0\x01s\x01\0",
    STAMP,
];

/// Table 4, token 2, no key.
const THIRD: Pieces = &[b"\0\x04\0\0\0\0\0\0\0\x02\0\0\0\0", PART_GONE, STAMP];

/// Table 3, token 512, key z.
const LAST: Pieces = &[b"\0\x03\0\0\0\0\0\0\x02\0\0\0\0\x01z", CELL, STAMP];

/// The same partition with another change.
const LAST_GONE: Pieces = &[b"\0\x03\0\0\0\0\0\0\x02\0\0\0\0\x01z", PART_GONE, STAMP];

/// Table 3, the least token, no key.
const LEAST: Pieces = &[b"\0\x03\x80\0\0\0\0\0\0\0\0\0\0\0", CELL, STAMP];

/// Table 3, the greatest token, key g.
const GREATEST: Pieces = &[
    b"\0\x03\x7f\xff\xff\xff\xff\xff\xff\xff\0\0\0\x01g",
    PART_GONE,
    STAMP,
];

/// Two tokens to each leaf.
const SHORT: Range = Range {
    after: 0,
    upto: 512,
};

/// All tokens, from 8 on round to 7.
const WHOLE: Range = Range { after: 7, upto: 7 };

/// Of the first three.
const FIRST_LEAF: &[u8; 32] =
    b"\x3d\xf1\x8a\x61\xa2\xfc\x6c\x54\x03\xac\xab\xab\x57\xe6\x11\x40\x5f\xb7\x2e\xb2\x99\xda\x5b\x1d\x25\x0f\x33\x58\x1a\xbd\x74\x64";

/// Of the first alone.
const FIRST_ALONE: &[u8; 32] =
    b"\x06\xfc\xe6\xae\x82\xe7\x62\x63\x7f\x57\x19\xcb\x5f\xc3\x2a\x47\xd6\x8e\xb9\xa8\xe0\x6e\xb7\xcc\x30\x40\xec\xc7\x22\xad\x7b\x6b";

/// Of the last alone.
const LAST_LEAF: &[u8; 32] =
    b"\xb4\x66\x8f\x00\xa2\xc5\x45\x60\xe7\x75\x2e\x86\xc3\x30\x71\x0d\x41\xb2\x31\x03\xc8\xcc\x38\x6b\xc4\x67\xd6\xaf\x05\x97\x21\x16";

/// Of that of the least token and that of the greatest, in this order.
const SEAM_LEAF: &[u8; 32] =
    b"\x2b\x86\x26\x04\x85\x5c\x7e\x5a\x41\x07\xb1\x70\x4b\xb9\xd7\x89\xc1\x6c\xad\x44\x32\x07\xde\x62\x4f\x3c\xbd\x42\xdf\x7b\xac\xd8";

/// Of no bytes.
const EMPTY: &[u8; 32] =
    b"\xe3\xb0\xc4\x42\x98\xfc\x1c\x14\x9a\xfb\xf4\xc8\x99\x6f\xb9\x24\x27\xae\x41\xe4\x64\x9b\x93\x4c\xa4\x95\x99\x1b\x78\x52\xb8\x55";

fn word(alloc: Global, pieces: &[&[u8]]) -> Result<Vec<u8>, AllocError> {
    let mut bytes = Vec::new(alloc);
    for piece in pieces {
        bytes.extend_from_slice(piece)?;
    }
    Ok(bytes)
}

/// The content of a mutation's changes, of which each stands in it.
fn content_of(alloc: Global, mutation: Mutation) -> Result<(Partition, Content), Fail>
    requires { MutationFits mutation }
    ensures { IfOk result (λ r. MutationFits (part r.0 r.1)) }
{
    let Mutation { partition, changes } = mutation;
    let content = Content::from_changes(alloc, changes.into_vec())?;
    if content.as_slice().len() > 3 {
        return Err("more changes than any partition here has".into());
    }
    Ok((partition, content))
}

fn add(builder: &mut Builder, alloc: Global, pieces: Pieces) -> Result<(), Fail> {
    let Ok(mutation) = decode_mutation(alloc, &word(alloc, pieces)?) else {
        return Err("the bytes are no mutation".into());
    };
    let (partition, content) = content_of(alloc, mutation)?;
    if !builder.range().contains(partition.token) {
        return Err("not in the range".into());
    }
    builder.add(&partition, &content)?;
    Ok(())
}

fn leaves_of(alloc: Global, range: Range, parts: &[Pieces]) -> Result<Leaves, Fail> {
    let mut builder = Builder::new(alloc, range)?;
    for pieces in parts {
        add(&mut builder, alloc, pieces)?;
    }
    Ok(builder.finish())
}

#[test]
fn a_digest_is_of_the_bytes_of_a_leaf(rt: HostRuntime) -> Result<(), Fail> {
    let leaves = leaves_of(rt.alloc(), SHORT, &[FIRST, SECOND, THIRD, LAST])?;
    assert_eq!(rt; leaves.digest(0), *FIRST_LEAF);
    assert_eq!(rt; leaves.digest(1), *EMPTY);
    assert_eq!(rt; leaves.digest(254), *EMPTY);
    assert_eq!(rt; leaves.digest(255), *LAST_LEAF);
    Ok(())
}

/// The partitions of the least and of the greatest token are neighbours on the circle, in leaf 127.
#[test]
fn a_leaf_may_begin_and_end_a_walk(rt: HostRuntime) -> Result<(), Fail> {
    let leaves = leaves_of(rt.alloc(), WHOLE, &[LEAST, FIRST, LAST, GREATEST])?;
    assert_eq!(rt; leaves.digest(0), *LAST_LEAF);
    assert_eq!(rt; leaves.digest(127), *SEAM_LEAF);
    assert_eq!(rt; leaves.digest(128), *EMPTY);
    assert_eq!(rt; leaves.digest(255), *FIRST_ALONE);
    Ok(())
}

#[test]
fn trees_differ_where_their_parts_do(rt: HostRuntime) -> Result<(), Fail> {
    let alloc = rt.alloc();
    let mine = leaves_of(alloc, SHORT, &[FIRST, SECOND, LAST])?;
    let same = leaves_of(alloc, SHORT, &[FIRST, SECOND, LAST])?;
    assert!(rt; differing_leaves(&mine, &same).is_empty());
    let other = leaves_of(alloc, SHORT, &[FIRST, SECOND, LAST_GONE])?;
    let differing = differing_leaves(&mine, &other);
    assert!(rt; differing.len() == 1 && differing.contains(255));
    let shorter = leaves_of(alloc, SHORT, &[SECOND])?;
    let differing = differing_leaves(&shorter, &mine);
    assert!(rt; differing.len() == 2 && differing.contains(0) && differing.contains(255));
    Ok(())
}

/// The leaf of a token, or none where the range ends before it.
fn leaf_in(after: i64, upto: i64, token: i64) -> Option<u8> {
    let range = Range { after, upto };
    if range.contains(token) {
        Some(leaf_of(&range, token))
    } else {
        None
    }
}

#[test]
fn tokens_are_in_leaves(rt: HostRuntime) {
    let low = i64::MIN + 256;
    let high = i64::MAX - 256;
    for (after, upto, token, leaf) in &[
        (0, 512, 0, None),
        (0, 512, 1, Some(0)),
        (0, 512, 2, Some(0)),
        (0, 512, 3, Some(1)),
        (0, 512, 512, Some(255)),
        (0, 512, 513, None),
        // Three tokens.
        (10, 13, 11, Some(0)),
        (10, 13, 12, Some(85)),
        (10, 13, 13, Some(170)),
        // All tokens.
        (7, 7, 8, Some(0)),
        (7, 7, i64::MAX, Some(127)),
        (7, 7, i64::MIN, Some(127)),
        (7, 7, i64::MIN + 8, Some(128)),
        (7, 7, 7, Some(255)),
        // Two tokens to each leaf, half of them on each side of where the circle closes.
        (high, low - 1, high, None),
        (high, low - 1, high + 1, Some(0)),
        (high, low - 1, i64::MAX, Some(127)),
        (high, low - 1, i64::MIN, Some(128)),
        (high, low - 1, low - 1, Some(255)),
        (high, low - 1, low, None),
    ] {
        assert!(rt;
            leaf_in(*after, *upto, *token) == *leaf,
            "{token} above {after} up to {upto}"
        );
    }
}
