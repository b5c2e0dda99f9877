//! Rings, their replicas and ranges.

use cs_base::{NodeId, Range};
use std::alloc::{AllocError, Global};
use std::test::Fail;
use token_ring::{Replicas, Ring, RingError};

// Round the circle from the least token: node 2, node 0, node 1.
const TOKENS: [i64; 3] = [0, 3_000_000_000_000_000_000, -3_000_000_000_000_000_000];

/// Whether these are so many nodes, and the first of those with the numbers.
fn are_nodes(replicas: &Replicas, count: u8, numbers: &[u8]) -> bool {
    let nodes = replicas.as_slice();
    replicas.len() == usize::from(count)
        && nodes
            .iter()
            .zip(numbers)
            .all(|(node, number)| node.number() == *number)
}

/// Whether these nodes are the replicas, the owner first, at each factor.
fn are_placed(ring: &Ring, token: i64, numbers: &[u8]) -> bool {
    let mut replicas = Replicas::new();
    let mut right = true;
    for rf in 1..4u8 {
        if rf <= ring.nodes() {
            ring.replicas(token, rf, &mut replicas);
        }
        right = right && are_nodes(&replicas, rf, numbers);
    }
    right
}

#[test]
fn places_replicas_clockwise(rt: HostRuntime) -> Result<(), Fail> {
    let ring = Ring::new(&TOKENS)?;
    let rows = [
        (-4_069_959_284_402_364_209, [2, 0, 1]),
        (-3_000_000_000_000_000_000, [2, 0, 1]),
        (-2_999_999_999_999_999_999, [0, 1, 2]),
        (0, [0, 1, 2]),
        (1, [1, 2, 0]),
        (i64::MAX, [2, 0, 1]),
        (i64::MIN, [2, 0, 1]),
    ];
    for (token, want) in &rows {
        assert!(rt; are_placed(&ring, *token, want), "at {token}");
    }
    Ok(())
}

#[test]
fn lists_replicas_by_number(rt: HostRuntime) -> Result<(), Fail> {
    let ring = Ring::new(&TOKENS)?;
    let mut replicas = Replicas::new();
    let rows = [
        (0, 1, [0, 9, 9]),
        (1, 2, [1, 2, 9]),
        (i64::MAX, 2, [0, 2, 9]),
        (1, 3, [0, 1, 2]),
    ];
    for (token, rf, want) in &rows {
        ring.replicas_by_number(*token, *rf, &mut replicas);
        assert!(rt; are_nodes(&replicas, *rf, want), "at {token}");
    }
    Ok(())
}

/// The range of the node of this number.
fn range_of(ring: &Ring, number: u8) -> Option<Range> {
    let node = NodeId::new(number)?;
    if number < ring.nodes() {
        Some(ring.range(node))
    } else {
        None
    }
}

fn range(after: i64, upto: i64) -> Option<Range> {
    Some(Range { after, upto })
}

#[test]
fn shares_out_ranges(rt: HostRuntime) -> Result<(), Fail> {
    let ring = Ring::new(&TOKENS)?;
    let copy = ring;
    assert!(rt; copy.nodes() == 3);
    assert!(rt; range_of(&ring, 0) == range(TOKENS[2], TOKENS[0]));
    assert!(rt; range_of(&ring, 2) == range(TOKENS[1], TOKENS[2]));
    let alone = Ring::new(&[7])?;
    assert!(rt; range_of(&alone, 0) == range(7, 7));
    Ok(())
}

/// Whether these tokens are refused with this error, which is shown as the text.
fn is_refused(
    alloc: Global,
    tokens: &[i64],
    want: RingError,
    text: &str,
) -> Result<bool, AllocError> {
    match Ring::new(tokens) {
        Ok(_) => Ok(false),
        Err(error) => Ok(error == want && format!(in alloc; "{error}")?.as_str() == text),
    }
}

#[test]
fn refuses_what_is_no_ring(rt: HostRuntime) -> Result<(), Fail> {
    let rows: [(&[i64], RingError, &str); 4] = [
        (&[], RingError::Empty, "a ring needs a token"),
        (
            &[1, 2, 1, 2],
            RingError::Repeated(1),
            "the token 1 occurs twice",
        ),
        (
            &[1, 2, 3, 4, 5, 6, 7, 8, -9, -9],
            RingError::Repeated(-9),
            "the token -9 occurs twice",
        ),
        (
            &[1, 2, 3, 4, 5, 6, 7, 8],
            RingError::TooMany(8),
            "8 tokens, and a ring has at most 7",
        ),
    ];
    for (tokens, want, text) in &rows {
        assert!(rt; is_refused(rt.alloc(), tokens, *want, text)?, "{text}");
    }
    Ok(())
}
