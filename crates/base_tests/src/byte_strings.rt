//! Strings of bytes.

use cs_base::Bytes;
use std::alloc::{AllocError, Global};
use std::test::Fail;

/// Strings that are kept inline, the longest of them, and one that is longer.
const STRINGS: [&[u8]; 4] = [
    b"",
    b"k\xff\x00",
    b"012345678901234567890123",
    b"0123456789012345678901234",
];

/// Whether this is the string, and its copy too.
fn is_copied(alloc: Global, bytes: &Bytes, string: &[u8]) -> Result<bool, AllocError> {
    let copy = bytes.copy(alloc)?;
    let same = bytes.as_slice() == string && copy == *bytes;
    Ok(same && copy.into_vec(alloc)?.as_slice() == string)
}

fn is_kept(alloc: Global, string: &[u8]) -> Result<bool, AllocError> {
    let bytes = Bytes::from_slice(alloc, string)?;
    is_copied(alloc, &bytes, string)
}

fn is_taken_over(alloc: Global, string: &[u8]) -> Result<bool, AllocError> {
    let bytes = Bytes::from_vec(Vec::from_slice(alloc, string)?);
    is_copied(alloc, &bytes, string)
}

/// Whether "k" is another string, and whether it is a lesser one.
fn compares(alloc: Global, string: &[u8]) -> Result<(bool, bool), AllocError> {
    let bytes = Bytes::from_slice(alloc, string)?;
    let beginning = Bytes::from_slice(alloc, b"k")?;
    Ok((beginning != bytes, beginning < bytes))
}

#[test]
fn bytes_are_kept_and_copied(rt: HostRuntime) -> Result<(), Fail> {
    for string in &STRINGS {
        assert!(rt; is_kept(rt.alloc(), string)? && is_taken_over(rt.alloc(), string)?);
        assert!(rt; compares(rt.alloc(), string)?.0);
    }
    assert!(rt; compares(rt.alloc(), b"k\xff\x00")?.1);
    Ok(())
}
