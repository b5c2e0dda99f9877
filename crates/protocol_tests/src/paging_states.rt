//! States written and read, and bytes that are none, at their limits.

use cs_base::Bytes;
use page_state::{PagingError, read_paging, write_paging};
use std::alloc::{AllocError, Global};
use std::test::Fail;

fn row_of(alloc: Global, length: usize) -> Result<Bytes, AllocError> {
    let mut row = Vec::new(alloc);
    row.resize(length, 7)?;
    Ok(Bytes::from_vec(row))
}

fn is_read_back(alloc: Global, row: &Bytes) -> Result<bool, PagingError> {
    let state = write_paging(alloc, row)?;
    Ok(read_paging(alloc, state.as_slice())? == *row)
}

fn is_bad(alloc: Global, bytes: &[u8]) -> bool {
    read_paging(alloc, bytes).err() == Some(PagingError::BadPaging)
}

fn is_state(alloc: Global, row: &Bytes, bytes: &[u8]) -> Result<bool, AllocError> {
    Ok(write_paging(alloc, row)?.as_slice() == bytes)
}

fn has_state(alloc: Global, row: &[u8], bytes: &[u8]) -> Result<bool, PagingError> {
    let row = Bytes::from_slice(alloc, row)?;
    Ok(is_state(alloc, &row, bytes)? && is_read_back(alloc, &row)?)
}

#[test]
fn state_is_a_one_and_the_row(rt: HostRuntime) -> Result<(), Fail> {
    let alloc = rt.alloc();
    assert!(rt; has_state(alloc, b"\x80k\x00", b"\x01\x80k\x00")?);
    Ok(())
}

fn is_row_read_back(alloc: Global, length: usize) -> Result<bool, PagingError> {
    is_read_back(alloc, &row_of(alloc, length)?)
}

#[test]
fn rows_of_up_to_65535_bytes_are_read_back(rt: HostRuntime) -> Result<(), Fail> {
    let alloc = rt.alloc();
    for length in [0, 1, 65_534, 65_535] {
        assert!(rt; is_row_read_back(alloc, length)?, "{length}");
    }
    Ok(())
}

/// Whether the row's state has so many bytes, and is bad.
fn is_bad_state(alloc: Global, row: &Bytes, length: usize) -> Result<bool, AllocError> {
    let state = write_paging(alloc, row)?;
    Ok(state.as_slice().len() == length && is_bad(alloc, state.as_slice()))
}

#[test]
fn state_of_a_longer_row_is_bad(rt: HostRuntime) -> Result<(), Fail> {
    let alloc = rt.alloc();
    assert!(rt; is_bad_state(alloc, &row_of(alloc, 65_536)?, 65_537)?);
    Ok(())
}

#[test]
fn other_bytes_are_bad(rt: HostRuntime) -> Result<(), Fail> {
    let alloc = rt.alloc();
    for bytes in ["", "\x00", "\x02", "\x02\x01", "k", "k\x01"] {
        assert!(rt; is_bad(alloc, bytes.as_bytes()));
    }
    assert!(rt; is_bad(alloc, &[0xff, 1]));
    Ok(())
}
